//! An arrow of a graph.

ghost use Rattle.std.specs.Prelude.{◌≡◌, ◌++◌, map, OnOk};
ghost use Rattle.session_log.specs.Text.{view};
ghost use Rattle.log_lines.specs.Rows.{rows_of};
ghost use Rattle.part_graphs.specs.Arrows as spec;

use level_refutations::TxnAt;
use point_refutations::PointAt;
use std::alloc::AllocError;
use tell_evidence::{Log, tell};

/// The look of an arrow of a session: its label, and its colour.
pub const SESSION: &[u8] = b"session\" color=\"black";

/// The same of a read.
pub const READ: &[u8] = b"read\" color=\"blue";

/// The same of a read that misses a write.
pub const ANTI_DEPENDENCY: &[u8] = b"anti-dependency\" color=\"red";

/// The same of two versions of a key.
pub const VERSION_ORDER: &[u8] = b"version order\" color=\"darkgreen";

/// Appends an arrow between two transactions, with this label and colour.
#[tactic(auto, unfolding(crate::specs::Arrows::arrow))]
pub fn put_arrow(
    out: &mut Vec<u8>,
    log: &Log<'_>,
    from: TxnAt,
    to: TxnAt,
    look: &[u8],
) -> Result<(), AllocError>
    ensures put { OnOk result (out.new.items ≡ out.old.items ++ spec.arrow
        (rows_of log.now.places.now) (map view log.now.sessions.now) from to look.now) }
{
    tell!(out, log;
        Text(b"\""), Name(from), Text(b"\" -> \""), Name(to), Text(b"\" [label=\""), Text(look),
        Text(b"\"];\n"))
}

/// Appends an end of an arrow: a point of a transaction.
#[tactic(auto, unfolding(crate::specs::Arrows::end_text))]
fn put_end(out: &mut Vec<u8>, log: &Log<'_>, point: PointAt) -> Result<(), AllocError>
    ensures put { OnOk result (out.new.items ≡ out.old.items
        ++ spec.end_text (rows_of log.now.places.now) (map view log.now.sessions.now) point) }
{
    match point {
        PointAt::Snapshot(at) => tell!(out, log; Text(b"\""), Name(at), Text(b"\":snapshot")),
        PointAt::Commit(at) => tell!(out, log; Text(b"\""), Name(at), Text(b"\":commit")),
    }
}

/// Appends both ends of an arrow between two points.
pub fn put_ends(
    out: &mut Vec<u8>,
    log: &Log<'_>,
    from: PointAt,
    to: PointAt,
) -> Result<(), AllocError>
    ensures put { OnOk result (out.new.items ≡ out.old.items
        ++ spec.ends_text (rows_of log.now.places.now) (map view log.now.sessions.now) from to) }
{
    put_end(out, log, from)?;
    tell!(out, log; Text(b" -> "))?;
    put_end(out, log, to)
}
