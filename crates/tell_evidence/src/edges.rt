//! Edges, circles of them, and reads of the initial value that overlook a write.

ghost use Rattle.std.specs.Prelude.{◌≡◌, ◌++◌, map, OnOk};
ghost use Rattle.session_log.specs.Text.{view};
ghost use Rattle.log_lines.specs.Rows.{rows_of};
ghost use Rattle.tell_evidence.specs.Evidence as spec;

use crate::paths::{put_hop, reads_it, stands_behind};
use crate::phrases::{Log, put};
use crate::tell;
use level_refutations::{Edge, OpAt, Overlooked};
use std::alloc::AllocError;

/// Whether a read overlooks a write that its own transaction reads too.
fn is_read_too(it: &Overlooked) -> bool
    ensures { result ≡ spec.is_read_too it.now }
{
    it.path.len() == 1 && reads_it(it.write, &it.path)
}

/// Appends a forced edge of a circle in a sentence: two reads of one key, or a read that overlooks a
/// write which it sees.
#[tactic(auto, unfolding(crate::specs::Evidence::short_twice, crate::specs::Evidence::short_sight))]
fn put_short_forced(
    out: &mut Vec<u8>,
    log: &Log<'_>,
    it: &Overlooked,
    found: OpAt,
) -> Result<(), AllocError>
    ensures put { OnOk result (out.new.items ≡ out.old.items ++ spec.short_forced
        (rows_of log.now.places.now) (map view log.now.sessions.now) it.now found) }
{
    if is_read_too(it) {
        tell!(out, log;
            Text(b"in short: "), Name(it.read.txn), Text(b" reads two versions of "), Key(it.read),
            Text(b": that of "), Name(it.write.txn), Text(b", and the older one of "),
            Name(found.txn), Text(b"\n"))
    } else {
        tell!(out, log;
            Text(b"in short: "), Name(it.read.txn), Text(stands_behind(&it.path)),
            Name(it.write.txn), Text(b", which wrote "), Key(it.write),
            Text(b", but reads the older "), Key(found),
            Text(b" of "), Name(found.txn), Text(b"\n"))
    }
}

/// Appends a read of the initial value in a sentence.
#[tactic(auto, unfolding(crate::specs::Evidence::short_initial))]
fn put_short_initial(out: &mut Vec<u8>, log: &Log<'_>, it: &Overlooked) -> Result<(), AllocError>
    ensures put { OnOk result (out.new.items ≡ out.old.items
        ++ spec.short_initial (rows_of log.now.places.now) (map view log.now.sessions.now) it.now) }
{
    tell!(out, log;
        Text(b"in short: "), Name(it.read.txn), Text(stands_behind(&it.path)), Name(it.write.txn),
        Text(b", which wrote "), Key(it.write), Text(b", but reads the initial value of "),
        Key(it.read), Text(b"\n"))
}

/// Appends a read of the initial value that overlooks a write: in a sentence, and then by which path
/// it sees the write, what it names, and what it should name.
#[tactic(auto, unfolding(crate::specs::Evidence::lines_initial))]
pub fn put_initial(out: &mut Vec<u8>, log: &Log<'_>, it: &Overlooked) -> Result<(), AllocError>
    ensures put { OnOk result (out.new.items ≡ out.old.items
        ++ spec.initial_text (rows_of log.now.places.now) (map view log.now.sessions.now) it.now) }
{
    put_short_initial(out, log, it)?;
    tell!(out, log;
        Path(it), Does(b" reads ", it.read), Text(b", the initial value\nso "),
        Name(it.read.txn), Text(b" should read "), Version(it.write),
        Text(b" or a later one\n"))
}

/// Appends an edge.
#[tactic(auto, unfolding(crate::specs::Evidence::forced_text))]
fn put_edge(out: &mut Vec<u8>, log: &Log<'_>, edge: &Edge) -> Result<(), AllocError>
    ensures put { OnOk result (out.new.items ≡ out.old.items
        ++ spec.edge_text (rows_of log.now.places.now) (map view log.now.sessions.now) edge.now) }
{
    match edge {
        Edge::Known(hop) => put_hop(out, log, hop),
        Edge::Forced {
            overlooked: it,
            found,
        } => tell!(out, log;
            Path(it), Does(b" reads ", it.read), Wrote(*found), Text(b"\nso this level needs "),
            Version(it.write), Text(b" to be older than "), Version(*found), Text(b"\n")),
    }
}

/// Appends edges.
fn put_edges(out: &mut Vec<u8>, log: &Log<'_>, edges: &[Edge]) -> Result<(), AllocError>
    ensures put { OnOk result (out.new.items ≡ out.old.items
        ++ spec.edges_text (rows_of log.now.places.now) (map view log.now.sessions.now) edges.now) }
{
    for edge in edges {
        put_edge(out, log, edge)?;
    }
    Ok(())
}

/// Appends these words, and which transaction comes before which.
#[tactic(auto, unfolding(crate::specs::Evidence::before_text))]
fn put_before(out: &mut Vec<u8>, log: &Log<'_>, words: &[u8], edge: &Edge) -> Result<(), AllocError>
    ensures put { OnOk result (out.new.items ≡ out.old.items ++ spec.before_text
        (rows_of log.now.places.now) (map view log.now.sessions.now) words.now edge.now) }
{
    let (from, to) = (edge.from(), edge.to());
    tell!(out, log; Text(words), Name(from), Text(b" comes before "), Name(to))
}

/// Appends the same of further edges.
fn put_behind(out: &mut Vec<u8>, log: &Log<'_>, edges: &[Edge]) -> Result<(), AllocError>
    ensures put { OnOk result (out.new.items ≡ out.old.items
        ++ spec.behind_and (rows_of log.now.places.now) (map view log.now.sessions.now) edges.now) }
{
    for edge in edges {
        put_before(out, log, b", and ", edge)?;
    }
    Ok(())
}

/// Appends the clash of a circle.
fn put_clash(out: &mut Vec<u8>, log: &Log<'_>, edges: &[Edge]) -> Result<(), AllocError>
    ensures put { OnOk result (out.new.items ≡ out.old.items
        ++ spec.clash_text (rows_of log.now.places.now) (map view log.now.sessions.now) edges.now) }
{
    match edges {
        [] => Ok(()),
        [first, behind @ ..] => {
            put_before(out, log, b"so ", first)?;
            put_behind(out, log, behind)?;
            put(out, b"\n")
        }
    }
}

/// Appends that by known hops alone a transaction comes before itself.
#[tactic(auto, unfolding(crate::specs::Evidence::short_hops))]
fn put_short_hops(out: &mut Vec<u8>, log: &Log<'_>, edge: &Edge) -> Result<(), AllocError>
    ensures put { OnOk result (out.new.items ≡ out.old.items
        ++ spec.short_hops (rows_of log.now.places.now) (map view log.now.sessions.now) edge.now) }
{
    let from = edge.from();
    tell!(out, log;
        Text(b"in short: by sessions and reads alone "), Name(from),
        Text(b" comes before itself\n"))
}

/// Appends a circle of which no edge is forced in a sentence.
fn put_short_known(out: &mut Vec<u8>, log: &Log<'_>, edges: &[Edge]) -> Result<(), AllocError>
    ensures put { OnOk result (out.new.items ≡ out.old.items
        ++ spec.short_known (rows_of log.now.places.now) (map view log.now.sessions.now) edges.now) }
{
    match edges {
        [] => Ok(()),
        [first, ..] => put_short_hops(out, log, first),
    }
}

/// Appends a circle in a sentence: by its first edge that is forced.
fn put_short_circle(out: &mut Vec<u8>, log: &Log<'_>, edges: &[Edge]) -> Result<(), AllocError>
    ensures put { OnOk result (out.new.items ≡ out.old.items ++ spec.short_by
        (rows_of log.now.places.now) (map view log.now.sessions.now) edges.now edges.now) }
{
    for edge in edges {
        if let Edge::Forced { overlooked, found } = edge {
            return put_short_forced(out, log, overlooked, *found);
        }
    }
    put_short_known(out, log, edges)
}

/// Appends a circle.
pub fn put_circle(out: &mut Vec<u8>, log: &Log<'_>, edges: &[Edge]) -> Result<(), AllocError>
    ensures put { OnOk result (out.new.items ≡ out.old.items
        ++ spec.circle_text (rows_of log.now.places.now) (map view log.now.sessions.now) edges.now) }
{
    put_short_circle(out, log, edges)?;
    put_edges(out, log, edges)?;
    put_clash(out, log, edges)
}
