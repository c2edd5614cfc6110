//! The arrows of evidence against a level below prefix.

ghost use Rattle.std.specs.Prelude.{◌≡◌, ◌++◌, map, OnOk};
ghost use Rattle.session_log.specs.Text.{view};
ghost use Rattle.log_lines.specs.Rows.{rows_of};
ghost use Rattle.part_graphs.specs.Hops as spec;

use crate::arrows::{ANTI_DEPENDENCY, READ, SESSION, VERSION_ORDER, put_arrow};
use level_refutations::{Edge, Hop, OpAt, Overlooked, Step};
use std::alloc::AllocError;
use tell_evidence::Log;

/// The look of a step between two transactions.
fn step_look(step: Step) -> &'static [u8]
    ensures { result.now ≡ spec.step_look step }
{
    match step {
        Step::Session => SESSION,
        Step::Read { .. } => READ,
    }
}

/// Appends the arrow of a hop.
fn put_hop(out: &mut Vec<u8>, log: &Log<'_>, hop: &Hop) -> Result<(), AllocError>
    ensures put { OnOk result (out.new.items ≡ out.old.items ++ spec.hop_arrow
        (rows_of log.now.places.now) (map view log.now.sessions.now) hop.now) }
{
    put_arrow(out, log, hop.from, hop.to, step_look(hop.step))
}

/// Appends the arrows of hops.
fn put_path(out: &mut Vec<u8>, log: &Log<'_>, path: &[Hop]) -> Result<(), AllocError>
    ensures put { OnOk result (out.new.items ≡ out.old.items ++ spec.path_arrows
        (rows_of log.now.places.now) (map view log.now.sessions.now) path.now) }
{
    for hop in path {
        put_hop(out, log, hop)?;
    }
    Ok(())
}

/// Appends the read of what it names, and by which it sees what it overlooks.
#[tactic(auto, unfolding(crate::specs::Hops::found_arrows))]
fn put_found(
    out: &mut Vec<u8>,
    log: &Log<'_>,
    it: &Overlooked,
    found: OpAt,
) -> Result<(), AllocError>
    ensures put { OnOk result (out.new.items ≡ out.old.items ++ spec.found_arrows
        (rows_of log.now.places.now) (map view log.now.sessions.now) it.now found) }
{
    put_arrow(out, log, found.txn, it.read.txn, READ)?;
    put_path(out, log, &it.path)
}

/// Appends why a transaction comes before the one whose write a read names: the read sees it.
fn put_forced(
    out: &mut Vec<u8>,
    log: &Log<'_>,
    it: &Overlooked,
    found: OpAt,
) -> Result<(), AllocError>
    ensures put { OnOk result (out.new.items ≡ out.old.items ++ spec.forced_arrows
        (rows_of log.now.places.now) (map view log.now.sessions.now) it.now found) }
{
    put_arrow(out, log, it.write.txn, found.txn, VERSION_ORDER)?;
    put_found(out, log, it, found)
}

/// Appends the arrows of an edge.
fn put_edge(out: &mut Vec<u8>, log: &Log<'_>, edge: &Edge) -> Result<(), AllocError>
    ensures put { OnOk result (out.new.items ≡ out.old.items ++ spec.edge_arrows
        (rows_of log.now.places.now) (map view log.now.sessions.now) edge.now) }
{
    match edge {
        Edge::Known(hop) => put_hop(out, log, hop),
        Edge::Forced { overlooked, found } => put_forced(out, log, overlooked, *found),
    }
}

/// Appends the arrows of a circle.
pub fn put_circle(out: &mut Vec<u8>, log: &Log<'_>, edges: &[Edge]) -> Result<(), AllocError>
    ensures put { OnOk result (out.new.items ≡ out.old.items ++ spec.circle_arrows
        (rows_of log.now.places.now) (map view log.now.sessions.now) edges.now) }
{
    for edge in edges {
        put_edge(out, log, edge)?;
    }
    Ok(())
}

/// Appends the arrows of a read of the initial value that overlooks a write.
pub fn put_initial(out: &mut Vec<u8>, log: &Log<'_>, it: &Overlooked) -> Result<(), AllocError>
    ensures put { OnOk result (out.new.items ≡ out.old.items ++ spec.initial_arrows
        (rows_of log.now.places.now) (map view log.now.sessions.now) it.now) }
{
    put_arrow(out, log, it.read.txn, it.write.txn, ANTI_DEPENDENCY)?;
    put_path(out, log, &it.path)
}
