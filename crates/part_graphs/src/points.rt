//! The arrows of a refutation by points.

ghost use Rattle.std.specs.Prelude.{◌≡◌, ◌++◌, map, OnOk};
ghost use Rattle.std.specs.List.{flat_map};
ghost use Rattle.session_log.specs.Text.{view};
ghost use Rattle.log_lines.specs.Rows.{rows_of};
ghost use Rattle.part_graphs.specs.Points as spec;

use crate::arrows::{ANTI_DEPENDENCY, READ, SESSION, VERSION_ORDER, put_ends};
use level_refutations::TxnAt;
use point_refutations::{
    Against, Edge, Ending, Overwritten, PointAt, Refutation, Since, Step, Why, edge_from, edge_to,
};
use std::alloc::AllocError;
use tell_evidence::{Log, tell};

/// The number under which a step is told.
fn number_of(index: usize) -> u64
    ensures { result ≡ spec.number_of index }
{
    (index as u64).saturating_add(1)
}

/// Appends the look of an edge by a step.
#[tactic(auto, unfolding(crate::specs::Points::forced_look))]
fn put_forced(out: &mut Vec<u8>, log: &Log<'_>, step: usize) -> Result<(), AllocError>
    ensures put { OnOk result (out.new.items ≡ out.old.items ++ spec.forced_look step) }
{
    tell!(out, log;
        Text(b"forced ["), Number(number_of(step)), Text(b"]\" color=\"orange"))
}

/// Appends the look of a read that misses a write.
fn put_missed(out: &mut Vec<u8>, log: &Log<'_>, since: Since) -> Result<(), AllocError>
    ensures put { OnOk result (out.new.items ≡ out.old.items ++ spec.missed_look since) }
{
    match since {
        Since::Initial => tell!(out, log; Text(VERSION_ORDER)),
        Since::ReadToo(_) => tell!(out, log; Text(ANTI_DEPENDENCY)),
        Since::Step(step) => put_forced(out, log, step),
    }
}

/// Appends the look of an edge.
fn put_look(out: &mut Vec<u8>, log: &Log<'_>, why: Why) -> Result<(), AllocError>
    ensures put { OnOk result (out.new.items ≡ out.old.items ++ spec.why_look why) }
{
    match why {
        Why::Session => tell!(out, log; Text(SESSION)),
        Why::Moments => tell!(out, log; Text(b"moments\" color=\"purple")),
        Why::Read { .. } => tell!(out, log; Text(READ)),
        Why::Step(step) | Why::Later(step) => put_forced(out, log, step),
        Why::Missed(missed) => put_missed(out, log, missed.since),
    }
}

/// Appends the arrow of an edge.
fn put_edge(out: &mut Vec<u8>, log: &Log<'_>, edge: Edge) -> Result<(), AllocError>
    ensures put { OnOk result (out.new.items ≡ out.old.items ++ spec.edge_arrow
        (rows_of log.now.places.now) (map view log.now.sessions.now) edge) }
{
    put_ends(out, log, edge_from(edge), edge_to(edge))?;
    tell!(out, log; Text(b" [label=\""))?;
    put_look(out, log, edge.why)?;
    tell!(out, log; Text(b"\"];\n"))
}

/// Appends the arrows of edges.
fn put_way(out: &mut Vec<u8>, log: &Log<'_>, edges: &[Edge]) -> Result<(), AllocError>
    ensures put { OnOk result (out.new.items ≡ out.old.items ++ spec.way_arrows
        (rows_of log.now.places.now) (map view log.now.sessions.now) edges.now) }
{
    for edge in edges {
        put_edge(out, log, *edge)?;
    }
    Ok(())
}

/// Appends the look of an arrow that holds if this transaction commits first.
#[tactic(auto, unfolding(crate::specs::Points::supposed_look))]
fn put_supposed_look(out: &mut Vec<u8>, log: &Log<'_>, first: TxnAt) -> Result<(), AllocError>
    ensures put { OnOk result (out.new.items ≡ out.old.items ++ spec.supposed_look
        (rows_of log.now.places.now) (map view log.now.sessions.now) first) }
{
    tell!(out, log;
        Text(b" [label=\"if "), Name(first), Text(b" commits first\" color=\"gray\"];\n"))
}

/// Appends such an arrow.
fn put_supposed(
    out: &mut Vec<u8>,
    log: &Log<'_>,
    first: TxnAt,
    from: PointAt,
    to: PointAt,
) -> Result<(), AllocError>
    ensures put { OnOk result (out.new.items ≡ out.old.items ++ spec.supposed_arrow
        (rows_of log.now.places.now) (map view log.now.sessions.now) first from to) }
{
    put_ends(out, log, from, to)?;
    put_supposed_look(out, log, first)
}

/// Appends the arrow from which a circle goes on, if one of two transactions commits first: to this
/// point of the other one, or from a read that finds what the first one wrote.
fn put_supposition(
    out: &mut Vec<u8>,
    log: &Log<'_>,
    first: TxnAt,
    point: PointAt,
    overwritten: Option<Overwritten>,
) -> Result<(), AllocError>
    ensures put { OnOk result (out.new.items ≡ out.old.items ++ spec.supposition
        (rows_of log.now.places.now) (map view log.now.sessions.now) first point overwritten) }
{
    match overwritten {
        None => put_supposed(out, log, first, PointAt::Commit(first), point),
        Some(it) => put_supposed(
            out,
            log,
            first,
            PointAt::Snapshot(it.read.txn),
            PointAt::Commit(it.write.txn),
        ),
    }
}

/// Appends the circle that closes if one of two transactions commits first.
fn put_against(
    out: &mut Vec<u8>,
    log: &Log<'_>,
    first: TxnAt,
    point: PointAt,
    against: &Against,
) -> Result<(), AllocError>
    ensures put { OnOk result (out.new.items ≡ out.old.items ++ spec.against_arrows
        (rows_of log.now.places.now) (map view log.now.sessions.now) first point against.now) }
{
    put_supposition(out, log, first, point, against.overwritten)?;
    put_way(out, log, &against.edges)
}

/// Appends why a step stands.
fn put_step(out: &mut Vec<u8>, log: &Log<'_>, step: &Step) -> Result<(), AllocError>
    ensures put { OnOk result (out.new.items ≡ out.old.items ++ spec.step_arrows
        (rows_of log.now.places.now) (map view log.now.sessions.now) step.now) }
{
    match step {
        Step::Shown { edges, .. } => put_way(out, log, edges),
        Step::Forced { both, against } => {
            let point = PointAt::Snapshot(both.one.txn);
            put_against(out, log, both.other.txn, point, against)
        }
        Step::Later { both, against } => {
            let point = PointAt::Commit(both.one.txn);
            put_against(out, log, both.other.txn, point, against)
        }
    }
}

/// Appends the same of each step.
fn put_steps(out: &mut Vec<u8>, log: &Log<'_>, steps: &[Step]) -> Result<(), AllocError>
    ensures put { OnOk result (out.new.items ≡ out.old.items ++ flat_map (spec.step_arrows
        (rows_of log.now.places.now) (map view log.now.sessions.now)) steps.now) }
{
    for step in steps {
        put_step(out, log, step)?;
    }
    Ok(())
}

/// Appends what steps lead to.
fn put_ending(out: &mut Vec<u8>, log: &Log<'_>, ending: &Ending) -> Result<(), AllocError>
    ensures put { OnOk result (out.new.items ≡ out.old.items ++ spec.ending_arrows
        (rows_of log.now.places.now) (map view log.now.sessions.now) ending.now) }
{
    match ending {
        Ending::Circle(edges) => put_way(out, log, edges),
        Ending::Neither {
            both,
            not_one,
            not_other,
        } => {
            let (one, other) = (both.one.txn, both.other.txn);
            put_against(out, log, one, PointAt::Snapshot(other), not_one)?;
            put_against(out, log, other, PointAt::Snapshot(one), not_other)
        }
    }
}

/// Appends the arrows of a refutation.
pub fn put_refutation(
    out: &mut Vec<u8>,
    log: &Log<'_>,
    refutation: &Refutation,
) -> Result<(), AllocError>
    ensures put { OnOk result (out.new.items ≡ out.old.items ++ spec.refutation_arrows
        (rows_of log.now.places.now) (map view log.now.sessions.now) refutation.now) }
{
    put_ending(out, log, &refutation.ending)?;
    put_steps(out, log, &refutation.steps)
}
