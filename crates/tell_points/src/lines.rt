//! Lines of edges, of steps, and of two of which neither can commit first.

ghost use Rattle.std.specs.Prelude.{◌≡◌, ◌++◌, map, OnOk};
ghost use Rattle.session_log.specs.Text.{view};
ghost use Rattle.log_lines.specs.Rows.{rows_of};
ghost use Rattle.tell_points.specs.Lines as spec;

use crate::whys::{number_of, put_reason};
use level_refutations::TxnAt;
use point_refutations::{Against, Both, Edge, Overwritten, PointAt, Step, edge_from, edge_to};
use std::alloc::AllocError;
use tell_evidence::{Log, line_of, tell};

/// What stands before the lines of a way that is part of something.
const INDENT: &[u8] = b"    ";

/// Appends a point.
#[tactic(auto, unfolding(crate::specs::Lines::point_text))]
fn put_point(out: &mut Vec<u8>, log: &Log<'_>, point: PointAt) -> Result<(), AllocError>
    ensures put { OnOk result (out.new.items ≡ out.old.items
        ++ spec.point_text (rows_of log.now.places.now) (map view log.now.sessions.now) point) }
{
    match point {
        PointAt::Snapshot(at) => tell!(out, log; Name(at), Text(b"'s snapshot")),
        PointAt::Commit(at) => tell!(out, log; Name(at), Text(b"'s commit")),
    }
}

/// Appends the line of an edge.
fn put_edge(out: &mut Vec<u8>, log: &Log<'_>, indent: &[u8], edge: Edge) -> Result<(), AllocError>
    ensures put { OnOk result (out.new.items ≡ out.old.items ++ spec.edge_text
        (rows_of log.now.places.now) (map view log.now.sessions.now) indent.now edge) }
{
    tell!(out, log; Text(indent))?;
    put_point(out, log, edge_from(edge))?;
    tell!(out, log; Text(b" before "))?;
    put_point(out, log, edge_to(edge))?;
    tell!(out, log; Text(b": "))?;
    put_reason(out, log, edge.from, edge.to, edge.why)?;
    tell!(out, log; Text(b"\n"))
}

/// Appends a line for each edge.
pub fn put_way(
    out: &mut Vec<u8>,
    log: &Log<'_>,
    indent: &[u8],
    edges: &[Edge],
) -> Result<(), AllocError>
    ensures put { OnOk result (out.new.items ≡ out.old.items ++ spec.way_text
        (rows_of log.now.places.now) (map view log.now.sessions.now) indent.now edges.now) }
{
    for edge in edges {
        put_edge(out, log, indent, *edge)?;
    }
    Ok(())
}

/// Appends a read that would find something else.
#[tactic(auto, unfolding(crate::specs::Lines::overwritten_text))]
fn put_overwritten(out: &mut Vec<u8>, log: &Log<'_>, it: Overwritten) -> Result<(), AllocError>
    ensures put { OnOk result (out.new.items ≡ out.old.items
        ++ spec.overwritten_text (rows_of log.now.places.now) (map view log.now.sessions.now) it) }
{
    tell!(out, log;
        Text(INDENT), Name(it.read.txn), Text(b"'s snapshot comes after "), Name(it.write.txn),
        Text(b"'s commit, but "), Does(b" reads ", it.read), Text(b" of "), Name(it.found.txn),
        Text(b", which "), Name(it.write.txn), Text(b" would have overwritten with "),
        Wid(it.write), AtLine(it.write), Text(b":\n"))
}

/// Appends why one transaction cannot commit before another takes its snapshot: a read that would
/// find something else, if that is why, and edges.
fn put_against(out: &mut Vec<u8>, log: &Log<'_>, against: &Against) -> Result<(), AllocError>
    ensures put { OnOk result (out.new.items ≡ out.old.items ++ spec.against_text
        (rows_of log.now.places.now) (map view log.now.sessions.now) against.now) }
{
    if let Some(it) = against.overwritten {
        put_overwritten(out, log, it)?;
    }
    put_way(out, log, INDENT, &against.edges)
}

/// Appends which transaction commits first, behind the number of a step.
#[tactic(auto, unfolding(crate::specs::Lines::lead_text))]
fn put_lead(out: &mut Vec<u8>, log: &Log<'_>, index: usize, first: TxnAt) -> Result<(), AllocError>
    ensures put { OnOk result (out.new.items ≡ out.old.items ++ spec.lead_text
        (rows_of log.now.places.now) (map view log.now.sessions.now) index first) }
{
    tell!(out, log;
        Text(b"["), Number(number_of(index)), Text(b"] "), Name(first), Text(b"'s commit before "))
}

/// The same, and before which point.
fn put_head(
    out: &mut Vec<u8>,
    log: &Log<'_>,
    index: usize,
    first: TxnAt,
    point: PointAt,
) -> Result<(), AllocError>
    ensures put { OnOk result (out.new.items ≡ out.old.items ++ spec.head_text
        (rows_of log.now.places.now) (map view log.now.sessions.now) index first point) }
{
    put_lead(out, log, index, first)?;
    put_point(out, log, point)?;
    tell!(out, log; Text(b":"))
}

/// Appends a step that edges show.
fn put_shown(
    out: &mut Vec<u8>,
    log: &Log<'_>,
    index: usize,
    first: TxnAt,
    second: TxnAt,
    edges: &[Edge],
) -> Result<(), AllocError>
    ensures put { OnOk result (out.new.items ≡ out.old.items ++ spec.shown_text
        (rows_of log.now.places.now) (map view log.now.sessions.now) index first second edges.now) }
{
    if edges.len() == 1 {
        tell!(out, log; Text(b"["), Number(number_of(index)), Text(b"] "))?;
        return put_edge(out, log, b"", edges[0]);
    }
    put_head(out, log, index, first, PointAt::Snapshot(second))?;
    tell!(out, log; Text(b"\n"))?;
    put_way(out, log, INDENT, edges)
}

/// Appends the key that both write.
#[tactic(auto, unfolding(crate::specs::Lines::both_key))]
fn put_both_key(out: &mut Vec<u8>, log: &Log<'_>, both: Both) -> Result<(), AllocError>
    ensures put { OnOk result (out.new.items ≡ out.old.items
        ++ spec.both_key (map view log.now.sessions.now) both) }
{
    tell!(out, log; Text(b" both write "), Key(both.one), Text(b" "))
}

/// Appends in which lines.
#[tactic(auto, unfolding(crate::specs::Lines::both_lines))]
fn put_both_lines(out: &mut Vec<u8>, log: &Log<'_>, both: Both) -> Result<(), AllocError>
    ensures put { OnOk result (out.new.items ≡ out.old.items
        ++ spec.both_lines (rows_of log.now.places.now) both) }
{
    let one = line_of(log.places, both.one) as u64;
    let other = line_of(log.places, both.other) as u64;
    tell!(out, log;
        Text(b"(lines "), Number(one), Text(b" and "), Number(other), Text(b")"))
}

/// Appends that the second one cannot commit first.
#[tactic(auto, unfolding(crate::specs::Lines::other_text))]
fn put_other(out: &mut Vec<u8>, log: &Log<'_>, at: TxnAt) -> Result<(), AllocError>
    ensures put { OnOk result (out.new.items ≡ out.old.items
        ++ spec.other_text (rows_of log.now.places.now) (map view log.now.sessions.now) at) }
{
    tell!(out, log; Text(b", and "), Name(at), Text(b" cannot commit first:\n"))
}

/// Appends a step that is forced: one commits before this point of the other.
fn put_forced(
    out: &mut Vec<u8>,
    log: &Log<'_>,
    index: usize,
    both: Both,
    point: PointAt,
    against: &Against,
) -> Result<(), AllocError>
    ensures put { OnOk result (out.new.items ≡ out.old.items ++ spec.forced_text
        (rows_of log.now.places.now) (map view log.now.sessions.now) index both point against.now) }
{
    put_head(out, log, index, both.one.txn, point)?;
    put_both_key(out, log, both)?;
    put_both_lines(out, log, both)?;
    put_other(out, log, both.other.txn)?;
    put_against(out, log, against)
}

/// Appends a step of this index.
fn put_step(out: &mut Vec<u8>, log: &Log<'_>, index: usize, step: &Step) -> Result<(), AllocError>
    ensures put { OnOk result (out.new.items ≡ out.old.items ++ spec.step_text
        (rows_of log.now.places.now) (map view log.now.sessions.now) index step.now) }
{
    match step {
        Step::Shown {
            first,
            second,
            edges,
        } => put_shown(out, log, index, *first, *second, edges),
        Step::Forced { both, against } => {
            let point = PointAt::Snapshot(both.other.txn);
            put_forced(out, log, index, *both, point, against)
        }
        Step::Later { both, against } => {
            let point = PointAt::Commit(both.other.txn);
            put_forced(out, log, index, *both, point, against)
        }
    }
}

/// Appends steps.
pub fn put_steps(out: &mut Vec<u8>, log: &Log<'_>, steps: &[Step]) -> Result<(), AllocError>
    ensures put { OnOk result (out.new.items ≡ out.old.items ++ spec.steps_text
        (rows_of log.now.places.now) (map view log.now.sessions.now) 0 steps.now) }
{
    for i in 0..steps.len() {
        put_step(out, log, i, &steps[i])?;
    }
    Ok(())
}

/// Appends that a transaction cannot commit first.
#[tactic(auto, unfolding(crate::specs::Lines::cannot_line))]
fn put_cannot_line(out: &mut Vec<u8>, log: &Log<'_>, at: TxnAt) -> Result<(), AllocError>
    ensures put { OnOk result (out.new.items ≡ out.old.items
        ++ spec.cannot_line (rows_of log.now.places.now) (map view log.now.sessions.now) at) }
{
    tell!(out, log; Name(at), Text(b" cannot commit first:\n"))
}

/// The same, and why.
fn put_cannot(
    out: &mut Vec<u8>,
    log: &Log<'_>,
    at: TxnAt,
    against: &Against,
) -> Result<(), AllocError>
    ensures put { OnOk result (out.new.items ≡ out.old.items ++ spec.cannot_text
        (rows_of log.now.places.now) (map view log.now.sessions.now) at against.now) }
{
    put_cannot_line(out, log, at)?;
    put_against(out, log, against)
}

/// Appends the names of two.
#[tactic(auto, unfolding(crate::specs::Lines::two_text))]
fn put_two(out: &mut Vec<u8>, log: &Log<'_>, both: Both) -> Result<(), AllocError>
    ensures put { OnOk result (out.new.items ≡ out.old.items
        ++ spec.two_text (rows_of log.now.places.now) (map view log.now.sessions.now) both) }
{
    tell!(out, log; Name(both.one.txn), Text(b" and "), Name(both.other.txn))
}

/// Appends what follows of two that write a key.
#[tactic(auto, unfolding(crate::specs::Lines::so_line))]
fn put_so(out: &mut Vec<u8>, log: &Log<'_>) -> Result<(), AllocError>
    ensures put { OnOk result (out.new.items ≡ out.old.items ++ spec.so_line) }
{
    tell!(out, log;
        Text(b", so one of them commits before the other takes its snapshot\n"))
}

/// Appends that two write a key, and why neither of them can commit first.
pub fn put_neither(
    out: &mut Vec<u8>,
    log: &Log<'_>,
    both: Both,
    not_one: &Against,
    not_other: &Against,
) -> Result<(), AllocError>
    ensures put { OnOk result (out.new.items ≡ out.old.items ++ spec.neither_text
        (rows_of log.now.places.now) (map view log.now.sessions.now)
        both not_one.now not_other.now) }
{
    put_two(out, log, both)?;
    put_both_key(out, log, both)?;
    put_both_lines(out, log, both)?;
    put_so(out, log)?;
    put_cannot(out, log, both.one.txn, not_one)?;
    put_cannot(out, log, both.other.txn, not_other)
}
