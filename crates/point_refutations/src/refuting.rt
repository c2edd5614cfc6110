//! Whether a refutation by points is right.

ghost use Rattle.std.specs.Prelude.{◌≡◌, map, IsTrue, true, []};
ghost use Rattle.session_log.specs.Text.{view};
ghost use Rattle.log_laws.specs.Logs.{IsSoundLog, IsLearntLog};
ghost use Rattle.point_laws.specs.Snapshot.{HasPointOrder};
ghost use Rattle.point_refutations.specs.Refuted as spec;

use crate::edges::{edge_from, is_simple_way};
use crate::needs::are_needed;
use crate::refutation::{Against, Both, Edge, Ending, Overwritten, PointAt, Refutation, Step};
use level_refutations::{OpAt, TxnAt, is_external, is_named, is_of_key, is_same, op_at, txn_at};
use session_log::{Op, Session};

/// Whether both are writes of one key.
fn writes_same(one: &Op, other: &Op) -> bool
    ensures { result ≡ spec.writes_same one.now other.now }
{
    match (one, other) {
        (Op::Write { key, .. }, Op::Write { key: k, .. }) => key == k,
        _ => false,
    }
}

/// Whether two transactions write one key.
fn is_both(sessions: &[Session], both: Both) -> bool
    ensures { result ≡ spec.is_both (map view sessions.now) both }
{
    !is_same(both.one.txn, both.other.txn)
        && match (op_at(sessions, both.one), op_at(sessions, both.other)) {
            (Some(one), Some(other)) => writes_same(one, other),
            _ => false,
        }
}

/// Whether the operation and one of these write one key.
fn writes_too(op: &Op, others: &[Op]) -> bool
    ensures { result ≡ spec.writes_too op.now others.now }
{
    others.iter().any(|other| writes_same(op, other))
}

/// Whether one of these and one of those do.
fn write_some(ops: &[Op], others: &[Op]) -> bool
    ensures { result ≡ spec.write_some ops.now others.now }
{
    ops.iter().any(|op| writes_too(op, others))
}

/// Whether these are two transactions that write some key.
fn are_writers(sessions: &[Session], one: TxnAt, other: TxnAt) -> bool
    ensures { result ≡ spec.are_writers (map view sessions.now) one other }
{
    !is_same(one, other)
        && match (txn_at(sessions, one), txn_at(sessions, other)) {
            (Some(one), Some(other)) => write_some(&one.ops, &other.ops),
            _ => false,
        }
}

/// Whether a read of another transaction finds what the late one writes, and the other one writes
/// its key.
fn is_overwritten(sessions: &[Session], late: TxnAt, other: TxnAt, it: Overwritten) -> bool
    ensures { result ≡ spec.is_overwritten (map view sessions.now) late other it }
{
    is_external(sessions, it.read)
        && is_named(sessions, it.found, it.read)
        && is_of_key(sessions, it.write, it.read)
        && is_same(it.found.txn, late)
        && is_same(it.write.txn, other)
        && !is_same(it.read.txn, other)
}

/// Whether the late one cannot commit before this point of the other one.
fn is_against(
    sessions: &[Session],
    steps: &[Step],
    late: TxnAt,
    other: TxnAt,
    point: PointAt,
    against: &Against,
) -> bool
    ensures { result ≡ spec.is_against (map view sessions.now) steps.now late other point against.now }
{
    let edges = &against.edges;
    match against.overwritten {
        None => is_simple_way(sessions, steps, point, edges, PointAt::Commit(late)),
        Some(it) => {
            let (from, to) = (PointAt::Commit(other), PointAt::Snapshot(it.read.txn));
            is_overwritten(sessions, late, other, it)
                && is_simple_way(sessions, steps, from, edges, to)
        }
    }
}

/// Whether a step is right behind these.
fn is_step(is_locked: bool, sessions: &[Session], earlier: &[Step], step: &Step) -> bool
    ensures { result ≡ spec.is_step is_locked (map view sessions.now) earlier.now step.now }
{
    match step {
        Step::Shown {
            first,
            second,
            edges,
        } => {
            let (from, to) = (PointAt::Commit(*first), PointAt::Snapshot(*second));
            is_locked
                && are_writers(sessions, *first, *second)
                && !edges.is_empty()
                && is_simple_way(sessions, earlier, from, edges, to)
        }
        Step::Forced { both, against } => {
            let (late, other) = (both.other.txn, both.one.txn);
            let point = PointAt::Snapshot(other);
            is_locked
                && is_both(sessions, *both)
                && is_against(sessions, earlier, late, other, point, against)
        }
        Step::Later { both, against } => {
            let (late, other) = (both.other.txn, both.one.txn);
            let point = PointAt::Commit(other);
            is_both(sessions, *both) && is_against(sessions, earlier, late, other, point, against)
        }
    }
}

/// Whether each of these steps is right behind those before it.
fn are_steps(is_locked: bool, sessions: &[Session], steps: &[Step]) -> bool
    ensures { result ≡ spec.are_steps is_locked (map view sessions.now) [] steps.now }
{
    for i in 0..steps.len() {
        if !is_step(is_locked, sessions, &steps[..i], &steps[i]) {
            return false;
        }
    }
    true
}

/// Whether the edges lead from a point to itself, and pass no point twice.
fn is_circle(sessions: &[Session], steps: &[Step], edges: &[Edge]) -> bool
    ensures { result ≡ spec.is_circle (map view sessions.now) steps.now edges.now }
{
    if edges.is_empty() {
        return false;
    }
    let start = edge_from(edges[0]);
    is_simple_way(sessions, steps, start, edges, start)
}

/// Whether steps lead to it.
fn is_ending(is_locked: bool, sessions: &[Session], steps: &[Step], ending: &Ending) -> bool
    ensures { result ≡ spec.is_ending is_locked (map view sessions.now) steps.now ending.now }
{
    match ending {
        Ending::Circle(edges) => is_circle(sessions, steps, edges),
        Ending::Neither {
            both,
            not_one,
            not_other,
        } => {
            let (one, other) = (both.one.txn, both.other.txn);
            is_locked
                && is_both(sessions, *both)
                && is_against(
                    sessions,
                    steps,
                    one,
                    other,
                    PointAt::Snapshot(other),
                    not_one,
                )
                && is_against(
                    sessions,
                    steps,
                    other,
                    one,
                    PointAt::Snapshot(one),
                    not_other,
                )
        }
    }
}

/// Whether each step is right behind those before it, they lead to the ending, and something rests
/// on each.
fn is_right(is_locked: bool, sessions: &[Session], refutation: &Refutation) -> bool
    ensures { result ≡ spec.is_refuted is_locked (map view sessions.now) refutation.now }
{
    are_steps(is_locked, sessions, &refutation.steps)
        && is_ending(is_locked, sessions, &refutation.steps, &refutation.ending)
        && are_needed(&refutation.steps, &refutation.ending)
}

/// Whether the refutation is right: then these sessions, whose outcomes are known, have no order of
/// their snapshots and commits, where keys are locked (snapshot isolation), or not (prefix
/// consistency).
pub fn refutes(is_locked: bool, sessions: &[Session], refutation: &Refutation) -> bool
    ensures exact { result ≡ spec.is_refuted is_locked (map view sessions.now) refutation.now }
    ensures none { IsTrue result → IsSoundLog (map view sessions.now)
        → IsLearntLog (map view sessions.now) → HasPointOrder is_locked (map view sessions.now) → ⊥ }
{
    is_right(is_locked, sessions, refutation)
}
