//! Edges between points, and ways along them.

ghost use Rattle.std.specs.{Prelude.◌≡◌, Prelude.map, Prelude.Option, List.list_any};
ghost use Rattle.session_log.specs.Text.{view};
ghost use Rattle.level_refutations.specs.Edges.{is_session_step, op_of};
ghost use Rattle.point_refutations.specs.Edges as spec;

use crate::refutation::{Edge, Missed, PointAt, Since, Step, Why};
use level_refutations::{
    OpAt, TxnAt, is_external, is_named, is_node, is_of_key, is_same, names_initial, op_at, txn_at,
};
use session_log::{Op, Session, is_earlier};

/// Whether a step says that the one commits before the other.
fn is_order(from: TxnAt, to: TxnAt, step: &Step) -> bool
    ensures { result ≡ spec.is_order from to step.now }
{
    is_same(step.first(), from) && is_same(step.second(), to)
}

/// Whether the step with this index does.
fn is_later(steps: &[Step], index: usize, from: TxnAt, to: TxnAt) -> bool
    ensures { result ≡ spec.is_later steps.now index from to }
{
    steps
        .get(index)
        .is_some_and(|step| is_order(from, to, step))
}

/// Whether it says that the one commits before the other takes its snapshot.
fn is_by_step(steps: &[Step], index: usize, from: TxnAt, to: TxnAt) -> bool
    ensures { result ≡ spec.is_by_step steps.now index from to }
{
    steps
        .get(index)
        .is_some_and(|step| is_order(from, to, step) && step.says_snapshot())
}

/// The operation of a transaction with this index.
pub fn op_of(txn: TxnAt, op: usize) -> OpAt
    ensures { result ≡ op_of txn op }
{
    OpAt { txn, op }
}

/// Whether the read names this write, or the initial value.
fn is_found(sessions: &[Session], read: OpAt, found: Option<OpAt>) -> bool
    ensures { result ≡ spec.is_found (map view sessions.now) read found }
{
    match found {
        None => names_initial(sessions, read),
        Some(write) => is_named(sessions, write, read),
    }
}

/// Whether both are reads of one key under one identity.
fn reads_same(one: &Op, other: &Op) -> bool
    ensures { result ≡ spec.reads_same one.now other.now }
{
    match (one, other) {
        (Op::Read { key, wid }, Op::Read { key: k, wid: w }) => key == k && *wid == *w,
        _ => false,
    }
}

/// The same of the operations at two places.
pub fn is_same_read(sessions: &[Session], one: OpAt, other: OpAt) -> bool
    ensures { result ≡ spec.is_same_read (map view sessions.now) one other }
{
    match (op_at(sessions, one), op_at(sessions, other)) {
        (Some(one), Some(other)) => reads_same(one, other),
        _ => false,
    }
}

/// Whether what a read finds is older than what a transaction writes.
fn is_since(
    sessions: &[Session],
    steps: &[Step],
    read: OpAt,
    found: Option<OpAt>,
    to: TxnAt,
    since: Since,
) -> bool
    ensures { result ≡ spec.is_since (map view sessions.now) steps.now read found to since }
{
    match since {
        Since::Initial => found.is_none(),
        Since::ReadToo(op) => {
            let also = op_of(to, op);
            is_external(sessions, also) && is_same_read(sessions, read, also)
        }
        Since::Step(index) => found.is_some_and(|write| is_later(steps, index, write.txn, to)),
    }
}

/// Whether a read of the one transaction misses a write of the other, which is not the same.
fn misses(sessions: &[Session], steps: &[Step], from: TxnAt, to: TxnAt, missed: Missed) -> bool
    ensures { result ≡ spec.misses (map view sessions.now) steps.now from to missed }
{
    let (read, write) = (op_of(from, missed.read), op_of(to, missed.write));
    !is_same(from, to)
        && is_external(sessions, read)
        && is_found(sessions, read, missed.found)
        && is_of_key(sessions, write, read)
        && is_since(sessions, steps, read, missed.found, to, missed.since)
}

/// Whether the one is an earlier transaction of the session of the other.
fn is_session_step(sessions: &[Session], from: TxnAt, to: TxnAt) -> bool
    ensures { result ≡ is_session_step (map view sessions.now) from to }
{
    from.session == to.session
        && from.txn < to.txn
        && is_node(sessions, from)
        && is_node(sessions, to)
}

/// Whether the log or one of these steps shows it.
fn is_edge(sessions: &[Session], steps: &[Step], edge: Edge) -> bool
    ensures { result ≡ spec.is_edge (map view sessions.now) steps.now edge }
{
    let Edge { from, to, why } = edge;
    match why {
        Why::Session => is_session_step(sessions, from, to),
        Why::Moments => match (txn_at(sessions, from), txn_at(sessions, to)) {
            (Some(one), Some(other)) => is_earlier(one.ended, other.begun),
            _ => false,
        },
        Why::Read { write, read } => {
            let (write, read) = (op_of(from, write), op_of(to, read));
            is_external(sessions, read) && is_named(sessions, write, read)
        }
        Why::Step(index) => is_by_step(steps, index, from, to),
        Why::Later(index) => is_later(steps, index, from, to),
        Why::Missed(missed) => misses(sessions, steps, from, to, missed),
    }
}

/// The point that stands before the other.
pub fn edge_from(edge: Edge) -> PointAt
    ensures { result ≡ spec.edge_from edge }
{
    match edge.why {
        Why::Missed(_) => PointAt::Snapshot(edge.from),
        _ => PointAt::Commit(edge.from),
    }
}

/// The point that stands behind the other.
pub fn edge_to(edge: Edge) -> PointAt
    ensures { result ≡ spec.edge_to edge }
{
    match edge.why {
        Why::Missed(_) | Why::Later(_) => PointAt::Commit(edge.to),
        _ => PointAt::Snapshot(edge.to),
    }
}

/// Whether who is at the one point goes on from the other.
fn leads_on(one: PointAt, other: PointAt) -> bool
    ensures { result ≡ spec.leads_on one other }
{
    match (one, other) {
        (PointAt::Commit(_), PointAt::Snapshot(_)) => false,
        _ => is_same(one.txn(), other.txn()),
    }
}

/// Whether the edges lead from the one point to the other.
fn is_way(sessions: &[Session], steps: &[Step], from: PointAt, edges: &[Edge], to: PointAt) -> bool
    ensures { result ≡ spec.is_way (map view sessions.now) steps.now from edges.now to }
{
    let mut at = from;
    for edge in edges {
        if !leads_on(at, edge_from(*edge)) || !is_edge(sessions, steps, *edge) {
            return false;
        }
        at = edge_to(*edge);
    }
    leads_on(at, to)
}

/// Whether these are one point.
fn is_same_point(one: PointAt, other: PointAt) -> bool
    ensures { result ≡ spec.is_same_point one other }
{
    match (one, other) {
        (PointAt::Snapshot(a), PointAt::Snapshot(b)) => is_same(a, b),
        (PointAt::Commit(a), PointAt::Commit(b)) => is_same(a, b),
        _ => false,
    }
}

/// Whether both edges begin at one point, or both end at one.
fn meets(one: Edge, other: Edge) -> bool
    ensures { result ≡ spec.meets one other }
{
    is_same_point(edge_from(one), edge_from(other)) || is_same_point(edge_to(one), edge_to(other))
}

/// Whether the edge meets one of these.
fn meets_some(one: Edge, edges: &[Edge]) -> bool
    ensures { result ≡ list_any (spec.meets one) edges.now }
{
    edges.iter().any(|edge| meets(one, *edge))
}

/// Whether no two of these edges meet.
fn is_simple(edges: &[Edge]) -> bool
    ensures { result ≡ spec.is_simple edges.now }
{
    for i in 0..edges.len() {
        if meets_some(edges[i], &edges[i + 1..]) {
            return false;
        }
    }
    true
}

/// Whether the edges lead from the one point to the other, and pass no point twice.
pub fn is_simple_way(
    sessions: &[Session],
    steps: &[Step],
    from: PointAt,
    edges: &[Edge],
    to: PointAt,
) -> bool
    ensures { result ≡ spec.is_simple_way (map view sessions.now) steps.now from edges.now to }
{
    is_simple(edges) && is_way(sessions, steps, from, edges, to)
}
