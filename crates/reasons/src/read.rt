//! Reads of a node that name writes of another.

ghost use Rattle.std.specs.Prelude.{IsTrue, not, None, is_some, ◌≡◌, ◌≢◌, IfSome, IfNone, position, ◌==◌};
ghost use Rattle.serializability.specs.Reads.{IsClean};
ghost use Rattle.log_definitions.specs.Numbers.{IsWellFormedList, log_of};
ghost use Rattle.reason_laws.specs.Reasons.{IsNode, IsReadBy};
ghost use Rattle.reasons.specs.Firsts as spec;
ghost use Rattle.reasons.specs.Given.{IsLeastRead, NoneRead};
ghost use Rattle.reasons.specs.Firsts.{HasSource, IsFirstRead};

use crate::operations::Operations;
use serializability::{Event, NodeIx};
use session_history::History;

/// Whether an operation is a read of the key.
fn is_read_of(key: usize, event: Event) -> bool
    ensures { result ≡ spec.is_read_of key event }
{
    match event {
        Event::Read { key: read, .. } => read == key,
        Event::Write { .. } => false,
    }
}

/// The first read of the key in a node.
fn first_read(history: &History, node: NodeIx, key: usize) -> Option<usize>
    ensures { result ≡ position (spec.is_read_of key) ((log_of history.now).ops node) }
{
    history
        .events_of(node)
        .iter()
        .position(|event| is_read_of(key, *event))
}

/// The first read of a key that the node reads before any own write of it.
#[tactic(auto, using(crate::proofs::Firsts::some_read, crate::proofs::Firsts::first_is))]
pub fn read_of(history: &History, node: NodeIx, key: usize) -> usize
    requires clean { IsClean (log_of history.now) }
    requires node { IsNode history.now node }
    requires reads { HasSource (log_of history.now) node key }
    ensures first { IsFirstRead history.now node key result }
{
    match first_read(history, node, key) {
        Some(read) => read,
        None => unreachable!(),
    }
}

/// Whether an operation is a read that names this one, which is a write.
fn names(read: Event, write: Event) -> bool
    ensures { result ≡ spec.names read write }
{
    match read {
        Event::Read { key, wid } => write == Event::Write { key, wid },
        Event::Write { .. } => false,
    }
}

/// Whether an operation is a read that may name a write of the node.
#[tactic(auto, using(crate::proofs::Firsts::none_unwritten, crate::proofs::Firsts::none_by_write))]
fn may_name(history: &History, node: NodeIx, event: Event) -> bool
    requires well_formed { IsWellFormedList history.now }
    requires node { IsNode history.now node }
    ensures { IsTrue (not result) →
        position (spec.names event) ((log_of history.now).ops node) ≡ None }
{
    match event {
        Event::Read { wid, .. } => match history.written(wid) {
            Some(write) => write.node == node,
            None => false,
        },
        Event::Write { .. } => false,
    }
}

/// The first write of the node that this operation, a read, names.
fn first_named(history: &History, node: NodeIx, read: Event) -> Option<usize>
    requires well_formed { IsWellFormedList history.now }
    requires node { IsNode history.now node }
    ensures { result ≡ position (spec.names read) ((log_of history.now).ops node) }
{
    if !may_name(history, node, read) {
        return None;
    }
    history
        .events_of(node)
        .iter()
        .position(|write| names(read, *write))
}

/// The first read of `b` that names a write of `a`.
fn first_reading(history: &History, a: NodeIx, b: NodeIx) -> Option<usize>
    requires well_formed { IsWellFormedList history.now }
    requires node { IsNode history.now a }
    ensures { let log = log_of history.now in result
        ≡ position (λ e. is_some (position (spec.names e) (log.ops a))) (log.ops b) }
{
    history
        .events_of(b)
        .iter()
        .position(|event| first_named(history, a, *event).is_some())
}

/// The first read of `b` that names a write of `a`, and that write.
#[tactic(auto, using(crate::proofs::Firsts::is_read, crate::proofs::Firsts::least_read))]
pub fn read_by(history: &History, a: NodeIx, b: NodeIx) -> Option<Operations>
    requires well_formed { IsWellFormedList history.now }
    requires first { IsNode history.now a }
    requires second { IsNode history.now b }
    requires apart { a ≢ b }
    ensures is { IfSome result (λ o. IsReadBy history.now a o.first b o.second) }
    ensures least { IfSome result (λ o. IsLeastRead history.now a o.first b o.second) }
    ensures none { IfNone result (NoneRead history.now a b) }
{
    let Some(read) = first_reading(history, a, b) else {
        return None;
    };
    let event = history.events_of(b)[read];
    let Some(written) = first_named(history, a, event) else {
        return None;
    };
    Some(Operations {
        first: written,
        second: read,
    })
}
