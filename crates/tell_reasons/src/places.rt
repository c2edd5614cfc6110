//! The places of operations of a key among a node's.

ghost use Rattle.std.specs.Prelude.{◌≡◌, ◌+◌, ◌-◌, ◌<◌, length, take, drop, reverse, position};
ghost use Rattle.std.specs.Prelude.{IfSome};
ghost use Rattle.log_definitions.specs.Numbers.{log_of};
ghost use Rattle.tell_reasons.specs.Versions.{is_write_in, is_read_in, last_position};
ghost use Rattle.tell_reasons.specs.Versions.{written_before, other_before};
ghost use Rattle.tell_reasons.specs.Anomalies as spec;
ghost use Rattle.tell_reasons.specs.Anomalies.{next_position};

use crate::phrases::{key_number, wid_at};
use serializability::{Event, NodeIx};
use session_history::History;
use session_log::Op;

/// Whether an event writes the key.
fn writes(event: Event, key: usize) -> bool
    ensures { result ≡ is_write_in key event }
{
    matches!(event, Event::Write { key: written, .. } if key == written)
}

/// Whether an event reads the key.
pub fn reads(event: Event, key: usize) -> bool
    ensures { result ≡ is_read_in key event }
{
    matches!(event, Event::Read { key: read, .. } if key == read)
}

/// How far the last of these that writes the key is from the end.
fn back_of_last(events: &[Event], key: usize) -> Option<usize>
    ensures place { result ≡ position (is_write_in key) (reverse events.now) }
    ensures within { IfSome result (λ i. i < length events.now) }
{
    events.iter().rev().position(|event| writes(*event, key))
}

/// The last of these that writes the key.
#[tactic(auto, unfolding(crate::specs::Versions::last_position))]
pub fn last_among(events: &[Event], key: usize) -> Option<usize>
    ensures place { result ≡ last_position (is_write_in key) events.now }
{
    back_of_last(events, key).map(|back| events.len() - (back + 1))
}

/// The operations of a node before operation `op`.
#[tactic(auto, using(std::proofs::lemmas::List::take_min))]
fn events_before(history: &History, node: NodeIx, op: usize) -> &[Event]
    ensures before { result.now ≡ take op ((log_of history.now).ops node) }
{
    let events = history.events_of(node);
    &events[..op.min(events.len())]
}

/// The last write before operation `op` of a node of the same key.
pub fn last_write(history: &History, node: NodeIx, op: usize) -> Option<usize>
    ensures place { result ≡ written_before history.now node op }
{
    let key = key_number(history, node, op);
    last_among(events_before(history, node, op), key)
}

/// The first read of the same key before operation `op` of a node that names another identity.
pub fn other_read(history: &History, node: NodeIx, op: usize) -> Option<usize>
    ensures place { result ≡ other_before history.now node op }
{
    let key = key_number(history, node, op);
    let wid = wid_at(history, node, op);
    events_before(history, node, op)
        .iter()
        .position(|event| reads(*event, key) && event.wid() != wid)
}

/// Whether an operation writes the key.
fn is_write_of(op: &Op, key: &[u8]) -> bool
    ensures { result ≡ spec.is_write_of key.now op.now }
{
    op.is_write() && key == op.key().as_bytes()
}

/// The first of these that writes the key.
fn first_among(ops: &[Op], key: &[u8]) -> Option<usize>
    ensures place { result ≡ position (spec.is_write_of key.now) ops.now }
    ensures within { IfSome result (λ i. i < length ops.now) }
{
    ops.iter().position(|op| is_write_of(op, key))
}

/// The operations behind operation `op`.
#[tactic(auto, using(std::proofs::lemmas::List::drop_min))]
fn ops_behind(ops: &[Op], op: usize) -> &[Op]
    ensures rest { result.now ≡ drop (op + 1) ops.now }
    ensures size { length result.now ≡ length ops.now - (op + 1) }
{
    &ops[op.saturating_add(1).min(ops.len())..]
}

/// The next write of the key behind operation `op`.
pub fn next_write(ops: &[Op], key: &[u8], op: usize) -> Option<usize>
    ensures place { result ≡ next_position (spec.is_write_of key.now) ops.now op }
{
    first_among(ops_behind(ops, op), key).map(|more| op + 1 + more)
}
