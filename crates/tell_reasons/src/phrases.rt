//! What lines speak of: places in the log, operations and their keys.

ghost use Rattle.std.specs.Prelude.{◌≡◌, slice_get};
ghost use Rattle.std.specs.Option.{option_map, option_map_or};
ghost use Rattle.log_definitions.specs.Numbers.{log_of};
ghost use Rattle.log_lines.specs.Rows.{view_place, no_row, line_at};
ghost use Rattle.log_lines.specs.Placed.{row_in, place_in, begin_in, op_line_in, end_line_in};
ghost use Rattle.tell_reasons.specs.Reasons as spec;
ghost use Rattle.tell_reasons.specs.Versions as versions;
ghost use Rattle.tell_reasons.specs.Reasons.{op_at, op_wid, view_access};

use log_lines::{PlacedHistory as Log, TxnPlace};
use serializability::{Event, NodeIx};
use session_history::History;
use session_log::Op;

/// An operation: the bytes of its key, and the identity that it names.
#[derive(Clone, Copy)]
pub enum Access<'a> {
    Read(&'a [u8], u64),
    Write(&'a [u8], u64),
}

/// The element at a place, where there is one.
#[tactic(auto, using(crate::proofs::Found::got))]
fn element<T: Copy>(elements: &[T], at: usize) -> Option<T>
    ensures { result ≡ slice_get elements.now at }
{
    elements.get(at).copied()
}

/// Where a node stands, if it does.
#[tactic(auto, using(crate::proofs::Rows::row_got))]
fn row_of<'a>(log: &Log<'a>, node: NodeIx) -> Option<&'a TxnPlace>
    ensures row { option_map_or (λ p. view_place p.now) result no_row ≡ row_in log.now node }
{
    element(&log.nodes, node.get().checked_sub(1)?)
}

/// The place of a node in its session of the log.
pub fn place_of(log: &Log<'_>, node: NodeIx) -> usize
    ensures place { result ≡ place_in log.now node }
{
    row_of(log, node).map_or(0, |row| row.place)
}

/// The line at which a node begins.
pub fn begin_of(log: &Log<'_>, node: NodeIx) -> usize
    ensures line { result ≡ begin_in log.now node }
{
    row_of(log, node).map_or(0, |row| row.begin)
}

/// The line of an operation of a transaction.
#[tactic(auto, using(crate::proofs::Found::or_else))]
pub fn line_among(row: &TxnPlace, op: usize) -> usize
    ensures { result ≡ line_at (view_place row.now) op }
{
    element(&row.ops, op).unwrap_or(0)
}

/// The line of an operation of a node.
pub fn line_of(log: &Log<'_>, node: NodeIx, op: usize) -> usize
    ensures line { result ≡ op_line_in log.now node op }
{
    row_of(log, node).map_or(0, |row| line_among(row, op))
}

/// The line that ends a node.
pub fn end_of(log: &Log<'_>, node: NodeIx) -> usize
    ensures line { result ≡ end_line_in log.now node }
{
    row_of(log, node).map_or(0, |row| row.end)
}

/// An event of a node, if it has it.
pub fn event_at(history: &History, node: NodeIx, op: usize) -> Option<Event>
    ensures event { result ≡ slice_get ((log_of history.now).ops node) op }
{
    element(history.events_of(node), op)
}

/// The number of the key of an operation.
pub fn key_number(history: &History, node: NodeIx, op: usize) -> usize
    ensures key { result ≡ versions.key_number history.now node op }
{
    event_at(history, node, op).map_or(0, |event| event.key())
}

/// The bytes of a key.
#[tactic(auto, using(crate::proofs::Ops::key_kept, crate::proofs::Ops::key_past))]
pub fn key_bytes(history: &History, key: usize) -> &[u8]
    ensures bytes { result.now ≡ spec.key_bytes history.now key }
{
    if key < history.keys() {
        history.key_text(key).as_bytes()
    } else {
        b""
    }
}

/// An operation of a node, if it has it.
#[tactic(auto, using(crate::proofs::Ops::read_told, crate::proofs::Ops::write_told, crate::proofs::Ops::no_op))]
pub fn op_of(history: &History, node: NodeIx, op: usize) -> Option<Access<'_>>
    ensures op { option_map view_access result ≡ op_at history.now node op }
{
    match event_at(history, node, op)? {
        Event::Read { key, wid } => Some(Access::Read(key_bytes(history, key), wid)),
        Event::Write { key, wid } => Some(Access::Write(key_bytes(history, key), wid)),
    }
}

/// An operation of a transaction, if it has it.
#[tactic(auto, using(crate::proofs::Found::got))]
pub fn op_among(ops: &[Op], at: usize) -> Option<Access<'_>>
    ensures { option_map view_access result ≡ slice_get ops.now at }
{
    match ops.get(at)? {
        Op::Read { key, wid } => Some(Access::Read(key.as_bytes(), *wid)),
        Op::Write { key, wid } => Some(Access::Write(key.as_bytes(), *wid)),
    }
}

/// The bytes of the key of an operation.
#[tactic(auto, unfolding(crate::specs::Reasons::key_text))]
pub fn key_in<'a>(op: Option<Access<'a>>) -> &'a [u8]
    ensures bytes { result.now ≡ spec.key_text (option_map view_access op.entry) }
{
    match op {
        Some(Access::Read(key, _) | Access::Write(key, _)) => key,
        None => b"",
    }
}

/// The identity that an operation names.
#[tactic(auto, unfolding(crate::specs::Reasons::op_wid))]
pub fn wid_in(op: Option<Access<'_>>) -> u64
    ensures wid { result ≡ op_wid (option_map view_access op.entry) }
{
    match op {
        Some(Access::Read(_, wid) | Access::Write(_, wid)) => wid,
        None => 0,
    }
}

/// The identity that an operation of a node names.
pub fn wid_at(history: &History, node: NodeIx, op: usize) -> u64
    ensures wid { result ≡ op_wid (op_at history.now node op) }
{
    wid_in(op_of(history, node, op))
}
