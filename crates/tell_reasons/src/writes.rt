//! Where an identity is written, by a pass over the sessions.

ghost use Rattle.std.specs.Prelude.{◌≡◌, map, position};
ghost use Rattle.std.specs.Option.{option_copied, option_map};
ghost use Rattle.session_log.specs.Text.{view};
ghost use Rattle.log_lines.specs.Rows.{view_place, rows_of};
ghost use Rattle.tell_reasons.specs.Writes as spec;
ghost use Rattle.tell_reasons.specs.Writes.{view_write, first_in, first_op};

use log_lines::{PlacedHistory as Log, TxnPlace};
use session_log::{Op, Session, Txn};

/// A write that was found.
#[derive(Clone, Copy)]
pub struct WriteAt<'a> {
    /// The number of its session.
    pub session: u16,
    pub txn: &'a Txn,
    /// Where the transaction stands.
    pub place: &'a TxnPlace,
    /// The place of the write among the transaction's operations, from 0.
    pub op: usize,
}

/// Whether an operation writes this identity, under this key, or under any where none is given.
fn is_write_as(op: &Op, key: Option<&[u8]>, wid: u64) -> bool
    ensures { result ≡ spec.is_write_as (option_copied key.entry) wid op.now }
{
    matches!(op, Op::Write { key: written, wid: own }
        if *own == wid && key.map_or(true, |key| key == written.as_bytes()))
}

/// The first operation that writes this identity, under this key or under any.
fn write_among(ops: &[Op], key: Option<&[u8]>, wid: u64) -> Option<usize>
    ensures { result ≡ position (spec.is_write_as (option_copied key.entry) wid) ops.now }
{
    ops.iter().position(|op| is_write_as(op, key, wid))
}

/// The first write of this identity, under this key or under any, in a session, whose transactions
/// stand here.
fn write_in<'a>(
    session: &'a Session,
    places: &'a [TxnPlace],
    key: Option<&[u8]>,
    wid: u64,
) -> Option<WriteAt<'a>>
    ensures { option_map view_write result
        ≡ first_in (spec.is_write_as (option_copied key.entry) wid) (view session.now)
        (map view_place places.now) }
{
    for (at, txn) in session.txns.iter().enumerate() {
        let place = places.get(at)?;
        if let Some(op) = write_among(&txn.ops, key, wid) {
            return Some(WriteAt {
                session: session.number,
                txn,
                place,
                op,
            });
        }
    }
    None
}

/// The first write of this identity, under this key, or under any where none is given.
pub fn write_at<'a>(log: &Log<'a>, key: Option<&[u8]>, wid: u64) -> Option<WriteAt<'a>>
    ensures { option_map view_write result
        ≡ first_op (spec.is_write_as (option_copied key.entry) wid) log.now.history.now
        (rows_of log.now.places.now) }
{
    let sessions = log.history.sessions();
    for (at, session) in sessions.iter().enumerate() {
        let places = log.places.sessions.get(at)?;
        if let Some(write) = write_in(session, places, key, wid) {
            return Some(write);
        }
    }
    None
}
