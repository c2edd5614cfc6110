//! What stands at a place of a log, and where.

ghost use Rattle.std.specs.Prelude.{◌≡◌, map, Some, None, MatchOption};
ghost use Rattle.session_log.specs.Text.{view};
ghost use Rattle.log_lines.specs.Rows.{view_place, rows_of};
ghost use Rattle.tell_evidence.specs.Rows as spec;

use level_refutations::{OpAt, TxnAt, any_at};
use log_lines::{LogPlaces, TxnPlace};
use session_log::{Op, Outcome, Session};

/// The number of the session with this index.
pub fn number_at(sessions: &[Session], index: usize) -> usize
    ensures { result ≡ spec.number_at (map view sessions.now) index }
{
    if index >= sessions.len() {
        return 0;
    }
    usize::from(sessions[index].number)
}

/// How a transaction ended.
pub fn outcome_at(sessions: &[Session], at: TxnAt) -> Outcome
    ensures { result ≡ spec.outcome_at (map view sessions.now) at }
{
    match sessions.get(at.session) {
        Some(session) if at.txn < session.txns.len() => session.txns[at.txn].outcome,
        _ => Outcome::Abort,
    }
}

/// Where a transaction stands.
fn row_at<'a>(places: &'a LogPlaces, at: TxnAt) -> Option<&'a TxnPlace>
    ensures { MatchOption result (spec.row_at (rows_of places.now) at ≡ None)
        (λ row. spec.row_at (rows_of places.now) at ≡ Some (view_place row.now)) }
{
    places.sessions.get(at.session)?.get(at.txn)
}

/// Its place in its session.
pub fn place_at(places: &LogPlaces, at: TxnAt) -> usize
    ensures { result ≡ (spec.row_of (rows_of places.now) at).place }
{
    row_at(places, at).map_or(0, |row| row.place)
}

/// The line at which it begins.
pub fn begin_at(places: &LogPlaces, at: TxnAt) -> usize
    ensures { result ≡ spec.begin_of (rows_of places.now) at }
{
    row_at(places, at).map_or(0, |row| row.begin)
}

/// The line that ends it.
pub fn end_at(places: &LogPlaces, at: TxnAt) -> usize
    ensures { result ≡ spec.end_of (rows_of places.now) at }
{
    row_at(places, at).map_or(0, |row| row.end)
}

/// The line of an operation.
pub fn line_of(places: &LogPlaces, at: OpAt) -> usize
    ensures { result ≡ spec.line_of (rows_of places.now) at }
{
    match row_at(places, at.txn) {
        Some(row) if at.op < row.ops.len() => row.ops[at.op],
        _ => 0,
    }
}

/// The key of an operation.
pub fn key_at(sessions: &[Session], at: OpAt) -> &[u8]
    ensures { result.now ≡ spec.key_at (map view sessions.now) at }
{
    match any_at(sessions, at) {
        Some(op) => op.key().as_bytes(),
        None => b"",
    }
}

/// The identity that it names.
pub fn wid_at(sessions: &[Session], at: OpAt) -> u64
    ensures { result ≡ spec.wid_at (map view sessions.now) at }
{
    match any_at(sessions, at) {
        Some(Op::Read { wid, .. } | Op::Write { wid, .. }) => *wid,
        None => 0,
    }
}
