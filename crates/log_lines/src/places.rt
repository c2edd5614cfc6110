//! Where the transactions of a log stand.

ghost use Rattle.std.specs.Prelude.{◌≡◌, ◌+◌, ◌<◌, ◌^◌, length, map, IfOk};
ghost use Rattle.std.specs.List.{range_with_len};
ghost use Rattle.session_log.specs.Text.{view, view_txn, txn_lines, session_lines};
ghost use Rattle.session_log.specs.Version.{first_line};
ghost use Rattle.log_definitions.specs.WellFormed.{log_lines};
ghost use Rattle.log_lines.specs.Rows.{view_place, rows_of, own_row, own_rows, own_places};

use session_log::{Session, Txn, Version};
use std::alloc::{AllocError, Global};

/// Where a transaction stands in a log. Lines count from 1.
#[derive(Drop)]
pub struct TxnPlace {
    /// Its place in its session of the log, from 1, every transaction counted.
    pub place: usize,
    /// The line at which it begins.
    pub begin: usize,
    /// The lines of its operations.
    pub ops: Vec<usize>,
    /// The line that ends it.
    pub end: usize,
}

/// Where the transactions of sessions stand in a log.
#[derive(Drop)]
pub struct LogPlaces {
    /// The transactions of each session.
    pub sessions: Vec<Vec<TxnPlace>>,
}

/// So many lines, from this one on.
fn lines_from(alloc: Global, first: usize, count: usize) -> Result<Vec<usize>, AllocError>
    requires room { first + count < 2 ^ 64 }
    ensures lines { IfOk result (λ lines. lines.items ≡ range_with_len first count) }
{
    (first..first + count).collect(alloc)
}

/// Where a transaction stands that begins at this line.
fn own_place(alloc: Global, txn: &Txn, place: usize, begin: usize) -> Result<TxnPlace, AllocError>
    requires room { begin + length (txn_lines (view_txn txn.now)) < 2 ^ 64 }
    ensures own { IfOk result (λ row. view_place row ≡ own_row place begin (view_txn txn.now)) }
{
    let count = txn.ops.len();
    let ops = lines_from(alloc, begin + 1, count)?;
    Ok(TxnPlace {
        place,
        begin,
        ops,
        end: begin + 1 + count,
    })
}

/// Where the transactions of a session stand, which begins at line `first`.
fn own_session(alloc: Global, session: &Session, first: usize) -> Result<Vec<TxnPlace>, AllocError>
    requires room { first + length (session_lines (view session.now)) < 2 ^ 64 }
    ensures own { IfOk result (λ rows. map view_place rows.items
        ≡ own_rows 1 (first + 1) (view session.now).txns) }
{
    let mut rows = Vec::with_capacity(alloc, session.txns.len())?;
    let mut line = first + 1;
    for (earlier, txn) in session.txns.iter().enumerate() {
        rows.push(own_place(alloc, txn, earlier + 1, line)?)?;
        line += txn.line_count();
    }
    Ok(rows)
}

impl LogPlaces {
    /// Where the transactions of a log of this version stand in it.
    pub fn own(
        alloc: Global,
        version: Version,
        sessions: &[Session],
    ) -> Result<LogPlaces, AllocError>
        requires room { length (log_lines (map view sessions.now)) + 2 < 2 ^ 63 }
        ensures own { IfOk result (λ places. rows_of places
            ≡ own_places (first_line version) (map view sessions.now)) }
    {
        let mut rows = Vec::with_capacity(alloc, sessions.len())?;
        let mut line = version.first_line();
        for session in sessions {
            rows.push(own_session(alloc, session, line)?)?;
            line += session.line_count();
        }
        Ok(LogPlaces { sessions: rows })
    }
}
