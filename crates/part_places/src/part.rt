//! Where the transactions of a part stand in the whole log.

ghost use Rattle.std.specs.Prelude.{◌≡◌, ℕ, Bool, List, ◌+◌, ◌<◌, ◌^◌, ◌++◌, false, length, map};
ghost use Rattle.std.specs.Prelude.{drop, slice_index_or, IfOk, OnOk};
ghost use Rattle.session_log.specs.Text.{Transaction, view, view_txn, txn_lines, session_lines};
ghost use Rattle.session_log.specs.Version.{first_line};
ghost use Rattle.log_definitions.specs.WellFormed.{log_lines};
ghost use Rattle.part_laws.specs.Chosen.{flagged, thin, thin_txn};
ghost use Rattle.log_parts.specs.Picked.{flag_of, flags_view, picked};
ghost use Rattle.log_lines.specs.Rows.{view_place, rows_of, Fits};
ghost use Rattle.part_places.specs.PartRows as spec;

use crate::txn::txn_place;
use log_lines::{LogPlaces, TxnPlace};
use session_log::{Session, Txn, Version};
use std::alloc::{AllocError, Global};

fn is_flagged(flags: &[bool], at: usize) -> bool
    ensures { result ≡ slice_index_or flags.now at false }
{
    at < flags.len() && flags[at]
}

/// The transactions of the session at this place; none behind the last.
fn txns_at(part: &[Session], at: usize) -> &[Txn]
    ensures { map view_txn result.now ≡ spec.first_txns (drop at (map view part.now)) }
{
    if at < part.len() { &part[at].txns } else { &[] }
}

/// Appends where a transaction stands that is at this place in its session and begins at this line,
/// where it is flagged: the next of those that are left is what is left of it.
fn add_txn(
    alloc: Global,
    rows: &mut Vec<TxnPlace>,
    txn: &Txn,
    flagged: bool,
    left: &[Txn],
    place: usize,
    line: usize,
) -> Result<(), AllocError>
    requires room { line + length (txn_lines (view_txn txn.now)) < 2 ^ 64 }
    ensures { OnOk result ((known : ℕ → Bool) → spec.AddsRow known flagged (view_txn txn.now) place
        line (map view_txn left.now) (map view_place rows.old.items)
        (map view_place rows.new.items)) }
{
    let next = rows.len();
    if flagged && next < left.len() {
        rows.push(txn_place(alloc, txn, &left[next], place, line)?)?;
    }
    Ok(())
}

/// Where the flagged transactions of a session stand, which begins at line `first`, and of which
/// these are left.
fn session_places(
    alloc: Global,
    session: &Session,
    flags: &[bool],
    left: &[Txn],
    first: usize,
) -> Result<Vec<TxnPlace>, AllocError>
    requires room { first + length (session_lines (view session.now)) < 2 ^ 64 }
    ensures rows { IfOk result (λ rows. (known : ℕ → Bool) (more : List Transaction)
        → map view_txn left.now ≡ map (thin_txn known)
        (flagged (flag_of flags.now) 1 (view session.now).txns) ++ more
        → map view_place rows.items ≡ spec.flagged_rows known (flag_of flags.now) 1 (first + 1)
        (view session.now).txns) }
{
    let mut rows = Vec::with_capacity(alloc, left.len())?;
    let mut line = first + 1;
    for (at, txn) in session.txns.iter().enumerate() {
        add_txn(
            alloc,
            &mut rows,
            txn,
            is_flagged(flags, at),
            left,
            at + 1,
            line,
        )?;
        line += txn.line_count();
    }
    Ok(rows)
}

/// Appends where the transactions of a session stand, where there are any.
fn add_rows(table: &mut Vec<Vec<TxnPlace>>, rows: Vec<TxnPlace>) -> Result<(), AllocError>
    ensures { OnOk result (map (λ s. map view_place s.items) table.new.items
        ≡ map (λ s. map view_place s.items) table.old.items
        ++ spec.with_rows (map view_place rows.items)) }
{
    if !rows.is_empty() {
        table.push(rows)?;
    }
    Ok(())
}

/// Appends where the flagged transactions of a session stand, which begins at line `first`: the
/// next session of the part is what is left of it.
fn add_session(
    alloc: Global,
    table: &mut Vec<Vec<TxnPlace>>,
    session: &Session,
    flags: &[bool],
    part: &[Session],
    first: usize,
) -> Result<(), AllocError>
    requires room { first + length (session_lines (view session.now)) < 2 ^ 64 }
    ensures { OnOk result ((known : ℕ → Bool) → spec.AddsRows known (flag_of flags.now)
        (view session.now) first (map view part.now)
        (map (λ s. map view_place s.items) table.old.items)
        (map (λ s. map view_place s.items) table.new.items)) }
{
    let left = txns_at(part, table.len());
    let rows = session_places(alloc, session, flags, left, first)?;
    add_rows(table, rows)
}

/// Where the transactions of a part stand in the log of these sessions, which is of this version:
/// the part that is left of the flagged ones.
pub fn part_places(
    alloc: Global,
    version: Version,
    sessions: &[Session],
    flags: &[Vec<bool>],
    part: &[Session],
) -> Result<LogPlaces, AllocError>
    requires room { length (log_lines (map view sessions.now)) + 2 < 2 ^ 63 }
    ensures places { IfOk result (λ places. (known : ℕ → Bool) → map view part.now
        ≡ thin known (picked (flags_view flags.now) (map view sessions.now))
        → rows_of places ≡ spec.part_table known (flags_view flags.now) (first_line version)
        (map view sessions.now)) }
    ensures fits { IfOk result (λ places. (known : ℕ → Bool) → map view part.now
        ≡ thin known (picked (flags_view flags.now) (map view sessions.now))
        → Fits (map view part.now) (rows_of places)) }
{
    let mut table = Vec::with_capacity(alloc, part.len())?;
    let mut line = version.first_line();
    for (at, session) in sessions.iter().enumerate() {
        if at < flags.len() {
            add_session(alloc, &mut table, session, &flags[at], part, line)?;
        }
        line += session.line_count();
    }
    Ok(LogPlaces { sessions: table })
}
