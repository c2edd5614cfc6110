//! Where the transactions of a part stand in the whole log.

ghost use Rattle.std.specs.Prelude.{◌≡◌, ◌+◌, ◌++◌, length, map, IfOk, OnOk};
ghost use Rattle.std.specs.List.{flat_map};
ghost use Rattle.session_log.specs.Text.{view, view_txn, txn_lines};
ghost use Rattle.session_log.specs.Version.{first_line};
ghost use Rattle.log_parts.specs.Picked.{flag_of};
ghost use Rattle.audit_command.specs.Places.{told_txn, told_from, told_by, chosen_by};

use audit_report::ToldTxn;
use order_proposals::Flags;
use session_log::{Session, Txn, Version};
use std::alloc::{AllocError, Global};

/// A sum, which is told as want of memory where it is too large for any.
fn sum(one: usize, other: usize) -> Result<usize, AllocError>
    ensures sum { IfOk result (λ sum. sum ≡ one + other) }
{
    one.checked_add(other).ok_or(AllocError)
}

fn told_txn(number: u16, place: usize, line: usize, txn: &Txn) -> Result<ToldTxn, AllocError>
    ensures told { IfOk result (λ told. told ≡ told_txn number place line (view_txn txn.now)) }
{
    Ok(ToldTxn {
        session: usize::from(number),
        place,
        first: line,
        last: sum(sum(line, txn.ops.len())?, 1)?,
    })
}

/// Whether a transaction, by the indices of its session and of its own, is one of a part.
fn is_chosen(flags: &Option<Flags>, session: usize, index: usize) -> bool
    ensures chosen { result ≡ chosen_by flags.now session (index + 1) }
{
    match flags {
        Some(flags) => session < flags.len() && flag_at(&flags[session], index),
        None => true,
    }
}

/// Whether the flag at this place is set.
fn flag_at(flags: &[bool], index: usize) -> bool
    ensures flag { result ≡ flag_of flags.now (index + 1) }
{
    index < flags.len() && flags[index]
}

/// Appends the chosen ones among the transactions of a session, whose index this is, and whose
/// first transaction begins at this line; and gives the line behind it.
fn add_session(
    told: &mut Vec<ToldTxn>,
    flags: &Option<Flags>,
    index: usize,
    session: &Session,
    first: usize,
) -> Result<usize, AllocError>
    ensures told { OnOk result (told.new.items ≡ told.old.items
        ++ told_from (chosen_by flags.now index) session.now.number 1 first
        (view session.now).txns) }
    ensures behind { IfOk result (λ line. line ≡ first
        + length (flat_map txn_lines (view session.now).txns)) }
{
    let mut line = first;
    for (i, txn) in session.txns.iter().enumerate() {
        if is_chosen(flags, index, i) {
            told.push(told_txn(session.number, i + 1, line, txn)?)?;
        }
        line = sum(line, txn.line_count())?;
    }
    Ok(line)
}

/// The transactions of a part in the log of these sessions, which is of this version.
pub fn told_txns(
    alloc: Global,
    version: Version,
    sessions: &[Session],
    flags: &Option<Flags>,
) -> Result<Vec<ToldTxn>, AllocError>
    ensures told { IfOk result (λ told. told.items
        ≡ told_by flags.now (first_line version) (map view sessions.now)) }
{
    let mut told = Vec::new(alloc);
    let mut line = version.first_line();
    for (i, session) in sessions.iter().enumerate() {
        line = add_session(&mut told, flags, i, session, sum(line, 1)?)?;
    }
    Ok(told)
}
