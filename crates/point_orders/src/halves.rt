//! The transactions of the log in which writers are split, by those for which they stand.

ghost use Rattle.std.specs.Prelude.{◌≡◌, ◌++◌, map, IfOk, OnOk};
ghost use Rattle.std.specs.List.{list_any};
ghost use Rattle.session_log.specs.Text.{view, view_txn};
ghost use Rattle.point_laws.specs.Split.{is_writer};
ghost use Rattle.session_log.specs.Text.{is_write};
ghost use Rattle.point_orders.specs.Halves.{halves_of, halves_from, halves_in};

use session_log::{Op, Session, Txn};
use std::alloc::{AllocError, Global};

/// Which points a transaction of the split log stands for: of the transaction of this session and
/// this place, from 1, in the log.
#[derive(Clone, Copy)]
pub struct Half {
    pub session: u16,
    pub place: usize,
    pub has_snapshot: bool,
    pub has_commit: bool,
}

fn has_write(ops: &[Op]) -> bool
    ensures write { result ≡ list_any is_write ops.now }
{
    for op in ops {
        if op.is_write() {
            return true;
        }
    }
    false
}

/// Whether a transaction is split: it is committed and writes.
fn is_writer(txn: &Txn) -> bool
    ensures writer { result ≡ is_writer (view_txn txn.now) }
{
    txn.is_committed() && has_write(&txn.ops)
}

/// Appends what stands for a transaction of this session and place.
fn add_txn(halves: &mut Vec<Half>, session: u16, place: usize, txn: &Txn) -> Result<(), AllocError>
    ensures added { OnOk result (halves.new.items
        ≡ halves.old.items ++ halves_of session place (view_txn txn.now)) }
{
    let half = |has_snapshot: bool, has_commit: bool| Half {
        session,
        place,
        has_snapshot,
        has_commit,
    };
    if is_writer(txn) {
        halves.push(half(true, false))?;
        halves.push(half(false, true))?;
    } else if txn.is_committed() {
        halves.push(half(true, true))?;
    }
    Ok(())
}

/// Appends what stands for the transactions of a session.
fn add_session(halves: &mut Vec<Half>, session: &Session) -> Result<(), AllocError>
    ensures added { OnOk result (halves.new.items
        ≡ halves.old.items ++ halves_from session.now.number 1 (view session.now).txns) }
{
    for (i, txn) in session.txns.iter().enumerate() {
        add_txn(halves, session.number, i + 1, txn)?;
    }
    Ok(())
}

/// What stands for the transactions of these sessions, by session and then by place.
pub fn halves_in(alloc: Global, sessions: &[Session]) -> Result<Vec<Half>, AllocError>
    ensures halves { IfOk result (λ halves. halves.items ≡ halves_in (map view sessions.now)) }
{
    let mut halves = Vec::new(alloc);
    for session in sessions {
        add_session(&mut halves, session)?;
    }
    Ok(halves)
}
