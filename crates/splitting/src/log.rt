//! The sessions of the split log.

ghost use Rattle.std.specs.Prelude.{◌≡◌, ◌++◌, ◌+◌, ◌<◌, ◌^◌, map, length, nat_eq, Some, IfOk, OnOk, MatchResult};
ghost use Rattle.std.specs.List.{IsDistinct, flat_map, list_any};
ghost use Rattle.session_log.specs.Text.{view, view_txn};
ghost use Rattle.log_definitions.specs.Unknown.{ops_in};
ghost use Rattle.log_definitions.specs.WellFormed.{written};
ghost use Rattle.point_laws.specs.Split.{Locks, is_writer, split_writers};
ghost use Rattle.session_log.specs.Text.{is_write};
ghost use Rattle.splitting.specs.Locks.{locks_of, refusal, no_room, HasRoom};
ghost use Rattle.splitting.specs.Room.{Fit, AreNamed};
ghost use Rattle.splitting.specs.Halves.{parts, ops_by};

use crate::halves::split_txn;
use crate::names::Names;
use crate::room::NoRoom;
use crate::survey::{MOST_BYTES, Survey};
use session_log::{Op, Session, Txn};
use std::alloc::{AllocError, Global};

fn any_write(ops: &[Op]) -> bool
    ensures { result ≡ list_any is_write ops.now }
{
    ops.iter().any(|op| op.is_write())
}

/// Whether the transaction committed and writes.
pub fn is_writer(txn: &Txn) -> bool
    ensures { result ≡ is_writer (view_txn txn.now) }
{
    txn.is_committed() && any_write(&txn.ops)
}

/// The last identity for a lock that the writes of these operations give, which is this one before
/// them.
fn last_behind(last: u64, ops: &[Op]) -> u64
    requires { last + length (written ops.now) < 2 ^ 64 }
    ensures { result ≡ last + length (written ops.now) }
{
    let mut last = last;
    for op in ops {
        if op.is_write() {
            last += 1;
        }
    }
    last
}

pub fn copy_op(alloc: Global, op: &Op) -> Result<Op, AllocError>
    ensures { IfOk result (λ copy. copy ≡ op.now) }
{
    match op {
        Op::Read { key, wid } => Ok(Op::Read {
            key: key.to_owned_key(alloc)?,
            wid: *wid,
        }),
        Op::Write { key, wid } => Ok(Op::Write {
            key: key.to_owned_key(alloc)?,
            wid: *wid,
        }),
    }
}

/// The same transaction once more.
pub fn copy_txn(alloc: Global, txn: &Txn) -> Result<Txn, AllocError>
    ensures { IfOk result (λ copy. view_txn copy ≡ view_txn txn.now) }
{
    let mut ops = Vec::with_capacity(alloc, txn.ops.len())?;
    for op in &txn.ops {
        ops.push(copy_op(alloc, op)?)?;
    }
    Ok(Txn {
        ops,
        outcome: txn.outcome,
        begun: txn.begun,
        ended: txn.ended,
    })
}

/// Adds what stands for a transaction in the split log.
fn add_txn<'a>(
    alloc: Global,
    names: &Names<'a>,
    last: u64,
    txn: &'a Txn,
    txns: &mut Vec<Txn>,
) -> Result<(), AllocError>
    requires { Fit names.now last txn.now.ops.items }
    ensures { OnOk result ((locks : Locks) → AreNamed locks names.now last txn.now.ops.items
        → map view_txn txns.new.items
        ≡ map view_txn txns.old.items ++ parts locks (view_txn txn.now)) }
{
    if is_writer(txn) {
        let (start, end) = split_txn(alloc, names, last, txn)?;
        txns.push(start)?;
        txns.push(end)?;
    } else {
        txns.push(copy_txn(alloc, txn)?)?;
    }
    Ok(())
}

/// The transactions of a session of the split log.
fn split_txns<'a>(
    alloc: Global,
    names: &Names<'a>,
    last: u64,
    txns: &'a [Txn],
) -> Result<(Vec<Txn>, u64), AllocError>
    requires { Fit names.now last (ops_by (map view_txn txns.now)) }
    ensures { IfOk result (λ split. let ops = ops_by (map view_txn txns.now) in
        (split.1 ≡ last + length (written ops))
        × ((locks : Locks) → AreNamed locks names.now last ops
        → map view_txn split.0.items ≡ flat_map (parts locks) (map view_txn txns.now))) }
{
    let mut split = Vec::with_capacity(alloc, txns.len())?;
    let mut last = last;
    for txn in txns {
        add_txn(alloc, names, last, txn, &mut split)?;
        last = last_behind(last, &txn.ops);
    }
    Ok((split, last))
}

/// The sessions of the split log.
fn split_sessions<'a>(
    alloc: Global,
    names: &Names<'a>,
    last: u64,
    sessions: &'a [Session],
) -> Result<Vec<Session>, AllocError>
    requires { Fit names.now last (ops_in (map view sessions.now)) }
    ensures { IfOk result (λ split. (locks : Locks)
        → AreNamed locks names.now last (ops_in (map view sessions.now))
        → map view split.items ≡ split_writers locks (map view sessions.now)) }
{
    let mut split = Vec::with_capacity(alloc, sessions.len())?;
    let mut last = last;
    for session in sessions {
        let (txns, behind) = split_txns(alloc, names, last, &session.txns)?;
        split.push(Session {
            number: session.number,
            txns,
        })?;
        last = behind;
    }
    Ok(split)
}

/// Why the locks of a log that has this, where the longest name of a key has so many bytes, cannot be
/// named.
fn refusal(survey: Survey, widest: usize) -> Option<NoRoom>
    ensures { result ≡ refusal survey.marks survey.longest widest survey.largest survey.writes }
{
    if survey.marks.saturating_add(widest) > MOST_BYTES {
        return Some(NoRoom::Keys {
            longest: survey.longest,
            marks: survey.marks,
        });
    }
    if survey.largest.checked_add(survey.writes as u64).is_none() {
        return Some(NoRoom::Identities {
            largest: survey.largest,
            writes: survey.writes,
        });
    }
    None
}

/// The log in which each committed transaction that writes is split in two: it reads, and takes the
/// lock of each key that it writes; then it finds its locks as it took them, and does the rest.
/// Locks are named as the definitions say, and where there is no room for their names, the answer
/// says why. No two writes of the log have one identity.
pub fn split(
    alloc: Global,
    sessions: &[Session],
) -> Result<Result<Vec<Session>, NoRoom>, AllocError>
    requires { IsDistinct nat_eq (written (ops_in (map view sessions.now))) }
    ensures { let ss = map view sessions.now in
        IfOk result (λ answer. MatchResult answer
        (λ new. HasRoom ss × (map view new.items ≡ split_writers (locks_of ss) ss))
        (λ refused. no_room ss ≡ Some refused)) }
{
    let survey = Survey::of(sessions)?;
    let names = Names::of(alloc, survey, sessions)?;
    if let Some(refused) = refusal(survey, names.widest(survey.longest)) {
        return Ok(Err(refused));
    }
    let split = split_sessions(alloc, &names, survey.largest, sessions)?;
    Ok(Ok(split))
}
