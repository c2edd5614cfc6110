//! Further parts of a log that have no order.

ghost use Rattle.std.specs.Prelude.{◌≡◌, ◌≤◌, List, length, map, IfOk, IfSome};
ghost use Rattle.std.specs.List.{AllByRecursion};
ghost use Rattle.session_log.specs.Text.{ClientSession, IsLegal, view};
ghost use Rattle.log_definitions.specs.Unknown.{resolved};
ghost use Rattle.log_laws.specs.Logs.{IsSoundLog, IsLog};
ghost use Rattle.judging.specs.Made.{IsToldPart};

use crate::flags::{all_flags, count_flags, flags_in_whole, join_flags, set_flag};
use crate::judged::RefutedPart;
use crate::judging::judge_part;
use crate::level::{LevelLog, number_judged, propose_at};
use crate::means::JudgeMeans;
use crate::trial::Attempt;
use numbered_log::NumberedLog;
use order_proposals::{Flags, Proposal};
use progress::Progress;
use session_log::{Op, Session, Txn};
use std::alloc::{AllocError, Global};
use std::io::Eprint;
use std::sync::Wait;
use std::thread::Threads;
use std::time::Clock;

fn has_read(txn: &Txn) -> bool {
    txn.ops.iter().any(|op| matches!(op, Op::Read { .. }))
}

/// The last transaction of a part that reads, by the indices of its session and of itself; the first
/// of all where none does.
fn last_reader(part: &[Session]) -> (usize, usize) {
    let mut last = (0, 0);
    for (i, session) in part.iter().enumerate() {
        for (place, txn) in session.txns.iter().enumerate() {
            if has_read(txn) {
                last = (i, place);
            }
        }
    }
    last
}

/// Leaves out the last transaction of a part that reads. The answer is whether it was not left out
/// before.
fn leave_out_shown(
    alloc: Global,
    sessions: &[Session],
    left_out: &mut Flags,
    told: &RefutedPart,
) -> Result<bool, AllocError> {
    let before = count_flags(left_out);
    let mut few = all_flags(alloc, &told.part, false)?;
    set_flag(&mut few, last_reader(&told.part), true);
    match &told.flags {
        Some(flags) => join_flags(left_out, &flags_in_whole(alloc, sessions, flags, &few)?),
        None => join_flags(left_out, &few),
    }
    Ok(count_flags(left_out) > before)
}

/// A part that has no order, of the transactions that are not left out, where one is found.
fn next_part<R: Threads + Wait + Clock + Eprint + Sync, P: Progress>(
    rt: &R,
    alloc: Global,
    sessions: &[Session],
    at: &LevelLog,
    log: &NumberedLog<'_>,
    left_out: &[Vec<bool>],
    means: &JudgeMeans,
    progress: &mut P,
) -> Result<Option<RefutedPart>, AllocError>
    requires log { IsLog (map view sessions.now) }
    ensures { IfOk result (λ found. IfSome found (IsToldPart means.now.level (map view sessions.now))) }
{
    let proposal = propose_at(rt, alloc, sessions, at, log, left_out, means, progress)?;
    let Proposal::Part(flags) = &proposal else {
        return Ok(None);
    };
    match judge_part(rt, alloc, sessions, flags, means)? {
        Attempt::Refuted(told) => Ok(Some(told)),
        Attempt::Open(_) => Ok(None),
    }
}

/// Further parts of a log whose outcomes are known.
fn more_of_known<R: Threads + Wait + Clock + Eprint + Sync, P: Progress>(
    rt: &R,
    alloc: Global,
    sessions: &[Session],
    at: &LevelLog,
    first: &RefutedPart,
    count: usize,
    means: &JudgeMeans,
    progress: &mut P,
) -> Result<Vec<RefutedPart>, AllocError>
    requires log { IsLog (map view sessions.now) }
    ensures told { IfOk result (λ parts.
        AllByRecursion (IsToldPart means.now.level (map view sessions.now)) parts.items) }
    ensures at_most { IfOk result (λ parts. length parts.items ≤ count) }
{
    let mut left_out = all_flags(alloc, sessions, false)?;
    leave_out_shown(alloc, sessions, &mut left_out, first)?;
    let log = number_judged(alloc, sessions, at)?;
    let mut parts = Vec::new(alloc);
    for _ in 0..count {
        let next = next_part(rt, alloc, sessions, at, &log, &left_out, means, progress)?;
        let Some(told) = next else {
            break;
        };
        if !leave_out_shown(alloc, sessions, &mut left_out, &told)? {
            break;
        }
        parts.push(told)?;
    }
    Ok(parts)
}

/// Further parts of a log that have no order, so many at most, where this is the first: each is
/// looked for among the transactions that do not show one that was found. These are the log's
/// sessions with their outcomes known, and what is judged for them.
pub fn more_parts<R: Threads + Wait + Clock + Eprint + Sync, P: Progress>(
    rt: &R,
    alloc: Global,
    sessions: &[Session],
    at: &LevelLog,
    first: &RefutedPart,
    count: usize,
    means: &JudgeMeans,
    progress: &mut P,
) -> Result<Vec<RefutedPart>, AllocError>
    requires log { IsLog (map view sessions.now) }
    ensures told { IfOk result (λ parts. (ss : List ClientSession) → AllByRecursion IsLegal ss
        → IsSoundLog ss → map view sessions.now ≡ resolved ss
        → AllByRecursion (IsToldPart means.now.level ss) parts.items) }
    ensures at_most { IfOk result (λ parts. length parts.items ≤ count) }
{
    more_of_known(rt, alloc, sessions, at, first, count, means, progress)
}
