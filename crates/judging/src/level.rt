//! Levels of isolation, and the log that is judged for each.

ghost use Rattle.std.specs.Prelude.{map, IfOk};
ghost use Rattle.session_log.specs.Text.{view};
ghost use Rattle.log_laws.specs.Logs.{IsLog};
ghost use Rattle.judging.specs.Levels.{IsLogAt, IsNumbered, judged_in};

use crate::below::propose_below;
use crate::halves::{joined_proposal, split_flags};
use crate::means::JudgeMeans;
use numbered_log::NumberedLog;
use order_proposals::{Proposal, propose};
use progress::Progress;
use session_log::{Op, Session};
use splitting::{NoRoom, split, split_bare};
use std::alloc::{AllocError, Global};
use std::io::Eprint;
use std::thread::Threads;
use std::time::Clock;

/// The level of isolation at which a log is judged: in the order of sessions, and down to prefix
/// consistency in that of moments where the log states some.
#[derive(Clone, Copy, Debug, PartialEq, Eq)]
pub enum Level {
    /// Serializability.
    Serializable,
    /// Snapshot isolation.
    Snapshot,
    /// Prefix consistency: snapshot isolation where updates may be lost.
    Prefix,
    /// A level below.
    Below(level_laws::Level),
}

/// What is judged for a log at some level.
#[derive(Drop)]
pub enum LevelLog {
    /// The log itself.
    Itself,
    /// The log in which each transaction that writes is split in two.
    Split(Vec<Session>),
    /// Nothing, since its locks have no room.
    NoRoom(NoRoom),
}

/// What is judged for this log, whose outcomes are known.
pub fn log_at(alloc: Global, level: Level, sessions: &[Session]) -> Result<LevelLog, AllocError>
    requires log { IsLog (map view sessions.now) }
    ensures { IfOk result (IsLogAt level (map view sessions.now)) }
{
    match level {
        Level::Serializable | Level::Below(_) => Ok(LevelLog::Itself),
        Level::Prefix => Ok(LevelLog::Split(split_bare(alloc, sessions)?)),
        Level::Snapshot => match split(alloc, sessions)? {
            Ok(split) => Ok(LevelLog::Split(split)),
            Err(why) => Ok(LevelLog::NoRoom(why)),
        },
    }
}

/// These sessions by numbers. A number of more than 32 bits is told as want of memory, since a log
/// has at most a gigabyte.
pub fn number_log<'a>(alloc: Global, sessions: &'a [Session]) -> Result<NumberedLog<'a>, AllocError>
    ensures numbered { IfOk result (IsNumbered (map view sessions.now)) }
{
    match NumberedLog::of(alloc, sessions) {
        Ok(log) => Ok(log),
        Err(_) => Err(AllocError),
    }
}

/// By numbers what is judged for these sessions; themselves where that is nothing.
pub fn number_judged<'a>(
    alloc: Global,
    sessions: &'a [Session],
    at: &'a LevelLog,
) -> Result<NumberedLog<'a>, AllocError>
    ensures numbered { IfOk result (IsNumbered (judged_in (map view sessions.now) at.now)) }
{
    match at {
        LevelLog::Itself | LevelLog::NoRoom(_) => number_log(alloc, sessions),
        LevelLog::Split(split) => number_log(alloc, split),
    }
}

/// The greatest identity that is written in these sessions.
fn greatest_identity(sessions: &[Session]) -> u64 {
    let mut greatest = 0;
    for session in sessions {
        for txn in &session.txns {
            for op in &txn.ops {
                if let Op::Write { wid, .. } = op {
                    greatest = greatest.max(*wid);
                }
            }
        }
    }
    greatest
}

/// What is proposed of these sessions, whose outcomes are known, by what is judged for them, and by
/// that in numbers. A part is one of these sessions; an order is one of what is judged. Where that
/// is nothing, a part is looked for that has no serial order.
pub fn propose_at<R: Threads + Clock + Eprint + Sync, P: Progress>(
    rt: &R,
    alloc: Global,
    sessions: &[Session],
    at: &LevelLog,
    log: &NumberedLog<'_>,
    left_out: &[Vec<bool>],
    means: &JudgeMeans,
    progress: &mut P,
) -> Result<Proposal, AllocError> {
    if let Level::Below(below) = means.level {
        return propose_below(alloc, below, sessions, left_out);
    }
    match at {
        LevelLog::Itself | LevelLog::NoRoom(_) => {
            propose(
                rt,
                alloc,
                sessions,
                log,
                left_out,
                &means.proposing(u64::MAX),
                progress,
            )
        }
        LevelLog::Split(split) => {
            let left_out = split_flags(alloc, sessions, left_out)?;
            let proposal = propose(
                rt,
                alloc,
                split,
                log,
                &left_out,
                &means.proposing(greatest_identity(sessions)),
                progress,
            )?;
            joined_proposal(alloc, sessions, proposal)
        }
    }
}
