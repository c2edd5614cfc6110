//! A log whose outcomes are known, judged by what is proposed of it.

ghost use Rattle.std.specs.Prelude.{◌≡◌, List, map, IfOk, IfSome};
ghost use Rattle.std.specs.List.{AllByRecursion};
ghost use Rattle.session_log.specs.Text.{ClientSession, IsLegal, view};
ghost use Rattle.log_definitions.specs.Serial.{IsSerialOrder};
ghost use Rattle.log_definitions.specs.Unknown.{resolved};
ghost use Rattle.log_laws.specs.Logs.{IsSoundLog, IsLog};
ghost use Rattle.log_parts.specs.Picked.{flags_view};
ghost use Rattle.judging.specs.Levels.{IsJudgedAt, IsLogAt, IsNumbered, judged_in};
ghost use Rattle.judging.specs.Judges.{IsRefutedLog, IsUndecidedBy, IsTried, IsVerdict};
ghost use Rattle.judging.specs.Finds.{IsAttempt, IsSaid, IsWhole};
ghost use Rattle.judging.specs.Made.{IsMade, IsToldPart};
ghost use Rattle.judging.specs.declared.level.Level.TheVariants as level;

use crate::below::{judge_level_order, propose_below};
use crate::flags::{copy_flags, count_flags};
use crate::found::{Found, Seen, see_log};
use crate::judged::{Finding, RefutedPart, Tried, Verdict, Why};
use crate::level::{Level, LevelLog};
use crate::means::JudgeMeans;
use crate::shrinking::smaller;
use crate::trial::{Attempt, Trial, try_part};
use log_parts::copy_log;
use numbered_log::NumberedLog;
use order_proposals::{Flags, Proposal, Stuck};
use progress::{Progress, Stage};
use serial_checks::is_serial;
use session_history::{NodeIx, NodeLine};
use session_log::Session;
use std::alloc::{AllocError, Global};
use std::io::Eprint;
use std::sync::Wait;
use std::thread::Threads;
use std::time::Clock;

/// What is found of a log as a whole.
#[derive(Drop)]
pub enum Whole {
    /// It is decided.
    Done(Verdict),
    /// It is not, and why.
    Open(Why),
}

/// The proposed order, where it is a serial order of this log.
fn judge_order(
    alloc: Global,
    log: &NumberedLog<'_>,
    order: &[usize],
) -> Result<Option<Vec<usize>>, AllocError>
    ensures { IfOk result (λ found. IfSome found (λ order. (judged : List ClientSession)
        → IsLog judged → IsNumbered judged log.now → IsSerialOrder judged order.items)) }
{
    let mut copy = Vec::new(alloc);
    copy.extend_from_slice(order)?;
    if is_serial(alloc, log, &copy)? {
        return Ok(Some(copy));
    }
    Ok(None)
}

/// What the part of these flags says of a log. Where it has no order, it is made smaller.
pub fn judge_part<R: Threads + Wait + Clock + Sync>(
    rt: &R,
    alloc: Global,
    sessions: &[Session],
    flags: &[Vec<bool>],
    means: &JudgeMeans,
) -> Result<Attempt, AllocError>
    requires log { IsLog (map view sessions.now) }
    ensures { IfOk result (IsAttempt means.now (map view sessions.now) (flags_view flags.now)) }
{
    let Trial { attempt, nodes } = try_part(rt, alloc, sessions, copy_flags(alloc, flags)?, means)?;
    match attempt {
        Attempt::Refuted(told) => {
            let less = smaller(rt, alloc, sessions, told, &nodes, means)?;
            Ok(Attempt::Refuted(less))
        }
        Attempt::Open(tried) => Ok(Attempt::Open(tried)),
    }
}

/// The part of these flags, where it shows that a log has no order.
pub fn shown_by<R: Threads + Wait + Clock + Sync>(
    rt: &R,
    alloc: Global,
    sessions: &[Session],
    flags: Option<&Flags>,
    means: &JudgeMeans,
) -> Result<Option<RefutedPart>, AllocError>
    requires log { IsLog (map view sessions.now) }
    ensures { IfOk result (λ found. IfSome found (IsToldPart means.now.level (map view sessions.now))) }
{
    let Some(flags) = flags else {
        return Ok(None);
    };
    match judge_part(rt, alloc, sessions, flags, means)? {
        Attempt::Refuted(told) => Ok(Some(told)),
        Attempt::Open(_) => Ok(None),
    }
}

/// The numbers of the nodes of a line.
fn numbers_of(alloc: Global, line: &NodeLine) -> Result<Vec<usize>, AllocError>
    ensures { IfOk result (λ numbers. numbers.items ≡ line.now) }
{
    let mut numbers = Vec::new(alloc);
    for node in line.nodes() {
        numbers.push(node.get())?;
    }
    Ok(numbers)
}

/// All of a log, which has no order, or a smaller part of it.
fn refuted_whole<R: Threads + Wait + Clock + Sync>(
    rt: &R,
    alloc: Global,
    sessions: &[Session],
    finding: Finding,
    nodes: &[NodeIx],
    means: &JudgeMeans,
) -> Result<RefutedPart, AllocError>
    requires log { IsLog (map view sessions.now) }
    requires refuted { IsRefutedLog means.now.level (map view sessions.now) finding }
    ensures { IfOk result (IsToldPart means.now.level (map view sessions.now)) }
{
    let part = copy_log(alloc, sessions)?;
    let told = RefutedPart {
        part,
        flags: None,
        finding,
    };
    smaller(rt, alloc, sessions, told, nodes, means)
}

/// What is found of a log that is decided as a whole. Where it has no order, it is a part of itself.
fn judge_small<R: Threads + Wait + Clock + Sync>(
    rt: &R,
    alloc: Global,
    sessions: &[Session],
    means: &JudgeMeans,
) -> Result<Whole, AllocError>
    requires log { IsLog (map view sessions.now) }
    ensures { IfOk result (IsWhole means.now (map view sessions.now)) }
{
    let Seen { found, nodes } = see_log(rt, alloc, sessions, means)?;
    match found {
        Found::Serial(line) => {
            let order = numbers_of(alloc, &line)?;
            Ok(Whole::Done(Verdict::Serializable(order)))
        }
        Found::Refuted(finding) => {
            let told = refuted_whole(rt, alloc, sessions, finding, &nodes, means)?;
            Ok(Whole::Done(Verdict::NotSerializable(told)))
        }
        Found::Undecided(why) => Ok(Whole::Open(why)),
    }
}

/// What is said of a log that is not decided so far: a part in which the finder stuck is decided
/// where the whole is too large.
fn judge_stuck<R: Threads + Wait + Clock + Sync>(
    rt: &R,
    alloc: Global,
    sessions: &[Session],
    proposal: &Proposal,
    why: Why,
    tried: Tried,
    means: &JudgeMeans,
) -> Result<Verdict, AllocError>
    requires log { IsLog (map view sessions.now) }
    requires why { IsUndecidedBy means.now (map view sessions.now) why }
    requires tried { IsTried means.now (map view sessions.now) tried }
    ensures { IfOk result (IsSaid means.now (map view sessions.now)) }
{
    match (proposal, why) {
        (Proposal::Stuck(stuck), Why::TooLarge { .. }) => {
            match judge_part(rt, alloc, sessions, &stuck.around, means)? {
                Attempt::Refuted(told) => Ok(Verdict::NotSerializable(told)),
                Attempt::Open(tried) => Ok(Verdict::Undecided { why, tried }),
            }
        }
        _ => Ok(Verdict::Undecided { why, tried }),
    }
}

/// What is said of a log of which nothing proposed says anything.
fn judge_rest<R: Threads + Wait + Clock + Sync>(
    rt: &R,
    alloc: Global,
    sessions: &[Session],
    proposal: &Proposal,
    tried: Tried,
    means: &JudgeMeans,
) -> Result<Verdict, AllocError>
    requires log { IsLog (map view sessions.now) }
    requires tried { IsTried means.now (map view sessions.now) tried }
    ensures { IfOk result (IsSaid means.now (map view sessions.now)) }
{
    match judge_small(rt, alloc, sessions, means)? {
        Whole::Done(verdict) => Ok(verdict),
        Whole::Open(why) => judge_stuck(rt, alloc, sessions, proposal, why, tried, means),
    }
}

/// What a proposed order says of the log that is judged, and what else is to be said where it is
/// none.
fn judge_by_order<R: Threads + Wait + Clock + Sync>(
    rt: &R,
    alloc: Global,
    sessions: &[Session],
    judged: &[Session],
    log: &NumberedLog<'_>,
    order: &[usize],
    proposal: &Proposal,
    means: &JudgeMeans,
) -> Result<Verdict, AllocError>
    requires log { IsLog (map view sessions.now) }
    requires judged { IsJudgedAt means.now.level (map view sessions.now) (map view judged.now) }
    requires numbered { IsNumbered (map view judged.now) log.now }
    ensures { IfOk result (IsSaid means.now (map view sessions.now)) }
{
    match judge_order(alloc, log, order)? {
        Some(order) => Ok(Verdict::Serializable(order)),
        None => judge_rest(rt, alloc, sessions, proposal, Tried::NotSerial, means),
    }
}

/// What a proposed part says, and what else is to be said where it says nothing.
fn judge_by_part<R: Threads + Wait + Clock + Sync>(
    rt: &R,
    alloc: Global,
    sessions: &[Session],
    flags: &[Vec<bool>],
    proposal: &Proposal,
    means: &JudgeMeans,
) -> Result<Verdict, AllocError>
    requires log { IsLog (map view sessions.now) }
    ensures { IfOk result (IsSaid means.now (map view sessions.now)) }
{
    match judge_part(rt, alloc, sessions, flags, means)? {
        Attempt::Refuted(told) => Ok(Verdict::NotSerializable(told)),
        Attempt::Open(tried) => judge_rest(rt, alloc, sessions, proposal, tried, means),
    }
}

/// What an order that is proposed at a level below prefix says, and what else is to be said where it
/// is none.
fn judge_by_level_order<R: Threads + Wait + Clock + Sync>(
    rt: &R,
    alloc: Global,
    sessions: &[Session],
    below: level_laws::Level,
    order: &[usize],
    proposal: &Proposal,
    means: &JudgeMeans,
) -> Result<Verdict, AllocError>
    requires log { IsLog (map view sessions.now) }
    requires level { means.now.level ≡ level.Below below }
    ensures { IfOk result (IsSaid means.now (map view sessions.now)) }
{
    match judge_level_order(alloc, below, sessions, order)? {
        Some(order) => Ok(Verdict::Serializable(order)),
        None => judge_rest(rt, alloc, sessions, proposal, Tried::NotSerial, means),
    }
}

/// What a proposed order says of a log that is judged itself.
fn judge_itself<R: Threads + Wait + Clock + Sync>(
    rt: &R,
    alloc: Global,
    sessions: &[Session],
    log: &NumberedLog<'_>,
    order: &[usize],
    proposal: &Proposal,
    means: &JudgeMeans,
) -> Result<Verdict, AllocError>
    requires log { IsLog (map view sessions.now) }
    requires numbered { IsNumbered (map view sessions.now) log.now }
    ensures { IfOk result (IsSaid means.now (map view sessions.now)) }
{
    match means.level {
        Level::Serializable => {
            judge_by_order(rt, alloc, sessions, sessions, log, order, proposal, means)
        }
        Level::Below(below) => {
            judge_by_level_order(rt, alloc, sessions, below, order, proposal, means)
        }
        Level::Snapshot | Level::Prefix => {
            judge_rest(rt, alloc, sessions, proposal, Tried::Nothing, means)
        }
    }
}

/// What a proposed order says of what is judged for a log.
fn judge_ordered<R: Threads + Wait + Clock + Sync>(
    rt: &R,
    alloc: Global,
    sessions: &[Session],
    at: &LevelLog,
    log: &NumberedLog<'_>,
    order: &[usize],
    proposal: &Proposal,
    means: &JudgeMeans,
) -> Result<Verdict, AllocError>
    requires log { IsLog (map view sessions.now) }
    requires at { IsLogAt means.now.level (map view sessions.now) at.now }
    requires numbered { IsNumbered (judged_in (map view sessions.now) at.now) log.now }
    ensures { IfOk result (IsSaid means.now (map view sessions.now)) }
{
    match at {
        LevelLog::Itself => judge_itself(rt, alloc, sessions, log, order, proposal, means),
        LevelLog::Split(split) => {
            judge_by_order(rt, alloc, sessions, split, log, order, proposal, means)
        }
        LevelLog::NoRoom(_) => judge_rest(rt, alloc, sessions, proposal, Tried::Nothing, means),
    }
}

/// What is said of a log in which the finder stuck: the part by which neither of two orders can be is
/// looked at first.
fn judge_where_stuck<R: Threads + Wait + Clock + Sync>(
    rt: &R,
    alloc: Global,
    sessions: &[Session],
    stuck: &Stuck,
    proposal: &Proposal,
    means: &JudgeMeans,
) -> Result<Verdict, AllocError>
    requires log { IsLog (map view sessions.now) }
    ensures { IfOk result (IsSaid means.now (map view sessions.now)) }
{
    match shown_by(rt, alloc, sessions, stuck.against.as_ref(), means)? {
        Some(told) => Ok(Verdict::NotSerializable(told)),
        None => judge_rest(rt, alloc, sessions, proposal, Tried::Nothing, means),
    }
}

/// What is said of a log whose outcomes are known, by what is proposed of it, and by what is judged
/// for it in numbers.
fn judge_proposed<R: Threads + Wait + Clock + Sync>(
    rt: &R,
    alloc: Global,
    sessions: &[Session],
    at: &LevelLog,
    log: &NumberedLog<'_>,
    proposal: &Proposal,
    means: &JudgeMeans,
) -> Result<Verdict, AllocError>
    requires log { IsLog (map view sessions.now) }
    requires at { IsLogAt means.now.level (map view sessions.now) at.now }
    requires numbered { IsNumbered (judged_in (map view sessions.now) at.now) log.now }
    ensures { IfOk result (IsSaid means.now (map view sessions.now)) }
{
    match proposal {
        Proposal::Order(order) => judge_ordered(
            rt, alloc, sessions, at, log, order, proposal, means,
        ),
        Proposal::Part(flags) => judge_by_part(rt, alloc, sessions, flags, proposal, means),
        Proposal::Stuck(stuck) => judge_where_stuck(rt, alloc, sessions, stuck, proposal, means),
        Proposal::NotTried(_) => judge_rest(rt, alloc, sessions, proposal, Tried::Nothing, means),
    }
}

/// The transactions that evidence against causal consistency names, where some is found.
fn causal_flags(alloc: Global, sessions: &[Session]) -> Result<Option<Flags>, AllocError> {
    match propose_below(alloc, level_laws::Level::Causal, sessions, &[])? {
        Proposal::Part(flags) => Ok(Some(flags)),
        Proposal::Order(_) | Proposal::Stuck(_) | Proposal::NotTried(_) => Ok(None),
    }
}

/// Whether a log is not decided at a level above causal consistency.
fn is_open_above_causal(verdict: &Verdict, level: Level) -> bool {
    matches!(verdict, Verdict::Undecided { .. }) && !matches!(level, Level::Below(_))
}

/// What is said of a log; where it is not decided, by a part that breaks causal consistency, if there
/// is one: to find it takes no search, and no stronger level allows it.
fn or_by_causal<R: Threads + Wait + Clock + Sync>(
    rt: &R,
    alloc: Global,
    sessions: &[Session],
    verdict: Verdict,
    means: &JudgeMeans,
) -> Result<Verdict, AllocError>
    requires log { IsLog (map view sessions.now) }
    requires said { IsSaid means.now (map view sessions.now) verdict }
    ensures { IfOk result (IsSaid means.now (map view sessions.now)) }
{
    if !is_open_above_causal(&verdict, means.level) || means.is_over(rt) {
        return Ok(verdict);
    }
    let flags = causal_flags(alloc, sessions)?;
    match shown_by(rt, alloc, sessions, flags.as_ref(), means)? {
        Some(told) => Ok(Verdict::NotSerializable(told)),
        None => Ok(verdict),
    }
}

/// What is said of a log whose outcomes are known, by what is proposed of it, and by what is judged
/// for it in numbers; else by what it shows of causal consistency.
pub fn judge_known<R: Threads + Wait + Clock + Sync>(
    rt: &R,
    alloc: Global,
    sessions: &[Session],
    at: &LevelLog,
    log: &NumberedLog<'_>,
    proposal: &Proposal,
    means: &JudgeMeans,
) -> Result<Verdict, AllocError>
    requires log { IsLog (map view sessions.now) }
    requires at { IsLogAt means.now.level (map view sessions.now) at.now }
    requires numbered { IsNumbered (judged_in (map view sessions.now) at.now) log.now }
    ensures { IfOk result (IsSaid means.now (map view sessions.now)) }
{
    let verdict = judge_proposed(rt, alloc, sessions, at, log, proposal, means)?;
    or_by_causal(rt, alloc, sessions, verdict, means)
}

/// Tells how many transactions are searched, where a part is proposed.
pub fn tell_search<R: Clock + Eprint, P: Progress>(rt: &R, proposal: &Proposal, progress: &mut P) {
    let flags = match proposal {
        Proposal::Part(flags) => flags,
        Proposal::Stuck(stuck) => &stuck.around,
        Proposal::Order(_) | Proposal::NotTried(_) => return,
    };
    let transactions = count_flags(flags);
    progress.tell(rt, Stage::Searching { transactions });
}

/// What is said of a log by what is proposed of its sessions with their outcomes known, which are
/// these, and of what is judged for them, with its numbers. Whatever is proposed, what is said is so.
pub fn judge<R: Threads + Wait + Clock + Eprint + Sync, P: Progress>(
    rt: &R,
    alloc: Global,
    sessions: &[Session],
    at: &LevelLog,
    log: &NumberedLog<'_>,
    proposal: &Proposal,
    means: &JudgeMeans,
    progress: &mut P,
) -> Result<Verdict, AllocError>
    requires log { IsLog (map view sessions.now) }
    requires at { IsLogAt means.now.level (map view sessions.now) at.now }
    requires numbered { IsNumbered (judged_in (map view sessions.now) at.now) log.now }
    ensures verdict { IfOk result (λ verdict. (ss : List ClientSession) → AllByRecursion IsLegal ss
        → IsSoundLog ss → map view sessions.now ≡ resolved ss
        → IsVerdict means.now ss verdict) }
    ensures made { IfOk result (IsMade (map view sessions.now)) }
{
    tell_search(rt, proposal, progress);
    judge_known(rt, alloc, sessions, at, log, proposal, means)
}
