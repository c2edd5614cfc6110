//! A log of any length, judged by what is proposed of it.

ghost use Rattle.std.specs.Prelude.{◌≡◌, List, length, map, IfOk};
ghost use Rattle.std.specs.List.{AllByRecursion};
ghost use Rattle.session_log.specs.Text.{ClientSession, IsLegal, view};
ghost use Rattle.log_definitions.specs.Unknown.{resolved};
ghost use Rattle.log_definitions.specs.WellFormed.{keys_in};
ghost use Rattle.log_laws.specs.Logs.{IsSoundLog, IsLog};
ghost use Rattle.judging.specs.Levels.{IsLogAt, IsNumbered, judged_in};
ghost use Rattle.judging.specs.Judges.{IsVerdict};
ghost use Rattle.judging.specs.Finds.{IsSaid};
ghost use Rattle.judging.specs.Made.{IsMade};

use crate::judged::{Tried, Verdict, Why};
use crate::judging::{judge, judge_known, shown_by, tell_search};
use crate::level::{LevelLog, log_at, number_judged, number_log, propose_at};
use crate::means::JudgeMeans;
use known_outcomes::resolve;
use numbered_log::NumberedLog;
use order_proposals::{Flags, Proposal};
use progress::Progress;
use session_log::Session;
use std::alloc::{AllocError, Global};
use std::io::Eprint;
use std::sync::Wait;
use std::thread::Threads;
use std::time::Clock;

/// A log that was judged.
#[derive(Drop)]
pub struct Judged {
    /// Its sessions, with their outcomes known.
    pub sessions: Vec<Session>,
    /// What is judged for them.
    pub at: LevelLog,
    /// What was proposed of them.
    pub proposal: Proposal,
    pub verdict: Verdict,
    /// How many keys it has.
    pub keys: usize,
}

/// How many keys these sessions have, where this is by numbers what is judged for them.
fn count_keys(
    alloc: Global,
    sessions: &[Session],
    at: &LevelLog,
    log: &NumberedLog<'_>,
) -> Result<usize, AllocError>
    requires log { IsLog (map view sessions.now) }
    requires numbered { IsNumbered (judged_in (map view sessions.now) at.now) log.now }
    ensures { IfOk result (λ count. count ≡ length (keys_in (map view sessions.now))) }
{
    match at {
        LevelLog::Itself | LevelLog::NoRoom(_) => Ok(log.keys.len()),
        LevelLog::Split(_) => Ok(number_log(alloc, sessions)?.keys.len()),
    }
}

/// Judges a log of any length.
pub fn judge_whole<R: Threads + Wait + Clock + Eprint + Sync, P: Progress>(
    rt: &R,
    alloc: Global,
    sessions: Vec<Session>,
    means: &JudgeMeans,
    progress: &mut P,
) -> Result<Judged, AllocError>
    requires legal { AllByRecursion IsLegal (map view sessions.items) }
    requires sound { IsSoundLog (map view sessions.items) }
    ensures resolved { IfOk result (λ judged. map view judged.sessions.items
        ≡ resolved (map view sessions.items)) }
    ensures at { IfOk result (λ judged.
        IsLogAt means.now.level (resolved (map view sessions.items)) judged.at) }
    ensures verdict { IfOk result (λ judged.
        IsVerdict means.now (map view sessions.items) judged.verdict) }
    ensures made { IfOk result (λ judged.
        IsMade (resolved (map view sessions.items)) judged.verdict) }
    ensures keys { IfOk result (λ judged. judged.keys
        ≡ length (keys_in (map view sessions.items))) }
{
    let sessions = resolve(alloc, sessions)?;
    let at = log_at(alloc, means.level, &sessions)?;
    let log = number_judged(alloc, &sessions, &at)?;
    let keys = count_keys(alloc, &sessions, &at, &log)?;
    let proposal = propose_at(rt, alloc, &sessions, &at, &log, &[], means, progress)?;
    let verdict = judge(rt, alloc, &sessions, &at, &log, &proposal, means, progress)?;
    drop(log);
    Ok(Judged {
        sessions,
        at,
        proposal,
        verdict,
        keys,
    })
}

/// What is said of a log whose outcomes are known: first of the part of these flags. Where the time
/// is up, nothing else is begun.
fn judge_anew<R: Threads + Wait + Clock + Eprint + Sync, P: Progress>(
    rt: &R,
    alloc: Global,
    sessions: &[Session],
    first: Option<&Flags>,
    means: &JudgeMeans,
    progress: &mut P,
) -> Result<Verdict, AllocError>
    requires log { IsLog (map view sessions.now) }
    ensures { IfOk result (IsSaid means.now (map view sessions.now)) }
{
    if let Some(told) = shown_by(rt, alloc, sessions, first, means)? {
        return Ok(Verdict::NotSerializable(told));
    }
    if means.is_over(rt) {
        let (why, tried) = (Why::NotBegun, Tried::Nothing);
        return Ok(Verdict::Undecided { why, tried });
    }
    let at = log_at(alloc, means.level, sessions)?;
    let log = number_judged(alloc, sessions, &at)?;
    let proposal = propose_at(rt, alloc, sessions, &at, &log, &[], means, progress)?;
    tell_search(rt, &proposal, progress);
    judge_known(rt, alloc, sessions, &at, &log, &proposal, means)
}

/// Judges a log by its sessions with their outcomes known, which are these: a part that may show
/// that it has no order is looked at first.
pub fn judge_known_log<R: Threads + Wait + Clock + Eprint + Sync, P: Progress>(
    rt: &R,
    alloc: Global,
    sessions: &[Session],
    first: Option<&Flags>,
    means: &JudgeMeans,
    progress: &mut P,
) -> Result<Verdict, AllocError>
    requires log { IsLog (map view sessions.now) }
    ensures verdict { IfOk result (λ verdict. (ss : List ClientSession) → AllByRecursion IsLegal ss
        → IsSoundLog ss → map view sessions.now ≡ resolved ss
        → IsVerdict means.now ss verdict) }
    ensures made { IfOk result (IsMade (map view sessions.now)) }
{
    judge_anew(rt, alloc, sessions, first, means, progress)
}
