//! The sessions of a long log, put together from what workers read.

ghost use Rattle.std.specs.Prelude.{◌≡◌, ◌<◌, ◌^◌, ℕ, None, Some, IfOk, IfErr, MatchResult};
ghost use Rattle.std.specs.Prelude.{Contains, length, map, slice_get, slice_index_or};
ghost use Rattle.std.specs.List.{flat_map, AllByRecursion};
ghost use Rattle.session_log.specs.Text.{view};
ghost use Rattle.session_log.specs.Version.{version_of, first_line};
ghost use Rattle.session_log.specs.Faults.{IsFault, grammar_fault};
ghost use Rattle.session_log.specs.Blocks.{blocks_of};
ghost use Rattle.log_definitions.specs.WellFormed.{log_lines};
ghost use Rattle.long_log_definitions.specs.LongLog.{IsLongLog, IsLongLogFault, list_fault};
ghost use Rattle.long_reading.specs.Reading.{AreRead, fault_of_blocks};

use crate::blocks::cut_long;
use crate::repeats::first_repeated;
use crate::shares::shares;
use crate::stated::Statements;
use desk::seat_no::Workers;
use session_log::{Block, LogFault, Session, Version, parse_block};
use std::alloc::Global;
use std::thread;
use std::thread::Threads;

/// The version of a long log and its sessions in log order, or its first fault, whatever the number
/// of workers and the schedule.
pub fn read_long_log<R: Threads + Sync>(
    rt: &R,
    alloc: Global,
    log: &[u8],
    workers: Workers,
) -> Result<(Version, Vec<Session>), LogFault>
    ensures version { IfOk result (λ read. read.0 ≡ version_of log.now) }
    ensures accepted { IfOk result (λ read. IsLongLog log.now (map view read.1.items)) }
    ensures refused { IfErr result (IsLongLogFault log.now) }
{
    let (version, blocks) = cut_long(alloc, log)?;
    let sessions = read_blocks(rt, alloc, log, &blocks, workers)?;
    check_numbers(alloc, version, &sessions)?;
    Ok((version, sessions))
}

/// The sessions of the blocks of a log, each worker's share read in a thread of its own.
fn read_blocks<R: Threads + Sync>(
    rt: &R,
    alloc: Global,
    log: &[u8],
    blocks: &[Block],
    workers: Workers,
) -> Result<Vec<Session>, LogFault>
    requires { blocks.now ≡ blocks_of log.now }
    ensures read { IfOk result (λ ss. AreRead log.now (blocks_of log.now) (map view ss.items)) }
    ensures fault { IfErr result (λ f. IsFault f (grammar_fault log.now)) }
{
    let parts = shares(alloc, blocks, log.len(), workers)?;
    let parts = parts.as_slice();
    let part = |worker: usize| -> Result<Vec<Session>, LogFault>
        requires { (worker < length parts.now)
            × (flat_map (λ part. part.now) parts.now ≡ blocks_of log.now) }
        ensures { (blocks : _) → slice_get (map (λ part. part.now) parts.entry.now) worker
            ≡ Some blocks → MatchResult result
            (λ ss. AreRead log.entry.now blocks (map view ss.items))
            (λ f. IsFault f (fault_of_blocks log.entry.now blocks)) }
    { read_share(alloc, log, parts[worker]) };
    let read = thread::map_indices(rt, alloc, parts.len(), &part)?;
    joined(alloc, log, parts, read)
}

/// The sessions of blocks of a log, one after the other.
fn read_share(alloc: Global, log: &[u8], blocks: &[Block]) -> Result<Vec<Session>, LogFault>
    requires { AllByRecursion (Contains (blocks_of log.now)) blocks.now }
    ensures { MatchResult result (λ ss. AreRead log.now blocks.now (map view ss.items))
        (λ f. IsFault f (fault_of_blocks log.now blocks.now)) }
{
    let mut sessions = Vec::with_capacity(alloc, blocks.len())?;
    for block in blocks {
        sessions.push(parse_block(alloc, log, block)?)?;
    }
    Ok(sessions)
}

/// The sessions of all parts, or the fault of the first part that has one. The log stands for the
/// contract alone.
fn joined(
    alloc: Global,
    _log: &[u8],
    parts: &[&[Block]],
    read: Vec<Result<Vec<Session>, LogFault>>,
) -> Result<Vec<Session>, LogFault>
    requires whole { flat_map (λ part. part.now) parts.now ≡ blocks_of _log.now }
    requires count { length read.items ≡ length parts.now }
    requires read { (i : ℕ) (d : _) (blocks : _)
        → slice_get (map (λ part. part.now) parts.now) i ≡ Some blocks →
        MatchResult (slice_index_or read.items i d)
        (λ ss. AreRead _log.now blocks (map view ss.items))
        (λ f. IsFault f (fault_of_blocks _log.now blocks)) }
    ensures read { IfOk result (λ ss. AreRead _log.now (blocks_of _log.now) (map view ss.items)) }
    ensures fault { IfErr result (λ f. IsFault f (grammar_fault _log.now)) }
{
    let mut sessions = Vec::new(alloc);
    for part in read {
        let mut part = part?;
        sessions.append(&mut part)?;
    }
    Ok(sessions)
}

/// Refuses sessions of which two have one number or two writes one identity, at the first line
/// whose number stood before.
fn check_numbers(alloc: Global, version: Version, sessions: &[Session]) -> Result<(), LogFault>
    requires room { length (log_lines (map view sessions.now)) < 2 ^ 63 }
    ensures accepted { IfOk result (λ _.
        list_fault (first_line version) (map view sessions.now) ≡ None) }
    ensures fault { IfErr result (λ f.
        IsFault f (list_fault (first_line version) (map view sessions.now))) }
{
    let mut stated = Statements::of(alloc, version.first_line(), sessions)?;
    if let Some(line) = first_repeated(stated.sessions.as_mut_slice()) {
        return Err(LogFault::SessionTwice { line });
    }
    if let Some(line) = first_repeated(stated.writes.as_mut_slice()) {
        return Err(LogFault::WriteTwice { line });
    }
    Ok(())
}
