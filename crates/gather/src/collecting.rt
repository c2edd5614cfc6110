//! The sessions of a log, put together from what workers read.

ghost use Rattle.std.specs.Prelude.{◌≡◌, ℕ, None, Some, IfOk, IfErr, IfSome, map, length};
ghost use Rattle.std.specs.Prelude.{slice_set, slice_index_or, ◌<◌};
ghost use Rattle.std.specs.List.{AllByRecursion};
ghost use Rattle.session_log.specs.Text.{view, IsLegal, IsHeldBy, log_text};
ghost use Rattle.session_log.specs.Version.{version_of};
ghost use Rattle.session_log.specs.Faults.{grammar_fault, IsFault};
ghost use Rattle.session_log.specs.Blocks.{blocks_of, size_fault};
ghost use Rattle.desk.specs.History.{IsLegal as IsLegalHistory};
ghost use Rattle.gather.specs.declared.messages.GatherEvent.TheVariants as event;
ghost use Rattle.gather.specs.declared.messages.GatherReply.TheVariants as reply;
ghost use Rattle.gather.specs.Pieces.{reading_fault};
ghost use Rattle.gather.specs.Steps.{opening_state, next_of, reply_of};
ghost use Rattle.desk.specs.Seats.{AreFresh, AreNumbered};
ghost use Rattle.gather.specs.Kept.{AreKept, ArePieces, nothing_found};

use crate::machine::GatherMachine;
use crate::messages::{GatherEvent, GatherReply};
use crate::parsed::Parsed;
use crate::worker::{Job, work};
use desk::desk::Desk;
use desk::gate::Gate;
use desk::history::Entry;
use desk::naming::Naming;
use desk::opened::Opened;
use desk::seat::{Left, Seat};
use desk::seat_no::Workers;
use session_log::{Block, LogFault, Session, Version, cut};
use std::alloc::{AllocError, Global};
use std::marker::Brand;
use std::sync::Wait;
use std::thread;
use std::thread::Threads;
use std::time::Clock;

/// The version of a log and its sessions in log order, or its first fault of size or grammar,
/// whatever the schedule and the number of workers. The version holds each of the sessions.
///
/// Each worker passes the gate before each of its turns. `Memory` may come in place of any fault.
pub fn collect<R: Threads + Wait + Clock + Sync, G: Gate>(
    rt: &R,
    alloc: Global,
    log: &[u8],
    workers: Workers,
    gate: &G,
) -> Result<(Version, Vec<Session>), LogFault>
    ensures accepted { IfOk result (λ _. size_fault log.now ≡ None) }
    ensures version { IfOk result (λ read. read.0 ≡ version_of log.now) }
    ensures legal { IfOk result (λ read. AllByRecursion IsLegal (map view read.1.items)) }
    ensures held { IfOk result (λ read.
        AllByRecursion (IsHeldBy (version_of log.now)) (map view read.1.items)) }
    ensures text { IfOk result (λ read.
        log.now ≡ log_text (version_of log.now) (map view read.1.items)) }
    ensures fault { IfErr result (λ f. IsFault f (reading_fault log.now)) }
{
    let (version, blocks) = cut(alloc, log)?;
    let found = read_pieces(rt, alloc, log, blocks, workers, gate)?;
    Ok((version, sessions_of(alloc, log, found)?))
}

/// What workers read of each block.
fn read_pieces<'a, R: Threads + Wait + Clock + Sync, G: Gate>(
    rt: &R,
    alloc: Global,
    log: &'a [u8],
    blocks: Vec<Block>,
    workers: Workers,
    gate: &G,
) -> Result<Vec<Option<Parsed<'a>>>, AllocError>
    requires { blocks.items ≡ blocks_of log.now }
    ensures count { IfOk result (λ found. length found.items ≡ length (blocks_of log.now)) }
    ensures pieces { IfOk result (λ found. ArePieces log.now found.items) }
{
    let machine = GatherMachine::opening(alloc, log, Vec::from_slice(alloc, &blocks)?)?;
    let opened = Opened::new(alloc, machine, workers)?;
    let history = run::<Brand, R, G>(rt, alloc, log, &blocks, gate, opened)?;
    by_block(alloc, &blocks, history)
}

/// The history of a desk on which each seat's worker has read what it could.
fn run<'a, J: Naming + Send + Sync, R: Threads + Wait + Clock + Sync, G: Gate>(
    rt: &R,
    alloc: Global,
    log: &'a [u8],
    blocks: &[Block],
    gate: &G,
    opened: Opened<GatherMachine<'a>>,
) -> Result<Vec<Entry<GatherEvent<'a>, GatherReply>>, AllocError>
    requires names { J.names ≡ opened.names }
    requires desk { J.desk ≡ opened.desk }
    requires blocks { blocks.now ≡ blocks_of log.now }
    requires opening { opened.machine ≡ opening_state log.now }
    ensures { IfOk result (λ h.
        IsLegalHistory next_of reply_of (opening_state log.now) h.items) }
{
    let (desk, seats) = Desk::<GatherMachine<'a>, J>::open(alloc, opened)?;
    let jobs = jobs_of(alloc, &desk, log, blocks, gate, seats)?;
    let lefts = work_all(rt, jobs)?;
    let closed = desk.close(lefts).unwrap();
    Ok(closed.history)
}

/// Each worker in a thread of its own, until it has left.
fn work_all<'b, 'a, J: Naming + Send + Sync, G: Gate, R: Threads + Wait + Clock + Sync>(
    rt: &R,
    jobs: Vec<Job<'b, 'a, J, G>>,
) -> Result<Vec<Left<GatherMachine<'a>, J>>, AllocError>
    ensures count { IfOk result (λ lefts. length lefts.items ≡ length jobs.entry.items) }
    ensures seats { IfOk result (λ lefts. (k : ℕ) (left : _) (job : _) → k < length jobs.entry.items
        → (slice_index_or lefts.items k left).number
        ≡ (slice_index_or jobs.entry.items k job).seat.number) }
{
    thread::map_vec(rt, jobs, &|job| work(rt, job))
}

fn jobs_of<'b, 'a, J: Naming, G: Gate>(
    alloc: Global,
    desk: &'b Desk<GatherMachine<'a>, J>,
    log: &'a [u8],
    blocks: &'b [Block],
    gate: &'b G,
    seats: Vec<Seat<GatherMachine<'a>, J>>,
) -> Result<Vec<Job<'b, 'a, J, G>>, AllocError>
    requires blocks { blocks.now ≡ blocks_of log.now }
    requires seats { AreFresh seats.items }
    ensures count { IfOk result (λ jobs. length jobs.items ≡ length seats.entry.items) }
    ensures numbers { IfOk result (λ jobs. AreNumbered (λ job. job.seat.number) jobs.items) }
{
    let mut jobs = Vec::with_capacity(alloc, seats.len())?;
    for seat in seats {
        jobs.push(Job {
            alloc,
            desk,
            seat,
            log,
            blocks,
            gate,
        })?;
    }
    Ok(jobs)
}

/// A piece that was kept for a block.
#[derive(Drop)]
struct Keeping<'a> {
    block: usize,
    parsed: Parsed<'a>,
}

/// What a history kept for each block.
fn by_block<'a>(
    alloc: Global,
    blocks: &[Block],
    history: Vec<Entry<GatherEvent<'a>, GatherReply>>,
) -> Result<Vec<Option<Parsed<'a>>>, AllocError>
    ensures count { IfOk result (λ found. length found.items ≡ length blocks.now) }
    ensures kept { IfOk result (λ found. AreKept history.entry.items found.items) }
{
    let mut found = none_yet(alloc, blocks)?;
    for step in history {
        if let Some(keeping) = kept_in(step) {
            place(&mut found, keeping);
        }
    }
    Ok(found)
}

#[tactic(auto, using(crate::proofs::Places::none_more))]
fn none_yet<'a>(alloc: Global, blocks: &[Block]) -> Result<Vec<Option<Parsed<'a>>>, AllocError>
    ensures { IfOk result (λ found. found.items ≡ nothing_found blocks.now) }
{
    let mut found = Vec::with_capacity(alloc, blocks.len())?;
    for _ in blocks {
        found.push(None)?;
    }
    Ok(found)
}

fn kept_in<'a>(step: Entry<GatherEvent<'a>, GatherReply>) -> Option<Keeping<'a>>
    ensures { IfSome result (λ keeping.
        (step.entry.event ≡ event.Put keeping.block keeping.parsed)
        × (step.entry.reply ≡ reply.Kept)) }
{
    let Entry {
        seat: _,
        event,
        reply,
    } = step;
    match event {
        GatherEvent::Put { block, parsed } => match reply {
            GatherReply::Kept => Some(Keeping { block, parsed }),
            _ => None,
        },
        _ => None,
    }
}

fn place<'a>(found: &mut Vec<Option<Parsed<'a>>>, keeping: Keeping<'a>)
    ensures { found.new.items
        ≡ slice_set found.old.items keeping.entry.block (Some keeping.entry.parsed) }
{
    let Keeping { block, parsed } = keeping;
    if block < found.len() {
        found[block] = Some(parsed);
    }
}

/// The sessions of all blocks, or the fault of the first block that has one. The log stands for the
/// contract alone.
fn sessions_of<'a>(
    alloc: Global,
    _log: &[u8],
    found: Vec<Option<Parsed<'a>>>,
) -> Result<Vec<Session>, LogFault>
    requires count { length found.items ≡ length (blocks_of _log.now) }
    requires pieces { ArePieces _log.now found.items }
    ensures legal { IfOk result (λ ss. AllByRecursion IsLegal (map view ss.items)) }
    ensures held { IfOk result (λ ss.
        AllByRecursion (IsHeldBy (version_of _log.now)) (map view ss.items)) }
    ensures text { IfOk result (λ ss. _log.now ≡ log_text (version_of _log.now)
        (map view ss.items)) }
    ensures fault { IfErr result (λ f. IsFault f (grammar_fault _log.now)) }
{
    let mut sessions = Vec::with_capacity(alloc, found.len())?;
    for piece in found {
        let Some(parsed) = piece else {
            return Err(LogFault::Memory);
        };
        sessions.push(parsed.into_outcome()?)?;
    }
    Ok(sessions)
}
