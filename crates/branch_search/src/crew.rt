//! All workers of a search.

ghost use Rattle.std.specs.Prelude.{◌≡◌, ℕ, ◌<◌, Some, IfOk, length, slice_index_or};
ghost use Rattle.desk.specs.History.{IsReached};
ghost use Rattle.desk.specs.Seats.{AreFresh, AreNumbered};
ghost use Rattle.cube_laws.specs.Steps.{next_of, reply_of};

use crate::worker::{Job, Task, work};
use branching::Strategy;
use cube_machine::CubeMachine;
use desk::desk::{Closed, Desk};
use desk::gate::Gate;
use desk::naming::Naming;
use desk::opened::Opened;
use desk::seat::{Left, Seat};
use std::alloc::{AllocError, Global};
use std::sync::Wait;
use std::thread;
use std::thread::Threads;
use std::time::Clock;

/// The machine and the history of a desk at which each seat's worker has searched.
pub fn run<'a, S: Strategy, J: Naming + Send + Sync, G: Gate, R: Threads + Wait + Clock + Sync>(
    rt: &R,
    alloc: Global,
    opened: Opened<CubeMachine<'a>>,
    task: &Task<'_, S>,
    gate: &G,
) -> Result<Closed<CubeMachine<'a>>, AllocError>
    requires names { J.names ≡ opened.names }
    requires desk { J.desk ≡ opened.desk }
    ensures { IfOk result (λ c.
        IsReached next_of reply_of (Some opened.entry.machine) c.history.items c.machine) }
{
    let (desk, seats) = Desk::<CubeMachine<'a>, J>::open(alloc, opened)?;
    let jobs = jobs_of(alloc, &desk, seats, task, gate)?;
    let lefts = work_all(rt, jobs)?;
    let closed = desk.close(lefts).unwrap();
    Ok(closed)
}

/// Each worker in a thread of its own, until it has left.
fn work_all<
    'b,
    'a,
    S: Strategy,
    J: Naming + Send + Sync,
    G: Gate,
    R: Threads + Wait + Clock + Sync,
>(rt: &R, jobs: Vec<Job<'b, 'a, S, J, G>>) -> Result<Vec<Left<CubeMachine<'a>, J>>, AllocError>
    ensures count { IfOk result (λ lefts. length lefts.items ≡ length jobs.entry.items) }
    ensures seats { IfOk result (λ lefts. (k : ℕ) (left : _) (job : _) → k < length jobs.entry.items
        → (slice_index_or lefts.items k left).number
        ≡ (slice_index_or jobs.entry.items k job).seat.number) }
{
    thread::map_vec(rt, jobs, &|job| work(rt, job))
}

/// A job for each seat, with what its worker is lent.
pub fn jobs_of<'b, 'a, S: Strategy, J: Naming, G: Gate>(
    alloc: Global,
    desk: &'b Desk<CubeMachine<'a>, J>,
    seats: Vec<Seat<CubeMachine<'a>, J>>,
    task: &'b Task<'b, S>,
    gate: &'b G,
) -> Result<Vec<Job<'b, 'a, S, J, G>>, AllocError>
    requires seats { AreFresh seats.items }
    ensures count { IfOk result (λ jobs. length jobs.items ≡ length seats.entry.items) }
    ensures numbers { IfOk result (λ jobs. AreNumbered (λ job. job.seat.number) jobs.items) }
{
    let mut jobs = Vec::with_capacity(alloc, seats.len())?;
    for seat in seats {
        jobs.push(Job {
            alloc,
            desk,
            seat,
            task,
            gate,
        })?;
    }
    Ok(jobs)
}
