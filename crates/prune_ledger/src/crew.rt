//! A round of several workers.

ghost use Rattle.std.specs.Prelude.{◌≡◌, ◌⊎◌, ℕ, ◌+◌, ◌<◌, List, length, map, Some, IfOk};
ghost use Rattle.std.specs.Prelude.{slice_get, slice_index_or, true};
ghost use Rattle.std.specs.List.{AllByRecursion, Contains};
ghost use Rattle.serializability.specs.Polygraph.{Edge, Choice};
ghost use Rattle.desk.specs.History.{IsReached};
ghost use Rattle.desk.specs.Seats.{AreFresh};
ghost use Rattle.prune_ledger.specs.Steps.{next_of, reply_of};
ghost use Rattle.prune_ledger.specs.Rounds.{IsOpenIn};
ghost use Rattle.prune_ledger.specs.Pruned.{AreOpen};

use crate::machine::PruneMachine;
use crate::round::{Task, work};
use crate::rowed::RowedGraph;
use desk::desk::{Closed, Desk};
use desk::gate::Gate;
use desk::naming::Naming;
use desk::opened::Opened;
use desk::seat::{Left, Seat};
use polygraph::{ChoiceIx, Polygraph};
use std::alloc::{AllocError, Global};
use std::sync::Wait;
use std::thread;
use std::thread::Threads;
use std::time::Clock;

/// What each seat's round gave, in the order of the seats.
fn all_work<J: Naming + Send + Sync, G: Gate, R: Threads + Wait + Clock + Sync>(
    task: &Task<'_, J, G, R>,
    seats: Vec<Seat<PruneMachine, J>>,
) -> Result<Vec<(Left<PruneMachine, J>, Result<Vec<ChoiceIx>, AllocError>)>, AllocError>
    requires nodes { task.now.start.now.nodes ≡ task.now.polygraph.now.nodes }
    requires fresh { AreFresh seats.items }
    ensures len { IfOk result (λ v. length v.items ≡ length seats.items) }
    ensures numbers { IfOk result (λ v. (i : ℕ) (d : _) → i < length seats.items →
        (slice_index_or v.items i d).0.number ≡ i + 1) }
    ensures each { IfOk result (λ v. (i : ℕ) (d : _) → i < length seats.items →
        IfOk (slice_index_or v.items i d).1 (λ passed. AllByRecursion
        (IsOpenIn task.now.start.now.edges task.now.polygraph.now.choices) passed.items)) }
{
    thread::map_vec(
        task.rt,
        seats,
        &|seat| -> (Left<PruneMachine, J>, Result<Vec<ChoiceIx>, AllocError>)
            requires { task.now.start.now.nodes ≡ task.now.polygraph.now.nodes }
            ensures number { result.0.number ≡ seat.number }
            ensures open { IfOk result.1 (λ passed. AllByRecursion (IsOpenIn
                task.entry.now.start.now.edges task.entry.now.polygraph.now.choices) passed.items) }
        { work(task, seat) },
    )
}

/// Sets the flag of each choice in a list.
fn flag_all(flags: &mut [bool], passed: &[ChoiceIx])
    ensures flags { (c : ℕ) → slice_get flags.new c ≡ Some true →
        (slice_get flags.old c ≡ Some true) ⊎ Contains passed.now c }
    ensures len { length flags.new ≡ length flags.old }
{
    for &choice in passed {
        flag(flags, choice);
    }
}

/// Sets the flag of a choice, where it has one.
fn flag(flags: &mut [bool], choice: ChoiceIx)
    ensures flags { (c : ℕ) → slice_get flags.new c ≡ Some true →
        (slice_get flags.old c ≡ Some true) ⊎ (choice ≡ c) }
    ensures len { length flags.new ≡ length flags.old }
{
    let number = choice.get();
    if number < flags.len() {
        flags[number] = true;
    }
}

/// The seats that have left, and a flag for each choice that one of them passed.
fn joined<J: Naming>(
    alloc: Global,
    done: Vec<(Left<PruneMachine, J>, Result<Vec<ChoiceIx>, AllocError>)>,
    count: usize,
) -> Result<(Vec<Left<PruneMachine, J>>, Vec<bool>), AllocError>
    ensures open { IfOk result (λ r. (edges : List Edge) (choices : List Choice) →
        AllByRecursion (λ d. IfOk d.1 (λ passed. AllByRecursion
        (IsOpenIn edges choices) passed.items)) done.items →
        AreOpen edges choices r.1.items) }
    ensures len { IfOk result (λ r. length r.1.items ≡ count) }
    ensures lefts { IfOk result (λ r. r.0.items ≡ map (λ d. d.0) done.items) }
{
    let mut flags = vec![in alloc; false; count]?;
    let mut lefts = Vec::with_capacity(alloc, done.len())?;
    let slots = flags.as_mut_slice();
    for (left, passed) in done {
        let passed = passed?;
        flag_all(slots, &passed);
        lefts.push(left)?;
    }
    Ok((lefts, flags))
}

/// What a round gave: the machine as it is now, its history, and a flag for each choice that a
/// worker passed.
#[derive(Drop)]
pub struct Round {
    pub closed: Closed<PruneMachine>,
    pub passed: Vec<bool>,
}

/// A round of all seats, each in a thread of its own.
pub fn round_of<J: Naming + Send + Sync, G: Gate, R: Threads + Wait + Clock + Sync>(
    rt: &R,
    alloc: Global,
    opened: Opened<PruneMachine>,
    polygraph: &Polygraph,
    start: &RowedGraph,
    gate: &G,
) -> Result<Round, AllocError>
    requires names { J.names ≡ opened.names }
    requires desk { J.desk ≡ opened.desk }
    requires nodes { start.now.nodes ≡ polygraph.now.nodes }
    ensures legal { IfOk result (λ r.
        IsReached next_of reply_of (Some opened.machine) r.closed.history.items r.closed.machine) }
    ensures open { IfOk result (λ r.
        AreOpen start.now.edges polygraph.now.choices r.passed.items) }
    ensures len { IfOk result (λ r. length r.passed.items ≡ length polygraph.now.choices) }
{
    let (desk, seats) = Desk::<PruneMachine, J>::open(alloc, opened)?;
    let task = Task {
        rt,
        alloc,
        desk: &desk,
        polygraph,
        start,
        gate,
    };
    let done = all_work(&task, seats)?;
    let (lefts, passed) = joined(alloc, done, polygraph.choices().len())?;
    match desk.close(lefts) {
        Ok(closed) => Ok(Round { closed, passed }),
        Err(_) => unreachable!(),
    }
}
