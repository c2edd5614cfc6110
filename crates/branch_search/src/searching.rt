//! The search: a machine of cubes, workers at its desk, and what its last state says.

ghost use Rattle.std.specs.Prelude.{◌↔◌, ℕ, ◌+◌, ◌-◌, ◌^◌, ◌≤◌, List, length, IfOk};
ghost use Rattle.serializability.specs.Polygraph.{Fits};
ghost use Rattle.log_definitions.specs.Serial.{IsSerialOrder};
ghost use Rattle.branch_search.specs.Answers.{SaysYes, SaysNo, ShowsNo, SaysUnknown, IsSettled};
ghost use Rattle.branch_search.specs.Answers.{EndsRun};

use crate::answer::Answer;
use crate::crew::run;
use crate::reading::read_answer;
use crate::worker::Task;
use branching::Strategy;
use cube_machine::{Budget, CubeMachine, OriginRow};
use desk::gate::Gate;
use desk::opened::Opened;
use desk::seat_no::Workers;
use prune_ledger::Reduced;
use session_history::History;
use std::alloc::{AllocError, Global};
use std::marker::Brand;
use std::sync::Wait;
use std::thread::Threads;
use std::time::Clock;

/// How many workers search, and how many cubes they may close.
#[derive(Clone, Copy)]
pub struct Effort {
    pub workers: Workers,
    pub budget: Budget,
}

/// Searches a serial order of a history, whose polygraph was pruned to this one. Each worker passes
/// the gate before its turns, which count from 0.
///
/// At `Err` memory was refused to the calling thread, or to each worker before the search was
/// finished.
pub fn search<S: Strategy, G: Gate, R: Threads + Wait + Clock + Sync>(
    rt: &R,
    alloc: Global,
    history: &History,
    reduced: &Reduced,
    strategy: &S,
    effort: Effort,
    gate: &G,
) -> Result<Answer, AllocError>
    requires its { (order : List ℕ) →
        (Fits reduced.now.poly order ↔ IsSerialOrder history.now order) }
    ensures yes { IfOk result (SaysYes history.now) }
    ensures no { IfOk result (SaysNo history.now) }
    ensures tree { IfOk result (ShowsNo reduced.now.poly) }
    ensures unknown { IfOk result (SaysUnknown effort.budget) }

    // With m open choices a budget of 2^(m+1) - 1 is enough.
    ensures bound { 2 ^ (length reduced.now.poly.choices + 1) - 1 ≤ effort.budget
        → IfOk result IsSettled }

    // The answer says how the last state of a run of the machine stands.
    ensures ran { IfOk result (EndsRun reduced.now.poly effort.budget) }
{
    let Effort { workers, budget } = effort;
    let row = OriginRow::new(alloc, budget)?;
    let machine = CubeMachine::opening(alloc, reduced.poly(), budget, &row)?;
    let opened = Opened::new(alloc, machine, workers)?;
    let task = Task {
        reduced,
        row: &row,
        strategy,
    };
    let closed = run::<_, Brand, _, _>(rt, alloc, opened, &task, gate)?;
    read_answer(alloc, history, reduced, budget, closed)
}
