//! A worker's decision.

ghost use Rattle.std.specs.Prelude.{◌≡◌, ℕ, false, Option, IfOk};
ghost use Rattle.reach_laws.specs.Reach.{IsCyclic};
ghost use Rattle.branching.specs.View.{is_open_in, edges_in};
ghost use Rattle.branching.specs.Turns.{IsAnswered, IsDecision};

use crate::order::order_by_reach;
use crate::strategy::Strategy;
use crate::view::CubeView;
use cube_laws::CubeEvent;
use prune_ledger::Reduced;
use session_history::NodeLine;
use std::alloc::{AllocError, Global};

/// What a worker does with the cube that it holds: it refutes it where its edges have a cycle, else
/// solves it where no choice is open, else splits it by the strategy.
pub fn turn<S: Strategy>(
    alloc: Global,
    reduced: &Reduced,
    view: &CubeView<'_>,
    strategy: &S,
) -> Result<CubeEvent, AllocError>
    requires polygraph { view.now.polygraph ≡ reduced.now.poly }
    ensures answered { IfOk result (IsAnswered view.now) }
    ensures decision { IfOk result (IsDecision view.now (S.picks strategy.now view.now)) }
{
    if view.rows().has_cycle() {
        return refutation(alloc, view);
    }
    if view.depth() == reduced.poly().choices().len() {
        return solution(alloc, view);
    }
    match strategy.pick(view) {
        Some(choice) => Ok(CubeEvent::Split(choice)),
        None => unreachable!(),
    }
}

/// Refutes a cube whose edges have a cycle.
fn refutation(alloc: Global, view: &CubeView<'_>) -> Result<CubeEvent, AllocError>
    requires cyclic { IsCyclic (edges_in view.now) }
    ensures answered { IfOk result (IsAnswered view.now) }
    ensures decision { (pick : Option ℕ) → IfOk result (IsDecision view.now pick) }
{
    match view.graph().find_cycle(alloc)? {
        Some(line) => Ok(CubeEvent::Refute(NodeLine::from_nodes(line))),
        None => unreachable!(),
    }
}

/// Solves a cube that leaves no choice open, and whose edges have no cycle.
fn solution(alloc: Global, view: &CubeView<'_>) -> Result<CubeEvent, AllocError>
    requires acyclic { ¬ IsCyclic (edges_in view.now) }
    requires decided { (c : ℕ) → is_open_in view.now c ≡ false }
    ensures answered { IfOk result (IsAnswered view.now) }
    ensures decision { (pick : Option ℕ) → IfOk result (IsDecision view.now pick) }
{
    let order = order_by_reach(alloc, view.rows())?;
    Ok(CubeEvent::Solve(NodeLine::from_nodes(order)))
}
