//! From a history to what is decided of it.

ghost use Rattle.std.specs.Prelude.{◌≡◌, IfOk, IfErr};
ghost use Rattle.log_definitions.specs.Numbers.{IsWellFormedList};
ghost use Rattle.reduction.specs.Chained.{HasItsOrders};
ghost use Rattle.reduction.specs.Outcome.{IsOpenHistory, IsReduceFault};
ghost use Rattle.branch_search.specs.Answers.{SaysYes, SaysNo, ShowsNo, SaysUnknown, EndsRun};
ghost use Rattle.cube_laws.specs.Trees.{IsRefutationTree};
ghost use Rattle.deciding.specs.Decides.{Decides};

use crate::decision::Decision;
use crate::means::Means;
use branch_search::{Answer, Effort, FirstOpen, Forced, LeastEdges, MostEdges, search};
use cube_laws::Tree;
use cube_machine::StrategyName;
use desk::gate::Gate;
use polygraph::PolyFault;
use prune_ledger::Reduced;
use reduction::{Reduction, reduce};
use session_history::History;
use std::alloc::{AllocError, Global};
use std::sync::Wait;
use std::thread::Threads;
use std::time::Clock;
use tree_checks::check_tree;

/// Searches what pruning left, by the strategy of this name.
fn run_search<G: Gate, R: Threads + Wait + Clock + Sync>(
    rt: &R,
    alloc: Global,
    history: &History,
    reduced: &Reduced,
    means: &Means,
    gate: &G,
) -> Result<Answer, AllocError>
    requires orders { HasItsOrders history.now reduced.now.poly }
    ensures yes { IfOk result (SaysYes history.now) }
    ensures no { IfOk result (SaysNo history.now) }
    ensures tree { IfOk result (ShowsNo reduced.now.poly) }
    ensures unknown { IfOk result (SaysUnknown means.now.budget) }
    ensures ran { IfOk result (EndsRun reduced.now.poly means.now.budget) }
{
    let effort = Effort {
        workers: means.workers,
        budget: means.budget,
    };
    match means.strategy {
        StrategyName::First => search(rt, alloc, history, reduced, &FirstOpen, effort, gate),
        StrategyName::Most => search(rt, alloc, history, reduced, &MostEdges, effort, gate),
        StrategyName::Least => search(rt, alloc, history, reduced, &LeastEdges, effort, gate),
        StrategyName::Forced => search(rt, alloc, history, reduced, &Forced, effort, gate),
    }
}

/// That every cube is refuted, by a tree that is checked by itself before that is said.
fn decide_by_tree(reduced: Reduced, tree: Tree) -> Decision
    requires refutes { IsRefutationTree reduced.poly tree }
    ensures decision { result ≡ Decision.Refuted reduced tree }
{
    if !check_tree(reduced.poly(), &tree) {
        unreachable!()
    }
    Decision::Refuted { reduced, tree }
}

/// What a search decides, of what the steps before it left.
fn decide_open<G: Gate, R: Threads + Wait + Clock + Sync>(
    rt: &R,
    alloc: Global,
    history: &History,
    reduced: Reduced,
    means: &Means,
    gate: &G,
) -> Result<Decision, AllocError>
    requires well_formed { IsWellFormedList history.now }
    requires left { IsOpenHistory history.now reduced }
    ensures decides { IfOk result (Decides means.now.budget history.now) }
{
    match run_search(rt, alloc, history, &reduced, means, gate)? {
        Answer::Yes(order) => Ok(Decision::Serial(order)),
        Answer::No(tree) => Ok(decide_by_tree(reduced, tree)),
        Answer::Unknown { closed } => Ok(Decision::Spent { closed }),
    }
}

/// Decides whether some serial order explains a history: by such an order; or that there is none,
/// by the anomaly that is reported, a cycle of known edges, a ledger of pruning that ends in one,
/// or a tree of refuted cubes that was checked by itself; or, where the budget was spent before,
/// neither. So many workers prune and search, each of which passes the gate before each of its
/// turns.
///
/// # Errors
/// `TooManyChoices` where there are more than 100,000 choices between chains, and neither an
/// anomaly nor a cycle of the arcs was found; `Memory` where memory was refused.
pub fn decide<R: Threads + Wait + Clock + Sync, G: Gate>(
    rt: &R,
    alloc: Global,
    history: &History,
    means: &Means,
    gate: &G,
) -> Result<Decision, PolyFault>
    ensures decides { IfOk result (Decides means.now.budget history.now) }
    ensures fault { IfErr result (IsReduceFault history.now) }
{
    match reduce(rt, alloc, history, means.workers, gate)? {
        Reduction::Anomalous(anomaly) => Ok(Decision::Anomalous(anomaly)),
        Reduction::Cyclic(line) => Ok(Decision::Cyclic(line)),
        Reduction::Dead(ledger) => Ok(Decision::Dead(ledger)),
        Reduction::Open { reduced, .. } => {
            Ok(decide_open(rt, alloc, history, reduced, means, gate)?)
        }
    }
}
