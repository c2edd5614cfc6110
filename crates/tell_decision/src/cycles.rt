//! What is told of cycles, of dead ledgers and of trees.

ghost use Rattle.std.specs.Prelude.{[], IfOk};
ghost use Rattle.serializability.specs.Reads.{IsClean};
ghost use Rattle.log_definitions.specs.Numbers.{log_of};
ghost use Rattle.cube_laws.specs.Trees.{IsRefutationTree};
ghost use Rattle.reduction.specs.Chained.{IsKnownCycle};
ghost use Rattle.reduction.specs.Outcome.{IsDeadHistory, IsOpenHistory};
ghost use Rattle.tell_reasons.specs.declared.why.Why.TheVariants as why;
ghost use Rattle.tell_steps.specs.Lines.{Stands, LineStands};
ghost use Rattle.tell_steps.specs.Rounds.{IsDeadTold};
ghost use Rattle.tell_steps.specs.Steps.{IsWhy, IsLineTold};
ghost use Rattle.tell_trees.specs.Trees.{IsTreeTold};
ghost use Rattle.tell_decision.specs.Explained.{IsRoundTold};

use cube_laws::Tree;
use prune_ledger::{Ledger, Reduced};
use reasons::{Reason, reason_of, without_runs};
use reduction::open_chains;
use serializability::NodeIx;
use session_history::History;
use std::alloc::{AllocError, Global};
use tell_reasons::Why;
use tell_steps::{Item, tell_dead};
use tell_trees::tell_tree;

/// Why the log shows that `a` stands before `b`, where it does.
#[tactic(auto, using(crate::proofs::Known::reason_there))]
fn reason(alloc: Global, history: &History, a: NodeIx, b: NodeIx) -> Result<Reason, AllocError>
    requires clean { IsClean (log_of history.now) }
    requires stands { Stands history.now [] [] a b }
    ensures why { IfOk result (λ reason. IsWhy history.now [] [] a b (why.Known reason)) }
{
    let _invariant = history.committed();
    match reason_of(alloc, history, a, b)? {
        Some(reason) => Ok(reason),
        None => unreachable!(),
    }
}

/// The edges of a line, each with its reason.
fn tell_line(alloc: Global, history: &History, line: &[NodeIx]) -> Result<Vec<Item>, AllocError>
    requires clean { IsClean (log_of history.now) }
    requires stands { LineStands history.now [] [] line.now }
    ensures told { IfOk result (λ items. IsLineTold history.now [] [] line.now items.items) }
{
    let mut items = Vec::with_capacity(alloc, line.len())?;
    let mut place = line.len() - 1;
    while place > 0 {
        let (first, second) = (line[place - 1], line[place]);
        let shown = reason(alloc, history, first, second)?;
        let why = Why::Known(shown);
        items.push(Item::Edge { first, second, why })?;
        place -= 1;
    }
    items.reverse();
    Ok(items)
}

/// What is told of a cycle of known edges, with each run of edges of one session as one edge.
pub fn cycle_items(
    alloc: Global,
    history: &History,
    line: &[NodeIx],
) -> Result<Vec<Item>, AllocError>
    requires clean { IsClean (log_of history.now) }
    requires cycle { IsKnownCycle (log_of history.now) line.now }
    ensures told { IfOk result (λ items. IsRoundTold history.now line.now items.items) }
{
    let short = without_runs(alloc, history, line)?;
    tell_line(alloc, history, &short)
}

/// What is told of a dead ledger: the forced steps that its cycle needs, and the cycle.
pub fn dead_items(
    alloc: Global,
    history: &History,
    ledger: &Ledger,
) -> Result<Vec<Item>, AllocError>
    requires clean { IsClean (log_of history.now) }
    requires dead { IsDeadHistory history.now ledger.now }
    ensures told { IfOk result (λ items. IsDeadTold history.now items.items) }
{
    let chains = open_chains(alloc, history)?;
    tell_dead(alloc, history, &chains, ledger)
}

/// What is told of a tree: the forced steps that its cycles need, and the tree.
pub fn tree_items(
    alloc: Global,
    history: &History,
    reduced: &Reduced,
    tree: &Tree,
) -> Result<Vec<Item>, AllocError>
    requires clean { IsClean (log_of history.now) }
    requires left { IsOpenHistory history.now reduced.now }
    requires refutes { IsRefutationTree reduced.now.poly tree.now }
    ensures told { IfOk result (λ items.
        IsTreeTold history.now reduced.now.poly.choices tree.now items.items) }
{
    let chains = open_chains(alloc, history)?;
    tell_tree(alloc, history, &chains, reduced, tree)
}
