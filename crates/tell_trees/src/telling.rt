//! A refutation tree, told depth first.

ghost use Rattle.std.specs.Prelude.{◌≡◌, IfOk};
ghost use Rattle.serializability.specs.Reads.{IsClean};
ghost use Rattle.log_definitions.specs.Numbers.{log_of};
ghost use Rattle.reduction.specs.Outcome.{IsOpenHistory};
ghost use Rattle.cube_laws.specs.Trees.{IsRefutationTree};
ghost use Rattle.tell_trees.specs.Trees.{IsTreeTold};

use crate::orders::open_orders;
use crate::visits::visits;
use cube_laws::Tree;
use prune_ledger::Reduced;
use session_history::History;
use std::alloc::{AllocError, Global};
use tell_steps::{Item, tell_rounds};
use write_chains::Chains;

/// What is told of a refutation tree of what pruning left of a history, of which these are the
/// chains: the forced steps that its leaves need; how many leaves it has, where it has more than
/// one; and then its nodes, depth first, each with what it decides, and each leaf with its cycle.
pub fn tell_tree(
    alloc: Global,
    history: &History,
    chains: &Chains<'_>,
    reduced: &Reduced,
    tree: &Tree,
) -> Result<Vec<Item>, AllocError>
    requires clean { IsClean (log_of history.now) }
    requires chains { chains.now ≡ history.now }
    requires left { IsOpenHistory history.now reduced.now }
    requires tree { IsRefutationTree reduced.now.poly tree.now }
    ensures told { IfOk result (λ items. IsTreeTold history.now reduced.now.poly.choices tree.now
        items.items) }
{
    let entries = reduced.ledger().entries.as_slice();
    let orders = open_orders(alloc, chains, reduced)?;
    let nodes = tree.nodes();
    let rounds = visits(alloc, history, &orders, nodes)?;
    tell_rounds(alloc, history, chains, entries, &rounds)
}
