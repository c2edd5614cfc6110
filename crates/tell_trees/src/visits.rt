//! The nodes of a tree, depth first, and what is told of them.

ghost use Rattle.std.specs.Prelude.{◌≡◌, ◌∷◌, length, map, IfOk};
ghost use Rattle.std.specs.Option.{option_map};
ghost use Rattle.tell_steps.specs.Rounds.{round_view};
ghost use Rattle.tell_trees.specs.Trees.{AreVisits, leaves_round};
ghost use Rattle.tell_trees.specs.Visits.{IsTreeOver, leaf_count, round_at};

use crate::MAX_LEAVES;
use cube_laws::{Growth, TreeNode};
use reasons::without_runs;
use serializability::NodeIx;
use session_history::History;
use std::alloc::{AllocError, Global};
use tell_reasons::ChainOrder;
use tell_steps::{Item, Round, turned};

/// A node that is still to be visited, and the orders that its cube decides, the newest first.
#[derive(Drop)]
pub struct Waiting {
    pub node: usize,
    pub decided: Vec<ChainOrder>,
}

/// An order, and behind it these.
fn deciding(
    alloc: Global,
    order: ChainOrder,
    above: &[ChainOrder],
) -> Result<Vec<ChainOrder>, AllocError>
    ensures { IfOk result (λ all. all.items ≡ order ∷ above.now) }
{
    let mut all = Vec::new(alloc);
    all.push(order)?;
    all.extend_from_slice(above)?;
    Ok(all)
}

/// How many leaves there are, where there is more than one.
fn leaves_of(alloc: Global, count: usize) -> Result<Round, AllocError>
    ensures { IfOk result (λ round. round_view round ≡ leaves_round count) }
{
    let before = if 1 < count {
        Vec::from_slice(alloc, &[Item::Leaves { count }])?
    } else {
        Vec::new(alloc)
    };
    Ok(Round {
        before,
        decided: Vec::new(alloc),
        line: None,
    })
}

/// What is told of a visited node: the newest of the orders that its cube decides, where there is
/// one, and its cycle, where it is a leaf that is told.
fn round_of(
    alloc: Global,
    decided: Vec<ChainOrder>,
    line: Option<Vec<NodeIx>>,
) -> Result<Round, AllocError>
    ensures { IfOk result (λ round. round_view round
        ≡ round_at decided.items (option_map (λ l. l.items) line)) }
{
    let before = match decided.as_slice() {
        [] => Vec::new(alloc),
        [order, ..] => Vec::from_slice(
            alloc,
            &[Item::Decided {
                depth: decided.len(),
                order: *order,
            }],
        )?,
    };
    Ok(Round {
        before,
        decided,
        line,
    })
}

/// How many leaves a tree has.
fn count_leaves(nodes: &[TreeNode]) -> usize
    ensures count { result ≡ leaf_count nodes.now }
{
    nodes
        .iter()
        .filter(|node| matches!(&node.growth, Growth::Leaf(_)))
        .count()
}

/// How many leaves a tree has, where it has more than one; and what is told of its nodes, depth
/// first, with the first children before the second ones. Behind the last leaf that is told they
/// have no children. Of each choice the order that is its side one is given.
pub fn visits(
    alloc: Global,
    history: &History,
    orders: &[ChainOrder],
    nodes: &[TreeNode],
) -> Result<Vec<Round>, AllocError>
    requires tree { IsTreeOver (length orders.now) nodes.now }
    ensures visited { IfOk result (λ rounds. AreVisits history.now orders.now nodes.now
        (map round_view rounds.items)) }
{
    let mut rounds = Vec::new(alloc);
    rounds.push(leaves_of(alloc, count_leaves(nodes))?)?;
    let mut waiting = Vec::new(alloc);
    waiting.push(Waiting {
        node: 0,
        decided: Vec::new(alloc),
    })?;
    let mut leaves = 0;
    while let Some(Waiting { node, decided }) = waiting.pop() {
        let mut line = None;
        let is_told = leaves < MAX_LEAVES;
        if is_told {
            match &nodes[node].growth {
                Growth::Leaf(cycle) => {
                    line = Some(without_runs(alloc, history, cycle.nodes())?);
                    leaves += 1;
                }
                Growth::Inner {
                    choice,
                    first,
                    second,
                } => {
                    let order = orders[choice.get()];
                    let two = deciding(alloc, turned(order), &decided)?;
                    let one = deciding(alloc, order, &decided)?;
                    waiting.push(Waiting {
                        node: *second,
                        decided: two,
                    })?;
                    waiting.push(Waiting {
                        node: *first,
                        decided: one,
                    })?;
                }
            }
        }
        rounds.push(round_of(alloc, decided, line)?)?;
    }
    Ok(rounds)
}
