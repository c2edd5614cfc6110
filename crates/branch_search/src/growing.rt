//! The tree of a search, grown again by the steps of its history.

ghost use Rattle.std.specs.Prelude.{◌≡◌, ℕ, ◌<◌, IfOk, length, slice_set, slice_index_or};
ghost use Rattle.std.specs.Prelude.{None, Some, true};
ghost use Rattle.desk.specs.History.{IsLegal, replay};
ghost use Rattle.serializability.specs.Polygraph.{Polygraph};
ghost use Rattle.cube_laws.specs.State.{opening_state};
ghost use Rattle.cube_laws.specs.Steps.{next_of, reply_of, is_exhausted};
ghost use Rattle.cube_laws.specs.Runs.{is_closing as closes};
ghost use Rattle.branch_search.specs.Growing.{held_after, bud, sprout, with_growth, closed_with};
ghost use Rattle.branch_search.specs.Growing.{grown};
ghost use Rattle.cube_laws.specs.Trees.{IsRefutationTree};

use cube_laws::{CubeDecision, CubeEvent, CubeReply, Growth, Tree, TreeNode};
use desk::history::Entry;
use polygraph::ChoiceIx;
use pruning_laws::Side;
use session_history::NodeLine;
use std::alloc::{AllocError, Global};

/// One place for each number of a seat, which counts from 1, and one for 0.
const PLACES: usize = 17;

/// The tree that the steps of a search made, of so many nodes. Where they left every cube refuted,
/// it shows it.
pub fn tree_of(
    alloc: Global,
    steps: Vec<Entry<CubeEvent, CubeReply>>,
    count: usize,
) -> Result<Tree, AllocError>
    ensures tree { (p : Polygraph) (budget : ℕ)
        → IsLegal next_of reply_of (opening_state p budget) steps.items →
        is_exhausted (replay next_of (opening_state p budget) steps.items) ≡ true →
        IfOk result (IsRefutationTree p) }
{
    let mut nodes = Vec::with_capacity(alloc, count)?;
    nodes.push(TreeNode {
        parent: 0,
        decision: None,
        growth: bud_of(alloc),
    })?;
    let mut held = [None; PLACES];
    for step in steps {
        grow(alloc, &mut nodes, &mut held, step)?;
    }
    Ok(Tree::from_nodes(nodes))
}

/// A leaf that holds no cycle yet.
fn bud_of(alloc: Global) -> Growth
    ensures { result ≡ bud }
{
    Growth::Leaf(NodeLine::from_nodes(Vec::new(alloc)))
}

/// Takes one step of a seat.
fn grow(
    alloc: Global,
    nodes: &mut Vec<TreeNode>,
    held: &mut [Option<usize>],
    step: Entry<CubeEvent, CubeReply>,
) -> Result<(), AllocError>
    requires { length held.old ≡ 17 }
    ensures seat { step.seat < 17 }
    ensures held { held.new ≡ slice_set held.old step.seat
        (held_after (slice_index_or held.old step.seat None) step.reply) }
    ensures nodes { IfOk result (λ _. nodes.new.items
        ≡ grown nodes.old.items (slice_index_or held.old step.seat None) step.event step.reply) }
{
    let Entry { seat, event, reply } = step;
    let place = usize::from(seat.get());
    let node = held[place];
    held[place] = held_next(node, reply);
    if !is_closing(reply) {
        return Ok(());
    }
    let Some(number) = node else {
        return Ok(());
    };
    close(alloc, nodes, number, event)
}

/// The node that a seat holds after a reply.
fn held_next(node: Option<usize>, reply: CubeReply) -> Option<usize>
    ensures { result ≡ held_after node reply }
{
    match reply {
        CubeReply::Cube(given) => Some(given),
        CubeReply::Children(_, _) => None,
        CubeReply::Closed => None,
        CubeReply::Solved => None,
        CubeReply::Released => None,
        _ => node,
    }
}

/// Whether a reply says that a node was closed.
fn is_closing(reply: CubeReply) -> bool
    ensures { result ≡ closes reply }
{
    match reply {
        CubeReply::Children(_, _) => true,
        CubeReply::Closed => true,
        CubeReply::Solved => true,
        _ => false,
    }
}

/// Closes a node by an event.
fn close(
    alloc: Global,
    nodes: &mut Vec<TreeNode>,
    number: usize,
    event: CubeEvent,
) -> Result<(), AllocError>
    ensures { IfOk result (λ _. nodes.new.items ≡ closed_with nodes.old.items number event) }
{
    match event {
        CubeEvent::Split(choice) => {
            let first = nodes.len();
            let second = first + 1;
            set_growth(
                nodes,
                number,
                Growth::Inner {
                    choice,
                    first,
                    second,
                },
            );
            nodes.push(child(alloc, number, choice, Side::One))?;
            nodes.push(child(alloc, number, choice, Side::Two))?;
            Ok(())
        }
        CubeEvent::Refute(line) => {
            set_growth(nodes, number, Growth::Leaf(line));
            Ok(())
        }
        _ => Ok(()),
    }
}

/// A node by a side of a choice.
fn child(alloc: Global, parent: usize, choice: ChoiceIx, side: Side) -> TreeNode
    ensures { result ≡ sprout parent choice side }
{
    TreeNode {
        parent,
        decision: Some(CubeDecision { choice, side }),
        growth: bud_of(alloc),
    }
}

/// Notes what became of a node.
fn set_growth(nodes: &mut Vec<TreeNode>, number: usize, growth: Growth)
    ensures { nodes.new.items ≡ with_growth nodes.old.items number growth }
{
    if number < nodes.len() {
        nodes[number].growth = growth;
    }
}
