ghost use Rattle.reduction.specs.Chained.{HasItsOrders};

use branch_search::{
    Alternate, Answer, Budget, ByWords, CubeView, Effort, FirstOpen, MostEdges, NodeLine, Strategy,
    search,
};
use cobra_formulas::read_log;
use cube_laws::{CubeDecision, Growth, Tree, TreeNode};
use decode_order::replay;
use desk::gate::{Gate, OpenGate};
use desk::seat_no::Workers;
use log_tests::holding::Holding;
use polygraph::ChoiceIx;
use prune_ledger::Reduced;
use pruning_laws::Side;
use reduction::{Reduction, reduce};
use session_history::History;
use std::alloc::Global;
use std::process::Abort;
use std::sync::Wait;
use std::sync::atomic::{AtomicBool, AtomicU64, Ordering};
use std::test::*;
use std::thread::Threads;
use std::time::Clock;
use tree_checks::check_tree;

/// Two writers of each of two keys, and a reader of each pair of them: two open choices, and each
/// of the four cubes that decide both has a cycle.
const EIGHT: &str = "session 1\nbegin\nw x 1\ncommit\nsession 2\nbegin\nw x 2\ncommit\n\
    session 3\nbegin\nw y 3\ncommit\nsession 4\nbegin\nw y 4\ncommit\n\
    session 5\nbegin\nr x 1\nr y 3\ncommit\nsession 6\nbegin\nr x 1\nr y 4\ncommit\n\
    session 7\nbegin\nr x 2\nr y 3\ncommit\nsession 8\nbegin\nr x 2\nr y 4\ncommit\n";

/// Six writers of one key, which may come in any order: fifteen open choices.
const SIX_WRITERS: &str = "session 1\nbegin\nw x 1\ncommit\nsession 2\nbegin\nw x 2\ncommit\n\
    session 3\nbegin\nw x 3\ncommit\nsession 4\nbegin\nw x 4\ncommit\n\
    session 5\nbegin\nw x 5\ncommit\nsession 6\nbegin\nw x 6\ncommit\n";

fn read<R: Threads + Wait + Clock + Abort + Sync>(rt: &R, alloc: Global, log: &str) -> History {
    let workers = Workers::new(1).expect(rt, "a worker");
    let history = read_log(rt, alloc, log.as_bytes(), workers, &OpenGate).ok();
    history.expect(rt, "a history")
}

/// What pruning leaves of a history's polygraph.
fn reduced_of<R: Threads + Wait + Clock + Abort + Sync>(
    rt: &R,
    alloc: Global,
    history: &History,
) -> Reduced
    ensures orders { HasItsOrders history.now result.poly }
{
    let workers = Workers::new(1).expect(rt, "a worker");
    match reduce(rt, alloc, history, workers, &OpenGate) {
        Ok(Reduction::Open { reduced, .. }) => reduced,
        _ => panic!(rt; "nothing is left open"),
    }
}

/// The tree that a search of the eight transactions ends with.
fn tree_of_eight<S: Strategy, G: Gate, R: Threads + Wait + Clock + Abort + Sync>(
    rt: &R,
    alloc: Global,
    strategy: &S,
    workers: u8,
    gate: &G,
) -> Tree {
    let history = read(rt, alloc, EIGHT);
    let reduced = reduced_of(rt, alloc, &history);
    let workers = Workers::new(workers).expect(rt, "workers");
    let budget = Budget::new(7).expect(rt, "a budget");
    let effort = Effort { workers, budget };
    match search(rt, alloc, &history, &reduced, strategy, effort, gate) {
        Ok(Answer::No(tree)) => tree,
        _ => panic!(rt; "not refuted"),
    }
}

fn leaf_count(tree: &Tree) -> usize {
    tree.nodes()
        .iter()
        .filter(|node| match &node.growth {
            Growth::Leaf(line) => line.nodes().len() > 1,
            Growth::Inner { .. } => false,
        })
        .count()
}

#[test]
fn seven_nodes_refute_every_cube(rt: HostRuntime) {
    let alloc = rt.alloc();
    let history = read(&rt, alloc, EIGHT);
    let reduced = reduced_of(&rt, alloc, &history);
    for workers in [1, 2, 16] {
        let tree = tree_of_eight(&rt, alloc, &FirstOpen, workers, &OpenGate);
        assert_eq!(rt; tree.nodes().len(), 7);
        assert_eq!(rt; leaf_count(&tree), 4);
        assert!(rt; check_tree(reduced.poly(), &tree));
    }
}

fn copied(rt: &impl Abort, alloc: Global, growth: &Growth) -> Growth {
    match growth {
        Growth::Leaf(line) => Growth::Leaf(NodeLine::from_nodes(
            line.nodes().to_vec(alloc).expect(rt, "memory"),
        )),
        Growth::Inner {
            choice,
            first,
            second,
        } => Growth::Inner {
            choice: *choice,
            first: *first,
            second: *second,
        },
    }
}

fn nodes_of(rt: &impl Abort, alloc: Global, tree: &Tree) -> Vec<TreeNode> {
    let mut nodes = Vec::new(alloc);
    for node in tree.nodes() {
        let copy = TreeNode {
            parent: node.parent,
            decision: node.decision,
            growth: copied(rt, alloc, &node.growth),
        };
        nodes.push(copy).expect(rt, "memory");
    }
    nodes
}

/// The last two nodes are leaves: the last one with the cycle of the other.
fn with_another_cycle(rt: &impl Abort, alloc: Global, mut nodes: Vec<TreeNode>) -> Vec<TreeNode> {
    let mut last = nodes.pop().expect(rt, "a node");
    let other = nodes.last().expect(rt, "a node");
    last.growth = copied(rt, alloc, &other.growth);
    nodes.push(last).expect(rt, "memory");
    nodes
}

/// The last node by the side of the other.
fn with_another_side(rt: &impl Abort, mut nodes: Vec<TreeNode>) -> Vec<TreeNode> {
    let mut last = nodes.pop().expect(rt, "a node");
    let CubeDecision { choice, side: _ } = last.decision.expect(rt, "a decision");
    let side = Side::One;
    last.decision = Some(CubeDecision { choice, side });
    nodes.push(last).expect(rt, "memory");
    nodes
}

fn without_the_last(mut nodes: Vec<TreeNode>) -> Vec<TreeNode> {
    nodes.pop();
    nodes
}

/// The tree of the eight transactions with its last leaf changed.
fn changed_tree<R: Threads + Wait + Clock + Abort + Sync>(
    rt: &R,
    alloc: Global,
    change: u8,
) -> Tree {
    let tree = tree_of_eight(rt, alloc, &FirstOpen, 1, &OpenGate);
    let nodes = nodes_of(rt, alloc, &tree);
    Tree::from_nodes(match change {
        0 => without_the_last(nodes),
        1 => with_another_cycle(rt, alloc, nodes),
        2 => with_another_side(rt, nodes),
        _ => Vec::new(alloc),
    })
}

#[test]
fn changed_trees_show_nothing(rt: HostRuntime) {
    let alloc = rt.alloc();
    let history = read(&rt, alloc, EIGHT);
    let reduced = reduced_of(&rt, alloc, &history);
    for change in 0..4 {
        let tree = changed_tree(&rt, alloc, change);
        assert!(rt; !check_tree(reduced.poly(), &tree), "{change}");
    }
}

/// Whether a search by so many workers finds an order of the six writers that replays.
fn orders_six<R: Threads + Wait + Clock + Abort + Sync>(
    rt: &R,
    alloc: Global,
    workers: u8,
) -> bool {
    let history = read(rt, alloc, SIX_WRITERS);
    let reduced = reduced_of(rt, alloc, &history);
    let workers = Workers::new(workers).expect(rt, "workers");
    let budget = Budget::new(10_000).expect(rt, "a budget");
    let effort = Effort { workers, budget };
    match search(rt, alloc, &history, &reduced, &FirstOpen, effort, &OpenGate) {
        Ok(Answer::Yes(order)) => replay(alloc, &history, &order).is_ok(),
        _ => false,
    }
}

/// Fifteen choices are open, and a budget of many fewer cubes than there are suffices.
#[test]
fn orders_are_replayed(rt: HostRuntime) {
    assert!(rt; orders_six(&rt, rt.alloc(), 1));
    assert!(rt; orders_six(&rt, rt.alloc(), 4));
}

#[test]
fn strategies_in_turn(rt: HostRuntime) {
    let alloc = rt.alloc();
    let words = Vec::from_array(alloc, [5, 2, 7]).expect(&rt, "memory");
    let strategy = Alternate::new(MostEdges, ByWords::new(words));
    let tree = tree_of_eight(&rt, alloc, &strategy, 2, &OpenGate);
    assert_eq!(rt; tree.nodes().len(), 7);
}

#[test]
fn each_of_two_workers_takes_turns(rt: HostRuntime) {
    for held in [1, 2] {
        let gate = Holding::new(held);
        tree_of_eight(&rt, rt.alloc(), &FirstOpen, 2, &gate);
        assert!(rt; !gate.has_missed());
        assert!(rt; gate.held_turns().saturating_add(gate.free_turns()) >= 7);
    }
}

/// Picks the first open choice, and at depth 1 waits until a second such pick has begun.
#[derive(Drop)]
struct Meeting {
    begun: AtomicU64,
    missed: AtomicBool,
}

impl Meeting {
    /// Looks at most 100,000,000 times.
    fn wait(&self) {
        for _ in 0..100_000_000 {
            if self.begun.load(Ordering::SeqCst) >= 2 {
                return;
            }
        }
        self.missed.store(true, Ordering::SeqCst);
    }
}

impl Strategy for Meeting {
    ghost use Rattle.pruning_laws.specs.declared.side.Side.TheVariants.{One};
    ghost use Rattle.branching.specs.Picks.{first_open};
    ghost use Rattle.branching.specs.Picked.{first_is_open, first_where_open};

    const NAME: &'static str = "meeting";

    const USES_MARKS: bool = false;

    ghost picks = { λ _ v. first_open v };

    ghost first_of = { λ _ _ _. One };

    fn pick(&self, view: &CubeView<'_>) -> Option<ChoiceIx> {
        if view.depth() == 1 {
            self.begun.fetch_add(1, Ordering::SeqCst);
            self.wait();
        }
        FirstOpen.pick(view)
    }

    fn first_side(&self, _view: &CubeView<'_>, _choice: ChoiceIx) -> Side {
        Side::One
    }

    ghost picks_open = { λ _ v c e. first_is_open v c e };

    ghost picks_some = { λ _ v e c. first_where_open v e c };
}

#[test]
fn two_workers_pick_at_once(rt: HostRuntime) {
    let strategy = Meeting {
        begun: AtomicU64::new(0),
        missed: AtomicBool::new(false),
    };
    tree_of_eight(&rt, rt.alloc(), &strategy, 2, &OpenGate);
    assert!(rt; !strategy.missed.load(Ordering::SeqCst));
}
