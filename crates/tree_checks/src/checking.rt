//! Whether a tree shows that no order fits a polygraph.

ghost use Rattle.std.specs.Prelude.{◌≡◌, ◌↔◌, ℕ, ◌==◌, List, Some, IsTrue, if◌then◌else◌};
ghost use Rattle.std.specs.Prelude.{slice_get};
ghost use Rattle.std.specs.Option.{option_copied};
ghost use Rattle.serializability.specs.Polygraph.{Fits};
ghost use Rattle.pruning_laws.specs.Ledger.{same_side};
ghost use Rattle.cube_machine.specs.Sides.{cube_edges};
ghost use Rattle.cube_laws.specs.declared.tree.TreeNode.{TreeNode};
ghost use Rattle.known_graph.specs.Tests.{has_edge, leads};
ghost use Rattle.cube_laws.specs.Cubes.{is_decided, edges_under};
ghost use Rattle.cube_laws.specs.Steps.{is_cycle};
ghost use Rattle.cube_laws.specs.Trees.{cube_of, IsRefutationTree};
ghost use Rattle.tree_checks.specs.Checks.{decides, decides_side, adds, is_child, has_child};
ghost use Rattle.tree_checks.specs.Checks.{is_below, is_root, is_split, is_grown, is_sound};

use cube_laws::{CubeDecision, Growth, Tree, TreeNode};
use polygraph::{ChoiceIx, Polygraph};
use pruning_laws::Side;
use reach_laws::Edge;
use serializability::NodeIx;

/// Whether a tree is a refutation tree of a polygraph: then no order fits it. It takes no memory.
///
/// Each node is looked at once, and for an inner node and for each step of a leaf's cycle that is
/// no known edge the nodes on the way up.
pub fn check_tree(polygraph: &Polygraph, tree: &Tree) -> bool
    ensures tree { IsTrue result ↔ IsRefutationTree polygraph.now tree.now }
    ensures none { IsTrue result → (order : List ℕ) → Fits polygraph.now order → ⊥ }
{
    let nodes = tree.nodes();
    !nodes.is_empty() && are_sound(polygraph, nodes)
}

/// Whether each node has its place and is refuted or split.
fn are_sound(polygraph: &Polygraph, nodes: &[TreeNode]) -> bool
    ensures all { IsTrue result → (i : ℕ) (x : TreeNode) → slice_get nodes.now i ≡ Some x
        → IsTrue (is_sound polygraph.now nodes.now i x) }
    ensures each { ((i : ℕ) (x : TreeNode) → slice_get nodes.now i ≡ Some x
        → IsTrue (is_sound polygraph.now nodes.now i x)) → IsTrue result }
{
    for (number, node) in nodes.iter().enumerate() {
        if !is_sound(polygraph, nodes, number, node) {
            return false;
        }
    }
    true
}

/// Whether a node has its place and is refuted or split.
#[tactic(auto, unfolding(crate::specs::Checks::is_sound))]
fn is_sound(polygraph: &Polygraph, nodes: &[TreeNode], number: usize, node: &TreeNode) -> bool
    ensures { result ≡ is_sound polygraph.now nodes.now number node.now }
{
    is_placed(nodes, number, node) && is_grown(polygraph, nodes, number, &node.growth)
}

/// The node of this number, where there is one.
fn node_at(nodes: &[TreeNode], number: usize) -> Option<&TreeNode>
    ensures { option_copied result ≡ slice_get nodes.now number }
{
    nodes.get(number)
}

/// Whether a node is the root, or its parent stands before it and names it as a child.
fn is_placed(nodes: &[TreeNode], number: usize, node: &TreeNode) -> bool
    ensures { result ≡ (if number == 0 then is_root node.now else is_below nodes.now number
        node.now) }
{
    if number == 0 {
        node.parent == 0 && node.decision.is_none()
    } else {
        is_below(nodes, number, node)
    }
}

/// Whether a node's parent stands before it and names it as a child.
fn is_below(nodes: &[TreeNode], number: usize, node: &TreeNode) -> bool
    ensures { result ≡ is_below nodes.now number node.now }
{
    if node.parent >= number {
        return false;
    }
    match node_at(nodes, node.parent) {
        Some(parent) => has_child(&parent.growth, number),
        None => false,
    }
}

/// Whether a node that became this names another one as its child.
fn has_child(growth: &Growth, number: usize) -> bool
    ensures { result ≡ has_child growth.now number }
{
    match growth {
        Growth::Leaf(_) => false,
        Growth::Inner {
            choice: _,
            first,
            second,
        } => *first == number || *second == number,
    }
}

/// Whether a node is refuted or split, as it says what became of it.
fn is_grown(polygraph: &Polygraph, nodes: &[TreeNode], number: usize, growth: &Growth) -> bool
    ensures { result ≡ is_grown polygraph.now nodes.now number growth.now }
{
    match growth {
        Growth::Leaf(line) => is_cycle(polygraph, nodes, number, line.nodes()),
        Growth::Inner {
            choice,
            first,
            second,
        } => is_split(polygraph, nodes, number, *choice, *first, *second),
    }
}

/// Whether a node's cube leaves a choice open, and these are its children by the choice's sides.
fn is_split(
    polygraph: &Polygraph,
    nodes: &[TreeNode],
    number: usize,
    choice: ChoiceIx,
    first: usize,
    second: usize,
) -> bool
    ensures { result ≡ is_split polygraph.now nodes.now number choice first second }
{
    choice.get() < polygraph.choices().len()
        && !is_decided(nodes, number, choice)
        && is_child(nodes, number, choice, Side::One, first)
        && is_child(nodes, number, choice, Side::Two, second)
}

/// Whether a node is a child of another, by this side of this choice.
fn is_child(nodes: &[TreeNode], parent: usize, choice: ChoiceIx, side: Side, child: usize) -> bool
    ensures { result ≡ is_child nodes.now parent choice side child }
{
    if parent >= child {
        return false;
    }
    match node_at(nodes, child) {
        Some(node) => node.parent == parent && decides_side(node.decision, choice, side),
        None => false,
    }
}

/// Whether a decision is this side of this choice.
fn decides_side(decision: Option<CubeDecision>, choice: ChoiceIx, side: Side) -> bool
    ensures { result ≡ decides_side decision choice side }
{
    match decision {
        Some(decision) => decision.choice.get() == choice.get() && is_side(decision.side, side),
        None => false,
    }
}

/// Whether two sides are the same.
fn is_side(side: Side, wanted: Side) -> bool
    ensures { result ≡ same_side side wanted }
{
    match side {
        Side::One => match wanted {
            Side::One => true,
            Side::Two => false,
        },
        Side::Two => match wanted {
            Side::One => false,
            Side::Two => true,
        },
    }
}

/// Whether a decision is one of this choice.
fn decides(decision: Option<CubeDecision>, choice: ChoiceIx) -> bool
    ensures { result ≡ decides decision choice }
{
    match decision {
        Some(decision) => decision.choice.get() == choice.get(),
        None => false,
    }
}

/// Whether a node's cube decides a choice: a node does so on its way up.
fn is_decided(nodes: &[TreeNode], number: usize, choice: ChoiceIx) -> bool
    ensures { result ≡ is_decided (cube_of nodes.now number) choice }
{
    let mut at = number;
    while let Some(node) = node_at(nodes, at) {
        if decides(node.decision, choice) {
            return true;
        }
        if node.parent >= at {
            return false;
        }
        at = node.parent;
    }
    false
}

/// Whether these are the nodes of a cycle in the known edges and those of the sides that a node's
/// cube decides, its first node repeated last.
fn is_cycle(polygraph: &Polygraph, nodes: &[TreeNode], number: usize, line: &[NodeIx]) -> bool
    ensures { result ≡ is_cycle (edges_under polygraph.now (cube_of nodes.now number)) line.now }
{
    match line.first() {
        Some(&first) => {
            1 < line.len() && leads(polygraph, nodes, number, first, &line[1..], first)
        }
        None => false,
    }
}

/// Whether each step from a node on along these is such an edge, and the last one is the end.
fn leads(
    polygraph: &Polygraph,
    nodes: &[TreeNode],
    number: usize,
    from: NodeIx,
    steps: &[NodeIx],
    to: NodeIx,
) -> bool
    ensures { result ≡ leads (edges_under polygraph.now (cube_of nodes.now number)) from steps.now
        to }
{
    let mut at = from;
    for &node in steps {
        if !has_step(polygraph, nodes, number, at, node) {
            return false;
        }
        at = node;
    }
    at.get() == to.get()
}

/// Whether an edge is known, or one of a side that a node's cube decides.
fn has_step(polygraph: &Polygraph, nodes: &[TreeNode], number: usize, u: NodeIx, v: NodeIx) -> bool
    ensures { result ≡ has_edge (edges_under polygraph.now (cube_of nodes.now number)) (u, v) }
{
    polygraph.known().has_edge(u, v) || is_added(polygraph, nodes, number, u, v)
}

/// Whether an edge is one of a side that a node's cube decides.
fn is_added(polygraph: &Polygraph, nodes: &[TreeNode], number: usize, u: NodeIx, v: NodeIx) -> bool
    ensures { result ≡ has_edge (cube_edges polygraph.now (cube_of nodes.now number)) (u, v) }
{
    let mut at = number;
    while let Some(node) = node_at(nodes, at) {
        if adds(polygraph, node.decision, u, v) {
            return true;
        }
        if node.parent >= at {
            return false;
        }
        at = node.parent;
    }
    false
}

/// Whether an edge is one of the side that a node decides itself.
fn adds(polygraph: &Polygraph, decision: Option<CubeDecision>, u: NodeIx, v: NodeIx) -> bool
    ensures { result ≡ adds polygraph.now decision (u, v) }
{
    let Some(decision) = decision else {
        return false;
    };
    match polygraph.choice(decision.choice) {
        Some(choice) => has_edge(choice.edges(decision.side), u, v),
        None => false,
    }
}

/// Whether an edge is in the list.
fn has_edge(edges: &[Edge], u: NodeIx, v: NodeIx) -> bool
    ensures { result ≡ has_edge edges.now (u, v) }
{
    edges.iter().any(|edge| edge.source().get() == u.get() && edge.target().get() == v.get())
}
