//! The edges of a cube.

ghost use Rattle.std.specs.Prelude.{◌≡◌, ℕ, ◌<◌, ◌||◌, length};
ghost use Rattle.std.specs.List.{AllByRecursion};
ghost use Rattle.serializability.specs.Polygraph.{Edge};
ghost use Rattle.polygraph.specs.Polygraphs.{Joins};
ghost use Rattle.known_graph.specs.Tests.{has_edge};
ghost use Rattle.cube_laws.specs.Cubes.{edges_under};
ghost use Rattle.cube_machine.specs.Ways.{cube_in};
ghost use Rattle.cube_machine.specs.Sides.{side_in, HasEdges};

use crate::tree::Tree;
use known_graph::Known;
use polygraph::{ChoiceIx, Polygraph};
use pruning_laws::Side;
use reach_laws::Edge;

/// Makes a graph that of the known edges and of the sides that the cube of a node decides. It takes
/// no memory.
pub fn fill(graph: &mut Known, polygraph: &Polygraph, tree: &Tree, id: usize)
    requires nodes { graph.old.nodes ≡ polygraph.now.nodes }
    requires within { id < length tree.now.nodes }
    ensures nodes { graph.new.nodes ≡ polygraph.now.nodes }
    ensures edges { HasEdges graph.new.edges (edges_under polygraph.now
        (cube_in tree.now.nodes id)) }
{
    graph.copy_from(polygraph.known());
    let mut at = id;
    while let Some(origin) = tree.origin(at) {
        add_side(graph, polygraph, origin.choice, origin.side);
        at = origin.parent;
    }
}

/// Adds the edges of a side, where there is such a choice.
fn add_side(graph: &mut Known, polygraph: &Polygraph, choice: ChoiceIx, side: Side)
    requires nodes { graph.old.nodes ≡ polygraph.now.nodes }
    ensures nodes { graph.new.nodes ≡ graph.old.nodes }
    ensures edges { (e : Edge) → has_edge graph.new.edges e
        ≡ (has_edge graph.old.edges e || has_edge (side_in polygraph.now choice side) e) }
{
    let _invariant = polygraph.nodes();
    if let Some(choice) = polygraph.choice(choice) {
        add_all(graph, choice.edges(side));
    }
}

/// Adds each edge of a list.
fn add_all(graph: &mut Known, edges: &[Edge])
    requires joined { AllByRecursion (Joins graph.old.nodes) edges.now }
    ensures nodes { graph.new.nodes ≡ graph.old.nodes }
    ensures edges { (e : Edge) → has_edge graph.new.edges e
        ≡ (has_edge graph.old.edges e || has_edge edges.now e) }
{
    for &edge in edges {
        graph.add_edge(edge.source(), edge.target());
    }
}
