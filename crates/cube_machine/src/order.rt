//! Orders that solve a cube.

ghost use Rattle.std.specs.Prelude.{◌≡◌, ◌&&◌};
ghost use Rattle.cube_laws.specs.Steps.{lists_once, keeps_edges};

use known_graph::Known;
use polygraph::keeps_known;
use polygraph::places::places_in;
use serializability::NodeIx;

/// Whether an order lists nodes 1 to n of a graph once each and, where node 0 stands before them,
/// keeps its edges. It takes no memory.
pub fn fits_graph(graph: &Known, order: &[NodeIx]) -> bool
    ensures { result ≡ (lists_once graph.now.nodes order.now && keeps_edges order.now
        graph.now.edges) }
{
    match places_in(graph.nodes(), order) {
        Some(places) => keeps_known(&places, graph),
        None => false,
    }
}
