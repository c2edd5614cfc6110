//! Nodes by their numbers.

ghost use Rattle.std.specs.Prelude.{◌≡◌};

use known_graph::Known;
use serializability::NodeIx;
use std::process::Abort;

/// The node with this number.
pub fn node(rt: &impl Abort, number: usize) -> NodeIx
    ensures { result ≡ number }
{
    NodeIx::new(number).expect(rt, "a node")
}

/// Adds an edge between nodes of the graph.
pub fn join(rt: &impl Abort, known: &mut Known, u: usize, v: usize) {
    let (u, v) = (node(rt, u), node(rt, v));
    assert!(rt; u.get() <= known.nodes() && v.get() <= known.nodes());
    known.add_edge(u, v);
}
