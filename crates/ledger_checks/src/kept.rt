//! The edges that a ledger keeps.

ghost use Rattle.std.specs.Prelude.{◌≡◌, ◌++◌, ◌+◌, ◌*◌, ◌/◌, ◌<◌, ◌≤◌, [], List};
ghost use Rattle.serializability.specs.Polygraph.{Edge};
ghost use Rattle.known_graph.specs.Tests.{has_edge};
ghost use Rattle.known_graph.specs.declared.bits.TheConstants.{NODE_WORDS};
ghost use Rattle.ledger_checks.specs.KeptEdges.{edge_place, HasEdges};
ghost use Rattle.serializability.specs.declared.node.TheConstants.{MAX_NODES};

use known_graph::bits::{NODE_WORDS, has_bit, set_bit};
use reach_laws::Edge;
use serializability::{MAX_NODES, NodeIx};

/// There is a row for each of nodes 0 to 1,000.
const WORDS: usize = (MAX_NODES + 1) * NODE_WORDS;

/// Edges between nodes 0 to 1,000, as a bit for each pair of nodes. They take no heap memory.
#[derive(Drop)]
pub struct KeptEdges {
    words: [u64; WORDS],
}

/// The number of the bit of an edge.
fn edge_place(u: NodeIx, v: NodeIx) -> usize
    ensures place { result ≡ edge_place u v }
    ensures within { result / 64 < (MAX_NODES + 1) * NODE_WORDS }
    ensures nodes { (u ≤ MAX_NODES) × (v ≤ MAX_NODES) }
{
    u.get() * (NODE_WORDS * 64) + v.get()
}

impl KeptEdges {
    /// No edges.
    pub fn none() -> KeptEdges
        ensures { HasEdges result [] }
    {
        KeptEdges { words: [0; WORDS] }
    }

    /// Whether the edge from u to v is one of them.
    pub fn has(&self, u: NodeIx, v: NodeIx) -> bool
        ensures { (edges : List Edge) → HasEdges self.now edges → result ≡ has_edge edges (u, v) }
    {
        has_bit(&self.words, edge_place(u, v))
    }

    /// Adds these edges.
    pub fn add_all(&mut self, edges: &[Edge])
        ensures { (before : List Edge) → HasEdges self.old before →
            HasEdges self.new (before ++ edges.now) }
    {
        for &edge in edges {
            set_bit(&mut self.words, edge_place(edge.source(), edge.target()));
        }
    }
}
