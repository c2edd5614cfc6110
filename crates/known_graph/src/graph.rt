//! Graphs of known edges.

ghost use Rattle.std.specs.Prelude.{◌≡◌, ℕ, ◌⊎◌, ◌<◌, ◌≤◌, ◌↔◌, IsTrue, IfOk, length};
ghost use Rattle.std.specs.List.{Contains};
ghost use Rattle.serializability.specs.Polygraph.{Edge};
ghost use Rattle.known_graph.specs.Bits.{bit_of, row_len};
ghost use Rattle.known_graph.specs.Graphs.{IsKnownGraph};
ghost use Rattle.known_graph.specs.Tests.{has_edge};
ghost use Rattle.serializability.specs.declared.node.TheConstants.{MAX_NODES};

use crate::bit_table::BitTable;
use serializability::NodeIx;
use std::alloc::{AllocError, Global};
use std::marker::Model;

/// Known edges between nodes 0 to n of a history, where n is at most 1,000. An edge leads from node
/// 0 to each other node.
#[derive(Drop)]
pub struct Known {
    table: BitTable,
}

impl Model for Known {
    ghost use Rattle.reach_laws.specs.Reach.{Graph};

    ghost Value = { Graph };

    ghost use Rattle.known_graph.specs.Graphs.{IsKnownGraph};

    ghost view = { λ k. k.table };

    ghost invariant = { λ k. IsKnownGraph k.table };
}

impl Known {
    /// The graph of nodes 0 to n in which an edge leads from node 0 to each other node, and no
    /// other edge is known.
    pub fn new(alloc: Global, nodes: usize) -> Result<Known, AllocError>
        requires few { nodes ≤ MAX_NODES }
        ensures nodes { IfOk result (λ known. known.nodes ≡ nodes) }
        ensures edges { IfOk result (λ known. (e : Edge) →
            (Contains known.edges e ↔ ((e.0 ≡ 0) × (0 < e.1) × (e.1 ≤ nodes)))) }
        ensures graph { IfOk result IsKnownGraph }
    {
        let mut table = BitTable::new(alloc, nodes)?;
        for v in 1..nodes + 1 {
            table.set(0, v);
        }
        Ok(Known { table })
    }

    /// The number of nodes, n, without node 0.
    pub fn nodes(&self) -> usize
        ensures count { result ≡ self.now.nodes }
        ensures few { result ≤ MAX_NODES }
        ensures graph { IsKnownGraph self.now }
    {
        self.table.nodes()
    }

    /// Whether an edge leads from u to v; none does at a node above n.
    pub fn has_edge(&self, u: NodeIx, v: NodeIx) -> bool
        ensures edge { IsTrue result ↔ Contains self.now.edges (u, v) }
        ensures test { result ≡ has_edge self.now.edges (u, v) }
    {
        self.table.has(u.get(), v.get())
    }

    /// The nodes to which edges lead from u, as bits: bit v of them is set where an edge leads to
    /// v.
    pub fn row_words(&self, u: NodeIx) -> &[u64]
        requires node { u ≤ self.now.nodes }
        ensures edges { (v : ℕ) → (IsTrue (bit_of result.now v) ↔ Contains self.now.edges (u, v)) }
        ensures len { length result.now ≡ row_len self.now.nodes }
    {
        self.table.row(u.get())
    }

    /// Adds the edge from u to v, where it is not there.
    pub fn add_edge(&mut self, u: NodeIx, v: NodeIx)
        requires nodes { (u ≤ self.old.nodes) × (v ≤ self.old.nodes) }
        ensures edges { (e : Edge) → (Contains self.new.edges e
            ↔ (Contains self.old.edges e ⊎ (e ≡ (u, v)))) }
        ensures nodes { self.new.nodes ≡ self.old.nodes }
        ensures graph { IsKnownGraph self.new }
    {
        self.table.set(u.get(), v.get());
    }

    /// A graph of the same nodes and edges.
    pub fn copy(&self, alloc: Global) -> Result<Known, AllocError>
        ensures same { IfOk result (λ known. known ≡ self.now) }
    {
        Ok(Known {
            table: self.table.copy(alloc)?,
        })
    }

    /// Makes this the graph of the nodes and edges of another one. It takes no memory.
    pub fn copy_from(&mut self, other: &Known)
        requires nodes { self.old.nodes ≡ other.now.nodes }
        ensures same { self.new ≡ other.now }
    {
        self.table.copy_from(&other.table);
    }
}
