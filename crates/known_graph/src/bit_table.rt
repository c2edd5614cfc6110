//! Tables of bits.

ghost use Rattle.std.specs.Prelude.{◌≡◌, ℕ, ◌⊎◌, ◌+◌, ◌*◌, ◌/◌, ◌<◌, ◌≤◌, ◌↔◌, IsTrue, IfOk};
ghost use Rattle.std.specs.Prelude.{length};
ghost use Rattle.std.specs.List.{Contains};
ghost use Rattle.serializability.specs.Polygraph.{Edge};
ghost use Rattle.known_graph.specs.Bits.{bit_of, row_len};
ghost use Rattle.known_graph.specs.Graphs.{IsBitGraph};
ghost use Rattle.known_graph.specs.Held.{bit_place, marked_graph, IsMarked};
ghost use Rattle.serializability.specs.declared.node.TheConstants.{MAX_NODES};

use crate::bits::{has_bit, join_row, row_len, set_bit};
use std::alloc::{AllocError, Global};
use std::marker::Model;

/// A bit for each pair of nodes 0 to n, where n is at most 1,000. Contracts see a graph in which an
/// edge stands for each bit that is set.
#[derive(Drop)]
pub struct BitTable {
    nodes: usize,
    // a row for each node, one behind the other
    words: Vec<u64>,
}

impl Model for BitTable {
    ghost use Rattle.reach_laws.specs.Reach.{Graph};

    ghost Value = { Graph };

    ghost use Rattle.known_graph.specs.Held.{graph_of, IsHeld};

    ghost view = { graph_of };

    ghost invariant = { IsHeld };
}

/// The number of the bit of a pair.
fn bit_place(nodes: usize, u: usize, v: usize) -> usize
    requires few { nodes ≤ MAX_NODES }
    requires nodes { (u ≤ nodes) × (v ≤ nodes) }
    ensures place { result ≡ bit_place nodes u v }
    ensures within { result / 64 < (nodes + 1) * row_len nodes }
{
    u * (row_len(nodes) * 64) + v
}

impl BitTable {
    /// The table of nodes 0 to n in which no bit is set.
    pub fn new(alloc: Global, nodes: usize) -> Result<BitTable, AllocError>
        requires few { nodes ≤ MAX_NODES }
        ensures nodes { IfOk result (λ table. table.nodes ≡ nodes) }
        ensures edges { IfOk result (λ table. (e : Edge) → ¬ Contains table.edges e) }
        ensures graph { IfOk result IsBitGraph }
    {
        let words = vec![in alloc; 0; (nodes + 1) * row_len(nodes)]?;
        Ok(BitTable { nodes, words })
    }

    /// The table of nodes 0 to n with these words.
    pub fn of(nodes: usize, words: Vec<u64>) -> BitTable
        requires marked { IsMarked nodes words.items }
        ensures graph { result ≡ marked_graph nodes words.items }
    {
        BitTable { nodes, words }
    }

    /// The number of nodes, n, without node 0.
    pub fn nodes(&self) -> usize
        ensures count { result ≡ self.now.nodes }
        ensures graph { IsBitGraph self.now }
    {
        self.nodes
    }

    /// Whether the bit of a pair is set; above n none is.
    pub fn has(&self, u: usize, v: usize) -> bool
        ensures edge { IsTrue result ↔ Contains self.now.edges (u, v) }
    {
        u <= self.nodes && has_bit(self.row(u), v)
    }

    /// The bits of the pairs with this first node, by the second.
    pub fn row(&self, u: usize) -> &[u64]
        requires node { u ≤ self.now.nodes }
        ensures edges { (v : ℕ) → (IsTrue (bit_of result.now v) ↔ Contains self.now.edges (u, v)) }
        ensures len { length result.now ≡ row_len self.now.nodes }
    {
        let len = row_len(self.nodes);
        let start = u * len;
        &self.words[start..start + len]
    }

    /// Sets the bit of a pair.
    pub fn set(&mut self, u: usize, v: usize)
        requires nodes { (u ≤ self.old.nodes) × (v ≤ self.old.nodes) }
        ensures edges { (e : Edge) → (Contains self.new.edges e
            ↔ (Contains self.old.edges e ⊎ (e ≡ (u, v)))) }
        ensures nodes { self.new.nodes ≡ self.old.nodes }
        ensures graph { IsBitGraph self.new }
    {
        let place = bit_place(self.nodes, u, v);
        set_bit(self.words.as_mut_slice(), place);
    }

    /// Sets the bits of one row in another.
    pub fn join_row(&mut self, to: usize, from: usize)
        requires nodes { (to ≤ self.old.nodes) × (from ≤ self.old.nodes) }
        ensures edges { (u v : ℕ) → (Contains self.new.edges (u, v)
            ↔ (Contains self.old.edges (u, v) ⊎ ((u ≡ to) × Contains self.old.edges (from, v)))) }
        ensures nodes { self.new.nodes ≡ self.old.nodes }
    {
        let len = row_len(self.nodes);
        join_row(self.words.as_mut_slice(), len, to, from);
    }

    /// A table of the same nodes and bits.
    pub fn copy(&self, alloc: Global) -> Result<BitTable, AllocError>
        ensures same { IfOk result (λ table. table ≡ self.now) }
    {
        Ok(BitTable {
            nodes: self.nodes,
            words: Vec::from_slice(alloc, &self.words)?,
        })
    }

    /// Makes this the table of the nodes and bits of another one. It takes no memory.
    pub fn copy_from(&mut self, other: &BitTable)
        requires nodes { self.old.nodes ≡ other.now.nodes }
        ensures same { self.new ≡ other.now }
    {
        self.words.as_mut_slice().copy_from_slice(&other.words);
    }
}
