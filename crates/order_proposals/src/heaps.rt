//! Heaps of nodes, by their ranks.

use numbers::{NONE, at, put};
use std::alloc::{AllocError, Global};

/// Heaps of nodes, each with the node of the least rank on top. A node is in one of them at most.
#[derive(Drop)]
pub struct Heaps {
    ranks: Vec<u64>,
    tops: Vec<u32>,
    /// Of each node what is below it, on both sides.
    lefts: Vec<u32>,
    rights: Vec<u32>,
}

impl Heaps {
    /// So many heaps without a node, where nodes have these ranks.
    pub fn new(alloc: Global, count: usize, ranks: Vec<u64>) -> Result<Heaps, AllocError> {
        Ok(Heaps {
            tops: vec![in alloc; NONE; count]?,
            lefts: vec![in alloc; NONE; ranks.len()]?,
            rights: vec![in alloc; NONE; ranks.len()]?,
            ranks,
        })
    }

    /// The rank of a node.
    pub fn rank(&self, node: u32) -> u64 {
        self.ranks.get(node as usize).copied().unwrap_or(u64::MAX)
    }

    /// Whether a node is above another one, where both are there.
    fn is_above(&self, node: u32, other: u32) -> bool {
        if node == NONE || other == NONE {
            return other == NONE;
        }
        let (rank, other_rank) = (self.rank(node), self.rank(other));
        rank < other_rank || rank == other_rank && node < other
    }

    /// Puts a heap in the place of what is on the left of a node.
    fn hang(&mut self, above: u32, top: u32) {
        put(self.lefts.as_mut_slice(), above, top);
    }

    /// What is on the right of a node, in the place of which comes what is on its left.
    fn turn(&mut self, node: u32) -> u32 {
        let (left, right) = (at(&self.lefts, node), at(&self.rights, node));
        put(self.rights.as_mut_slice(), node, left);
        right
    }

    /// Makes one heap of two, by their tops.
    fn join(&mut self, one: u32, other: u32) -> u32 {
        let is_first = self.is_above(one, other);
        let top = if is_first { one } else { other };
        let (mut first, mut second) = (one, other);
        let mut above = NONE;
        for _ in 0..u64::MAX {
            if !self.is_above(first, second) {
                (first, second) = (second, first);
            }
            self.hang(above, first);
            if second == NONE {
                break;
            }
            above = first;
            first = self.turn(above);
        }
        top
    }

    /// Puts a node into a heap.
    pub fn push(&mut self, heap: u32, node: u32) {
        put(self.lefts.as_mut_slice(), node, NONE);
        put(self.rights.as_mut_slice(), node, NONE);
        let old = at(&self.tops, heap);
        let top = self.join(old, node);
        put(self.tops.as_mut_slice(), heap, top);
    }

    /// Takes out the node of the least rank.
    pub fn pop(&mut self, heap: u32) -> Option<u32> {
        let top = at(&self.tops, heap);
        if top == NONE {
            return None;
        }
        let (left, right) = (at(&self.lefts, top), at(&self.rights, top));
        let rest = self.join(left, right);
        put(self.tops.as_mut_slice(), heap, rest);
        Some(top)
    }
}
