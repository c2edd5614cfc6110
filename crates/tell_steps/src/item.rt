//! What is told of a history that has no order.

use serializability::NodeIx;
use tell_reasons::{ChainOrder, Why};

/// What is told of a history that has no order.
#[derive(Clone, Copy)]
pub enum Item {
    /// Forced step `number`, from 1: the chains stand in this order, since the other way round
    /// `source` stands before `target`, against the edges that follow.
    Step {
        number: usize,
        order: ChainOrder,
        source: NodeIx,
        target: NodeIx,
    },
    /// One transaction stands before another, and why.
    Edge {
        first: NodeIx,
        second: NodeIx,
        why: Why,
    },
    /// The edges that follow close a cycle of so many edges that begins here.
    Cycle {
        start: NodeIx,
        edges: usize,
    },
    /// A cube decides that the chains stand in this order, as its choice number `depth`, from 1.
    Decided {
        depth: usize,
        order: ChainOrder,
    },
    /// The tree of the search has so many leaves, more than one, of which the first 1,000 are told.
    Leaves {
        count: usize,
    },
}
