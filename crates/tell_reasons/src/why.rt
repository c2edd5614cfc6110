//! Why an edge stands in a line of nodes.

use reasons::Reason;
use serializability::NodeIx;

/// The chain of a key that begins with one writer stands before the one that begins with another.
/// Keys are numbered from 0, in the order of their first appearance.
#[derive(Clone, Copy)]
pub struct ChainOrder {
    pub key: usize,
    /// The first writer of the chain that stands before the other.
    pub first: NodeIx,
    /// The first writer of the other chain.
    pub second: NodeIx,
}

/// Why one node stands before another.
#[derive(Clone, Copy)]
pub enum Why {
    /// The log shows it.
    Known(Reason),
    /// The forced step of this number, from 1, which is this order, established it.
    Forced { number: usize, order: ChainOrder },
    /// It was decided that the chains stand in this order.
    Chosen(ChainOrder),
}
