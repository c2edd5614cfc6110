//! Transactions that read all four pairs of two versions of a key and two of another.

use serializability::NodeIx;

/// A transaction that reads a key by its operation `first`, and another by its operation `second`.
/// Operations count from 0.
#[derive(Clone, Copy)]
pub struct PairRead {
    pub node: NodeIx,
    pub first: usize,
    pub second: usize,
}

/// Who reads which version of the one key with which of the other: `one_two` reads version one of
/// the first key and version two of the second.
#[derive(Clone, Copy)]
pub struct Crossing {
    pub one_one: PairRead,
    pub one_two: PairRead,
    pub two_one: PairRead,
    pub two_two: PairRead,
}
