//! What a formula is made from.

/// What the formula that belongs to a log is made from.
#[derive(Clone, Copy)]
pub enum Basis {
    /// An anomaly, by the number that it is printed with. The formula is the contradiction.
    Anomalous(u8),
    /// So many bipaths. The formula is the plain one.
    Bipaths(usize),
    /// So many choices between chains, and so many of them that pruning left. The formula is the
    /// reduced one.
    Chains { all: usize, left: usize },
}

/// The number of a cycle of what is known.
pub(crate) const KNOWN_CYCLE: u8 = 8;

/// The number of a cycle in which pruning ends.
pub(crate) const PRUNED_CYCLE: u8 = 9;
