//! What the steps before a search make of a history.

use prune_ledger::{Ledger, Reduced};
use serializability::{Anomaly, NodeIx};

/// What the steps before a search make of a history. In all cases but the last no serial order
/// exists.
#[derive(Drop)]
pub enum Reduction {
    /// The anomaly that is to be reported, one of A1 to A7.
    Anomalous(Anomaly),
    /// A cycle of the arcs or, where these have none, of all known edges of the chains (A8). Its
    /// first node is repeated last.
    Cyclic(Vec<NodeIx>),
    /// Pruning ended in a cycle, which the ledger gives (A9).
    Dead(Ledger),
    /// What pruning leaves of the polygraph of the chains, which has so many choices. The serial
    /// orders are those that fit it.
    Open { choices: usize, reduced: Reduced },
}
