//! What is decided of a history.

use cube_laws::Tree;
use prune_ledger::{Ledger, Reduced};
use session_history::{Anomaly, NodeIx, NodeLine};

/// What is decided of a history.
#[derive(Drop)]
pub enum Decision {
    /// This order is serial.
    Serial(NodeLine),
    /// No order is, since an anomaly stands. This is the one that is to be reported, one of A1 to
    /// A7.
    Anomalous(Anomaly),
    /// No order is, by a cycle of the arcs or, where these have none, of all known edges of the
    /// chains (A8). Its first node is repeated last.
    Cyclic(Vec<NodeIx>),
    /// No order is, since pruning ends in a cycle, which the ledger gives (A9).
    Dead(Ledger),
    /// No order is, since every cube of what pruning leaves is refuted, by this tree.
    Refuted { reduced: Reduced, tree: Tree },
    /// The search closed so many cubes, which is its budget, and found neither an order nor that
    /// there is none.
    Spent { closed: usize },
}
