//! What is found of a history.

use session_history::NodeLine;

/// What is found of a history.
#[derive(Drop)]
pub enum Solution {
    /// This serial order explains it.
    Serial(NodeLine),
    /// Its formula is refuted, and so no order explains it.
    Refuted,
    /// The budget was spent before either was found.
    Spent,
}
