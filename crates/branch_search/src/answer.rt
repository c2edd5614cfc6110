//! What a search answers.

use cube_laws::Tree;
use session_history::NodeLine;

/// What a search answers.
#[derive(Drop)]
pub enum Answer {
    /// This order is serial.
    Yes(NodeLine),
    /// There is no serial order: every cube of this tree is refuted.
    No(Tree),
    /// The budget was spent before the search came to an end.
    Unknown {
        /// How many nodes of the tree were closed.
        closed: usize,
    },
}
