//! How nodes of the tree were led to.

use polygraph::ChoiceIx;
use pruning_laws::Side;

/// How a node of the tree was led to: the number of its parent, and the choice by which that was
/// split, with the side that the node decides.
#[derive(Clone, Copy, Debug, PartialEq, Eq)]
pub struct Origin {
    pub parent: usize,
    pub choice: ChoiceIx,
    pub side: Side,
}
