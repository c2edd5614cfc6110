//! Nodes of the tree, as they are kept in memory.

use crate::origin::Origin;
use cube_laws::CubeState;

/// A node of the tree: how it was led to, which is `None` for node 0, and what is noted of it.
#[derive(Clone, Copy)]
pub struct TreeNode {
    pub origin: Option<Origin>,
    pub mark: CubeState,
}
