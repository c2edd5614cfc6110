//! Trees that show that no order fits.

ghost use Rattle.std.specs.Prelude.{◌≡◌, List};

use polygraph::ChoiceIx;
use pruning_laws::Side;
use session_history::NodeLine;
use std::marker::Model;

/// A choice and the side of it that a cube decides.
#[derive(Clone, Copy)]
pub struct CubeDecision {
    pub choice: ChoiceIx,
    pub side: Side,
}

/// What became of the cube of a node.
#[derive(Drop)]
pub enum Growth {
    /// It is refuted by this cycle, its first node repeated last.
    Leaf(NodeLine),
    /// It is split by a choice. Its children are these nodes.
    Inner {
        choice: ChoiceIx,
        /// The child by side one.
        first: usize,
        /// The child by side two.
        second: usize,
    },
}

/// A node of a tree.
#[derive(Drop)]
pub struct TreeNode {
    /// The number of its parent, which of node 0 is 0.
    pub parent: usize,
    /// What its cube decides beyond its parent's; nothing for node 0.
    pub decision: Option<CubeDecision>,
    pub growth: Growth,
}

/// A tree that shows that every cube is refuted: its nodes by their numbers, of which 0 is the
/// root. Contracts see the nodes.
#[derive(Drop)]
pub struct Tree {
    nodes: Vec<TreeNode>,
}

impl Model for Tree {
    ghost use Rattle.std.specs.Prelude.{List};
    ghost use Rattle.cube_laws.specs.declared.tree.TreeNode.{TreeNode};

    ghost Value = { List TreeNode };

    ghost view = { λ t. t.nodes.items };
}

impl Tree {
    /// The tree of these nodes.
    pub fn from_nodes(nodes: Vec<TreeNode>) -> Tree
        ensures tree { result ≡ nodes.items }
    {
        Tree { nodes }
    }

    /// The nodes, by their numbers.
    pub fn nodes(&self) -> &[TreeNode]
        ensures nodes { result.now ≡ self.now }
    {
        &self.nodes
    }
}
