//! Lists of nodes.

ghost use Rattle.std.specs.Prelude.{◌≡◌};

use serializability::NodeIx;
use std::marker::Model;

/// The nodes of an order or of a cycle, one after the other. It is a list, nothing more: it may lack
/// some of a history's nodes, or have others.
#[derive(Drop)]
pub struct NodeLine {
    nodes: Vec<NodeIx>,
}

impl Model for NodeLine {
    ghost use Rattle.std.specs.Prelude.{List, ℕ};

    ghost Value = { List ℕ };

    ghost view = { λ line. line.nodes.items };
}

impl NodeLine {
    /// The line of these nodes.
    pub fn from_nodes(nodes: Vec<NodeIx>) -> NodeLine
        ensures line { result ≡ nodes.items }
    {
        NodeLine { nodes }
    }

    /// The nodes.
    pub fn nodes(&self) -> &[NodeIx]
        ensures nodes { result.now ≡ self.now }
    {
        &self.nodes
    }

    /// The nodes, given back.
    pub fn into_nodes(self) -> Vec<NodeIx>
        ensures nodes { result.items ≡ self }
    {
        self.nodes
    }
}
