//! The number of a node, and how many nodes there can be.

ghost use Rattle.std.specs.Prelude.{◌≡◌, ℕ, ◌≤◌, ◌↔◌, IsSome, IfSome};
ghost use Rattle.serializability.specs.declared.node.TheConstants.{MAX_NODES};

use std::marker::Model;

/// The greatest node number, and the greatest number of committed transactions of a log.
pub const MAX_NODES: usize = 1_000;

/// A node of a history: 0 is the initial transaction, and 1 to n are the committed transactions.
#[derive(Clone, Copy, Debug, PartialEq, Eq)]
pub struct NodeIx {
    number: u16,
}

impl Model for NodeIx {
    ghost Value = { ℕ };

    ghost view = { λ v. v.number };

    ghost invariant = { λ v. v.number ≤ MAX_NODES };

    ghost inverse = { λ n. record { number = n } };
}

impl NodeIx {
    /// The initial transaction.
    pub const INITIAL: NodeIx = NodeIx { number: 0 };

    /// The node with this number, where it is one of 0 to 1,000.
    pub fn new(number: usize) -> Option<NodeIx>
        ensures some { IsSome result ↔ (number ≤ MAX_NODES) }
        ensures value { IfSome result (λ v. v ≡ number) }
    {
        if number <= MAX_NODES {
            Some(NodeIx {
                number: number as u16,
            })
        } else {
            None
        }
    }

    /// The number.
    pub fn get(self) -> usize
        ensures value { result ≡ self }
        ensures range { result ≤ MAX_NODES }
    {
        usize::from(self.number)
    }
}
