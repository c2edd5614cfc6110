//! An edge between two nodes, from its source to its target.

ghost use Rattle.std.specs.Prelude.{◌≡◌};

use serializability::NodeIx;
use std::marker::Model;

/// An edge from a node to another: the one stands before the other. Contracts see the pair.
#[derive(Clone, Copy, PartialEq, Eq, Debug)]
pub struct Edge {
    u: NodeIx,
    v: NodeIx,
}

impl Model for Edge {
    ghost use Rattle.std.specs.Prelude.{ℕ};

    ghost Value = { ℕ × ℕ };

    ghost view = { λ e. (e.u, e.v) };

    ghost inverse = { λ p. record { u = p.0; v = p.1 } };
}

impl Edge {
    /// The edge from `u` to `v`.
    pub fn new(u: NodeIx, v: NodeIx) -> Edge
        ensures { result ≡ (u, v) }
    {
        Edge { u, v }
    }

    /// The node that it leads from.
    pub fn source(self) -> NodeIx
        ensures { result ≡ self.0 }
    {
        self.u
    }

    /// The node that it leads to.
    pub fn target(self) -> NodeIx
        ensures { result ≡ self.1 }
    {
        self.v
    }
}
