//! A choice: two sides, each a list of edges, of which an order keeps one.

ghost use Rattle.std.specs.Prelude.{◌≡◌};
ghost use Rattle.pruning_laws.specs.Forced.{edges_of};

use crate::edges::Edges;
use pruning_laws::Side;
use reach_laws::Edge;
use std::marker::Model;

/// Two sides, of which an order keeps all edges of one.
#[derive(Drop)]
pub struct Choice {
    one: Edges,
    two: Edges,
}

impl Model for Choice {
    ghost use Rattle.serializability.specs.Polygraph as spec;

    ghost Value = { spec.Choice };

    ghost view = { λ c. record { one = c.one; two = c.two } };
}

impl Choice {
    /// The choice between these sides.
    pub fn new(one: Edges, two: Edges) -> Choice
        ensures { result ≡ record { one = one; two = two } }
    {
        Choice { one, two }
    }

    /// The edges of side one.
    pub fn one(&self) -> &[Edge]
        ensures { result.now ≡ self.now.one }
    {
        self.one.as_slice()
    }

    /// The edges of side two.
    pub fn two(&self) -> &[Edge]
        ensures { result.now ≡ self.now.two }
    {
        self.two.as_slice()
    }

    /// The edges of a side.
    pub fn edges(&self, side: Side) -> &[Edge]
        ensures { result.now ≡ edges_of self.now side }
    {
        match side {
            Side::One => self.one(),
            Side::Two => self.two(),
        }
    }
}
