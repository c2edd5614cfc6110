//! Bipaths, each kept as two edges.

ghost use Rattle.std.specs.Prelude.{◌≡◌, [], ◌∷◌};

use crate::choice::Choice;
use crate::edges::Edges;
use known_graph::Known;
use reach_laws::Edge;
use std::marker::Model;

/// A choice whose sides are one edge each. It takes an eighth of the room of a `Choice`.
#[derive(Drop)]
pub struct Bipath {
    one: Edge,
    two: Edge,
}

impl Model for Bipath {
    ghost use Rattle.std.specs.Prelude.{[], ◌∷◌};
    ghost use Rattle.serializability.specs.Polygraph as spec;

    ghost Value = { spec.Choice };

    ghost view = { λ b. record { one = b.one ∷ []; two = b.two ∷ [] } };
}

impl Bipath {
    /// The choice between these edges.
    pub fn new(one: Edge, two: Edge) -> Bipath
        ensures { result ≡ record { one = one ∷ []; two = two ∷ [] } }
    {
        Bipath { one, two }
    }

    /// The edge of side one.
    pub fn one(&self) -> Edge
        ensures edge { self.now.one ≡ result ∷ [] }
    {
        self.one
    }

    /// The edge of side two.
    pub fn two(&self) -> Edge
        ensures edge { self.now.two ≡ result ∷ [] }
    {
        self.two
    }

    /// The same choice, with its sides as lists.
    pub fn choice(&self) -> Choice
        ensures { result ≡ self.now }
    {
        Choice::new(Edges::single(self.one), Edges::single(self.two))
    }
}

/// A polygraph of which each choice is a bipath.
#[derive(Drop)]
pub struct BipathGraph {
    known: Known,
    bipaths: Vec<Bipath>,
}

impl Model for BipathGraph {
    ghost use Rattle.serializability.specs.Polygraph as spec;

    ghost Value = { spec.Polygraph };

    ghost view = { λ g. record {
      nodes = g.known.nodes;
      known = g.known.edges;
      choices
          = g.bipaths.items;
    } };
}

impl BipathGraph {
    /// The polygraph of these known edges and bipaths.
    pub(crate) fn new(known: Known, bipaths: Vec<Bipath>) -> BipathGraph
        ensures { result ≡ record {
          nodes = known.nodes;
          known = known.edges;
          choices
              = bipaths.items;
        } }
    {
        BipathGraph { known, bipaths }
    }

    /// The known edges and the bipaths, given back.
    pub fn into_parts(self) -> (Known, Vec<Bipath>)
        ensures known { result.0 ≡ record { nodes = self.nodes; edges = self.known } }
        ensures choices { result.1.items ≡ self.choices }
    {
        let BipathGraph { known, bipaths } = self;
        (known, bipaths)
    }
}
