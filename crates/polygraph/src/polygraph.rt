//! A polygraph: the edges that are known, and the choices.

ghost use Rattle.std.specs.Prelude.{◌≡◌, ◌≤◌, length, slice_get};
ghost use Rattle.std.specs.Option.{option_copied};
ghost use Rattle.std.specs.List.{AllByRecursion};
ghost use Rattle.known_graph.specs.Graphs.{IsKnownGraph};
ghost use Rattle.polygraph.specs.Polygraphs.{JoinsBoth, IsPolygraph};
ghost use Rattle.polygraph.specs.declared.index.TheConstants.{MAX_CHOICES};
ghost use Rattle.serializability.specs.declared.node.TheConstants.{MAX_NODES};

use crate::choice::Choice;
use crate::index::ChoiceIx;
use known_graph::Known;
use std::marker::Model;

/// Edges that are known, and choices, between nodes 0 to n of a history, where n is at most 1,000.
/// It has at most 100,000 choices, and each edge of a choice joins two different nodes.
#[derive(Drop)]
pub struct Polygraph {
    known: Known,
    choices: Vec<Choice>,
}

impl Model for Polygraph {
    ghost use Rattle.serializability.specs.Polygraph as spec;

    ghost Value = { spec.Polygraph };

    ghost use Rattle.polygraph.specs.Held.{polygraph_of, IsHeld};

    ghost view = { polygraph_of };

    ghost invariant = { IsHeld };
}

impl Polygraph {
    /// The polygraph of these known edges and choices.
    pub fn new(known: Known, choices: Vec<Choice>) -> Polygraph
        requires few { length choices.items ≤ MAX_CHOICES }
        requires joined { AllByRecursion (JoinsBoth known.nodes) choices.items }
        ensures { result ≡ record {
          nodes = known.nodes;
          known = known.edges;
          choices
              = choices.items;
        } }
    {
        Polygraph { known, choices }
    }

    /// The number of nodes, n, without node 0.
    pub fn nodes(&self) -> usize
        ensures count { result ≡ self.now.nodes }
        ensures few { result ≤ MAX_NODES }
        ensures polygraph { IsPolygraph self.now }
        ensures known { IsKnownGraph (record { nodes = self.now.nodes; edges = self.now.known }) }
    {
        let _invariant = &self.choices;
        self.known.nodes()
    }

    /// The known edges.
    pub fn known(&self) -> &Known
        ensures { result.now ≡ record { nodes = self.now.nodes; edges = self.now.known } }
    {
        &self.known
    }

    /// The choices, by number.
    pub fn choices(&self) -> &[Choice]
        ensures choices { result.now ≡ self.now.choices }
        ensures few { length result.now ≤ MAX_CHOICES }
    {
        self.choices.as_slice()
    }

    /// The choice with this number, where there is one.
    pub fn choice(&self, index: ChoiceIx) -> Option<&Choice>
        ensures { option_copied result ≡ slice_get self.now.choices index }
    {
        self.choices.get(index.get())
    }

    /// The known edges and the choices, given back.
    pub fn into_parts(self) -> (Known, Vec<Choice>)
        ensures known { result.0 ≡ record { nodes = self.nodes; edges = self.known } }
        ensures choices { result.1.items ≡ self.choices }
        ensures polygraph { IsPolygraph self }
    {
        let Polygraph { known, choices } = self;
        (known, choices)
    }
}
