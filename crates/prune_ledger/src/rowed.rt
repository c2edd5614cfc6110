//! A graph whose rows are kept up while edges come.

ghost use Rattle.std.specs.Prelude.{◌≡◌, IfOk};
ghost use Rattle.std.specs.List.{AllByRecursion};
ghost use Rattle.polygraph.specs.Polygraphs.{Joins};
ghost use Rattle.reach_rows.specs.ReachRows.{AreRowsOf};
ghost use Rattle.prune_ledger.specs.Rounds.{AddsEdges};

use known_graph::Known;
use reach_laws::Edge;
use reach_rows::Rows;
use std::alloc::{AllocError, Global};
use std::marker::Model;

/// A graph, and which node reaches which in it. Contracts see the graph.
#[derive(Drop)]
pub struct RowedGraph {
    graph: Known,
    rows: Rows,
}

impl Model for RowedGraph {
    ghost use Rattle.reach_laws.specs.Reach.{Graph};
    ghost use Rattle.reach_rows.specs.ReachRows.{AreRowsOf};

    ghost Value = { Graph };

    ghost view = { λ r. r.graph };

    ghost invariant = { λ r. AreRowsOf r.rows r.graph };
}

impl RowedGraph {
    /// A graph with its rows.
    pub fn new(graph: Known, rows: Rows) -> RowedGraph
        requires rows { AreRowsOf rows graph }
        ensures graph { result ≡ graph }
    {
        RowedGraph { graph, rows }
    }

    /// A copy of the graph and of its rows.
    pub fn copy(&self, alloc: Global) -> Result<RowedGraph, AllocError>
        ensures graph { IfOk result (λ r. r ≡ self.now) }
    {
        Ok(RowedGraph {
            graph: self.graph.copy(alloc)?,
            rows: self.rows.copy(alloc)?,
        })
    }

    /// The graph.
    pub fn graph(&self) -> &Known
        ensures graph { result.now ≡ self.now }
    {
        &self.graph
    }

    /// The rows of the graph.
    pub fn rows(&self) -> &Rows
        ensures rows { AreRowsOf result.now self.now }
    {
        &self.rows
    }

    /// Adds these edges to the graph, and makes the rows those of the graph with them. It takes no
    /// memory.
    pub fn add_all(&mut self, edges: &[Edge])
        requires joined { AllByRecursion (Joins self.old.nodes) edges.now }
        ensures edges { AddsEdges self.old self.new edges.now }
    {
        add_edges(&mut self.graph, &mut self.rows, edges);
    }

    /// The graph and its rows, given back.
    pub fn into_parts(self) -> (Known, Rows)
        ensures graph { result.0 ≡ self }
        ensures rows { AreRowsOf result.1 self }
    {
        let RowedGraph { graph, rows } = self;
        (graph, rows)
    }
}

/// Adds these edges to a graph, and to its rows.
fn add_edges(graph: &mut Known, rows: &mut Rows, edges: &[Edge])
    requires joined { AllByRecursion (Joins graph.old.nodes) edges.now }
    requires rows { AreRowsOf rows.old graph.old }
    ensures edges { AddsEdges graph.old graph.new edges.now }
    ensures rows { AreRowsOf rows.new graph.new }
{
    for &edge in edges {
        graph.add_edge(edge.source(), edge.target());
        rows.add_edge(edge.source(), edge.target());
    }
}
