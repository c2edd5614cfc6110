//! Rows of a graph.

ghost use Rattle.std.specs.Prelude.{◌≡◌, ℕ, ◌≤◌, ◌↔◌, IsTrue, IfOk};
ghost use Rattle.std.specs.List.{Contains};
ghost use Rattle.reach_laws.specs.Reach.{Graph, Reaches, IsCyclic};
ghost use Rattle.known_graph.specs.Graphs.{IsBitGraph};
ghost use Rattle.reach_rows.specs.ReachRows.{AreRowsOf, AddsEdge};
ghost use Rattle.reach_rows.specs.Sources.{IsGrown};
ghost use Rattle.serializability.specs.declared.node.TheConstants.{MAX_NODES};

use crate::parts::rows_by_workers;
use desk::gate::Gate;
use desk::seat_no::Workers;
use known_graph::{BitTable, Known};
use serializability::NodeIx;
use std::alloc::{AllocError, Global};
use std::marker::Model;
use std::sync::Wait;
use std::thread::Threads;
use std::time::Clock;

/// Which of nodes 0 to n reaches which, where n is at most 1,000. Contracts see a graph in which an
/// edge leads from each node to each that it reaches.
#[derive(Drop)]
pub struct Rows {
    table: BitTable,
}

impl Model for Rows {
    ghost use Rattle.reach_laws.specs.Reach.{Graph};

    ghost Value = { Graph };

    ghost view = { λ r. r.table };
}

impl Rows {
    /// The rows of a graph, computed by so many workers in threads of their own.
    ///
    /// Each worker has consecutive nodes, with about as many edges as those of each other one. It
    /// finds what they reach, and passes the gate before each, with its turns counted from 0; one
    /// that has none passes it once. Seats are 1 to the number of workers.
    pub fn compute<R: Threads + Wait + Clock + Sync, G: Gate>(
        rt: &R,
        alloc: Global,
        known: &Known,
        workers: Workers,
        gate: &G,
    ) -> Result<Rows, AllocError>
        ensures rows { IfOk result (λ rows. AreRowsOf rows known.now) }
    {
        let words = rows_by_workers(rt, alloc, known, workers, gate)?;
        Ok(Rows {
            table: BitTable::of(known.nodes(), words),
        })
    }

    /// The number of nodes, n, without node 0.
    pub fn nodes(&self) -> usize
        ensures count { result ≡ self.now.nodes }
        ensures few { result ≤ MAX_NODES }
    {
        self.table.nodes()
    }

    /// Whether u reaches v; no node above n does, and none is reached.
    pub fn reaches(&self, u: NodeIx, v: NodeIx) -> bool
        ensures edge { IsTrue result ↔ Contains self.now.edges (u, v) }
        ensures reach { (graph : Graph) → AreRowsOf self.now graph →
            (IsTrue result ↔ Reaches graph.edges u v) }
    {
        self.table.has(u.get(), v.get())
    }

    /// Whether some node reaches itself.
    pub fn has_cycle(&self) -> bool
        ensures edge { IsTrue result ↔ ((v : ℕ) × Contains self.now.edges (v, v)) }
        ensures cycle { (graph : Graph) → AreRowsOf self.now graph →
            (IsTrue result ↔ IsCyclic graph.edges) }
    {
        for number in 0..self.table.nodes() + 1 {
            if self.table.has(number, number) {
                return true;
            }
        }
        false
    }

    /// Makes these the rows of the graph with an edge more, from u to v. It takes no memory.
    ///
    /// Where u reaches v already, nothing changes. Else u, and each node that reaches u, now
    /// reaches v and what v reached.
    pub fn add_edge(&mut self, u: NodeIx, v: NodeIx)
        requires nodes { (u ≤ self.old.nodes) × (v ≤ self.old.nodes) }
        ensures rows { (old new : Graph) → AreRowsOf self.old old → AddsEdge old new (u, v) →
            AreRowsOf self.new new }
        ensures nodes { self.new.nodes ≡ self.old.nodes }
    {
        if !self.reaches(u, v) {
            add_reach(&mut self.table, u.get(), v.get());
        }
    }

    /// Rows of the same graph.
    pub fn copy(&self, alloc: Global) -> Result<Rows, AllocError>
        ensures same { IfOk result (λ rows. rows ≡ self.now) }
    {
        Ok(Rows {
            table: self.table.copy(alloc)?,
        })
    }

    /// Makes these the rows of the same graph as others. It takes no memory.
    pub fn copy_from(&mut self, other: &Rows)
        requires nodes { self.old.nodes ≡ other.now.nodes }
        ensures same { self.new ≡ other.now }
    {
        self.table.copy_from(&other.table);
    }
}

/// Lets u, and each node that reaches u, reach v and what v reaches.
///
/// Row v itself may change on the way, where v reaches u or is u. It then gets the bit of v and its
/// own bits alone; and the bit of v is added to each row with row v, so that the old row v would
/// give the same.
fn add_reach(table: &mut BitTable, u: usize, v: usize)
    requires nodes { (u ≤ table.old.nodes) × (v ≤ table.old.nodes) }
    ensures grown { (x w : ℕ) →
        (Contains table.new.edges (x, w) ↔ IsGrown table.old.edges u v (x, w)) }
    ensures nodes { table.new.nodes ≡ table.old.nodes }
    ensures graph { IsBitGraph table.new }
{
    for x in 0..table.nodes() + 1 {
        if x == u || table.has(x, u) {
            table.join_row(x, v);
            table.set(x, v);
        }
    }
}
