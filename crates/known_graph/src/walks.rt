//! Walks and cycles.

ghost use Rattle.std.specs.Prelude.{◌≡◌, ℕ, ◌↔◌, ◌≤◌, IsTrue, IfOk, MatchOption};
ghost use Rattle.reach_laws.specs.Reach.{IsWalk, IsCycle, Reaches, IsCyclic};
ghost use Rattle.known_graph.specs.Groups.{IsSearch};
ghost use Rattle.known_graph.specs.Tests.{leads, is_line};

use crate::bits::{row_len, set_bit};
use crate::graph::Known;
use crate::groups::Search;
use crate::reached::{Reached, add_row, line_to};
use serializability::NodeIx;
use serializability::numbers::node;
use std::alloc::{AllocError, Global};

/// Whether each step from a node on along these is an edge of the graph, and the last one is the
/// end.
fn leads(graph: &Known, from: NodeIx, steps: &[NodeIx], to: NodeIx) -> bool
    ensures { result ≡ leads graph.now.edges from steps.now to }
{
    let mut at = from;
    for &node in steps {
        if !graph.has_edge(at, node) {
            return false;
        }
        at = node;
    }
    at.get() == to.get()
}

impl Known {
    /// Whether these are the nodes of a walk from one node to another, both included.
    pub fn is_line(&self, from: NodeIx, line: &[NodeIx], to: NodeIx) -> bool
        ensures { result ≡ is_line self.now.edges from line.now to }
    {
        1 < line.len() && line[0].get() == from.get() && leads(self, from, &line[1..], to)
    }

    /// Whether these nodes are a walk: at least two, and from each an edge leads to the next.
    pub fn check_walk(&self, line: &[NodeIx]) -> bool
        ensures walk { IsTrue result ↔ ((u : ℕ) × (v : ℕ) × IsWalk self.now.edges u v line.now) }
    {
        for i in 1..line.len() {
            if !self.has_edge(line[i - 1], line[i]) {
                return false;
            }
        }
        line.len() >= 2
    }

    /// A walk from u to v, or none where u does not reach v. It has the fewest edges, and of such
    /// walks it is the lexicographically least (shown by tests).
    pub fn walk(
        &self,
        alloc: Global,
        u: NodeIx,
        v: NodeIx,
    ) -> Result<Option<Vec<NodeIx>>, AllocError>
        requires nodes { (u ≤ self.now.nodes) × (v ≤ self.now.nodes) }
        ensures walk { IfOk result (λ found. MatchOption found (¬ Reaches self.now.edges u v)
            (λ line. IsWalk self.now.edges u v line.items)) }
    {
        let nodes = self.nodes();
        let mut seen = vec![in alloc; 0; row_len(nodes)]?;
        let seen = seen.as_mut_slice();
        set_bit(seen, u.get());
        let mut found = Vec::with_capacity(alloc, nodes + 1)?;
        found.push(Reached { node: u, from: 0 })?;
        for place in 0..nodes + 1 {
            if place == found.len() {
                return Ok(None);
            }
            let here = found[place].node;
            if self.has_edge(here, v) {
                return Ok(Some(line_to(alloc, &found, place, v)?));
            }
            add_row(&mut found, seen, self.row_words(here), place)?;
        }
        Ok(None)
    }

    /// The walk from a node to itself, where there is one. It is looked for unless the search has
    /// shown that there is none.
    fn cycle_through(
        &self,
        alloc: Global,
        search: &Search,
        v: NodeIx,
    ) -> Result<Option<Vec<NodeIx>>, AllocError>
        requires node { v ≤ self.now.nodes }
        requires search { IsSearch self.now search.now }
        ensures walk { IfOk result (λ found. MatchOption found (¬ Reaches self.now.edges v v)
            (λ line. IsWalk self.now.edges v v line.items)) }
    {
        if search.may_be_on_a_cycle(v) {
            self.walk(alloc, v, v)
        } else {
            Ok(None)
        }
    }

    /// A cycle, its first node repeated last, or none where no node reaches itself. It begins at
    /// the least node that lies on a cycle, has the fewest edges of the cycles through it, and is
    /// the lexicographically least of these (shown by tests).
    pub fn find_cycle(&self, alloc: Global) -> Result<Option<Vec<NodeIx>>, AllocError>
        ensures cycle { IfOk result (λ found. MatchOption found (¬ IsCyclic self.now.edges)
            (λ line. IsCycle self.now.edges line.items)) }
    {
        let search = Search::through(alloc, self)?;
        for number in 0..self.nodes() + 1 {
            let v = node(number);
            let line = self.cycle_through(alloc, &search, v)?;
            if line.is_some() {
                return Ok(line);
            }
        }
        Ok(None)
    }
}
