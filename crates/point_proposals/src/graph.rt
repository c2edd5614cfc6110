//! The points of a part, which stands before which, and the cheapest ways from point to point.

use crate::nodes::{Access, Node, Part, same_of};
use session_log::is_earlier;
use std::alloc::{AllocError, Global};

/// No way costs so much to tell.
pub const FAR: usize = usize::MAX;

/// Why a point of one node stands before one of another.
#[derive(Clone, Copy)]
pub enum Why<'a> {
    Session,
    Moments,
    /// The second reads from its snapshot what the first wrote: the read, and the write.
    Read(Access<'a>, Access<'a>),
    /// The first reads from its snapshot what the second overwrites, or what by a step comes before
    /// what the second writes: the read, and the write.
    Missed(Access<'a>, Access<'a>),
    /// Both write a key, and a step says which commits before the other takes its snapshot.
    Written,
    /// Both write a key, and a step says which commits before the other commits.
    Later,
}

/// The commit of one node stands before the snapshot of another; or, if no more is known of two that
/// write a key, before its commit; or, where the one misses a write of the other, its snapshot before
/// the other's commit.
#[derive(Clone, Copy)]
pub struct Edge<'a> {
    pub first: Node<'a>,
    pub second: Node<'a>,
    pub why: Why<'a>,
    /// The step that it rests on.
    pub step: Option<usize>,
}

impl<'a> Edge<'a> {
    /// Whether the one misses a write of the other.
    pub fn is_missed(&self) -> bool {
        matches!(self.why, Why::Missed(..))
    }

    /// How much it takes to tell it. What clients saw counts less than what they missed, that less
    /// than the order of a session, and that less than the clock.
    fn cost(&self) -> usize {
        match self.why {
            _ if self.step.is_some() => 3_000_000,
            Why::Session => 1_000_030,
            Why::Moments => 1_001_000,
            Why::Missed(..) => 1_000_001,
            _ => 1_000_000,
        }
    }
}

/// Edges that lead from one point to another, and what it costs to tell them.
#[derive(Drop)]
pub struct Way<'a> {
    pub edges: Vec<Edge<'a>>,
    pub cost: usize,
    /// The edge that would close a circle, if one node committed before another: somebody would miss
    /// what that other one writes.
    pub overwritten: Option<Edge<'a>>,
}

impl Way<'_> {
    /// Whether it rests on a step.
    pub fn rests_on(&self, step: usize) -> bool {
        self.edges.iter().any(|edge| edge.step == Some(step))
    }
}

/// What stands in a table of rows.
fn entry<T: Copy>(rows: &[Vec<T>], row: usize, column: usize) -> Option<T> {
    rows.get(row)?.get(column).copied()
}

/// From each point to each the edge, where there is one, and what the cheapest way costs. That a
/// snapshot stands before its own commit is no edge, and takes no words.
#[derive(Drop)]
pub struct Graph<'a> {
    edges: Vec<Vec<Option<Edge<'a>>>>,
    costs: Vec<Vec<usize>>,
}

impl<'a> Graph<'a> {
    /// What is known of the points of a part, with moments or without. What a node reads from its
    /// snapshot was written by a commit before it; and it is overwritten by later commits: those of
    /// nodes that read it too and write the key, and where it is the initial value, of all that write
    /// the key.
    pub fn of(alloc: Global, part: &Part<'a>, is_timed: bool) -> Result<Graph<'a>, AllocError> {
        let mut graph = Graph::new(alloc, part.nodes.len().saturating_mul(2))?;
        for read in part.reads.iter().copied() {
            for write in part.writes.iter().copied() {
                let (reader, writer) = (read.node, write.node);
                if write.is_same(&read) {
                    graph.add(writer, reader, Why::Read(read, write), None);
                }
                let is_other = writer.number != reader.number && write.key == read.key;
                if is_other && (read.wid == 0 || same_of(&part.reads, writer, &read).is_some()) {
                    graph.add(reader, writer, Why::Missed(read, write), None);
                }
            }
        }
        for first in part.nodes.iter().copied() {
            for second in part.nodes.iter().copied() {
                if first.at.session == second.at.session && first.number < second.number {
                    graph.add(first, second, Why::Session, None);
                }
                if is_timed && is_earlier(first.txn.ended, second.txn.begun) {
                    graph.add(first, second, Why::Moments, None);
                }
            }
        }
        Ok(graph)
    }

    /// So many points, with no edge.
    fn new(alloc: Global, points: usize) -> Result<Graph<'a>, AllocError> {
        let (mut edges, mut costs) = (Vec::new(alloc), Vec::new(alloc));
        for _ in 0..points {
            edges.push(vec![in alloc; None; points]?)?;
            costs.push(vec![in alloc; FAR; points]?)?;
        }
        Ok(Graph { edges, costs })
    }

    /// Adds an edge, unless there is one from point to point.
    pub fn add(&mut self, first: Node<'a>, second: Node<'a>, why: Why<'a>, step: Option<usize>) {
        let edge = Edge {
            first,
            second,
            why,
            step,
        };
        let (from, to) = match why {
            Why::Missed(..) => (first.snapshot(), second.commit()),
            Why::Later => (first.commit(), second.commit()),
            _ => (first.commit(), second.snapshot()),
        };
        if let Some(row) = self.edges.get_mut(from)
            && let Some(cell) = row.get_mut(to)
        {
            cell.get_or_insert(edge);
        }
    }

    /// What it costs to tell that one point stands right before another.
    fn edge_cost(&self, from: usize, to: usize) -> usize {
        if from % 2 == 0 && to == from.saturating_add(1) {
            return 0;
        }
        match entry(&self.edges, from, to).flatten() {
            Some(edge) => edge.cost(),
            None => FAR,
        }
    }

    /// What the way from one point to another costs.
    pub fn cost(&self, from: usize, to: usize) -> usize {
        entry(&self.costs, from, to).unwrap_or(FAR)
    }

    /// What the way costs that goes on from a point to one that stands right behind it.
    fn cost_on(&self, from: usize, last: usize, to: usize) -> usize {
        self.cost(from, last)
            .saturating_add(self.edge_cost(last, to))
    }

    /// A way from one point to another that costs so much.
    fn lower(&mut self, from: usize, to: usize, cost: usize) {
        if let Some(row) = self.costs.get_mut(from)
            && let Some(least) = row.get_mut(to)
        {
            *least = cost.min(*least);
        }
    }

    /// Learns what the cheapest ways cost, by all edges so far.
    pub fn learn_costs(&mut self) {
        let points = self.edges.len();
        for from in 0..points {
            for to in 0..points {
                let cost = self.edge_cost(from, to);
                self.lower(from, to, if from == to { 0 } else { cost });
            }
        }
        for by in 0..points {
            for from in 0..points {
                for to in 0..points {
                    let cost = self.cost(from, by).saturating_add(self.cost(by, to));
                    self.lower(from, to, cost);
                }
            }
        }
    }

    /// The way from one point to another, where there is one: of the last points before another one
    /// always the one that is reached for least.
    pub fn way(
        &self,
        alloc: Global,
        from: usize,
        to: usize,
    ) -> Result<Option<Way<'a>>, AllocError> {
        let (mut edges, mut at, cost) = (Vec::new(alloc), to, self.cost(from, to));
        if cost == FAR {
            return Ok(None);
        }
        for _ in 0..self.edges.len() {
            if at == from {
                break;
            }
            let last = (0..self.edges.len())
                .min_by_key(|last| (self.cost_on(from, *last, at), self.cost(from, *last)))
                .unwrap_or(from);
            edges.extend(entry(&self.edges, last, at).flatten())?;
            at = last;
        }
        edges.reverse();
        Ok(Some(Way {
            edges,
            cost,
            overwritten: None,
        }))
    }

    /// The cheapest circle: a way, and the edge back to the point where it begins.
    pub fn circle(&self, alloc: Global) -> Result<Option<Way<'a>>, AllocError> {
        let mut least = (FAR, 0, 0);
        for start in 0..self.edges.len() {
            for last in 0..self.edges.len() {
                least = least.min((self.cost_on(start, last, start), start, last));
            }
        }
        let (cost, start, last) = least;
        if cost == FAR {
            return Ok(None);
        }
        let mut circle = self.way(alloc, start, last)?;
        if let Some(way) = &mut circle {
            way.edges.extend(entry(&self.edges, last, start).flatten())?;
        }
        Ok(circle)
    }
}
