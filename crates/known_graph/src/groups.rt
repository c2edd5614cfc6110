//! Which nodes of a graph may lie on a cycle, by a search for groups of nodes of which each reaches
//! each other.

ghost use Rattle.std.specs.Prelude.{◌≡◌, ◌<◌, ◌≤◌, false, IsTrue, IfOk, OnOk};
ghost use Rattle.reach_laws.specs.Reach.{Graph, Reaches};
ghost use Rattle.known_graph.specs.Bits.{bit_of};
ghost use Rattle.known_graph.specs.Graphs.{IsKnownGraph};
ghost use Rattle.known_graph.specs.Groups.{IsGroup, IsSearch, work_left};

use crate::bits::{NODE_WORDS, NodeBits, first_open, has_bit, is_within, join_words, set_bit};
use crate::graph::Known;
use serializability::NodeIx;
use serializability::numbers::node;
use std::alloc::{AllocError, Global};

/// Nodes, and the ends of their edges.
#[derive(Clone, Copy)]
pub struct Group {
    nodes: NodeBits,
    ends: NodeBits,
}

impl Group {
    /// The group of a node alone.
    fn of(known: &Known, v: NodeIx) -> Group
        requires graph { IsKnownGraph known.now }
        requires node { v ≤ known.now.nodes }
        ensures group { IsGroup known.now result }
    {
        let mut nodes = [0; NODE_WORDS];
        set_bit(&mut nodes, v.get());
        let mut ends = [0; NODE_WORDS];
        join_words(&mut ends, known.row_words(v));
        Group { nodes, ends }
    }

    /// The nodes of both groups.
    fn joined(mut self, other: Group) -> Group
        ensures group { (g : Graph) → IsGroup g self → IsGroup g other → IsGroup g result }
    {
        join_words(&mut self.nodes, &other.nodes);
        join_words(&mut self.ends, &other.ends);
        self
    }
}

/// A search from node 0 along all edges, depth first.
///
/// The nodes on its way stand in groups, each with an edge to the next one. Where an edge leads
/// from the last group to one before it, the last two are joined, since their nodes reach each
/// other. Where all edges of the last group lead to it and to closed nodes, it is closed. So each
/// step enters a node, joins two groups or closes one, and reads a few words.
#[derive(Drop)]
pub struct Search {
    // the groups on the way
    path: Vec<Group>,
    // the nodes that were entered
    seen: NodeBits,
    // the nodes of closed groups, from which no edge leads elsewhere
    closed: NodeBits,
    // the nodes of those closed groups in which an edge leads
    round: NodeBits,
}

impl Search {
    /// The whole search of a graph.
    pub fn through(alloc: Global, known: &Known) -> Result<Search, AllocError>
        ensures search { IfOk result (IsSearch known.now) }
    {
        let mut search = Search {
            path: Vec::with_capacity(alloc, known.nodes() + 1)?,
            seen: [0; NODE_WORDS],
            closed: [0; NODE_WORDS],
            round: [0; NODE_WORDS],
        };
        search.enter(known, NodeIx::INITIAL)?;
        while let Some(group) = search.path.pop() {
            search.step(known, group)?;
        }
        Ok(search)
    }

    /// Whether a node may lie on a cycle: its group was closed with an edge in it, or never.
    pub fn may_be_on_a_cycle(&self, v: NodeIx) -> bool
        ensures cycle { (g : Graph) → IsSearch g self.now → Reaches g.edges v v → IsTrue result }
    {
        has_bit(&self.round, v.get()) || !has_bit(&self.closed, v.get())
    }

    /// Enters a node, as a group of its own.
    fn enter(&mut self, known: &Known, v: NodeIx) -> Result<(), AllocError>
        requires search { IsSearch known.now self.old }
        requires node { v ≤ known.now.nodes }
        requires fresh { bit_of self.old.seen v ≡ false }
        ensures search { OnOk result (IsSearch known.now self.new) }
        ensures less { OnOk result (work_left self.new < work_left self.old) }
    {
        set_bit(&mut self.seen, v.get());
        self.path.push(Group::of(known, v))?;
        Ok(())
    }

    /// Goes on from a group that was the last one and is no longer on the path.
    fn step(&mut self, known: &Known, group: Group) -> Result<(), AllocError>
        requires search { IsSearch known.now self.old }
        requires group { IsGroup known.now group }
        ensures search { OnOk result (IsSearch known.now self.new) }
        ensures less { OnOk result (work_left self.new ≤ work_left self.old) }
    {
        if let Some(number) = first_open(&group.ends, &self.seen) {
            self.path.push(group)?;
            return self.enter(known, node(number));
        }
        if is_within(&group.ends, &self.closed) {
            join_words(&mut self.closed, &group.nodes);
            return Ok(());
        }
        self.close_or_join(group)
    }

    /// Closes a group in which an edge leads, or joins it to the one before it.
    fn close_or_join(&mut self, group: Group) -> Result<(), AllocError>
        ensures search { OnOk result ((g : Graph) → IsSearch g self.old → IsGroup g group
            → IsSearch g self.new) }
        ensures less { OnOk result (work_left self.new ≤ work_left self.old) }
    {
        let mut closed = self.closed;
        join_words(&mut closed, &group.nodes);
        if is_within(&group.ends, &closed) {
            self.closed = closed;
            join_words(&mut self.round, &group.nodes);
        } else if let Some(before) = self.path.pop() {
            self.path.push(before.joined(group))?;
        }
        Ok(())
    }
}
