//! The hops that a walk may take, and what they cost.

use serializability::NodeIx;
use session_history::History;
use std::alloc::{AllocError, Global};
use write_chains::Chains;

/// What a hop costs that a session or moments show. Two hops cost more than one of any kind that
/// leads to a reader, so no walk goes around what the log shows.
const BY_ORDER: usize = 4;

/// What a hop costs that reads and writes show.
const BY_READS: usize = 5;

/// What a hop says of its two transactions.
#[derive(Clone, Copy, PartialEq, Eq)]
pub enum Kind {
    /// Nothing: it leads on inside a session, a time or a key.
    On,
    Session,
    Moments,
    Read,
    /// The first misses a write of the second.
    Missed,
    /// The first wrote a version before the second did.
    Written,
}

impl Kind {
    /// What a hop costs that the log shows.
    fn cost(self) -> usize {
        match self {
            Kind::On => 0,
            Kind::Session | Kind::Moments => BY_ORDER,
            Kind::Read | Kind::Missed | Kind::Written => BY_READS,
        }
    }
}

/// A hop to a place, what it costs, and the number of the kept order that gives it; none where the
/// log shows it.
#[derive(Clone, Copy)]
pub struct Hop {
    pub to: usize,
    pub kind: Kind,
    pub cost: usize,
    pub kept: Option<usize>,
}

/// The hops from each place. A node's place is its number. Behind the nodes stands for each node
/// one place of its session, from which each later node of the session is reached for nothing; then
/// as many places in the order in which nodes began, and one for each key.
#[derive(Drop)]
pub struct Hops {
    /// How many nodes there are, with node 0.
    pub nodes: usize,
    lists: Vec<Vec<Hop>>,
}

/// The node of this number, and node 0 where there is none.
pub fn node_at(number: usize) -> NodeIx {
    NodeIx::new(number).unwrap_or(NodeIx::INITIAL)
}

impl Hops {
    /// What the log shows, with moments or without.
    pub fn of(alloc: Global, chains: &Chains<'_>, is_timed: bool) -> Result<Hops, AllocError> {
        let history = chains.history();
        let nodes = history.committed().saturating_add(1);
        let mut lists = Vec::new(alloc);
        for _ in 0..nodes.saturating_mul(3).saturating_add(history.keys()) {
            lists.push(Vec::new(alloc))?;
        }
        let mut hops = Hops { nodes, lists };
        hops.add_sessions(history)?;
        if is_timed {
            hops.add_moments(alloc, history)?;
        }
        hops.add_reads(history)?;
        for edge in chains.inner_edges() {
            hops.add_shown(edge.source().get(), edge.target().get(), Kind::Missed)?;
        }
        for key in 0..history.keys() {
            hops.add_initial(chains, key)?;
        }
        Ok(hops)
    }

    /// How many places there are.
    pub fn places(&self) -> usize {
        self.lists.len()
    }

    /// The hops from a place.
    pub fn from(&self, place: usize) -> &[Hop] {
        match self.lists.get(place) {
            Some(hops) => hops,
            None => &[],
        }
    }

    /// Adds a hop.
    pub fn add(&mut self, from: usize, hop: Hop) -> Result<(), AllocError> {
        if let Some(hops) = self.lists.get_mut(from) {
            hops.push(hop)?;
        }
        Ok(())
    }

    /// Adds a hop that the log shows.
    fn add_shown(&mut self, from: usize, to: usize, kind: Kind) -> Result<(), AllocError> {
        let hop = Hop {
            to,
            kind,
            cost: kind.cost(),
            kept: None,
        };
        self.add(from, hop)
    }

    /// The place of a node in its session.
    fn in_session(&self, node: usize) -> usize {
        self.nodes.saturating_add(node)
    }

    /// The place behind this many nodes in the order in which they began.
    fn in_time(&self, count: usize) -> usize {
        self.nodes.saturating_mul(2).saturating_add(count)
    }

    /// The place of a key.
    fn of_key(&self, key: usize) -> usize {
        self.nodes.saturating_mul(3).saturating_add(key)
    }

    /// From each node to those behind it in its session.
    fn add_sessions(&mut self, history: &History) -> Result<(), AllocError> {
        for next in 2..self.nodes {
            let node = next.saturating_sub(1);
            let rail = self.in_session(next);
            self.add_shown(rail, next, Kind::On)?;
            if history.session_of(node_at(node)) == history.session_of(node_at(next)) {
                self.add_shown(node, rail, Kind::Session)?;
                self.add_shown(self.in_session(node), rail, Kind::On)?;
            }
        }
        Ok(())
    }

    /// From each node to those that began behind its end.
    fn add_moments(&mut self, alloc: Global, history: &History) -> Result<(), AllocError> {
        let mut begun = Vec::new(alloc);
        for number in 1..self.nodes {
            if let Some(moment) = history.begun_of(node_at(number)) {
                begun.push((moment, number))?;
            }
        }
        begun.sort()?;
        for (count, (_, number)) in begun.iter().enumerate() {
            let rail = self.in_time(count);
            self.add_shown(rail, *number, Kind::On)?;
            self.add_shown(rail, self.in_time(count.saturating_add(1)), Kind::On)?;
        }
        for number in 1..self.nodes {
            if let Some(end) = history.ended_of(node_at(number)) {
                let count = begun.partition_point(|(moment, _)| *moment <= end);
                if count < begun.len() {
                    self.add_shown(number, self.in_time(count), Kind::Moments)?;
                }
            }
        }
        Ok(())
    }

    /// From each node to those that read from it.
    fn add_reads(&mut self, history: &History) -> Result<(), AllocError> {
        for number in 1..self.nodes {
            for read in history.reads_of(node_at(number)) {
                self.add_shown(read.source.get(), number, Kind::Read)?;
            }
        }
        Ok(())
    }

    /// From those that read the key's initial value, or what goes back to it, to who writes the key
    /// and does not read it.
    fn add_initial(&mut self, chains: &Chains<'_>, key: usize) -> Result<(), AllocError> {
        if chains.history().keys() <= key {
            return Ok(());
        }
        let place = self.of_key(key);
        let writers = chains.history().writers_of(key);
        let mut next = Some(NodeIx::INITIAL);
        for _ in 0..self.nodes {
            let Some(writer) = next else {
                break;
            };
            if chains.history().committed() < writer.get() {
                break;
            }
            let readers = chains.readers(key, writer);
            for reader in readers {
                self.add_shown(reader.get(), place, Kind::Missed)?;
            }
            next = readers.iter().find(|it| writers.contains(it)).copied();
        }
        for chain in chains.chains_of(key) {
            self.add_shown(place, chain.head.get(), Kind::On)?;
        }
        Ok(())
    }
}
