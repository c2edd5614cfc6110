//! The cheapest walks from a node.

use crate::hops::{Hops, Kind, node_at};
use serializability::NodeIx;
use std::alloc::{AllocError, Global};
use std::cmp::Reverse;
use std::collections::BinaryHeap;

/// No walk that is proposed costs so much.
pub const FAR: usize = 1_000;
/// No search takes so many turns.
const MAX_TURNS: usize = 1_000_000_000;

/// The hop by which a place was reached.
#[derive(Clone, Copy)]
struct Reached {
    cost: usize,
    from: usize,
    kind: Kind,
    kept: Option<usize>,
}

/// A walk: its nodes, the numbers of the kept orders that it rests on, and of which kinds its hops
/// are.
#[derive(Drop)]
pub struct Walk {
    pub nodes: Vec<NodeIx>,
    pub kept: Vec<usize>,
    pub kinds: Vec<Kind>,
}

/// The cheapest walks from one node, and the places that are still to be looked at: those that were
/// reached for the least come first, and of these the last one that was reached.
#[derive(Drop)]
pub struct Search {
    reached: Vec<Reached>,
    open: BinaryHeap<(Reverse<usize>, usize, usize)>,
    /// So many places were put in.
    count: usize,
}

/// What is known of a place that was not reached.
const UNREACHED: Reached = Reached {
    cost: FAR,
    from: 0,
    kind: Kind::On,
    kept: None,
};

impl Search {
    /// One among so many places.
    pub fn new(alloc: Global, places: usize) -> Result<Search, AllocError> {
        Ok(Search {
            reached: vec![in alloc; UNREACHED; places]?,
            open: BinaryHeap::new(alloc),
            count: 0,
        })
    }

    /// What the cheapest walk to a place costs.
    pub fn cost(&self, place: usize) -> usize {
        self.reached.get(place).map_or(FAR, |reached| reached.cost)
    }

    /// Notes that a place was reached, where that is cheaper than before.
    fn reach(&mut self, place: usize, reached: Reached) -> Result<(), AllocError> {
        if let Some(known) = self.reached.get_mut(place)
            && reached.cost < known.cost
        {
            *known = reached;
            self.count = self.count.saturating_add(1);
            self.open.push((Reverse(reached.cost), self.count, place))?;
        }
        Ok(())
    }

    /// Goes on by the hops from a place that was reached at this cost, if it was not reached for less.
    fn go_on(
        &mut self,
        hops: &Hops,
        place: usize,
        cost: usize,
        limit: usize,
    ) -> Result<(), AllocError> {
        if self.cost(place) != cost {
            return Ok(());
        }
        for hop in hops.from(place) {
            if hop.kept.is_none_or(|kept| kept < limit) {
                let reached = Reached {
                    cost: cost.saturating_add(hop.cost),
                    from: place,
                    kind: hop.kind,
                    kept: hop.kept,
                };
                self.reach(hop.to, reached)?;
            }
        }
        Ok(())
    }

    /// Finds the cheapest walks from a node by what the log shows and the first `limit` kept
    /// orders.
    pub fn run(&mut self, hops: &Hops, start: NodeIx, limit: usize) -> Result<(), AllocError> {
        self.reached.fill(UNREACHED);
        let reached = Reached {
            cost: 0,
            from: start.get(),
            ..UNREACHED
        };
        self.reach(start.get(), reached)?;
        for _ in 0..MAX_TURNS {
            let Some((Reverse(cost), _, place)) = self.open.pop() else {
                break;
            };
            self.go_on(hops, place, cost, limit)?;
        }
        Ok(())
    }

    /// The cheapest walk to a node, which was reached.
    pub fn walk_to(
        &self,
        alloc: Global,
        hops: &Hops,
        start: NodeIx,
        end: NodeIx,
    ) -> Result<Walk, AllocError> {
        let mut walk = Walk {
            nodes: vec![in alloc; end]?,
            kept: Vec::new(alloc),
            kinds: Vec::new(alloc),
        };
        let mut place = end.get();
        for _ in 0..self.reached.len() {
            let Some(reached) = self.reached.get(place) else {
                break;
            };
            walk.kinds.push(reached.kind)?;
            walk.kept.extend(reached.kept)?;
            place = reached.from;
            if place == start.get() {
                break;
            }
            if place < hops.nodes {
                walk.nodes.push(node_at(place))?;
            }
        }
        walk.nodes.push(start)?;
        walk.nodes.reverse();
        Ok(walk)
    }
}
