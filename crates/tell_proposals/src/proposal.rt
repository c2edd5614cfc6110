//! What is proposed.

use crate::hops::{Kind, node_at};
use crate::orders::{End, Order};
use crate::rounds::{Rounds, kind_behind, rounds_of};
use crate::search::{Search, Walk};
use serializability::NodeIx;
use session_history::History;
use std::alloc::{AllocError, Global};
use tell_reasons::ChainOrder;
use write_chains::Chains;

/// A step: its two chains stand in this order, since a walk leads from where an edge of the other
/// way leads to to where it comes from.
#[derive(Drop)]
pub struct Step {
    pub order: ChainOrder,
    pub walk: Vec<NodeIx>,
}

/// Steps, each of which rests on the log and on earlier ones, and the cycle that they end in, with
/// its first node repeated last.
#[derive(Drop)]
pub struct Proposal {
    pub steps: Vec<Step>,
    pub cycle: Vec<NodeIx>,
}

/// How little a cycle with hops of these kinds claims: how little order besides reads and writes it
/// takes, and how weak a store may be at which it happens. The more writes are missed, the weaker;
/// then come stores at which information goes in a circle, and then those at which writes do.
fn modesty(kinds: &[Kind]) -> (usize, usize) {
    let freedom = if kinds.contains(&Kind::Moments) {
        0
    } else if kinds.contains(&Kind::Session) {
        1
    } else {
        2
    };
    let missed = kinds.iter().filter(|kind| **kind == Kind::Missed);
    let weakness = match missed.count() {
        0 => usize::from(kinds.contains(&Kind::Read)),
        1 => 2,
        _ => 3,
    };
    (freedom, weakness)
}

/// The rounds of a history, a search among them, which of the kept orders are
/// needed, and the steps so far, the last one first.
#[derive(Drop)]
struct Telling<'a> {
    alloc: Global,
    rounds: &'a Rounds<'a>,
    search: Search,
    is_needed: Vec<bool>,
    steps: Vec<Step>,
}

impl<'a> Telling<'a> {
    /// The cheapest walk against an order, by what the log shows and the first `limit` kept orders:
    /// that of a step, or that of a cycle.
    fn against(
        &mut self,
        order: Order<'a>,
        limit: usize,
        is_step: bool,
    ) -> Result<Walk, AllocError> {
        let (hops, start) = (&self.rounds.hops, order.second.head);
        self.search.run(hops, start, limit)?;
        let end = End::of(&self.search, order.first, is_step).node;
        self.search.walk_to(self.alloc, hops, start, end)
    }

    /// How little the cycle claims that refutes an order.
    fn modesty_against(&mut self, order: Order<'a>) -> Result<(usize, usize), AllocError> {
        let mut walk = self.against(order, self.rounds.kept.len(), false)?;
        walk.kinds.push(kind_behind(order.first))?;
        Ok(modesty(&walk.kinds))
    }

    /// The nodes of such a walk. The kept orders that it rests on are needed.
    fn needed_walk(
        &mut self,
        order: Order<'a>,
        limit: usize,
        is_step: bool,
    ) -> Result<Vec<NodeIx>, AllocError> {
        let walk = self.against(order, limit, is_step)?;
        for number in &walk.kept {
            if let Some(is_needed) = self.is_needed.get_mut(*number) {
                *is_needed = true;
            }
        }
        Ok(walk.nodes)
    }

    /// Adds the step that keeps an order, by the walk against the other way.
    fn add_step(&mut self, order: Order<'a>, limit: usize) -> Result<(), AllocError> {
        let walk = self.needed_walk(order.turned(), limit, true)?;
        let order = ChainOrder {
            key: order.key,
            first: order.first.head,
            second: order.second.head,
        };
        self.steps.push(Step { order, walk })?;
        Ok(())
    }
}

/// The steps that are needed, and the cycle. Of the last order a cycle refutes the one way and a step
/// the other: the cycle is told that claims less, so what is told as a fact is rather one.
fn told(alloc: Global, rounds: &Rounds<'_>) -> Result<Proposal, AllocError> {
    let limit = rounds.kept.len();
    let mut telling = Telling {
        alloc,
        rounds,
        search: Search::new(alloc, rounds.hops.places())?,
        is_needed: vec![in alloc; false; limit]?,
        steps: Vec::new(alloc),
    };
    let (one, other) = (rounds.last, rounds.last.turned());
    let is_less = telling.modesty_against(other)? < telling.modesty_against(one)?;
    let last = if is_less { one } else { other };
    let mut cycle = telling.needed_walk(last, limit, false)?;
    cycle.extend(cycle.first().copied())?;
    telling.add_step(last, limit)?;
    for (number, kept) in rounds.kept.iter().enumerate().rev() {
        if telling.is_needed.get(number).copied().unwrap_or(false) {
            telling.add_step(kept.order, kept.limit)?;
        }
    }
    let mut steps = telling.steps;
    steps.reverse();
    Ok(Proposal { steps, cycle })
}

/// Whether a history states moments.
fn is_timed(history: &History) -> bool {
    (1..=history.committed()).any(|number| history.begun_of(node_at(number)).is_some())
}

/// Proposes how it is told that a history with these chains has no order, where rounds of pruning
/// end in a cycle before they get long. Those without moments come first: so a fault is told alike
/// at a strict level and at a weaker one.
pub fn propose(alloc: Global, chains: &Chains<'_>) -> Result<Option<Proposal>, AllocError> {
    let rounds = match rounds_of(alloc, chains, false)? {
        None if is_timed(chains.history()) => rounds_of(alloc, chains, true)?,
        rounds => rounds,
    };
    rounds.map(|rounds| told(alloc, &rounds)).transpose()
}
