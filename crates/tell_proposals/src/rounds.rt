//! Rounds, in each of which all orders are kept whose other way is refuted by the rounds before,
//! until both ways of one are.

use crate::hops::{Hop, Hops, Kind};
use crate::orders::{Order, OrderName, Refuted, refuted_orders};
use std::alloc::{AllocError, Global};
use std::collections::BTreeMap;
use write_chains::{Chain, Chains};

/// What the words of a step cost, and those of an edge that stands by it.
const BY_STEP: usize = 8;
/// So many rounds are tried, and so many hops of kept orders.
const MAX_ROUNDS: usize = 8;

const MAX_HOPS: usize = 200_000;

/// An order that is kept, since a walk by the first `limit` kept orders and the log refutes the
/// other way.
#[derive(Clone, Copy)]
pub struct Kept<'a> {
    pub order: Order<'a>,
    pub limit: usize,
}

/// The hops, the kept orders, and an order of which both ways are refuted: this one by a step, and
/// the other by the cycle.
#[derive(Drop)]
pub struct Rounds<'a> {
    pub hops: Hops,
    pub kept: Vec<Kept<'a>>,
    pub last: Order<'a>,
}

/// Of which kind the edge is that leads on from a chain to those behind it.
pub fn kind_behind(chain: &Chain) -> Kind {
    if chain.readers.is_empty() {
        Kind::Written
    } else {
        Kind::Missed
    }
}

/// The order that a step refutes, where a cycle refutes the other way, in the fewest words.
fn both_refuted<'a>(refuted: &BTreeMap<OrderName, Refuted<'a>>) -> Option<Order<'a>> {
    let mut both = refuted.iter().filter_map(|((key, places, is_turned), one)| {
        let other = refuted.get(&(*key, *places, !*is_turned))?;
        Some((one.order, one.step.saturating_add(other.cycle)))
    });
    Some(both.min_by_key(|(_, words)| *words)?.0)
}

impl Hops {
    /// Adds those of a kept order; answers how many.
    fn add_order(
        &mut self,
        order: Order<'_>,
        number: usize,
        cost: usize,
    ) -> Result<usize, AllocError> {
        let first = order.first;
        let hop = Hop {
            to: order.second.head.get(),
            kind: kind_behind(first),
            cost: cost.saturating_add(BY_STEP),
            kept: Some(number),
        };
        if first.readers.is_empty() {
            self.add(first.tail.get(), hop)?;
            return Ok(1);
        }
        for reader in &first.readers {
            self.add(reader.get(), hop)?;
        }
        Ok(first.readers.len())
    }
}

/// The rounds of a history, with moments or without, where they end in an order of which both ways
/// are refuted.
pub fn rounds_of<'a>(
    alloc: Global,
    chains: &'a Chains<'_>,
    is_timed: bool,
) -> Result<Option<Rounds<'a>>, AllocError> {
    let mut hops = Hops::of(alloc, chains, is_timed)?;
    let mut kept: Vec<Kept<'_>> = Vec::new(alloc);
    let mut before = BTreeMap::new(alloc);
    let mut added = 0;
    for _ in 0..MAX_ROUNDS {
        let limit = kept.len();
        let refuted = refuted_orders(alloc, chains, &hops, limit)?;
        if let Some(last) = both_refuted(&refuted) {
            return Ok(Some(Rounds { hops, kept, last }));
        }
        for (name, refuted) in &refuted {
            if MAX_HOPS < added {
                break;
            }
            if !before.contains_key(name) {
                let order = refuted.order.turned();
                let count = hops.add_order(order, kept.len(), refuted.step)?;
                added = count.saturating_add(added);
                kept.push(Kept { order, limit })?;
            }
        }
        if kept.len() == limit {
            break;
        }
        before = refuted;
    }
    Ok(None)
}
