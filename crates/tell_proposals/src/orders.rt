//! Which orders of two chains are refuted, and at what cost.

use crate::hops::{Hops, node_at};
use crate::search::{FAR, Search};
use serializability::NodeIx;
use std::alloc::{AllocError, Global};
use std::collections::BTreeMap;
use write_chains::{Chain, Chains};

/// Two chains of a key, the one that stands first, and the other.
#[derive(Clone, Copy)]
pub struct Order<'a> {
    pub key: usize,
    pub first: &'a Chain,
    pub second: &'a Chain,
}

/// Which order it is: its key, the places of the two chains among those of the key, the lesser one
/// first, and whether they stand the other way round.
pub type OrderName = (usize, (usize, usize), bool);

impl<'a> Order<'a> {
    /// The same two the other way round.
    pub fn turned(self) -> Order<'a> {
        Order {
            first: self.second,
            second: self.first,
            ..self
        }
    }
}

/// An order, and what the cheapest walks against it cost: that of a step, and that of a cycle.
#[derive(Clone, Copy)]
pub struct Refuted<'a> {
    pub order: Order<'a>,
    pub step: usize,
    pub cycle: usize,
}

/// A node to which a walk leads, and what that costs.
#[derive(Clone, Copy)]
pub struct End {
    pub node: NodeIx,
    pub cost: usize,
}

impl End {
    /// At a node, and so much more costs what has to be told besides.
    fn at(search: &Search, node: NodeIx, more: usize) -> End {
        let cost = search.cost(node.get()).saturating_add(more);
        End { node, cost }
    }

    /// Of the walk that refutes a chain's standing before another: at who reads its last version, or
    /// at its last writer. A cycle goes on from a reader, if there is one. Of a step it costs one more
    /// that it is not the chain's first writer, since that has to be told.
    pub fn of(search: &Search, chain: &Chain, is_step: bool) -> End {
        let readers = chain.readers.iter();
        let ends = readers.map(|reader| End::at(search, *reader, usize::from(is_step)));
        let more = usize::from(is_step && chain.head != chain.tail);
        let own = End::at(search, chain.tail, more);
        match ends.min_by_key(|end| end.cost) {
            Some(end) if !is_step || end.cost < own.cost => end,
            _ => own,
        }
    }
}

/// Puts in, of the orders in which others stand before the chain of a key at this place, those that a
/// search from its head refutes.
fn put_refuted<'a>(
    refuted: &mut BTreeMap<OrderName, Refuted<'a>>,
    search: &Search,
    key: usize,
    all: &'a [Chain],
    place: usize,
) -> Result<(), AllocError> {
    let Some(second) = all.get(place) else {
        return Ok(());
    };
    for (other, first) in all.iter().enumerate() {
        let order = Order { key, first, second };
        let step = End::of(search, first, true).cost;
        let cycle = End::of(search, first, false).cost;
        if other != place && step < FAR && cycle < FAR {
            let name = (key, (other.min(place), other.max(place)), place < other);
            refuted.insert(name, Refuted { order, step, cycle })?;
        }
    }
    Ok(())
}

/// The orders that what the log shows and the first `limit` kept orders refute.
pub fn refuted_orders<'a>(
    alloc: Global,
    chains: &'a Chains<'_>,
    hops: &Hops,
    limit: usize,
) -> Result<BTreeMap<OrderName, Refuted<'a>>, AllocError> {
    let mut refuted = BTreeMap::new(alloc);
    let mut search = Search::new(alloc, hops.places())?;
    for head in 1..hops.nodes {
        let mut is_searched = false;
        for key in 0..chains.history().keys() {
            let all = chains.chains_of(key);
            let Ok(place) = all.binary_search_by_key(&head, |chain| chain.head.get()) else {
                continue;
            };
            if !is_searched {
                search.run(hops, node_at(head), limit)?;
                is_searched = true;
            }
            put_refuted(&mut refuted, &search, key, all, place)?;
        }
    }
    Ok(refuted)
}
