//! Which orders have an edge.

ghost use Rattle.std.specs.Prelude.{ℕ, IsTrue, not};
ghost use Rattle.std.specs.List.{Contains};
ghost use Rattle.chain_laws.specs.Chains.{edges_to};
ghost use Rattle.log_definitions.specs.Numbers.{log_of};
ghost use Rattle.tell_steps.specs.Orders.{IsChainOf};
ghost use Rattle.tell_steps.specs.Steps.{IsOrder, edges_in, Follows};
ghost use Rattle.tell_steps.specs.Lines.{IsFound};

use serializability::NodeIx;
use tell_reasons::ChainOrder;
use write_chains::{Chain, Chains};

/// The chain of the key with this head, where there is one.
fn chain_of<'a>(chains: &'a Chains<'_>, key: usize, head: NodeIx) -> Option<&'a Chain>
    ensures chain { IsChainOf (log_of chains.now) key head result }
{
    if chains.history().keys() <= key {
        return None;
    }
    let others = chains.chains_of(key);
    for chain in others {
        if chain.head == head {
            return Some(chain);
        }
    }
    None
}

/// Whether the order is one of two chains of the key.
pub fn is_order(chains: &Chains<'_>, order: ChainOrder) -> bool
    ensures yes { IsTrue result → IsOrder (log_of chains.now) order }
    ensures no { IsTrue (not result) → IsOrder (log_of chains.now) order → ⊥ }
{
    if order.first == order.second || chain_of(chains, order.key, order.first).is_none() {
        return false;
    }
    chain_of(chains, order.key, order.second).is_some()
}

/// Who reads the last version of the order's first chain.
pub fn readers_behind<'a>(chains: &'a Chains<'_>, order: ChainOrder) -> &'a [NodeIx] {
    match chain_of(chains, order.key, order.first) {
        Some(chain) => &chain.readers,
        None => &[],
    }
}

/// Whether an edge leads from this node to the chains that stand behind this one.
fn leads_from(chain: &Chain, node: NodeIx) -> bool
    ensures yes { IsTrue result → (b : ℕ) → Contains
        (edges_to chain.now.tail b chain.now.readers.items) (node, b) }
    ensures no { IsTrue (not result) → (b : ℕ)
        → Contains (edges_to chain.now.tail b chain.now.readers.items) (node, b) → ⊥ }
{
    if chain.readers.is_empty() {
        chain.tail == node
    } else {
        chain.readers.contains(&node)
    }
}

/// Whether the order has the edge.
pub fn has_edge(chains: &Chains<'_>, order: ChainOrder, a: NodeIx, b: NodeIx) -> bool
    ensures yes { IsTrue result → Contains (edges_in (log_of chains.now) order) (a, b) }
    ensures no { IsTrue (not result) → IsOrder (log_of chains.now) order
        → Contains (edges_in (log_of chains.now) order) (a, b) → ⊥ }
{
    if order.second.get() != b.get() {
        return false;
    }
    match chain_of(chains, order.key, order.first) {
        Some(chain) => leads_from(chain, a),
        None => false,
    }
}

/// Whether the edge follows from the order.
pub fn follows(chains: &Chains<'_>, order: &ChainOrder, a: NodeIx, b: NodeIx) -> bool
    ensures yes { IsTrue result → Follows (log_of chains.now) order.now (a, b) }
    ensures no { IsTrue (not result) → IsOrder (log_of chains.now) order.now
        → Contains (edges_in (log_of chains.now) order.now) (a, b) → ⊥ }
{
    if has_edge(chains, *order, a, b) {
        return true;
    }
    if b.get() != order.second.get() {
        return false;
    }
    match chain_of(chains, order.key, order.first) {
        Some(chain) => chain.tail.get() == a.get(),
        None => false,
    }
}

/// The first of the orders that has the edge, and its number from 1.
pub fn first_with(
    chains: &Chains<'_>,
    orders: &[ChainOrder],
    a: NodeIx,
    b: NodeIx,
) -> Option<(usize, ChainOrder)>
    ensures found { IsFound (log_of chains.now) orders.now (a, b) result }
{
    for (place, order) in orders.iter().enumerate() {
        if has_edge(chains, *order, a, b) {
            return Some((place + 1, *order));
        }
    }
    None
}
