//! Orders of two chains: those of the choices between chains, and those that a ledger keeps.

ghost use Rattle.std.specs.Prelude.{◌≡◌, ◌++◌, map, IfOk, OnOk};
ghost use Rattle.std.specs.List.{All};
ghost use Rattle.chain_laws.specs.Chains.{chain_choices};
ghost use Rattle.log_definitions.specs.Numbers.{log_of};
ghost use Rattle.write_chains.specs.Views.{chain_view};
ghost use Rattle.prune_ledger.specs.Pruned.{posts_in};
ghost use Rattle.tell_steps.specs.Steps as steps;
ghost use Rattle.tell_steps.specs.Orders as spec;

use prune_ledger::LedgerEntry;
use prune_ledger::messages::Refutation;
use pruning_laws::Side;
use serializability::NodeIx;
use std::alloc::{AllocError, Global};
use tell_proposals::Step;
use tell_reasons::ChainOrder;
use write_chains::{Chain, Chains};

/// Adds the orders of a chain of the key, which has this head, before each of the others.
fn add_orders_with(
    orders: &mut Vec<ChainOrder>,
    key: usize,
    first: NodeIx,
    others: &[Chain],
) -> Result<(), AllocError>
    ensures orders { OnOk result (orders.new.items
        ≡ orders.old.items ++ map (spec.order_to key first) (map chain_view others.now)) }
{
    for other in others {
        orders.push(ChainOrder {
            key,
            first,
            second: other.head,
        })?;
    }
    Ok(())
}

/// Adds the orders of each of these chains of the key before each behind it.
fn add_orders_among(
    orders: &mut Vec<ChainOrder>,
    key: usize,
    chains: &[Chain],
) -> Result<(), AllocError>
    ensures orders { OnOk result (orders.new.items
        ≡ orders.old.items ++ spec.orders_among key (map chain_view chains.now)) }
{
    for (index, chain) in chains.iter().enumerate() {
        add_orders_with(orders, key, chain.head, &chains[index + 1..])?;
    }
    Ok(())
}

/// Of each choice between chains, in order, the two chains as its first side has them.
pub fn choice_orders(alloc: Global, chains: &Chains<'_>) -> Result<Vec<ChainOrder>, AllocError>
    ensures choices { IfOk result (λ orders.
        map (spec.choice_of (log_of chains.now)) orders.items ≡ chain_choices (log_of chains.now)) }
    ensures orders { IfOk result (λ orders. All (steps.IsOrder (log_of chains.now)) orders.items) }
    ensures list { IfOk result (λ orders. orders.items ≡ spec.orders_in (log_of chains.now)) }
{
    let mut orders = Vec::new(alloc);
    for key in 0..chains.history().keys() {
        add_orders_among(&mut orders, key, chains.chains_of(key))?;
    }
    Ok(orders)
}

/// The same two chains the other way round.
pub fn turned(order: ChainOrder) -> ChainOrder
    ensures order { result ≡ steps.turned order }
{
    ChainOrder {
        key: order.key,
        first: order.second,
        second: order.first,
    }
}

/// What is kept where a side of a choice, whose first side is this order, is refused.
fn kept_of(refused: Side, order: ChainOrder) -> ChainOrder
    ensures order { result ≡ spec.kept_of refused order }
{
    match refused {
        Side::One => turned(order),
        Side::Two => order,
    }
}

/// The order that a refutation keeps, of these orders of all choices.
fn kept_order(orders: &[ChainOrder], post: &Refutation) -> ChainOrder
    ensures order { result ≡ spec.kept_order orders.now post.now }
{
    let none = ChainOrder {
        key: 0,
        first: NodeIx::INITIAL,
        second: NodeIx::INITIAL,
    };
    let order = orders.get(post.choice.get()).copied();
    kept_of(post.side, order.unwrap_or(none))
}

/// The steps that entries of a ledger show, of these orders of all choices.
pub fn steps_from(
    alloc: Global,
    orders: &[ChainOrder],
    entries: &[LedgerEntry],
) -> Result<Vec<Step>, AllocError>
    ensures steps { IfOk result (λ made. map spec.step_view made.items
        ≡ map (spec.shown_by orders.now) (posts_in entries.now)) }
{
    let mut steps = Vec::with_capacity(alloc, entries.len())?;
    for entry in entries {
        steps.push(Step {
            order: kept_order(orders, &entry.post),
            walk: Vec::from_slice(alloc, &entry.post.walk)?,
        })?;
    }
    Ok(steps)
}
