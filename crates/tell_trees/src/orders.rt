//! The orders of chains that a search decides.

ghost use Rattle.std.specs.Prelude.{◌≡◌, IfOk};
ghost use Rattle.log_definitions.specs.Numbers.{log_of};
ghost use Rattle.reduction.specs.Outcome.{IsOpenHistory};
ghost use Rattle.tell_trees.specs.Orders.{AreOrdersOf, unsettled_from};

use prune_ledger::{LedgerEntry, Reduced};
use std::alloc::{AllocError, Global};
use tell_reasons::ChainOrder;
use tell_steps::choice_orders;
use write_chains::Chains;

/// Of each choice that pruning left open the order of chains that is its side one.
pub fn open_orders(
    alloc: Global,
    chains: &Chains<'_>,
    reduced: &Reduced,
) -> Result<Vec<ChainOrder>, AllocError>
    requires left { IsOpenHistory chains.now reduced.now }
    ensures orders { IfOk result (λ orders.
        AreOrdersOf (log_of chains.now) reduced.now.poly.choices orders.items) }
{
    let orders = choice_orders(alloc, chains)?;
    unsettled(alloc, &orders, &reduced.ledger().entries)
}

/// The orders of the choices that no entry speaks of.
fn unsettled(
    alloc: Global,
    orders: &[ChainOrder],
    entries: &[LedgerEntry],
) -> Result<Vec<ChainOrder>, AllocError>
    ensures orders { IfOk result (λ left. left.items ≡ unsettled_from entries.now 0 orders.now) }
{
    let mut settled = vec![in alloc; false; orders.len()]?;
    for entry in entries {
        let choice = entry.post.choice.get();
        if choice < settled.len() {
            settled[choice] = true;
        }
    }
    let count = settled.iter().filter(|settled| !**settled).count();
    let mut left = Vec::with_capacity(alloc, count)?;
    for (choice, order) in orders.iter().enumerate() {
        if !settled[choice] {
            left.push(*order)?;
        }
    }
    Ok(left)
}
