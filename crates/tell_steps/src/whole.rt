//! The steps that some rounds need, and the rounds.

ghost use Rattle.std.specs.Prelude.{◌≡◌, ◌<◌, ℕ, [], map, true, false, IfNone, IfOk, IfSome};
ghost use Rattle.serializability.specs.Reads.{IsClean};
ghost use Rattle.log_definitions.specs.Numbers.{log_of};
ghost use Rattle.tell_steps.specs.Ledgers as ledgers;
ghost use Rattle.tell_steps.specs.Ledgers.{orders_of, AreBuilt};
ghost use Rattle.tell_steps.specs.Rounds as spec;
ghost use Rattle.tell_steps.specs.Rounds.{round_view, AllStand, AreAllTold, IsTold};

use crate::dead::steps_in;
use crate::item::Item;
use crate::needed::needed_steps;
use crate::rounds::{Round, tell_round};
use crate::shorter::Walks;
use crate::shown::Shown;
use crate::steps::tell_step;
use prune_ledger::LedgerEntry;
use session_history::History;
use std::alloc::{AllocError, Global};
use tell_proposals::Step;
use tell_reasons::Why;
use write_chains::Chains;

/// These steps and rounds, told one behind the other; none, where one is not right.
fn told_with(
    alloc: Global,
    chains: &Chains<'_>,
    steps: &[Step],
    rounds: &[Round],
) -> Result<Option<Vec<Item>>, AllocError>
    requires clean { IsClean (log_of chains.now) }
    ensures told { IfOk result (λ told. IfSome told (λ items.
        AreAllTold chains.now steps.now (map round_view rounds.now) items.items)) }
    ensures none { IfOk result (λ told. IfNone told (AreBuilt chains.now [] steps.now
        → AllStand chains.now (orders_of steps.now) rounds.now → ⊥)) }
{
    let mut items = Vec::new(alloc);
    let mut earlier = Vec::new(alloc);
    for step in steps {
        let Some(own) = tell_step(alloc, chains, &earlier, step)? else {
            return Ok(None);
        };
        items.extend_from_slice(&own)?;
        earlier.push(step.order)?;
    }
    for round in rounds {
        let Some(own) = tell_round(alloc, chains, &earlier, round)? else {
            return Ok(None);
        };
        items.extend_from_slice(&own)?;
    }
    Ok(Some(items))
}

/// Whether an item is an edge that stands by this step, which counts from 0.
fn is_naming(item: &Item, step: usize) -> bool
    ensures { result ≡ spec.is_naming step item.now }
{
    match item {
        Item::Edge {
            why: Why::Forced { number, .. },
            ..
        } => *number > 0 && *number - 1 == step,
        _ => false,
    }
}

/// Whether one of the items is such an edge.
fn is_named(items: &[Item], step: usize) -> bool
    ensures { result ≡ spec.is_named items.now step }
{
    items.iter().any(|item| is_naming(item, step))
}

/// The first of so many steps by which no edge among the items stands.
fn first_unnamed(items: &[Item], steps: usize) -> Option<usize>
    ensures some { IfSome result (λ k. (k < steps) × (spec.is_named items.now k ≡ false)) }
    ensures none { IfNone result ((k : ℕ) → k < steps → spec.is_named items.now k ≡ true) }
{
    for step in 0..steps {
        if !is_named(items, step) {
            return Some(step);
        }
    }
    None
}

/// These steps and the rounds: a step by which no told edge stands is left out. None, where one is
/// not right.
fn tell_needed(
    alloc: Global,
    chains: &Chains<'_>,
    steps: Vec<Step>,
    rounds: &[Round],
) -> Result<Option<Vec<Item>>, AllocError>
    requires clean { IsClean (log_of chains.now) }
    ensures told { IfOk result (λ told. IfSome told (λ items.
        IsTold chains.now (map round_view rounds.now) items.items)) }
    ensures none { IfOk result (λ told. IfNone told (AreBuilt chains.now [] steps.items
        → AllStand chains.now (orders_of steps.items) rounds.now → ⊥)) }
{
    let mut left = steps;
    'dropping: loop {
        let Some(items) = told_with(alloc, chains, &left, rounds)? else {
            return Ok(None);
        };
        let Some(step) = first_unnamed(&items, left.len()) else {
            return Ok(Some(items));
        };
        let _unnamed = left.remove(step);
    }
}

/// The few of these steps that the rounds seem to need, where they are right, or else all of these,
/// and the rounds. None, where these are not right.
pub fn tell(
    alloc: Global,
    chains: &Chains<'_>,
    steps: Vec<Step>,
    rounds: &[Round],
    walks: Walks,
) -> Result<Option<Vec<Item>>, AllocError>
    requires clean { IsClean (log_of chains.now) }
    ensures told { IfOk result (λ told. IfSome told (λ items.
        IsTold chains.now (map round_view rounds.now) items.items)) }
    ensures none { IfOk result (λ told. IfNone told (AreBuilt chains.now [] steps.items
        → AllStand chains.now (orders_of steps.items) rounds.now → ⊥)) }
{
    let few = needed_steps(&mut Shown::of(alloc, chains), &steps, rounds, walks)?;
    if let Some(items) = tell_needed(alloc, chains, few, rounds)? {
        return Ok(Some(items));
    }
    tell_needed(alloc, chains, steps, rounds)
}

/// The forced steps of a ledger that these rounds need, each of which rests on what the log shows
/// and on earlier steps, and then the rounds.
pub fn tell_rounds(
    alloc: Global,
    history: &History,
    chains: &Chains<'_>,
    entries: &[LedgerEntry],
    rounds: &[Round],
) -> Result<Vec<Item>, AllocError>
    requires clean { IsClean (log_of history.now) }
    requires chains { chains.now ≡ history.now }
    requires ledger { ledgers.AreEntries history.now entries.now }
    requires stand { AllStand history.now (ledgers.kept_by history.now entries.now) rounds.now }
    ensures told { IfOk result (λ items. IsTold history.now (map round_view rounds.now) items.items) }
{
    let steps = steps_in(alloc, chains, entries)?;
    match tell(alloc, chains, steps, rounds, Walks::Shorter)? {
        Some(items) => Ok(items),
        None => unreachable!(),
    }
}
