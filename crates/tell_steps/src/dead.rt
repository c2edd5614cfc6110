//! A dead ledger, told as forced steps that end in a cycle.

ghost use Rattle.std.specs.Prelude.{◌≡◌, [], IfOk, IfSome, IfNone};
ghost use Rattle.serializability.specs.Reads.{IsClean};
ghost use Rattle.log_definitions.specs.Numbers.{log_of};
ghost use Rattle.tell_steps.specs.Rounds.{IsDeadTold};
ghost use Rattle.tell_steps.specs.Ledgers as spec;
ghost use Rattle.tell_steps.specs.Ledgers.{orders_of, AreBuilt};

use crate::item::Item;
use crate::orders::{choice_orders, steps_from};
use crate::rounds::Round;
use crate::shorter::{Walks, shorter_line};
use crate::shown::Shown;
use crate::whole::tell;
use prune_ledger::{Ledger, LedgerEntry};
use reasons::without_runs;
use serializability::NodeIx;
use session_history::History;
use std::alloc::{AllocError, Global};
use tell_proposals::{Proposal, Step, propose};
use write_chains::Chains;

/// The steps that the entries of a ledger show.
pub fn steps_in(
    alloc: Global,
    chains: &Chains<'_>,
    entries: &[LedgerEntry],
) -> Result<Vec<Step>, AllocError>
    requires clean { IsClean (log_of chains.now) }
    requires entries { spec.AreEntries chains.now entries.now }
    ensures kept { IfOk result (λ steps. orders_of steps.items ≡ spec.kept_by chains.now entries.now) }
    ensures built { IfOk result (λ steps. AreBuilt chains.now [] steps.items) }
{
    let orders = choice_orders(alloc, chains)?;
    steps_from(alloc, &orders, entries)
}

/// Those of these steps that this cycle needs, and the cycle, with each run of edges of one session
/// as one edge; none, where these are not right.
fn tell_cycle(
    alloc: Global,
    chains: &Chains<'_>,
    steps: Vec<Step>,
    cycle: &[NodeIx],
    walks: Walks,
) -> Result<Option<Vec<Item>>, AllocError>
    requires clean { IsClean (log_of chains.now) }
    ensures told { IfOk result (λ told. IfSome told (λ items. IsDeadTold chains.now items.items)) }
    ensures none { IfOk result (λ told. IfNone told (AreBuilt chains.now [] steps.items
        → spec.IsClosed chains.now (orders_of steps.items) cycle.now → ⊥)) }
{
    let line = without_runs(alloc, chains.history(), cycle)?;
    let round = Round {
        before: Vec::new(alloc),
        decided: Vec::new(alloc),
        line: Some(line),
    };
    tell(alloc, chains, steps, &[round], walks)
}

/// The steps of the entries of a ledger that this cycle needs, and the cycle; none, where it does
/// not close over what they keep.
fn tell_entries(
    alloc: Global,
    chains: &Chains<'_>,
    entries: &[LedgerEntry],
    cycle: &[NodeIx],
) -> Result<Option<Vec<Item>>, AllocError>
    requires clean { IsClean (log_of chains.now) }
    requires entries { spec.AreEntries chains.now entries.now }
    ensures told { IfOk result (λ told. IfSome told (λ items. IsDeadTold chains.now items.items)) }
    ensures none { IfOk result (λ told. IfNone told
        (spec.IsClosed chains.now (spec.kept_by chains.now entries.now) cycle.now → ⊥)) }
{
    let steps = steps_in(alloc, chains, entries)?;
    tell_cycle(alloc, chains, steps, cycle, Walks::Shorter)
}

/// A dead ledger, told as forced steps, and the cycle that they end in: only the steps that the
/// cycle needs, numbered from 1, each of which rests on what the log shows and on earlier steps.
/// Which steps these are is free: those of a proposal, where it is right, and else those of the
/// ledger.
pub fn tell_dead(
    alloc: Global,
    history: &History,
    chains: &Chains<'_>,
    ledger: &Ledger,
) -> Result<Vec<Item>, AllocError>
    requires clean { IsClean (log_of history.now) }
    requires chains { chains.now ≡ history.now }
    requires ledger { spec.IsDeadLedger history.now ledger.now }
    ensures told { IfOk result (λ items. IsDeadTold history.now items.items) }
{
    let Some(cycle) = &ledger.cycle else {
        return Ok(Vec::new(alloc));
    };
    if let Some(Proposal { steps, cycle }) = propose(alloc, chains)? {
        if let Some(items) = tell_cycle(alloc, chains, steps, &cycle, Walks::Same)? {
            return Ok(items);
        }
    }
    let short = shorter_line(&mut Shown::of(alloc, chains), cycle)?;
    if let Some(items) = tell_entries(alloc, chains, &ledger.entries, &short)? {
        return Ok(items);
    }
    match tell_entries(alloc, chains, &ledger.entries, cycle)? {
        Some(items) => Ok(items),
        None => unreachable!(),
    }
}
