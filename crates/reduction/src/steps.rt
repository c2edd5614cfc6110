//! The steps before a search.

ghost use Rattle.std.specs.Prelude.{◌≡◌, ◌≤◌, length, None, IfOk, IfErr, OnOk};
ghost use Rattle.serializability.specs.Reads.{IsClean};
ghost use Rattle.serializability.specs.Anomalies.{anomaly_of};
ghost use Rattle.serializability.specs.Polygraph.{arcs};
ghost use Rattle.reach_laws.specs.Reach.{IsCyclic};
ghost use Rattle.chain_laws.specs.Chains.{chain_choices};
ghost use Rattle.log_definitions.specs.Numbers.{log_of, IsWellFormedList};
ghost use Rattle.known_graph.specs.Graphs.{arc_graph};
ghost use Rattle.polygraph.specs.Limits.{IsPolyFault};
ghost use Rattle.reduction.specs.Chained.{IsChained, HasItsOrders};
ghost use Rattle.reduction.specs.Outcome.{anomaly_in, IsReduction, IsReduceFault};
ghost use Rattle.polygraph.specs.declared.index.TheConstants.{MAX_CHOICES};

use crate::outcome::Reduction;
use anomalies::classify;
use coalesce::coalesce;
use desk::gate::Gate;
use desk::seat_no::Workers;
use known_graph::Known;
use polygraph::{PolyFault, Polygraph};
use prune_ledger::{Pruned, prune};
use session_history::History;
use std::alloc::{AllocError, Global};
use std::sync::Wait;
use std::thread::Threads;
use std::time::Clock;
use write_chains::{Chains, chains};

/// The chains of a clean history whose arcs have no cycle, so that no chain closes on itself.
pub fn open_chains<'a>(alloc: Global, history: &'a History) -> Result<Chains<'a>, AllocError>
    requires clean { IsClean (log_of history.now) }
    requires acyclic { ¬ IsCyclic (arcs (log_of history.now)) }
    ensures chains { IfOk result (λ chains. chains ≡ history.now) }
{
    let found = chains(alloc, history)?;
    Ok(found.unwrap())
}

/// The polygraph of the chains of a clean history, to which its arcs are given, which have no
/// cycle.
fn chained(alloc: Global, history: &History, arcs: Known) -> Result<Polygraph, PolyFault>
    requires clean { IsClean (log_of history.now) }
    requires arcs { arcs ≡ arc_graph (log_of history.now) }
    requires acyclic { ¬ IsCyclic arcs.edges }
    ensures chained { IfOk result (IsChained (log_of history.now)) }
    ensures orders { IfOk result (HasItsOrders history.now) }
    ensures few { OnOk result (length (chain_choices (log_of history.now)) ≤ MAX_CHOICES) }
    ensures fault { IfErr result (IsPolyFault (chain_choices (log_of history.now))) }
{
    let found = open_chains(alloc, history)?;
    coalesce(alloc, history, &found, arcs)
}

/// The steps behind the search for an anomaly, which found none.
fn reduce_clean<G: Gate, R: Threads + Wait + Clock + Sync>(
    rt: &R,
    alloc: Global,
    history: &History,
    workers: Workers,
    gate: &G,
) -> Result<Reduction, PolyFault>
    requires clean { IsClean (log_of history.now) }
    requires none { anomaly_of (log_of history.now) ≡ None }
    ensures anomaly { IfOk result (λ r. anomaly_in r ≡ None) }
    ensures reduction { IfOk result (IsReduction history.now) }
    ensures fault { IfErr result (IsReduceFault history.now) }
{
    let arcs = Known::of(alloc, history)?;
    let _invariant = arcs.nodes();
    if let Some(cycle) = arcs.find_cycle(alloc)? {
        return Ok(Reduction::Cyclic(cycle));
    }
    let polygraph = chained(alloc, history, arcs)?;
    let _invariant = polygraph.nodes();
    if let Some(cycle) = polygraph.known().find_cycle(alloc)? {
        return Ok(Reduction::Cyclic(cycle));
    }
    let choices = polygraph.choices().len();
    match prune(rt, alloc, polygraph, workers, gate)? {
        Pruned::Dead(ledger) => Ok(Reduction::Dead(ledger)),
        Pruned::Open(reduced) => Ok(Reduction::Open { choices, reduced }),
    }
}

/// What is left of a history for a search: the first of its anomaly, a cycle of its arcs, a cycle
/// of all known edges of its chains, and what pruning gives, for which so many workers pass the
/// gate before their turns.
///
/// # Errors
/// `TooManyChoices` where there are more than 100,000 choices between chains, and neither an
/// anomaly nor a cycle of the arcs was found; `Memory` where memory was refused.
pub fn reduce<G: Gate, R: Threads + Wait + Clock + Sync>(
    rt: &R,
    alloc: Global,
    history: &History,
    workers: Workers,
    gate: &G,
) -> Result<Reduction, PolyFault>
    ensures well_formed { IsWellFormedList history.now }
    ensures anomaly { IfOk result (λ r. anomaly_in r ≡ anomaly_of (log_of history.now)) }
    ensures reduction { IfOk result (IsReduction history.now) }
    ensures fault { IfErr result (IsReduceFault history.now) }
{
    let _invariant = history.committed();
    match classify(alloc, history)? {
        Some(anomaly) => Ok(Reduction::Anomalous(anomaly)),
        None => reduce_clean(rt, alloc, history, workers, gate),
    }
}
