//! Rounds of pruning.

ghost use Rattle.std.specs.Prelude.{◌≡◌, List, ◌∷◌, IfOk};
ghost use Rattle.reach_laws.specs.Reach.{IsCyclic};
ghost use Rattle.prune_ledger.specs.Runs.{IsWhole};
ghost use Rattle.pruning_laws.specs.Ledger.{Entry as Kept};
ghost use Rattle.prune_ledger.specs.Ledger.{kept_after, kept_side};
ghost use Rattle.prune_ledger.specs.Pruned.{posts_in, kept_by, IsProgress, IsGraphOf, IsLast};
ghost use Rattle.prune_ledger.specs.Pruned.{IsRemainder, IsDeadBy};
ghost use Rattle.prune_ledger.specs.Outcome.{IsEnded, IsStage, IsPruning};

use crate::copies::copy_choices;
use crate::crew::{Round, round_of};
use crate::entered::with_entered;
use crate::ledger::{Ledger, LedgerEntry};
use crate::machine::{PruneMachine, other_side};
use crate::messages::Refutation;
use crate::remains::{Pruned, Reduced};
use crate::rowed::RowedGraph;
use desk::desk::Closed;
use desk::gate::{Gate, OpenGate};
use desk::opened::Opened;
use desk::seat_no::Workers;
use polygraph::Polygraph;
use reach_rows::Rows;
use std::alloc::{AllocError, Global};
use std::marker::Brand;
use std::sync::Wait;
use std::thread::Threads;
use std::time::Clock;

/// Between two rounds the machine, the entries so far, and the known edges with those that the
/// entries keep.
#[derive(Drop)]
pub struct BetweenRounds {
    pub machine: PruneMachine,
    pub entries: Vec<LedgerEntry>,
    pub own: RowedGraph,
}

/// A round that has ended: how things stand behind it, but for the graph, which has no edges of it
/// yet; how many entries stood before it; and a flag for each choice that a worker passed.
#[derive(Drop)]
pub struct Ended {
    pub progress: BetweenRounds,
    pub before: usize,
    pub passed: Vec<bool>,
}

/// Where a round led.
#[derive(Drop)]
pub enum Stage {
    More(BetweenRounds),
    Done(Pruned),
}

/// Prunes a polygraph by rounds of so many workers, each of which passes the gate before its turns,
/// which count from 0 in each round.
///
/// At `Err` memory was refused to the calling thread or to a worker.
pub fn prune<G: Gate, R: Threads + Wait + Clock + Sync>(
    rt: &R,
    alloc: Global,
    polygraph: Polygraph,
    workers: Workers,
    gate: &G,
) -> Result<Pruned, AllocError>
    ensures { IfOk result (IsPruning polygraph) }
{
    let mut progress = beginning(rt, alloc, &polygraph, workers)?;
    for _ in rt.forever() {
        match next_stage(rt, alloc, &polygraph, progress, workers, gate)? {
            Stage::More(more) => progress = more,
            Stage::Done(pruned) => return Ok(pruned),
        }
    }
    unreachable!()
}

/// Nothing is kept yet.
fn beginning<R: Threads + Wait + Clock + Sync>(
    rt: &R,
    alloc: Global,
    polygraph: &Polygraph,
    workers: Workers,
) -> Result<BetweenRounds, AllocError>
    ensures machine { IfOk result (λ r. IsProgress polygraph.now r.entries.items r.machine) }
    ensures graph { IfOk result (λ r. IsGraphOf polygraph.now (kept_by r.entries.items) r.own) }
{
    let _invariant = polygraph.nodes();
    let choices = copy_choices(alloc, polygraph.choices())?;
    let known = polygraph.known().copy(alloc)?;
    let rows = Rows::compute(rt, alloc, polygraph.known(), workers, &OpenGate)?;
    Ok(BetweenRounds {
        machine: PruneMachine::opening(alloc, choices, known)?,
        entries: Vec::new(alloc),
        own: RowedGraph::new(polygraph.known().copy(alloc)?, rows),
    })
}

/// A round, where the edges have no cycle.
fn next_stage<G: Gate, R: Threads + Wait + Clock + Sync>(
    rt: &R,
    alloc: Global,
    polygraph: &Polygraph,
    progress: BetweenRounds,
    workers: Workers,
    gate: &G,
) -> Result<Stage, AllocError>
    requires machine { IsProgress polygraph.now progress.entries.items progress.machine }
    requires graph { IsGraphOf polygraph.now (kept_by progress.entries.items) progress.own }
    ensures { IfOk result (IsStage polygraph.now) }
{
    if progress.own.rows().has_cycle() {
        let ledger = with_cycle(alloc, polygraph, progress)?;
        return Ok(Stage::Done(Pruned::Dead(ledger)));
    }
    let ended = one_round(rt, alloc, polygraph, progress, workers, gate)?;
    stage_after(alloc, polygraph, ended)
}

/// A round of the workers.
fn one_round<G: Gate, R: Threads + Wait + Clock + Sync>(
    rt: &R,
    alloc: Global,
    polygraph: &Polygraph,
    progress: BetweenRounds,
    workers: Workers,
    gate: &G,
) -> Result<Ended, AllocError>
    requires machine { IsProgress polygraph.now progress.entries.items progress.machine }
    requires graph { IsGraphOf polygraph.now (kept_by progress.entries.items) progress.own }
    requires acyclic { IsCyclic progress.own.edges → ⊥ }
    ensures { IfOk result (IsEnded polygraph.now) }
{
    let _invariant = polygraph.nodes();
    let BetweenRounds {
        machine,
        entries,
        own,
    } = progress;
    let before = entries.len();
    let opened = Opened::new(alloc, machine.reopened(), workers)?;
    let Round { closed, passed } = round_of::<Brand, _, _>(
        rt, alloc, opened, polygraph, &own, gate,
    )?;
    let Closed { machine, history } = closed;
    let entries = with_entered(entries, history)?;
    Ok(Ended {
        progress: BetweenRounds {
            machine,
            entries,
            own,
        },
        before,
        passed,
    })
}

/// Where a round that has ended led: to another one, where it entered something or a choice is not
/// settled.
fn stage_after(alloc: Global, polygraph: &Polygraph, ended: Ended) -> Result<Stage, AllocError>
    requires ended { IsEnded polygraph.now ended }
    ensures { IfOk result (IsStage polygraph.now) }
{
    let _invariant = polygraph.nodes();
    let Ended {
        progress,
        before,
        passed,
    } = ended;
    let BetweenRounds {
        machine,
        entries,
        mut own,
    } = progress;
    if entries.len() > before || !machine.is_settled(&passed) {
        let (_, entered) = entries.split_at(before);
        keep_all(&mut own, polygraph, entered);
        return Ok(Stage::More(BetweenRounds {
            machine,
            entries,
            own,
        }));
    }
    let reduced = remainder(alloc, polygraph, machine, own, entries, &passed)?;
    Ok(Stage::Done(Pruned::Open(reduced)))
}

/// Adds the edges of the sides that these entries keep.
fn keep_all(own: &mut RowedGraph, polygraph: &Polygraph, entries: &[LedgerEntry])
    requires nodes { own.old.nodes ≡ polygraph.now.nodes }
    ensures kept { (earlier : List Kept) → IsGraphOf polygraph.now earlier own.old →
        IsGraphOf polygraph.now (kept_after earlier (posts_in entries.now)) own.new }
{
    for entry in entries {
        keep(own, polygraph, &entry.post);
    }
}

/// Adds the edges of the side that a post keeps.
fn keep(own: &mut RowedGraph, polygraph: &Polygraph, post: &Refutation)
    requires nodes { own.old.nodes ≡ polygraph.now.nodes }
    ensures kept { (earlier : List Kept) → IsGraphOf polygraph.now earlier own.old →
        IsGraphOf polygraph.now (kept_side post.now ∷ earlier) own.new }
    ensures nodes { own.new.nodes ≡ own.old.nodes }
{
    let _invariant = polygraph.nodes();
    if let Some(sides) = polygraph.choice(post.choice) {
        own.add_all(sides.edges(other_side(post.side)));
    }
}

/// The ledger of a graph that has a cycle.
fn with_cycle(
    alloc: Global,
    polygraph: &Polygraph,
    progress: BetweenRounds,
) -> Result<Ledger, AllocError>
    requires machine { IsProgress polygraph.now progress.entries.items progress.machine }
    requires graph { IsGraphOf polygraph.now (kept_by progress.entries.items) progress.own }
    requires cyclic { IsCyclic progress.own.edges }
    ensures { IfOk result (IsDeadBy polygraph.now) }
{
    let BetweenRounds {
        machine: _machine,
        entries,
        own,
    } = progress;
    let Some(line) = own.graph().find_cycle(alloc)? else {
        unreachable!()
    };
    Ok(Ledger {
        entries,
        cycle: Some(line),
    })
}

/// What is left, where no side is left to refute.
fn remainder(
    alloc: Global,
    polygraph: &Polygraph,
    machine: PruneMachine,
    own: RowedGraph,
    entries: Vec<LedgerEntry>,
    passed: &[bool],
) -> Result<Reduced, AllocError>
    requires whole { IsWhole polygraph.now }
    requires last { IsLast polygraph.now entries.items machine own passed.now }
    ensures { IfOk result (IsRemainder polygraph.now) }
{
    let (known, rows) = own.into_parts();
    let choices = machine.into_open(alloc)?;
    let poly = Polygraph::new(known, choices);
    let ledger = Ledger {
        entries,
        cycle: None,
    };
    Ok(Reduced::new(poly, rows, ledger))
}
