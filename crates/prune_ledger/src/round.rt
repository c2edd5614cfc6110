//! A worker's round: it takes, judges, and posts or passes. It judges by the rows with which the
//! round began and the sides that its own posts have kept since.

ghost use Rattle.std.specs.Prelude.{◌≡◌, ◌⊎◌, ℕ, IfOk, IfSome, IfNone, [], ◌++◌, ◌∷◌};
ghost use Rattle.std.specs.List.{AllByRecursion};
ghost use Rattle.reach_laws.specs.Reach.{Graph};
ghost use Rattle.polygraph.specs.Polygraphs.{JoinsBoth};
ghost use Rattle.prune_ledger.specs.declared.messages.PruneReply.TheVariants.{Judge};
ghost use Rattle.prune_ledger.specs.Rounds.{Handled, PostedOf, Settled, Turned, IsOpenIn, Extends};
ghost use Rattle.prune_ledger.specs.Rounds.{IsKeptUp, KeepsUp, GoesAgainst};

use crate::entered::is_entered;
use crate::judging::judge;
use crate::machine::{PruneMachine, other_side};
use crate::messages::{PruneEvent, PruneReply, Refutation};
use crate::rowed::RowedGraph;
use desk::desk::Desk;
use desk::gate::Gate;
use desk::naming::Naming;
use desk::seat::{Left, Seat};
use polygraph::{Choice, ChoiceIx, Polygraph};
use pruning_laws::Side;
use reach_laws::Edge;
use std::alloc::{AllocError, Global};
use std::sync::Wait;
use std::time::Clock;

/// What each worker of a round is lent: the desk, the polygraph, the graph with which the round
/// began, and the gate.
#[derive(Drop)]
pub struct Task<'a, J: Naming, G: Gate, R: Wait + Clock> {
    pub rt: &'a R,
    pub alloc: Global,
    pub desk: &'a Desk<PruneMachine, J>,
    pub polygraph: &'a Polygraph,
    pub start: &'a RowedGraph,
    pub gate: &'a G,
}

/// A call, of which at a refusal the event is let go.
fn send<J: Naming, G: Gate, R: Wait + Clock>(
    task: &Task<'_, J, G, R>,
    seat: &mut Seat<PruneMachine, J>,
    event: PruneEvent,
) -> Result<PruneReply, AllocError>
    ensures number { seat.new.number ≡ seat.old.number }
    ensures ok { IfOk result (λ r. seat.new.calls ≡ seat.old.calls ++ (event, r) ∷ []) }
{
    match task.desk.call(task.rt, seat, event) {
        Ok(reply) => Ok(reply),
        Err((event, refused)) => {
            drop(event);
            Err(refused)
        }
    }
}

/// Adds the edges that the post of a side keeps, where it was entered.
fn keep_up(own: &mut RowedGraph, sides: &Choice, refused: Side, reply: PruneReply)
    requires joined { JoinsBoth own.old.nodes sides.now }
    ensures kept { IsKeptUp sides.now refused reply own.old own.new }
    ensures more { Extends own.old own.new }
{
    if is_entered(reply) {
        own.add_all(sides.edges(other_side(refused)));
    }
}

/// Posts a side with a walk against its edge, and keeps the worker's graph up with what the machine
/// keeps.
fn post_side<J: Naming, G: Gate, R: Wait + Clock>(
    task: &Task<'_, J, G, R>,
    seat: &mut Seat<PruneMachine, J>,
    own: &mut RowedGraph,
    choice: ChoiceIx,
    sides: &Choice,
    side: Side,
    edge: Edge,
) -> Result<(), AllocError>
    requires against { GoesAgainst own.old sides.now edge }
    ensures number { seat.new.number ≡ seat.old.number }
    ensures posted { IfOk result (λ _. PostedOf choice seat.old.calls seat.new.calls) }
    ensures kept { IfOk result (λ _.
        KeepsUp sides.now side seat.old.calls seat.new.calls own.old own.new) }
    ensures more { IfOk result (λ _. Extends own.old own.new) }
{
    let Some(walk) = own.graph().walk(task.alloc, edge.target(), edge.source())? else {
        unreachable!()
    };
    let post = PruneEvent::Post(Refutation {
        choice,
        side,
        edge,
        walk,
    });
    let reply = send(task, seat, post)?;
    keep_up(own, sides, side, reply);
    Ok(())
}

/// Notes a choice of which neither side is refuted.
fn pass_on<J: Naming, G: Gate, R: Wait + Clock>(
    task: &Task<'_, J, G, R>,
    seat: &mut Seat<PruneMachine, J>,
    choice: ChoiceIx,
    passed: &mut Vec<ChoiceIx>,
) -> Result<(), AllocError>
    ensures number { seat.new.number ≡ seat.old.number }
    ensures settled { IfOk result (λ _.
        Settled choice passed.old.items passed.new.items seat.old.calls seat.new.calls) }
    ensures list { (passed.new.items ≡ passed.old.items)
        ⊎ (passed.new.items ≡ passed.old.items ++ choice ∷ []) }
{
    passed.push(choice)?;
    send(task, seat, PruneEvent::Pass(choice))?;
    Ok(())
}

/// Posts each side that is refuted, and passes the choice where none is.
fn settle<J: Naming, G: Gate, R: Wait + Clock>(
    task: &Task<'_, J, G, R>,
    seat: &mut Seat<PruneMachine, J>,
    own: &mut RowedGraph,
    choice: ChoiceIx,
    passed: &mut Vec<ChoiceIx>,
) -> Result<(), AllocError>
    requires nodes { own.old.nodes ≡ task.now.polygraph.now.nodes }
    ensures number { seat.new.number ≡ seat.old.number }
    ensures settled { IfOk result (λ _.
        Settled choice passed.old.items passed.new.items seat.old.calls seat.new.calls) }
    ensures more { IfOk result (λ _. Extends own.old own.new) }
    ensures each { (given : Graph) → Extends given own.old →
        AllByRecursion (IsOpenIn given.edges task.now.polygraph.now.choices) passed.old.items →
        AllByRecursion (IsOpenIn given.edges task.now.polygraph.now.choices) passed.new.items }
{
    let _invariant = task.polygraph.nodes();
    let Some(sides) = task.polygraph.choice(choice) else {
        pass_on(task, seat, choice, passed)?;
        return Ok(());
    };
    let verdict = judge(own.rows(), sides);
    if let Some(edge) = verdict.one {
        post_side(task, seat, own, choice, sides, Side::One, edge)?;
        if let Some(other) = verdict.two {
            post_side(task, seat, own, choice, sides, Side::Two, other)?;
        }
        return Ok(());
    }
    if let Some(edge) = verdict.two {
        post_side(task, seat, own, choice, sides, Side::Two, edge)?;
        return Ok(());
    }
    pass_on(task, seat, choice, passed)?;
    Ok(())
}

/// The choice that is to be judged.
fn handed(reply: PruneReply) -> Option<ChoiceIx>
    ensures some { IfSome result (λ c. reply ≡ Judge c) }
    ensures none { IfNone result ((c : ℕ) → reply ≡ Judge c → ⊥) }
{
    match reply {
        PruneReply::Judge(choice) => Some(choice),
        PruneReply::NoneLeft => None,
        PruneReply::Entered => None,
        PruneReply::AlreadyIn => None,
        PruneReply::BadWalk => None,
        PruneReply::Noted => None,
        PruneReply::Released => None,
        PruneReply::Dead => None,
    }
}

/// Takes a choice and settles it. It answers whether there may be another.
fn turn<J: Naming, G: Gate, R: Wait + Clock>(
    task: &Task<'_, J, G, R>,
    seat: &mut Seat<PruneMachine, J>,
    own: &mut RowedGraph,
    passed: &mut Vec<ChoiceIx>,
) -> Result<bool, AllocError>
    requires nodes { own.old.nodes ≡ task.now.polygraph.now.nodes }
    ensures number { seat.new.number ≡ seat.old.number }
    ensures turned { IfOk result (λ _.
        Turned passed.old.items passed.new.items seat.old.calls seat.new.calls) }
    ensures more { IfOk result (λ _. Extends own.old own.new) }
    ensures each { (given : Graph) → Extends given own.old →
        AllByRecursion (IsOpenIn given.edges task.now.polygraph.now.choices) passed.old.items →
        AllByRecursion (IsOpenIn given.edges task.now.polygraph.now.choices) passed.new.items }
{
    let reply = send(task, seat, PruneEvent::Take)?;
    let Some(choice) = handed(reply) else {
        return Ok(false);
    };
    settle(task, seat, own, choice, passed)?;
    Ok(true)
}

/// Turns until no choice is left, by a copy of the graph and of its rows.
fn turns<J: Naming, G: Gate, R: Wait + Clock>(
    task: &Task<'_, J, G, R>,
    seat: &mut Seat<PruneMachine, J>,
    passed: &mut Vec<ChoiceIx>,
) -> Result<(), AllocError>
    requires nodes { task.now.start.now.nodes ≡ task.now.polygraph.now.nodes }
    requires none { passed.old.items ≡ [] }
    ensures number { seat.new.number ≡ seat.old.number }
    ensures handled { IfOk result (λ _. Handled passed.new.items seat.old.calls seat.new.calls) }
    ensures each { AllByRecursion
        (IsOpenIn task.now.start.now.edges task.now.polygraph.now.choices) passed.new.items }
{
    let mut own = task.start.copy(task.alloc)?;
    for number in 0..u64::MAX {
        task.gate.pass(task.rt, seat.number(), number);
        if !turn(task, seat, &mut own, passed)? {
            return Ok(());
        }
    }
    Ok(())
}

/// A round of one seat: it takes choices, judges each, posts each refuted side with a walk, and
/// passes the choices of which no side is refuted, until no choice is left or the machine is dead;
/// then it leaves. It judges, and makes walks, by copies of the graph and rows with which the round
/// began, to which it adds the edges of each side that a post of its own kept. The gate is passed
/// before each turn, with the turns counted from 0.
///
/// It answers with the choices that it passed. At `Err` memory was refused to it, and it has left
/// too.
pub fn work<J: Naming, G: Gate, R: Wait + Clock>(
    task: &Task<'_, J, G, R>,
    seat: Seat<PruneMachine, J>,
) -> (Left<PruneMachine, J>, Result<Vec<ChoiceIx>, AllocError>)
    requires nodes { task.now.start.now.nodes ≡ task.now.polygraph.now.nodes }
    ensures number { result.0.number ≡ seat.number }

    // Each choice that the seat was handed stands in the list, or in a later post of the seat.
    ensures handled { IfOk result.1 (λ passed. Handled passed.items seat.calls result.0.calls) }
    ensures each { IfOk result.1 (λ passed. AllByRecursion
        (IsOpenIn task.now.start.now.edges task.now.polygraph.now.choices) passed.items) }
{
    let mut seat = seat;
    let mut passed = Vec::new(task.alloc);
    let done = turns(task, &mut seat, &mut passed);
    let (_, left) = task.desk.leave(task.rt, seat, PruneEvent::Release);
    match done {
        Ok(()) => (left, Ok(passed)),
        Err(refused) => (left, Err(refused)),
    }
}
