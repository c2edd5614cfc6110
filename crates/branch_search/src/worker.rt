//! What one thread does.

ghost use Rattle.std.specs.Prelude.{◌≡◌, ℕ, ◌<◌, [], ◌∷◌, ◌++◌, Option, IfOk, IfSome, IsTrue};
ghost use Rattle.std.specs.Prelude.{length};
ghost use Rattle.std.specs.List.{All};
ghost use Rattle.pruning_laws.specs.declared.side.Side as side;
ghost use Rattle.branching.specs.View.{opened};
ghost use Rattle.branch_search.specs.Requests.{event_for, split_in, first_child, IsByStrategy};
ghost use Rattle.branch_search.specs.Requests.{IsAskedAfter, IsViewFor};

use crate::retrace::{Step, Trail, go_down, retrace};
use branching::turns::turn;
use branching::{CubeView, Strategy};
use cube_laws::{CubeEvent, CubeReply};
use cube_machine::{CubeMachine, OriginRow};
use desk::desk::Desk;
use desk::gate::Gate;
use desk::naming::Naming;
use desk::seat::{Left, Seat};
use polygraph::ChoiceIx;
use prune_ledger::Reduced;
use pruning_laws::Side;
use std::alloc::{AllocError, Global};
use std::sync::Wait;
use std::time::Clock;

/// What is searched, which each worker is lent: what pruning left, how each node of the tree was
/// led to, and the strategy.
#[derive(Drop)]
pub struct Task<'b, S: Strategy> {
    pub reduced: &'b Reduced,
    pub row: &'b OriginRow,
    pub strategy: &'b S,
}

/// What a worker has: its seat, and what it is lent.
#[derive(Drop)]
pub struct Job<'b, 'a, S: Strategy, J: Naming, G: Gate> {
    pub alloc: Global,
    pub desk: &'b Desk<CubeMachine<'a>, J>,
    pub seat: Seat<CubeMachine<'a>, J>,
    pub task: &'b Task<'b, S>,
    pub gate: &'b G,
}

/// Where a worker is: the cube that it sees, and its way there.
#[derive(Drop)]
struct Standing<'v> {
    view: CubeView<'v>,
    trail: Trail<'v>,
}

/// The cube that a worker asks for: any, or that of a node which decides one choice more than the
/// cube that the worker has just split.
#[derive(Clone, Copy)]
enum Request {
    Any,
    Own(Step),
}

/// Takes cubes and refutes, solves or splits them, until the search is finished or memory is
/// wanting, and leaves.
pub fn work<'b, 'a, S: Strategy, J: Naming, G: Gate, R: Wait + Clock>(
    rt: &R,
    job: Job<'b, 'a, S, J, G>,
) -> Left<CubeMachine<'a>, J>
    ensures { result.number ≡ job.entry.seat.number }
{
    let Job {
        alloc,
        desk,
        mut seat,
        task,
        gate,
    } = job;
    let _ = take_turns(rt, alloc, desk, &mut seat, task, gate);
    let (_, left) = desk.leave(rt, seat, CubeEvent::Release);
    left
}

/// Turns until the search is finished.
fn take_turns<'a, S: Strategy, J: Naming, G: Gate, R: Wait + Clock>(
    rt: &R,
    alloc: Global,
    desk: &Desk<CubeMachine<'a>, J>,
    seat: &mut Seat<CubeMachine<'a>, J>,
    task: &Task<'_, S>,
    gate: &G,
) -> Result<(), AllocError>
    ensures number { seat.new.number ≡ seat.old.number }
{
    let view = view_for::<S>(alloc, task.reduced)?;
    let trail = Trail::new(alloc);
    let mut place = Standing { view, trail };
    let mut request = Request::Any;
    let mut number: u64 = 0;
    for _ in rt.forever() {
        gate.pass(rt, seat.number(), number);
        let next = take_turn(rt, alloc, desk, seat, task, &mut place, request)?;
        let Some(another) = next else {
            return Ok(());
        };
        request = another;
        number = number.saturating_add(1);
    }
    unreachable!()
}

/// The view of the cube in which no choice is decided, with marks where the strategy uses these.
fn view_for<'v, S: Strategy>(
    alloc: Global,
    reduced: &'v Reduced,
) -> Result<CubeView<'v>, AllocError>
    ensures opened { IfOk result (λ view. view ≡ opened reduced.now.poly) }
{
    if S::USES_MARKS {
        CubeView::new(alloc, reduced)
    } else {
        CubeView::without_marks(alloc, reduced)
    }
}

/// Asks for a cube, and refutes, solves or splits it. It answers what to ask for next, and nothing
/// where the search is finished.
fn take_turn<'a, 'v, S: Strategy, J: Naming, R: Wait>(
    rt: &R,
    alloc: Global,
    desk: &Desk<CubeMachine<'a>, J>,
    seat: &mut Seat<CubeMachine<'a>, J>,
    task: &Task<'_, S>,
    place: &mut Standing<'v>,
    request: Request,
) -> Result<Option<Request>, AllocError>
    requires polygraph { place.old.view.polygraph ≡ task.now.reduced.now.poly }
    requires kept { All (λ k. k.view.polygraph ≡ place.old.view.polygraph)
        place.old.trail.kept.items }
    ensures number { seat.new.number ≡ seat.old.number }
    ensures polygraph { place.new.view.polygraph ≡ place.old.view.polygraph }
    ensures kept { IfOk result (λ _. All (λ k. k.view.polygraph ≡ place.new.view.polygraph)
        place.new.trail.kept.items) }
    ensures next { IfOk result (λ next. IfSome next (IsByStrategy
        (S.picks task.now.strategy.now place.new.view) (S.first_of task.now.strategy.now place.new.view))) }
    ensures asked { IfOk result (λ next. IfSome next
        (IsAskedAfter (S.first_of task.now.strategy.now place.new.view) seat.new.calls)) }
{
    let reply = send(rt, desk, seat, event_of(&request))?;
    match reply {
        CubeReply::Finished => Ok(None),
        CubeReply::NotOpen | CubeReply::NoneNow => Ok(Some(Request::Any)),
        CubeReply::Cube(node) => {
            let Standing { view, trail } = place;
            if see(alloc, trail, view, task.row, &request, node)? {
                settle(rt, alloc, desk, seat, task, view)
            } else {
                give_back(rt, desk, seat)
            }
        }
        _ => give_back(rt, desk, seat),
    }
}

fn event_of(request: &Request) -> CubeEvent
    ensures event { result ≡ event_for request.now }
{
    match request {
        Request::Any => CubeEvent::TakeAny,
        Request::Own(child) => CubeEvent::Claim(child.node),
    }
}

/// Makes the view that of the cube that was given; `false` where it cannot.
fn see<'v>(
    alloc: Global,
    trail: &mut Trail<'v>,
    view: &mut CubeView<'v>,
    row: &OriginRow,
    request: &Request,
    node: usize,
) -> Result<bool, AllocError>
    requires kept { All (λ k. k.view.polygraph ≡ view.old.polygraph) trail.old.kept.items }
    ensures kept { IfOk result (λ _. All (λ k. k.view.polygraph ≡ view.new.polygraph)
        trail.new.kept.items) }
    ensures polygraph { view.new.polygraph ≡ view.old.polygraph }
    ensures view { IfOk result (λ seen. IsTrue seen →
        IsViewFor request.now trail.old.kept.items view.old node view.new) }
{
    match request {
        Request::Any => retrace(alloc, trail, view, row, node),
        Request::Own(child) => go_down(alloc, trail, view, *child),
    }
}

/// Refutes, solves or splits the cube that the seat holds.
fn settle<'a, S: Strategy, J: Naming, R: Wait>(
    rt: &R,
    alloc: Global,
    desk: &Desk<CubeMachine<'a>, J>,
    seat: &mut Seat<CubeMachine<'a>, J>,
    task: &Task<'_, S>,
    view: &CubeView<'_>,
) -> Result<Option<Request>, AllocError>
    requires polygraph { view.now.polygraph ≡ task.now.reduced.now.poly }
    ensures number { seat.new.number ≡ seat.old.number }
    ensures next { IfOk result (λ next. IfSome next (IsByStrategy
        (S.picks task.now.strategy.now view.now) (S.first_of task.now.strategy.now view.now))) }
    ensures asked { IfOk result (λ next. IfSome next
        (IsAskedAfter (S.first_of task.now.strategy.now view.now) seat.new.calls)) }
{
    let event = turn(alloc, task.reduced, view, task.strategy)?;
    let choice = split_by(&event);
    let reply = send(rt, desk, seat, event)?;
    match reply {
        CubeReply::Finished => Ok(None),
        CubeReply::Closed | CubeReply::Solved => Ok(Some(Request::Any)),
        CubeReply::Children(one, two) => Ok(Some(first_child(
            task.strategy,
            view,
            choice,
            one,
            two,
        ))),
        _ => give_back(rt, desk, seat),
    }
}

/// The choice by which an event splits a cube.
fn split_by(event: &CubeEvent) -> Option<ChoiceIx>
    ensures choice { result ≡ split_in event.now }
{
    match event {
        CubeEvent::Split(choice) => Some(*choice),
        _ => None,
    }
}

/// The child that is to be seen first, of the two that a split made.
fn first_child<S: Strategy>(
    strategy: &S,
    view: &CubeView<'_>,
    choice: Option<ChoiceIx>,
    one: usize,
    two: usize,
) -> Request
    requires choice { IfSome choice (λ c. c < length view.now.sides) }
    ensures child { result ≡ first_child (S.first_of strategy.now view.now) choice one two }
{
    let Some(choice) = choice else {
        return Request::Any;
    };
    let side = strategy.first_side(view, choice);
    let node = match side {
        Side::One => one,
        Side::Two => two,
    };
    Request::Own(Step { node, choice, side })
}

/// Gives back the cube that the seat holds, if any, and asks for another.
fn give_back<'a, J: Naming, R: Wait>(
    rt: &R,
    desk: &Desk<CubeMachine<'a>, J>,
    seat: &mut Seat<CubeMachine<'a>, J>,
) -> Result<Option<Request>, AllocError>
    ensures number { seat.new.number ≡ seat.old.number }
    ensures next { (pick : Option ℕ) (first : ℕ → side.Side) →
        IfOk result (λ next. IfSome next (IsByStrategy pick first)) }
    ensures asked { (first : ℕ → side.Side) →
        IfOk result (λ next. IfSome next (IsAskedAfter first seat.new.calls)) }
{
    send(rt, desk, seat, CubeEvent::Release)?;
    Ok(Some(Request::Any))
}

/// A call, of which at a refusal the event is let go.
fn send<'a, J: Naming, R: Wait>(
    rt: &R,
    desk: &Desk<CubeMachine<'a>, J>,
    seat: &mut Seat<CubeMachine<'a>, J>,
    event: CubeEvent,
) -> Result<CubeReply, AllocError>
    ensures number { seat.new.number ≡ seat.old.number }
    ensures called { IfOk result (λ reply. seat.new.calls ≡ seat.old.calls ++ (event, reply) ∷ []) }
{
    match desk.call(rt, seat, event) {
        Ok(reply) => Ok(reply),
        Err((event, refused)) => {
            drop(event);
            Err(refused)
        }
    }
}
