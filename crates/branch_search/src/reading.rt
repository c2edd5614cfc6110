//! The answer of a search, read from the machine and its history.

ghost use Rattle.std.specs.Prelude.{◌≡◌, ◌↔◌, ℕ, ◌+◌, ◌-◌, ◌^◌, ◌≤◌, List, length, Some, IfOk};
ghost use Rattle.std.specs.Prelude.{IfSome, is_some};
ghost use Rattle.std.specs.List.{list_any};
ghost use Rattle.serializability.specs.Polygraph.{Polygraph, Fits};
ghost use Rattle.log_definitions.specs.Serial.{IsSerialOrder};
ghost use Rattle.desk.specs.History.{IsReached};
ghost use Rattle.cube_laws.specs.State.{opening_state};
ghost use Rattle.cube_laws.specs.Steps.{next_of, reply_of};
ghost use Rattle.cube_laws.specs.Runs.{EachSolvesRightly, solves};
ghost use Rattle.cube_laws.specs.declared.messages.CubeEvent.TheVariants as event;
ghost use Rattle.cube_laws.specs.declared.messages.CubeReply.TheVariants as reply;
ghost use Rattle.branch_search.specs.Answers.{SaysYes, SaysNo, ShowsNo, SaysUnknown, IsSettled};
ghost use Rattle.branch_search.specs.Answers.{IsReadFrom};

use crate::answer::Answer;
use crate::growing::tree_of;
use cube_laws::laws::{
    large_budgets_are_not_spent, no_order_fits_where_every_cube_is_refuted,
    solved_nodes_were_solved, solving_orders_fit,
};
use cube_laws::{CubeEvent, CubeReply};
use cube_machine::{Budget, CubeMachine};
use desk::desk::Closed;
use desk::history::Entry;
use prune_ledger::Reduced;
use session_history::{History, NodeLine};
use std::alloc::{AllocError, Global};

/// What a closed desk has to say: the order that solved a node; that every cube is refuted, with
/// the tree; or that the budget is spent while a cube is open or held. At `Err` the search did not
/// come to an end, or there is no memory for the tree.
pub fn read_answer(
    alloc: Global,
    history: &History,
    reduced: &Reduced,
    budget: Budget,
    closed: Closed<CubeMachine<'_>>,
) -> Result<Answer, AllocError>
    requires its { (order : List ℕ) →
        (Fits reduced.now.poly order ↔ IsSerialOrder history.now order) }
    requires reached { IsReached next_of reply_of (Some (opening_state reduced.now.poly budget))
        closed.history.items closed.machine }
    ensures yes { IfOk result (SaysYes history.now) }
    ensures no { IfOk result (SaysNo history.now) }
    ensures tree { IfOk result (ShowsNo reduced.now.poly) }
    ensures unknown { IfOk result (SaysUnknown budget) }
    ensures bound { 2 ^ (length reduced.now.poly.choices + 1) - 1 ≤ budget → IfOk result IsSettled }
    ensures read { IfOk result (IsReadFrom closed.entry.machine) }
{
    solving_orders_fit();
    solved_nodes_were_solved();
    large_budgets_are_not_spent();
    no_order_fits_where_every_cube_is_refuted();
    let Closed {
        machine,
        history: steps,
    } = closed;
    let closed = machine.closed();
    if machine.is_exhausted() {
        return Ok(Answer::No(tree_of(alloc, steps, closed)?));
    }
    if let Some(line) = solving_line(steps) {
        return Ok(Answer::Yes(line));
    }
    if closed == budget.get() {
        return Ok(Answer::Unknown { closed });
    }
    Err(AllocError)
}

/// The order that solved a node.
fn solving_line(steps: Vec<Entry<CubeEvent, CubeReply>>) -> Option<NodeLine>
    ensures fits { (p : Polygraph) → EachSolvesRightly p steps.items → IfSome result (Fits p) }
    ensures found { is_some result ≡ list_any (λ x. solves x.event x.reply) steps.items }
{
    for step in steps {
        if let Some(line) = solved_in(step) {
            return Some(line);
        }
    }
    None
}

/// The order by which a step solved a node.
fn solved_in(step: Entry<CubeEvent, CubeReply>) -> Option<NodeLine>
    ensures line { IfSome result (λ line. (step.event ≡ event.Solve line)
        × (step.reply ≡ reply.Solved)) }
    ensures found { is_some result ≡ solves step.event step.reply }
{
    let Entry {
        seat: _,
        event,
        reply,
    } = step;
    match event {
        CubeEvent::Solve(line) => match reply {
            CubeReply::Solved => Some(line),
            _ => None,
        },
        _ => None,
    }
}
