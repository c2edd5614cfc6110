//! Steps whose hints say which clauses are to be shown.

ghost use Rattle.std.specs.Prelude.{IfOk, OnOk, OnErr, ◌≡◌, length};
ghost use Rattle.refutation.specs.Follows.{Entails};
ghost use Rattle.refutation.specs.Hinted.{hinted};
ghost use Rattle.refutation.specs.Known.{with_false, all_open};
ghost use Rattle.refutation.specs.Steps.{Steps};

use crate::checker::{Checker, Shown};
use serializability::Literal;
use std::alloc::AllocError;

/// Takes a step: shows the clauses with the numbers in `hints`, in turn, until the step is closed,
/// and says whether it was. A step is not taken where a hint shows nothing, or where the hints end
/// before it is closed. A literal that a clause has twice counts twice.
#[tactic(auto, using(crate::proofs::Units::length_assumed))]
pub fn take_step(
    checker: &mut Checker,
    step: &[Literal],
    hints: &[usize],
) -> Result<bool, AllocError>
    ensures taken { IfOk result (λ t. Steps checker.old checker.new step.now t) }
    ensures exactly { IfOk result (λ t. t ≡ hinted hints.now checker.old.clauses
        (with_false step.now (all_open (length checker.old.known)))) }
    ensures known { OnOk result (length checker.new.known ≡ length checker.old.known) }
    ensures follows { Entails checker.old.clauses checker.new.clauses }
    ensures same { OnErr result (checker.new.clauses ≡ checker.old.clauses) }
{
    checker.begin(step)?;
    for &hint in hints {
        match checker.show(hint)? {
            Shown::Forced(_) => {}
            Shown::Nothing => return Ok(false),
            Shown::Closed => return Ok(true),
        }
    }
    Ok(false)
}
