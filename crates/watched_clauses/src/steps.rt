//! Steps that the checker takes.

ghost use Rattle.std.specs.Prelude.{ℕ};
ghost use Rattle.watched_clauses.specs.Extends.{Extends};

use refutation::{Checker, take_step};
use serializability::Literal;
use std::alloc::AllocError;

/// Has the checker take a step by the clauses with these numbers, and says whether it did.
#[tactic(auto, using(crate::proofs::Extending::extends_same, crate::proofs::Extending::extends_added))]
pub fn take_hinted(
    checker: &mut Checker,
    step: &[Literal],
    hints: &[usize],
) -> Result<bool, AllocError>
    ensures extends { (n : ℕ) → Extends n checker.old.clauses checker.new.clauses }
{
    take_step(checker, step, hints)
}
