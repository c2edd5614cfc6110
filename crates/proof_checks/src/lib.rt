//! Solvers' proofs that a formula cannot be satisfied, checked: the steps of an LRAT proof by their
//! hints, those of a DRAT proof by unit propagation. What finds the clauses that a step follows
//! from is not trusted: the crate `refutation` looks at each of them. A root of a DRAT proof, and a
//! clause that a plain look at all clauses shows, are given to it; that they follow is proved here.
//!
//! Called by `refute_command`. It knows no log: its formula may be any.
#![tactic(auto)]

mod distinct;
mod drat;
mod index;
mod lrat;
mod plain;
mod search;

ghost use Rattle.std.specs.Prelude.{OnOk, IfErr};
ghost use Rattle.refutation.specs.Follows.{Entails, IsRefuted};
ghost use Rattle.proof_text.specs.Faults.{fault_of_step};
ghost use Rattle.proof_text.specs.Forms.{form_of_text};
ghost use Rattle.proof_checks.specs.Checked.{IsAccepted, IsFaultOf, IsProofFault, IsStepsFault};
ghost use Rattle.proof_checks.specs.Checked.{given_to};
ghost use Rattle.proof_checks.specs.Ends.{end_fault};

use proof_text::{Form, MAX_PROOF_BYTES, ProofFault, StepFault, form_of};
use refutation::Checker;
use std::alloc::Global;

/// Takes the steps of a proof in whatever form, up to the first that adds the empty clause.
fn take_steps(
    alloc: Global,
    checker: &mut Checker,
    variables: u32,
    proof: &[u8],
) -> Result<(), StepFault>
    ensures follows { Entails checker.old.clauses checker.new.clauses }
    ensures ended { OnOk result (IsFaultOf (form_of_text proof.now) (given_to checker.old variables)
        proof.now (end_fault checker.new.clauses)) }
    ensures fault { IfErr result (λ f. IsStepsFault (form_of_text proof.now)
        (given_to checker.old variables) proof.now (fault_of_step f)) }
{
    match form_of(proof) {
        Form::Lrat => lrat::take_steps(alloc, checker, variables, proof),
        Form::Drat => drat::take_steps(alloc, checker, variables, proof, false),
        Form::BinaryDrat => drat::take_steps(alloc, checker, variables, proof, true),
    }
}

/// Checks a proof that the clauses of a checker, whose variables are 1 to `variables`, cannot be
/// satisfied. What stands behind the first empty clause is not read.
///
/// # Errors
/// The fault that stands first: a line of no form, a clause that does not follow, the end of the
/// proof without an empty clause; more than 1 GiB before all of them; want of memory.
pub fn check_proof(
    alloc: Global,
    checker: &mut Checker,
    variables: u32,
    proof: &[u8],
) -> Result<(), ProofFault>
    ensures refuted { OnOk result (IsRefuted checker.old.clauses) }
    ensures accepted { OnOk result (IsAccepted (given_to checker.old variables) proof.now) }
    ensures fault { IfErr result (IsProofFault (given_to checker.old variables) proof.now) }
{
    if proof.len() > MAX_PROOF_BYTES {
        return Err(ProofFault::TooLong);
    }
    take_steps(alloc, checker, variables, proof)?;
    if checker.is_refuted() {
        Ok(())
    } else {
        Err(ProofFault::NoEmptyClause)
    }
}
