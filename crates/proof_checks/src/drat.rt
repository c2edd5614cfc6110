//! DRAT: each step is found to follow by unit propagation.

ghost use Rattle.std.specs.Prelude.{List, Option, IfOk, IfErr, OnOk};
ghost use Rattle.serializability.specs.declared.literal.Literal.{Literal};
ghost use Rattle.refutation.specs.Follows.{Entails};
ghost use Rattle.proof_text.specs.Binary.{drat_steps_in};
ghost use Rattle.proof_text.specs.Faults.{fault_of_step};
ghost use Rattle.proof_text.specs.Steps.{DratStep};
ghost use Rattle.proof_checks.specs.Drat.{IsDratFault, IsDratStop};
ghost use Rattle.proof_checks.specs.Ends.{end_fault};
ghost use Rattle.proof_checks.specs.Held.{Holds};
ghost use Rattle.proof_checks.specs.Marks.{HasRounds, IsMarking};
ghost use Rattle.proof_checks.specs.Passed.{IsAddition, IsNext, IsPassed, IsStepStop};

use crate::distinct::Marks;
use crate::search::Search;
use proof_text::{DratAction, DratSteps, StepFault};
use refutation::Checker;
use serializability::Literal;
use std::alloc::{AllocError, Global};

/// What is kept from step to step.
#[derive(Drop)]
struct Drat {
    search: Search,
    marks: Marks,
    // the literals of the step as they were read, and each once
    literals: Vec<Literal>,
    clause: Vec<Literal>,
}

impl Drat {
    /// The clauses of a checker, and no step.
    fn new(alloc: Global, checker: &Checker, variables: u32) -> Result<Drat, AllocError>
        ensures { IfOk result (λ d. HasRounds d.marks) }
    {
        Ok(Drat {
            search: Search::of(alloc, checker, variables)?,
            marks: Marks::new(alloc),
            literals: Vec::new(alloc),
            clause: Vec::new(alloc),
        })
    }

    /// Takes the next step, and says whether the proof goes on behind it: not at its end, nor
    /// behind the empty clause.
    fn take_next(
        &mut self,
        checker: &mut Checker,
        steps: &mut DratSteps<'_>,
    ) -> Result<bool, StepFault>
        requires { HasRounds self.old.marks }
        ensures follows { Entails checker.old.clauses checker.new.clauses }
        ensures rounds { OnOk result (HasRounds self.new.marks) }
        ensures on { (clauses : List (Option (List Literal))) →
            Holds clauses checker.old.clauses →
            IfOk result (IsNext steps.old steps.new clauses checker.new.clauses) }
        ensures fault { (clauses : List (Option (List Literal))) →
            Holds clauses checker.old.clauses →
            IfErr result (λ f. IsDratStop steps.old clauses (fault_of_step f)) }
    {
        match steps.read(&mut self.literals)? {
            None => Ok(false),
            Some((line, action)) => self.take(checker, action, line),
        }
    }

    /// Takes the step that was read, and says whether the proof goes on behind it.
    fn take(
        &mut self,
        checker: &mut Checker,
        action: DratAction,
        line: usize,
    ) -> Result<bool, StepFault>
        requires { HasRounds self.old.marks }
        ensures follows { Entails checker.old.clauses checker.new.clauses }
        ensures rounds { OnOk result (HasRounds self.new.marks) }
        ensures on { (clauses : List (Option (List Literal))) →
            Holds clauses checker.old.clauses → IfOk result (IsPassed line
            (record { action = action; literals = self.old.literals.items })
            clauses checker.new.clauses) }
        ensures fault { (clauses : List (Option (List Literal))) →
            Holds clauses checker.old.clauses → IfErr result (λ f. IsStepStop line
            (record { action = action; literals = self.old.literals.items })
            clauses (fault_of_step f)) }
    {
        self.marks.keep(&self.literals, &mut self.clause)?;
        match action {
            DratAction::Delete => {
                self.search.forget(&self.marks, &self.clause)?;
                Ok(true)
            }
            DratAction::Add => self.add(checker, line),
        }
    }

    /// Adds the clause of a step, where it follows by unit propagation, and says whether it has
    /// literals. One that every assignment satisfies is passed over.
    fn add(&mut self, checker: &mut Checker, line: usize) -> Result<bool, StepFault>
        requires { IsMarking self.old.marks self.old.clause.items }
        ensures follows { Entails checker.old.clauses checker.new.clauses }
        ensures rounds { OnOk result (HasRounds self.new.marks) }
        ensures on { (s : DratStep) → IsAddition s self.old.clause.items →
            (clauses : List (Option (List Literal))) → Holds clauses checker.old.clauses →
            IfOk result (IsPassed line s clauses checker.new.clauses) }
        ensures fault { (s : DratStep) → IsAddition s self.old.clause.items →
            (clauses : List (Option (List Literal))) → Holds clauses checker.old.clauses →
            IfErr result (λ f. IsStepStop line s clauses (fault_of_step f)) }
    {
        if self.marks.is_tautology(&self.clause) {
            return Ok(true);
        }
        if !self.search.take(checker, &mut self.marks, &self.clause)? {
            return Err(StepFault::NotImplied { line });
        }
        if self.clause.is_empty() {
            return Ok(false);
        }
        self.search.put(&self.clause)?;
        self.search.settle(checker)?;
        Ok(true)
    }
}

/// Takes the steps of a proof, up to the first that adds the empty clause.
pub(crate) fn take_steps(
    alloc: Global,
    checker: &mut Checker,
    variables: u32,
    proof: &[u8],
    binary: bool,
) -> Result<(), StepFault>
    ensures follows { Entails checker.old.clauses checker.new.clauses }
    ensures ended { OnOk result (IsDratFault (drat_steps_in binary variables proof.now)
        checker.old.clauses (end_fault checker.new.clauses)) }
    ensures fault { IfErr result (λ f. IsDratStop (drat_steps_in binary variables proof.now)
        checker.old.clauses (fault_of_step f)) }
{
    let mut drat = Drat::new(alloc, checker, variables)?;
    drat.search.settle(checker)?;
    let mut steps = DratSteps::new(proof, variables, binary);
    loop {
        if !drat.take_next(checker, &mut steps)? {
            return Ok(());
        }
    }
}
