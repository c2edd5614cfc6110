//! LRAT: each step names the clauses that it follows from.

ghost use Rattle.std.specs.Prelude.{◌≡◌, ◌==◌, ◌∷◌, [], ◌++◌, None, Some, length, position};
ghost use Rattle.std.specs.Prelude.{IfOk, IfErr, OnOk};
ghost use Rattle.std.specs.List.Sorted.{IsStrictlyIncreasing};
ghost use Rattle.refutation.specs.Follows.{Entails};
ghost use Rattle.proof_text.specs.Faults.{fault_of_step};
ghost use Rattle.proof_checks.specs.Checked.{given_to, lrat_fault_of};
ghost use Rattle.proof_checks.specs.Distinct.{distinct};
ghost use Rattle.proof_checks.specs.Ends.{IsFault, end_fault};
ghost use Rattle.proof_checks.specs.Kept.{AreNumbers, GoesOn, IsAdded, IsKept, IsTaken};
ghost use Rattle.proof_checks.specs.Kept.{held, proof_of, step_read};
ghost use Rattle.proof_checks.specs.Lrat.{addition_fault, is_next, lrat_fault, named_at};
ghost use Rattle.proof_checks.specs.Lrat.{number_at, standing_at, step_fault, without};

use crate::distinct::Marks;
use proof_text::{LratAction, LratSteps, StepFault};
use refutation::{Checker, take_step};
use serializability::Literal;
use std::alloc::{AllocError, Global};

/// The place of an ID among those of added clauses. Where none is left out it is as far from the
/// first place as the ID is from the first ID.
fn added_at(added: &[u64], id: u64) -> Option<usize>
    requires { IsStrictlyIncreasing added.now }
    ensures { result ≡ position (λ x. x == id) added.now }
{
    let first = added.first().copied()?;
    let guess = id.wrapping_sub(first) as usize;
    if guess < added.len() && added[guess] == id {
        return Some(guess);
    }
    added.binary_search(&id).ok()
}

/// The number at which the checker has the clause that got an ID: those of the formula have the IDs
/// from 1 on, and each added clause has a greater one than all before.
fn number_of(checker: &Checker, added: &[u64], id: u64) -> Option<usize>
    requires { IsStrictlyIncreasing added.now }
    ensures { result ≡ number_at (proof_of checker.now added.now) id }
{
    let given = checker.len().saturating_sub(added.len());
    if 0 < id && id <= given as u64 {
        return Some((id - 1) as usize);
    }
    let place = added_at(added, id)?;
    Some(given + place)
}

/// The number of a clause with an ID, where it stands.
fn standing(checker: &Checker, added: &[u64], id: u64) -> Option<usize>
    requires { IsStrictlyIncreasing added.now }
    ensures { result ≡ standing_at (proof_of checker.now added.now) id }
{
    let number = number_of(checker, added, id)?;
    match checker.clause(number) {
        Some(_) => Some(number),
        None => None,
    }
}

/// The number that a step names. That of an ID below 0 has no clause.
fn named(checker: &Checker, added: &[u64], id: Option<u64>) -> Option<usize>
    requires { IsStrictlyIncreasing added.now }
    ensures { result ≡ named_at (proof_of checker.now added.now) id }
{
    match id {
        Some(id) => standing(checker, added, id),
        None => Some(checker.len()),
    }
}

/// Finds the numbers of the clauses that a step names, and says whether all of them stand.
fn resolve(
    checker: &Checker,
    added: &[u64],
    ids: &[Option<u64>],
    numbers: &mut Vec<usize>,
) -> Result<bool, AllocError>
    requires { IsStrictlyIncreasing added.now }
    ensures { IfOk result (AreNumbers (proof_of checker.now added.now) ids.now numbers.new.items) }
{
    numbers.clear();
    for id in ids {
        match named(checker, added, *id) {
            Some(number) => numbers.push(number)?,
            None => return Ok(false),
        }
    }
    Ok(true)
}

/// Whether a clause that is added next may have an ID.
fn is_next(checker: &Checker, added: &[u64], id: u64) -> bool
    ensures { result ≡ is_next (proof_of checker.now added.now) id }
{
    match added.last() {
        Some(last) => *last < id,
        None => (checker.len() as u64) < id,
    }
}

fn push_id(added: &mut Vec<u64>, id: u64) -> Result<(), AllocError>
    ensures { OnOk result (added.new.items ≡ added.old.items ++ id ∷ []) }
{
    added.push(id)?;
    Ok(())
}

/// Adds the clause of a step, where its hints show that it follows.
fn add_clause(
    checker: &mut Checker,
    added: &mut Vec<u64>,
    id: u64,
    line: usize,
    literals: &[Literal],
    hints: &[usize],
) -> Result<(), StepFault>
    requires { IsStrictlyIncreasing added.old.items }
    ensures follows { Entails checker.old.clauses checker.new.clauses }
    ensures known { OnOk result (length checker.new.known ≡ length checker.old.known) }
    ensures ascends { OnOk result (IsStrictlyIncreasing added.new.items) }
    ensures clauses { OnOk result
        (checker.new.clauses ≡ checker.old.clauses ++ Some literals.now ∷ []) }
    ensures added { OnOk result (added.new.items ≡ added.old.items ++ id ∷ []) }
    ensures taken { OnOk result (addition_fault (length checker.old.known) line
        (proof_of checker.old added.old.items) id literals.now hints.now ≡ None) }
    ensures fault { IfErr result (λ f. IsFault (fault_of_step f)
        (addition_fault (length checker.old.known) line
        (proof_of checker.old added.old.items) id literals.now hints.now)) }
{
    if !is_next(checker, added, id) {
        return Err(StepFault::BadLine { line });
    }
    if !take_step(checker, literals, hints)? {
        return Err(StepFault::NotImplied { line });
    }
    push_id(added, id)?;
    Ok(())
}

/// Forgets clauses.
fn delete(checker: &mut Checker, numbers: &[usize]) -> Result<(), AllocError>
    ensures follows { Entails checker.old.clauses checker.new.clauses }
    ensures known { length checker.new.known ≡ length checker.old.known }
    ensures clauses { checker.new.clauses ≡ without numbers.now checker.old.clauses }
{
    for &number in numbers {
        checker.forget(number);
    }
    checker.reclaim()
}

/// What is kept from step to step.
#[derive(Drop)]
struct Lrat {
    // the IDs of the added clauses, each greater than all before
    added: Vec<u64>,
    marks: Marks,
    // what was read of the step, and what it is
    literals: Vec<Literal>,
    ids: Vec<Option<u64>>,
    clause: Vec<Literal>,
    numbers: Vec<usize>,
}

impl Lrat {
    /// No step.
    fn new(alloc: Global) -> Lrat
        ensures kept { IsKept result }
        ensures none { result.added.items ≡ [] }
    {
        Lrat {
            added: Vec::new(alloc),
            marks: Marks::new(alloc),
            literals: Vec::new(alloc),
            ids: Vec::new(alloc),
            clause: Vec::new(alloc),
            numbers: Vec::new(alloc),
        }
    }

    /// Takes the next step, and says whether the proof goes on behind it: not at its end, nor
    /// behind the empty clause.
    fn take_next(
        &mut self,
        checker: &mut Checker,
        steps: &mut LratSteps<'_>,
    ) -> Result<bool, StepFault>
        requires { IsKept self.old }
        ensures follows { Entails checker.old.clauses checker.new.clauses }
        ensures kept { OnOk result (IsKept self.new) }
        ensures known { OnOk result (length checker.new.known ≡ length checker.old.known) }
        ensures on { IfOk result (λ on. GoesOn (length checker.old.known) steps.old steps.new
            (held checker.old self.old) (held checker.new self.new) on) }
        ensures fault { IfErr result (λ f. IsFault (fault_of_step f)
            (lrat_fault (length checker.old.known) steps.old (held checker.old self.old))) }
    {
        match steps.read(&mut self.literals, &mut self.ids)? {
            None => Ok(false),
            Some((line, action)) => self.take(checker, action, line),
        }
    }

    /// Takes the step that was read.
    fn take(
        &mut self,
        checker: &mut Checker,
        action: LratAction,
        line: usize,
    ) -> Result<bool, StepFault>
        requires { IsKept self.old }
        ensures follows { Entails checker.old.clauses checker.new.clauses }
        ensures kept { OnOk result (IsKept self.new) }
        ensures known { OnOk result (length checker.new.known ≡ length checker.old.known) }
        ensures taken { IfOk result (IsTaken (length checker.old.known) line
            (held checker.old self.old) (held checker.new self.new) (step_read self.old action)) }
        ensures fault { IfErr result (λ f. IsFault (fault_of_step f)
            (step_fault (length checker.old.known) line
            (held checker.old self.old) (step_read self.old action))) }
    {
        if !resolve(checker, &self.added, &self.ids, &mut self.numbers)? {
            return Err(StepFault::BadLine { line });
        }
        match action {
            LratAction::Delete => {
                delete(checker, &self.numbers)?;
                Ok(true)
            }
            LratAction::Add(id) => self.add(checker, id, line),
        }
    }

    /// Adds the clause that was read under an ID, and says whether it has literals.
    fn add(&mut self, checker: &mut Checker, id: u64, line: usize) -> Result<bool, StepFault>
        requires { IsKept self.old }
        ensures follows { Entails checker.old.clauses checker.new.clauses }
        ensures kept { OnOk result (IsKept self.new) }
        ensures known { OnOk result (length checker.new.known ≡ length checker.old.known) }
        ensures added { IfOk result (IsAdded (length checker.old.known) line
            (held checker.old self.old) (held checker.new self.new)
            id self.old.literals.items self.old.numbers.items) }
        ensures fault { IfErr result (λ f. IsFault (fault_of_step f)
            (addition_fault (length checker.old.known) line (held checker.old self.old)
            id (distinct self.old.literals.items) self.old.numbers.items)) }
    {
        self.marks.keep(&self.literals, &mut self.clause)?;
        let added = &mut self.added;
        add_clause(checker, added, id, line, &self.clause, &self.numbers)?;
        Ok(!self.clause.is_empty())
    }
}

/// Takes the steps of a proof, up to the first that adds the empty clause.
pub(crate) fn take_steps(
    alloc: Global,
    checker: &mut Checker,
    variables: u32,
    proof: &[u8],
) -> Result<(), StepFault>
    ensures follows { Entails checker.old.clauses checker.new.clauses }
    ensures ended { OnOk result (lrat_fault_of (given_to checker.old variables) proof.now
        ≡ end_fault checker.new.clauses) }
    ensures fault { IfErr result (λ f. IsFault (fault_of_step f)
        (lrat_fault_of (given_to checker.old variables) proof.now)) }
{
    let mut lrat = Lrat::new(alloc);
    let mut steps = LratSteps::new(proof, variables);
    loop {
        if !lrat.take_next(checker, &mut steps)? {
            return Ok(());
        }
    }
}
