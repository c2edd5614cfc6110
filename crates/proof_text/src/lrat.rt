//! LRAT as text: `ID LITERALS 0 HINTS 0` adds a clause, and `ID d IDS 0` deletes clauses.

ghost use Rattle.std.specs.Prelude.{◌≡◌, IfOk, Some};
ghost use Rattle.proof_text.specs.Numbers.{numbers_of};
ghost use Rattle.proof_text.specs.Reads.{IsRead};
ghost use Rattle.proof_text.specs.Steps.{lrat_step, lrat_steps, lrat_with, line_id};
ghost use Rattle.proof_text.specs.Steps.{step_of_id, deletion_of, addition_of};

use crate::fault::StepFault;
use crate::number::Number;
use crate::reading::{read_last_ids, read_literals};
use crate::words::{Lines, Words};
use serializability::Literal;
use std::alloc::AllocError;
use std::marker::Model;

/// What a step of an LRAT proof does.
#[derive(Clone, Copy, Debug, PartialEq, Eq)]
pub enum LratAction {
    /// Adds the clause of these literals under this number.
    Add(u64),
    /// Deletes the clauses of these numbers.
    Delete,
}

/// The steps of an LRAT proof that are left. Contracts see each with its line, and none where the
/// line has no form.
#[derive(Drop)]
pub struct LratSteps<'a> {
    text: Lines<'a>,
    variables: u32,
}

impl<'a> Model for LratSteps<'a> {
    ghost use Rattle.std.specs.Prelude.{List, Option, ℕ};
    ghost use Rattle.proof_text.specs.Steps.{LratStep};

    ghost Value = { List (ℕ × Option LratStep) };

    ghost use Rattle.proof_text.specs.Steps.{steps_by, lrat_step};

    ghost view = { λ s. steps_by (lrat_step s.variables) s.text };
}

impl<'a> LratSteps<'a> {
    /// The steps of a text for a formula of so many variables.
    #[tactic(auto, unfolding(crate::specs::Steps::lrat_steps))]
    pub fn new(text: &'a [u8], variables: u32) -> LratSteps<'a>
        ensures { result ≡ lrat_steps variables text.now }
    {
        LratSteps {
            text: Lines::of(text),
            variables,
        }
    }

    /// Reads the next step, where there is one: its line, what it does, its literals, and the IDs
    /// that it names. An ID below 0, by which LRAT begins the hints of a resolution asymmetric
    /// tautology, is none.
    pub fn read(
        &mut self,
        literals: &mut Vec<Literal>,
        ids: &mut Vec<Option<u64>>,
    ) -> Result<Option<(usize, LratAction)>, StepFault>
        ensures { IsRead self.old self.new (λ action. record {
          action = action;
          literals = literals.new.items;
          ids = ids.new.items;
        }) result }
    {
        let Some((line, mut words)) = self.text.next_line() else {
            return Ok(None);
        };
        match read_step(&mut words, self.variables, literals, ids)? {
            Some(action) => Ok(Some((line, action))),
            None => Err(StepFault::BadLine { line }),
        }
    }
}

/// Reads the step of a line.
#[tactic(auto, unfolding(crate::specs::Steps::lrat_step, crate::specs::Steps::step_of_id))]
fn read_step(
    words: &mut Words<'_>,
    variables: u32,
    literals: &mut Vec<Literal>,
    ids: &mut Vec<Option<u64>>,
) -> Result<Option<LratAction>, AllocError>
    ensures { IfOk result (λ action.
        lrat_step variables words.old ≡ lrat_with action literals.new.items ids.new.items) }
{
    match line_id(words.next_number()) {
        Some(id) => read_behind_id(words, variables, id, literals, ids),
        None => Ok(None),
    }
}

/// The ID of a line, which is above 0.
#[tactic(auto, unfolding(crate::specs::Steps::line_id))]
fn line_id(number: Option<Number>) -> Option<u64>
    ensures { result ≡ line_id number }
{
    match number {
        Some(id) if !id.negative && id.size != 0 => Some(id.size),
        _ => None,
    }
}

/// Reads what stands behind the ID.
#[tactic(auto, unfolding(crate::specs::Steps::step_of_id))]
fn read_behind_id(
    words: &mut Words<'_>,
    variables: u32,
    id: u64,
    literals: &mut Vec<Literal>,
    ids: &mut Vec<Option<u64>>,
) -> Result<Option<LratAction>, AllocError>
    ensures { IfOk result (λ action. step_of_id variables words.old (Some id) ≡
        lrat_with action literals.new.items ids.new.items) }
{
    if words.take_delete() {
        read_deletion(words, literals, ids)
    } else {
        read_addition(words, variables, id, literals, ids)
    }
}

/// Reads `IDS 0`.
#[tactic(auto, using(crate::proofs::Stepping::deletion_is))]
fn read_deletion(
    words: &mut Words<'_>,
    literals: &mut Vec<Literal>,
    ids: &mut Vec<Option<u64>>,
) -> Result<Option<LratAction>, AllocError>
    ensures { IfOk result (λ action.
        deletion_of (numbers_of words.old) ≡ lrat_with action literals.new.items ids.new.items) }
{
    literals.clear();
    let read = read_last_ids(words, false, ids)?;
    Ok(read.then_some(LratAction::Delete))
}

/// Reads `LITERALS 0 HINTS 0`.
#[tactic(auto, using(crate::proofs::Stepping::addition_none, crate::proofs::Stepping::addition_is))]
fn read_addition(
    words: &mut Words<'_>,
    variables: u32,
    id: u64,
    literals: &mut Vec<Literal>,
    ids: &mut Vec<Option<u64>>,
) -> Result<Option<LratAction>, AllocError>
    ensures { IfOk result (λ action. addition_of variables id (numbers_of words.old) ≡
        lrat_with action literals.new.items ids.new.items) }
{
    let has_clause = read_literals(words, variables, literals)?;
    if !has_clause {
        return Ok(None);
    }
    let has_hints = read_last_ids(words, true, ids)?;
    Ok(has_hints.then_some(LratAction::Add(id)))
}
