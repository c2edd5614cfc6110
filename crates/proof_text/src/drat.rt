//! DRAT: as text `LITERALS 0` adds a clause and `d LITERALS 0` deletes one; in its binary form `a`
//! and `d` stand before the literals, each of which is a number of seven bits a byte, twice the
//! variable and one more for its negation, with 0 at the end.

ghost use Rattle.std.specs.Prelude.{◌≡◌, IfOk};
ghost use Rattle.proof_text.specs.Binary.{drat_steps_in};
ghost use Rattle.proof_text.specs.Reads.{IsRead};
ghost use Rattle.proof_text.specs.Steps.{steps_by, action_of, drat_step, drat_with};
ghost use Rattle.proof_text.specs.Words.{behind_delete};

use crate::binary::BinaryLines;
use crate::fault::StepFault;
use crate::reading::read_last_literals;
use crate::words::{Lines, Words};
use serializability::Literal;
use std::alloc::AllocError;
use std::marker::Model;

/// What a step of a DRAT proof does with the clause of its literals.
#[derive(Clone, Copy, Debug, PartialEq, Eq)]
pub enum DratAction {
    Add,
    Delete,
}

/// The lines of a DRAT proof that are left.
#[derive(Drop)]
enum Source<'a> {
    Text(Lines<'a>),
    Binary(BinaryLines<'a>),
}

/// The steps of a DRAT proof that are left. Contracts see each with its line, and none where the
/// line has no form; of the binary form a line is a step.
#[derive(Drop)]
pub struct DratSteps<'a> {
    source: Source<'a>,
    variables: u32,
}

impl<'a> Model for DratSteps<'a> {
    ghost use Rattle.std.specs.Prelude.{List, Option, ℕ};
    ghost use Rattle.proof_text.specs.Steps.{DratStep};

    ghost Value = { List (ℕ × Option DratStep) };

    ghost use Rattle.proof_text.specs.Sources.{steps_left};

    ghost view = { λ s. steps_left s.variables s.source };
}

impl<'a> DratSteps<'a> {
    /// The steps of a text, or of its binary form, for a formula of so many variables.
    #[tactic(auto, unfolding(crate::specs::Binary::drat_steps_in, crate::specs::Steps::drat_steps))]
    pub fn new(text: &'a [u8], variables: u32, binary: bool) -> DratSteps<'a>
        ensures { result ≡ drat_steps_in binary variables text.now }
    {
        let source = if binary {
            Source::Binary(BinaryLines::of(text))
        } else {
            Source::Text(Lines::of(text))
        };
        DratSteps { source, variables }
    }

    /// Reads the next step, where there is one: its line, what it does, and its literals.
    pub fn read(
        &mut self,
        literals: &mut Vec<Literal>,
    ) -> Result<Option<(usize, DratAction)>, StepFault>
        ensures { IsRead self.old self.new (λ action. record {
          action = action;
          literals = literals.new.items;
        }) result }
    {
        match &mut self.source {
            Source::Text(lines) => read_line(lines, self.variables, literals),
            Source::Binary(lines) => lines.read(self.variables, literals),
        }
    }
}

/// Reads the step of the next line.
fn read_line(
    lines: &mut Lines<'_>,
    variables: u32,
    literals: &mut Vec<Literal>,
) -> Result<Option<(usize, DratAction)>, StepFault>
    ensures { IsRead
        (steps_by (drat_step variables) lines.old)
        (steps_by (drat_step variables) lines.new)
        (λ action. record {
          action = action;
          literals = literals.new.items;
        }) result }
{
    let Some((line, mut words)) = lines.next_line() else {
        return Ok(None);
    };
    match read_step(&mut words, variables, literals)? {
        Some(action) => Ok(Some((line, action))),
        None => Err(StepFault::BadLine { line }),
    }
}

/// Reads what the step of a line does.
fn take_action(words: &mut Words<'_>) -> DratAction
    ensures action { result ≡ action_of words.old }
    ensures rest { words.new ≡ behind_delete words.old }
{
    if words.take_delete() {
        DratAction::Delete
    } else {
        DratAction::Add
    }
}

/// Reads the step of a line.
#[tactic(auto, using(crate::proofs::Stepping::drat_is), unfolding(crate::specs::Steps::drat_step))]
fn read_step(
    words: &mut Words<'_>,
    variables: u32,
    literals: &mut Vec<Literal>,
) -> Result<Option<DratAction>, AllocError>
    ensures { IfOk result (λ action.
        drat_step variables words.old ≡ drat_with action literals.new.items) }
{
    let action = take_action(words);
    let read = read_last_literals(words, variables, literals)?;
    Ok(read.then_some(action))
}
