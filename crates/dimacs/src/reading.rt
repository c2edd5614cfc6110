//! An answer that is being read, word by word.

ghost use Rattle.std.specs.Prelude.{◌≡◌, ℕ, ◌<◌, List, [], ◌∷◌, map, slice_index, slice_index_or};
ghost use Rattle.std.specs.Prelude.{slice_set, not, true, false, vec_len, IfOk, MatchResult, Some};
ghost use Rattle.std.specs.Prelude.{None};
ghost use Rattle.dimacs.specs.Words.{Item, Given, line_items, number_item, signed_item};
ghost use Rattle.dimacs.specs.Words.{status_item, claim, words};

use crate::answer::{AnswerFault, SolverAnswer};
use crate::number::is_number;
use crate::status::{Status, status_named};
use crate::words::{Words, is_blank};
use session_log::value_of;
use std::alloc::{AllocError, Global};

/// What the words so far have said.
#[derive(Drop)]
pub(crate) struct Reading {
    status: Option<Status>,
    /// Which variables stood as they are.
    trues: Vec<bool>,
    /// Which variables stood negated.
    falses: Vec<bool>,
    /// Whether the last number was 0.
    closed: bool,
    ghost paired: { vec_len trues ≡ vec_len falses },
}

impl Reading {
    ghost use Rattle.dimacs.specs.Answer.{end_fault, is_closed, status, StandsFor};
    ghost use Rattle.dimacs.specs.Reading.{Knows, Takes, marks};

    /// Nothing has been read.
    pub(crate) fn new(alloc: Global, vars: usize) -> Result<Reading, AllocError>
        ensures { IfOk result (Knows vars []) }
    {
        Ok(Reading {
            status: None,
            trues: vec![in alloc; false; vars]?,
            falses: vec![in alloc; false; vars]?,
            closed: false,
        })
    }

    /// Takes a line of this number.
    #[tactic(auto, unfolding(crate::specs::Words::line_items))]
    pub(crate) fn take_line(&mut self, line: usize, body: &[u8]) -> Result<(), AnswerFault>
        ensures { (vars : ℕ) (before : List Item) → Knows vars before self.old →
            Takes vars before line (line_items body.now) result self.new }
    {
        if first_byte(body) == b'c' {
            return Ok(());
        }
        let mut words = Words(body);
        let Some(first) = words.next() else {
            return Ok(());
        };
        if is_blank(first_byte(body)) {
            return Err(AnswerFault::BadLine { line });
        }
        if first == b"v".as_slice() {
            return self.take_numbers(line, words);
        }
        if first == b"s".as_slice() {
            return self.take_status(line, words);
        }
        Err(AnswerFault::BadLine { line })
    }

    /// Takes the status that stands alone behind the `s` of a line.
    fn take_status(&mut self, line: usize, rest: Words<'_>) -> Result<(), AnswerFault>
        ensures { (vars : ℕ) (before : List Item) → Knows vars before self.old →
            Takes vars before line (status_item (words rest.entry.0.now) ∷ []) result self.new }
    {
        let Some(status) = only_status(rest) else {
            return Err(AnswerFault::BadLine { line });
        };
        if self.status.is_some() {
            return Err(AnswerFault::TwoStatus { line });
        }
        self.status = Some(status);
        Ok(())
    }

    /// Takes the numbers behind the `v` of a line.
    fn take_numbers(&mut self, line: usize, numbers: Words<'_>) -> Result<(), AnswerFault>
        ensures { (vars : ℕ) (before : List Item) → Knows vars before self.old →
            Takes vars before line (map number_item (words numbers.entry.0.now)) result self.new }
    {
        for word in numbers {
            self.take_number(line, word)?;
        }
        Ok(())
    }

    /// Takes a word of a `v` line.
    #[tactic(auto, unfolding(crate::specs::Words::number_item))]
    fn take_number(&mut self, line: usize, word: &[u8]) -> Result<(), AnswerFault>
        ensures { (vars : ℕ) (before : List Item) → Knows vars before self.old →
            Takes vars before line (number_item word.now ∷ []) result self.new }
    {
        if first_byte(word) == b'-' {
            self.take_signed(line, false, &word[1..])
        } else {
            self.take_signed(line, true, word)
        }
    }

    /// Takes a number by its sign and what should be its digits.
    fn take_signed(&mut self, line: usize, positive: bool, digits: &[u8]) -> Result<(), AnswerFault>
        ensures { (vars : ℕ) (before : List Item) → Knows vars before self.old →
            Takes vars before line (signed_item positive digits.now ∷ []) result self.new }
    {
        if !is_number(digits) {
            return Err(AnswerFault::BadLine { line });
        }
        match value_of(digits) {
            None => Err(AnswerFault::OutOfRange { line }),
            Some(0) => {
                self.closed = true;
                Ok(())
            }
            Some(variable) => self.take_literal(line, positive, variable as usize),
        }
    }

    /// Takes a literal.
    fn take_literal(
        &mut self,
        line: usize,
        positive: bool,
        variable: usize,
    ) -> Result<(), AnswerFault>
        requires { 0 < variable }
        ensures { (vars : ℕ) (before : List Item) → Knows vars before self.old →
            Takes vars before line (Given record { variable = variable; positive = positive } ∷ [])
            result self.new }
    {
        if variable > self.trues.len() {
            return Err(AnswerFault::OutOfRange { line });
        }
        if self.has_stood(!positive, variable - 1) {
            return Err(AnswerFault::BothSigns { line });
        }
        self.mark(positive, variable - 1);
        self.closed = false;
        Ok(())
    }

    /// Whether the variable at a place stood with this sign. Places count from 0.
    fn has_stood(&self, positive: bool, place: usize) -> bool
        requires { place < vec_len self.now.trues }
        ensures { result ≡ slice_index_or (marks self.now positive) place false }
    {
        if positive {
            self.trues[place]
        } else {
            self.falses[place]
        }
    }

    /// Notes that the variable at a place stood with this sign.
    fn mark(&mut self, positive: bool, place: usize)
        requires { place < vec_len self.old.trues }
        ensures here { marks self.new positive ≡ slice_set (marks self.old positive) place true }
        ensures opposite { marks self.new (not positive) ≡ marks self.old (not positive) }
        ensures status { self.new.status ≡ self.old.status }
    {
        if positive {
            self.trues[place] = true;
        } else {
            self.falses[place] = true;
        }
    }

    /// The answer, where all lines have been taken.
    pub(crate) fn into_answer(self) -> Result<SolverAnswer, AnswerFault>
        ensures { (vars : ℕ) (items : List Item) → Knows vars items self →
            MatchResult result
            (λ a. (end_fault vars (is_closed items) (status items) ≡ None) × StandsFor vars items a)
            (λ f. end_fault vars (is_closed items) (status items) ≡ Some f) }
    {
        let Reading {
            status,
            trues,
            falses: _,
            closed,
        } = self;
        match status {
            None => Err(AnswerFault::NoStatus),
            Some(Status::Satisfiable) => {
                if closed || trues.is_empty() {
                    Ok(SolverAnswer::Model(trues))
                } else {
                    Err(AnswerFault::Unclosed)
                }
            }
            Some(Status::Unsatisfiable) => Ok(SolverAnswer::Unsatisfiable),
            Some(Status::Unknown) => Ok(SolverAnswer::Unknown),
        }
    }
}

/// The status that stands alone.
fn only_status(mut rest: Words<'_>) -> Option<Status>
    ensures { status_item (words rest.entry.0.now) ≡ claim result }
{
    let word = rest.next()?;
    if rest.next().is_some() {
        return None;
    }
    status_named(word)
}

/// The first byte, or 0 where there is none.
fn first_byte(text: &[u8]) -> u8
    ensures { result ≡ slice_index text.now 0 }
{
    text.first().copied().unwrap_or(0)
}
