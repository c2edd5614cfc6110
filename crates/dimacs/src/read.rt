//! A solver's answer, read line by line.

ghost use Rattle.std.specs.Prelude.{◌≡◌, None, IfOk, IfErr, OnOk};
ghost use Rattle.dimacs.specs.Answer.{answer_fault, IsAnswer, IsFault};

use crate::answer::{AnswerFault, SolverAnswer};
use crate::reading::Reading;
use crate::words::Lines;
use std::alloc::Global;

/// The most bytes that an answer may have.
pub const MAX_ANSWER_BYTES: usize = 64 * 1024 * 1024;

/// Reads a solver's answer for a formula of so many variables.
pub fn read_answer(alloc: Global, text: &[u8], vars: usize) -> Result<SolverAnswer, AnswerFault>
    ensures answer { IfOk result (IsAnswer vars text.now) }
    ensures accepted { OnOk result (answer_fault vars text.now ≡ None) }
    ensures fault { IfErr result (λ f. IsFault f (answer_fault vars text.now)) }
{
    if text.len() > MAX_ANSWER_BYTES {
        return Err(AnswerFault::TooLong);
    }
    let mut reading = Reading::new(alloc, vars)?;
    let mut line = 0;
    for body in Lines(text) {
        line += 1;
        reading.take_line(line, body)?;
    }
    reading.into_answer()
}
