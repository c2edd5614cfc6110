//! What a solver answers, and why a text is no answer.

ghost use Rattle.std.specs.Prelude.{◌≡◌};
ghost use Rattle.dimacs.specs.declared.answer.AnswerFault.TheVariants.{Memory};

use std::alloc::AllocError;

/// What a solver's answer says of a formula.
#[derive(Debug, PartialEq, Eq, Drop)]
pub enum SolverAnswer {
    /// The values of variables 1, 2 and on.
    Model(Vec<bool>),
    /// No assignment satisfies the formula. The solver shows no proof.
    Unsatisfiable,
    /// The solver gave up.
    Unknown,
}

/// Why a text is no answer. Lines count from 1.
#[derive(Clone, Copy, Debug, PartialEq, Eq)]
pub enum AnswerFault {
    /// A line of no form of the format, or a word that is no literal.
    BadLine { line: usize },
    /// A second status line, also an equal one.
    TwoStatus { line: usize },
    /// No status line.
    NoStatus,
    /// A literal of a variable that the formula has not.
    OutOfRange { line: usize },
    /// A literal whose opposite stood before.
    BothSigns { line: usize },
    /// The values of a satisfying assignment do not end in 0.
    Unclosed,
    /// A growth was refused.
    Memory,
    /// More bytes than an answer may have.
    TooLong,
}

impl From<AllocError> for AnswerFault {
    ghost from_gives = { λ _ e. e ≡ Memory };

    fn from(_e: AllocError) -> AnswerFault {
        AnswerFault::Memory
    }
}
