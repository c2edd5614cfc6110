//! Why a command is refused, and the line that says so.

ghost use Rattle.std.specs.Prelude.{◌≡◌};
ghost use Rattle.cobra_answers.specs.declared.fault.Fault.TheVariants as fault;

use dimacs::AnswerFault;
use order_cnf::CnfFault;
use order_text::OrderFault;
use output::WriteFault;
use polygraph::PolyFault;
use session_log::LogFault;
use std::alloc::AllocError;
use std::fmt;
use thiserror::Error;

/// Why a command is refused.
#[derive(Clone, Copy, Debug, PartialEq, Eq, Error)]
pub enum Fault {
    /// The log is not well-formed, or too large.
    #[error("the log is refused")]
    Log(LogFault),
    /// The log has no formula within the limits.
    #[error("the log has no formula within the limits")]
    Formula(CnfFault),
    /// The solver's answer is no answer for the formula.
    #[error("the solver's answer is refused")]
    Answer(AnswerFault),
    /// The answer's assignment makes this clause false, counted from 1, the first that it does.
    #[error("the assignment makes clause {clause} false")]
    NotAModel {
        clause: usize,
    },
    /// The order file is no list of committed transactions.
    #[error("the order is refused")]
    Order(OrderFault),
    /// The order does not list each committed transaction once.
    #[error("the order does not list each committed transaction once")]
    NotAPermutation,
    /// The first listed transaction that stands before an earlier one of its session.
    #[error("transaction {session}.{place} stands before an earlier one of its session")]
    SessionOrder {
        session: u16,
        place: usize,
    },
    /// The first listed transaction that stands before one that ended before it began.
    #[error("transaction {session}.{place} stands before one that ended before it began")]
    MomentOrder {
        session: u16,
        place: usize,
    },
    /// The first read in replay that does not name what its key holds.
    #[error("operation {op} of transaction {session}.{place} reads another version")]
    ReadMismatch {
        session: u16,
        place: usize,
        op: usize,
    },
    /// The output took no more than so many bytes of the text, from its front.
    #[error("the output failed after {written} bytes")]
    Device {
        written: u64,
    },
    /// Memory was refused.
    #[error("out of memory")]
    Memory,
}

impl From<AllocError> for Fault {
    ghost from_gives = { λ _ e. e ≡ fault.Memory };

    fn from(_refused: AllocError) -> Fault {
        Fault::Memory
    }
}

impl From<LogFault> for Fault {
    ghost from_gives = { λ f e. e ≡ fault.Log f };

    fn from(refused: LogFault) -> Fault {
        Fault::Log(refused)
    }
}

impl From<CnfFault> for Fault {
    ghost from_gives = { λ f e. e ≡ fault.Formula f };

    fn from(refused: CnfFault) -> Fault {
        Fault::Formula(refused)
    }
}

impl From<PolyFault> for Fault {
    ghost use Rattle.cobra_answers.specs.Refusals.{poly_refusal};

    ghost from_gives = { λ f e. e ≡ poly_refusal f };

    fn from(refused: PolyFault) -> Fault {
        match refused {
            PolyFault::TooManyChoices => Fault::Formula(CnfFault::TooManyChoices),
            PolyFault::Memory => Fault::Memory,
        }
    }
}

impl From<AnswerFault> for Fault {
    ghost from_gives = { λ f e. e ≡ fault.Answer f };

    fn from(refused: AnswerFault) -> Fault {
        Fault::Answer(refused)
    }
}

impl From<OrderFault> for Fault {
    ghost from_gives = { λ f e. e ≡ fault.Order f };

    fn from(refused: OrderFault) -> Fault {
        Fault::Order(refused)
    }
}

impl From<WriteFault> for Fault {
    ghost from_gives = { λ f e. e ≡ fault.Device f.written };

    fn from(failed: WriteFault) -> Fault {
        Fault::Device {
            written: failed.written,
        }
    }
}
