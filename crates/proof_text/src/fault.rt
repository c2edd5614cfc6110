//! Why a proof is refused.

ghost use Rattle.std.specs.Prelude.{◌≡◌};
ghost use Rattle.proof_text.specs.Refusals.{proof_status};

use std::alloc::AllocError;
use std::fmt;

/// Why a step of a proof is refused. Lines count from 1; of a proof in binary form a line is a
/// step.
#[derive(Clone, Copy, Debug, PartialEq, Eq)]
pub enum StepFault {
    /// The line has none of the forms, a literal is out of range, or the step names a clause that
    /// is not there.
    BadLine { line: usize },
    /// The step's clause does not follow by unit propagation.
    NotImplied { line: usize },
    /// Memory was refused.
    Memory,
}

impl From<AllocError> for StepFault {
    ghost use Rattle.proof_text.specs.declared.fault.StepFault.TheVariants.{Memory};

    ghost from_gives = { λ _ e. e ≡ Memory };

    fn from(_refused: AllocError) -> StepFault {
        StepFault::Memory
    }
}

/// Why a proof shows nothing. It is displayed as the line that says so, without its line feed.
#[derive(Clone, Copy, Debug, PartialEq, Eq)]
pub enum ProofFault {
    /// A step is refused since its line has none of the forms, a literal is out of range, or it
    /// names a clause that is not there.
    BadLine { line: usize },
    /// A step is refused since its clause does not follow by unit propagation.
    NotImplied { line: usize },
    /// The proof ends, and no empty clause was derived.
    NoEmptyClause,
    /// The proof has more than 1 GiB.
    TooLong,
    /// Memory was refused.
    Memory,
}

/// The exit statuses of a refused proof, and for want of memory.
const REFUSED: u8 = 2;

const OUT_OF_MEMORY: u8 = 4;

impl ProofFault {
    /// The exit status of the program.
    pub fn code(self) -> u8
        ensures code { result ≡ proof_status self }
    {
        match self {
            ProofFault::Memory => OUT_OF_MEMORY,
            _ => REFUSED,
        }
    }
}

impl fmt::Display for ProofFault {
    ghost use Rattle.std.specs.Prelude.{Some};
    ghost use Rattle.proof_text.specs.Refusals.{proof_refusal};

    ghost output = { λ fault. Some (proof_refusal fault) };

    fn fmt<W: fmt::Write>(&self, f: &mut fmt::Formatter<W>) -> fmt::Result {
        match self {
            ProofFault::BadLine { line } => write!(f, "refused: R1 line {line}"),
            ProofFault::NotImplied { line } => write!(f, "refused: R2 line {line}"),
            ProofFault::NoEmptyClause => write!(f, "refused: R3"),
            ProofFault::TooLong => write!(f, "refused: R4"),
            ProofFault::Memory => write!(f, "out of memory"),
        }
    }
}

impl From<StepFault> for ProofFault {
    ghost use Rattle.proof_text.specs.Faults.{fault_of_step};

    ghost from_gives = { λ f e. e ≡ fault_of_step f };

    fn from(fault: StepFault) -> ProofFault {
        match fault {
            StepFault::BadLine { line } => ProofFault::BadLine { line },
            StepFault::NotImplied { line } => ProofFault::NotImplied { line },
            StepFault::Memory => ProofFault::Memory,
        }
    }
}

impl From<AllocError> for ProofFault {
    ghost use Rattle.proof_text.specs.declared.fault.ProofFault.TheVariants.{Memory};

    ghost from_gives = { λ _ e. e ≡ Memory };

    fn from(_refused: AllocError) -> ProofFault {
        ProofFault::Memory
    }
}
