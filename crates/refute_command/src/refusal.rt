//! Why `refute` is refused.

ghost use Rattle.std.specs.Prelude.{◌≡◌};
ghost use Rattle.refute_command.specs.declared.refusal.Refusal.TheVariants.{Command, Proof};
ghost use Rattle.cobra_answers.specs.declared.fault.Fault.TheVariants as fault;

use cobra_answers::Fault;
use order_cnf::CnfFault;
use proof_text::ProofFault;
use session_log::LogFault;
use std::alloc::AllocError;

/// Why `refute` is refused.
#[derive(Clone, Copy, Debug, PartialEq, Eq)]
pub enum Refusal {
    /// As other commands are: for the log or its formula, for the sink, or for want of memory.
    Command(Fault),
    /// The proof does not show that the formula cannot be satisfied.
    Proof(ProofFault),
}

impl From<Fault> for Refusal {
    ghost from_gives = { λ f e. e ≡ Command f };

    fn from(refused: Fault) -> Refusal {
        Refusal::Command(refused)
    }
}

impl From<LogFault> for Refusal {
    ghost from_gives = { λ f e. e ≡ Command (fault.Log f) };

    fn from(refused: LogFault) -> Refusal {
        Refusal::Command(Fault::Log(refused))
    }
}

impl From<CnfFault> for Refusal {
    ghost from_gives = { λ f e. e ≡ Command (fault.Formula f) };

    fn from(refused: CnfFault) -> Refusal {
        Refusal::Command(Fault::Formula(refused))
    }
}

impl From<ProofFault> for Refusal {
    ghost from_gives = { λ f e. e ≡ Proof f };

    fn from(refused: ProofFault) -> Refusal {
        Refusal::Proof(refused)
    }
}

impl From<AllocError> for Refusal {
    ghost from_gives = { λ _ e. e ≡ Command fault.Memory };

    fn from(_refused: AllocError) -> Refusal {
        Refusal::Command(Fault::Memory)
    }
}
