//! Why there is no formula.

ghost use Rattle.std.specs.Prelude.{◌≡◌};

use polygraph::PolyFault;
use std::alloc::{AllocError, AllocFailed};

/// Why there is no formula.
#[derive(Clone, Copy, Debug, PartialEq, Eq)]
pub enum CnfFault {
    /// More than 100 committed transactions, for a plain formula.
    TooManyForPlain,
    /// More than 100,000 choices.
    TooManyChoices,
    /// More than 20,000,000 clauses.
    FormulaTooLarge,
    /// Memory was refused.
    Memory,
}

impl From<AllocError> for CnfFault {
    ghost use Rattle.order_cnf.specs.declared.fault.CnfFault.TheVariants.{Memory};

    ghost from_gives = { λ _ e. e ≡ Memory };

    fn from(_refused: AllocError) -> CnfFault {
        CnfFault::Memory
    }
}

impl<T: Drop> From<AllocFailed<T>> for CnfFault {
    ghost use Rattle.order_cnf.specs.declared.fault.CnfFault.TheVariants.{Memory};

    ghost from_gives = { λ _ e. e ≡ Memory };

    fn from(_refused: AllocFailed<T>) -> CnfFault {
        CnfFault::Memory
    }
}

impl From<PolyFault> for CnfFault {
    ghost use Rattle.order_cnf.specs.Limits.{fault_of};

    ghost from_gives = { λ f e. e ≡ fault_of f };

    fn from(refused: PolyFault) -> CnfFault {
        match refused {
            PolyFault::TooManyChoices => CnfFault::TooManyChoices,
            PolyFault::Memory => CnfFault::Memory,
        }
    }
}
