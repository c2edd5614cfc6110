//! Why there is no polygraph.

ghost use Rattle.std.specs.Prelude.{◌≡◌};

use std::alloc::{AllocError, AllocFailed};

/// Why there is no polygraph.
#[derive(Clone, Copy, Debug, PartialEq, Eq)]
pub enum PolyFault {
    /// More than 100,000 choices.
    TooManyChoices,
    /// Memory was refused.
    Memory,
}

impl From<AllocError> for PolyFault {
    ghost use Rattle.polygraph.specs.declared.fault.PolyFault.TheVariants.{Memory};

    ghost from_gives = { λ _ e. e ≡ Memory };

    fn from(_refused: AllocError) -> PolyFault {
        PolyFault::Memory
    }
}

impl<T: Drop> From<AllocFailed<T>> for PolyFault {
    ghost use Rattle.polygraph.specs.declared.fault.PolyFault.TheVariants.{Memory};

    ghost from_gives = { λ _ e. e ≡ Memory };

    fn from(_refused: AllocFailed<T>) -> PolyFault {
        PolyFault::Memory
    }
}
