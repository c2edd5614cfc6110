//! Why an order's text is refused.

ghost use Rattle.std.specs.Prelude.{◌≡◌};
ghost use Rattle.order_text.specs.declared.fault.OrderFault.TheVariants.{Memory};

use std::alloc::{AllocError, AllocFailed};

/// Why a text is no order of a history. Lines count from 1.
#[derive(Clone, Copy, Debug, PartialEq, Eq)]
pub enum OrderFault {
    /// The line is not two numbers without leading zeros, with one space between them, ended by a
    /// line feed.
    BadLine { line: usize },
    /// No committed transaction stands at this place of this session.
    NoSuchTransaction { line: usize },
    /// The text is longer than [`MAX_ORDER_BYTES`](crate::MAX_ORDER_BYTES).
    TooLong,
    /// Memory ran out.
    Memory,
}

impl From<AllocError> for OrderFault {
    ghost from_gives = { λ _ e. e ≡ Memory };

    fn from(_e: AllocError) -> OrderFault {
        OrderFault::Memory
    }
}

impl<T: Drop> From<AllocFailed<T>> for OrderFault {
    ghost from_gives = { λ _ e. e ≡ Memory };

    fn from(_e: AllocFailed<T>) -> OrderFault {
        OrderFault::Memory
    }
}
