//! Why there is no order, or why an order is refused.

use serializability::NodeIx;
use std::alloc::AllocError;

/// Why an assignment gives no order.
#[derive(Clone, Copy, Debug, PartialEq, Eq)]
pub enum DecodeFault {
    /// It makes a clause false: the first such, counted from 1.
    NotAModel { clause: usize },
    /// It has more or fewer values than the formula has variables.
    WrongLength,
    /// Memory was refused.
    Memory,
}

impl From<AllocError> for DecodeFault {
    ghost use Rattle.std.specs.Prelude.{◌≡◌};
    ghost use Rattle.decode_order.specs.declared.fault.DecodeFault.TheVariants.{Memory};

    ghost from_gives = { λ _ e. e ≡ Memory };

    fn from(_refused: AllocError) -> DecodeFault {
        DecodeFault::Memory
    }
}

/// Why an order of a history's nodes is not serial.
#[derive(Clone, Copy, Debug, PartialEq, Eq)]
pub enum ReplayFault {
    /// It does not list nodes 1 to n once each.
    NotAPermutation,
    /// The first listed node that stands before an earlier one of its session.
    SessionOrder { node: NodeIx },
    /// The first listed node that stands before one that ended before it began.
    MomentOrder { node: NodeIx },
    /// The first read in replay that does not name what the map holds, by its node and its number
    /// among that node's operations, from 1.
    ReadMismatch { node: NodeIx, op: usize },
    /// Memory was refused. It may come in place of any other answer.
    Memory,
}

impl From<AllocError> for ReplayFault {
    ghost use Rattle.std.specs.Prelude.{◌≡◌};
    ghost use Rattle.decode_order.specs.declared.fault.ReplayFault.TheVariants.{Memory};

    ghost from_gives = { λ _ e. e ≡ Memory };

    fn from(_refused: AllocError) -> ReplayFault {
        ReplayFault::Memory
    }
}
