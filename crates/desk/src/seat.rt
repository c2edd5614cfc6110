// What a thread holds of a desk.
ghost use Rattle.std.specs.Prelude.{◌≡◌, ◌-◌, false, true, Some, slice_get};
ghost use Rattle.desk.specs.Views.{SeatView};

use crate::account::Receipt;
use crate::machine::Machine;
use crate::naming::Naming;
use crate::seat_no::SeatNo;
use std::marker::{Model, PhantomData};

/// A seat of a desk. Contracts see its number and the list of its calls with their replies.
#[derive(Drop)]
pub struct Seat<M: Machine, J: Naming> {
    pub(crate) number: SeatNo,
    pub(crate) receipt: Receipt<M::Event, M::Reply>,
    pub(crate) desk: PhantomData<(M, J)>,
}

impl<M: Machine, J: Naming> Model for Seat<M, J> {
    ghost Value = { SeatView M.Event M.Reply };

    ghost view = { λ s. record { number = s.number; calls = s.receipt.calls } };

    ghost invariant = { λ s. (slice_get J.names (s.number - 1) ≡ Some s.receipt.name)
        × (s.receipt.left ≡ false) };
}

/// A seat whose last call was made. Contracts see its number and the list of its calls.
#[derive(Drop)]
pub struct Left<M: Machine, J: Naming> {
    pub(crate) number: SeatNo,
    pub(crate) receipt: Receipt<M::Event, M::Reply>,
    pub(crate) desk: PhantomData<(M, J)>,
}

impl<M: Machine, J: Naming> Model for Left<M, J> {
    ghost Value = { SeatView M.Event M.Reply };

    ghost view = { λ l. record { number = l.number; calls = l.receipt.calls } };

    ghost invariant = { λ l. (slice_get J.names (l.number - 1) ≡ Some l.receipt.name)
        × (l.receipt.left ≡ true) };
}

impl<M: Machine, J: Naming> Seat<M, J> {
    /// The seat's number.
    pub fn number(&self) -> SeatNo
        ensures { result ≡ self.now.number }
    {
        self.number
    }
}

impl<M: Machine, J: Naming> Left<M, J> {
    /// The seat's number.
    pub fn number(&self) -> SeatNo
        ensures { result ≡ self.now.number }
    {
        self.number
    }
}
