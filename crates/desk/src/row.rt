// The two halves of each seat's list of calls.
ghost use Rattle.std.specs.Prelude.{◌≡◌, ℕ, List, [], ◌∷◌, ◌++◌};

use crate::account::{Account, Receipt, add, compare};
use crate::seat_no::SeatNo;

/// A seat's half under the lock, and whether the seat has left.
#[derive(Drop)]
pub struct SeatRow<E, R> {
    pub left: bool,
    pub account: Account<E, R>,
    pub ghost agrees: { account.left ≡ left },
}

/// A seat's own half, before its desk has a name.
#[derive(Drop)]
pub struct UnnamedSeat<E, R> {
    pub number: SeatNo,
    pub receipt: Receipt<E, R>,
}

impl<E, R> SeatRow<E, R> {
    /// Adds a call to both halves, which shows that they had the same list.
    pub(crate) fn add(&mut self, receipt: &mut Receipt<E, R>, event: &E, reply: &R, last: bool)
        requires { self.old.account.name ≡ receipt.old.name }
        ensures same { (self.old.left ≡ receipt.old.left)
            × (self.old.account.calls ≡ receipt.old.calls) }
        ensures row { (self.new.left ≡ last) × (self.new.account.name ≡ self.old.account.name)
            × (self.new.account.calls ≡ self.old.account.calls ++ (event.now, reply.now) ∷ []) }
        ensures receipt { (receipt.new.name ≡ receipt.old.name) × (receipt.new.left ≡ last)
            × (receipt.new.calls ≡ receipt.old.calls ++ (event.now, reply.now) ∷ []) }
    {
        let SeatRow { left, account } = self;
        *left = last;
        add(account, receipt, event, reply, last);
    }

    /// Shows that both halves have the same list.
    pub(crate) fn compare(&mut self, receipt: &mut Receipt<E, R>)
        requires { self.old.account.name ≡ receipt.old.name }
        ensures same { (self.old.left ≡ receipt.old.left)
            × (self.old.account.calls ≡ receipt.old.calls) }
        ensures row { self.new ≡ self.old }
        ensures receipt { receipt.new ≡ receipt.old }
    {
        let SeatRow { left: _, account } = self;
        compare(account, receipt);
    }
}
