// Two halves of one list of calls. They take no memory, and their functions do nothing at run time.
ghost use Rattle.std.specs.Prelude.{◌≡◌, ℕ, Bool, false, List, [], ◌∷◌, ◌++◌};
ghost use Rattle.desk.specs.Account.{kept_owns, held_owns};

use std::marker::{Model, PhantomData};

/// The half of a list of calls that lies under the lock.
pub struct Account<E, R> {
    marker: PhantomData<(E, R)>,
    pub ghost name: { ℕ },
    pub ghost left: { Bool },
    pub ghost calls: { List (E × R) },
}

impl<E, R> Model for Account<E, R> {
    ghost also_owns = { λ a. kept_owns E.row R.row a.name (a.left, a.calls) };
}

/// The half of a list of calls that its seat holds.
pub struct Receipt<E, R> {
    marker: PhantomData<(E, R)>,
    pub ghost name: { ℕ },
    pub ghost left: { Bool },
    pub ghost calls: { List (E × R) },
}

impl<E, R> Model for Receipt<E, R> {
    ghost also_owns = { λ a. held_owns E.row R.row a.name (a.left, a.calls) };
}

/// A new list, with no call.
pub fn pair<E, R>() -> (Account<E, R>, Receipt<E, R>)
    ensures name { result.0.name ≡ result.1.name }
    ensures account { (result.0.left ≡ false) × (result.0.calls ≡ []) }
    ensures receipt { (result.1.left ≡ false) × (result.1.calls ≡ []) }
{
    (
        Account {
            marker: PhantomData,
        },
        Receipt {
            marker: PhantomData,
        },
    )
}

/// Shows that both halves have the same list, and adds a call to it, the last one if `last` says
/// so.
pub fn add<E, R>(
    account: &mut Account<E, R>,
    receipt: &mut Receipt<E, R>,
    event: &E,
    reply: &R,
    last: bool,
)
    requires { account.old.name ≡ receipt.old.name }
    ensures same { (account.old.left ≡ receipt.old.left) × (account.old.calls ≡ receipt.old.calls) }
    ensures account { (account.new.name ≡ account.old.name) × (account.new.left ≡ last)
        × (account.new.calls ≡ account.old.calls ++ (event.now, reply.now) ∷ []) }
    ensures receipt { (receipt.new.name ≡ receipt.old.name) × (receipt.new.left ≡ last)
        × (receipt.new.calls ≡ receipt.old.calls ++ (event.now, reply.now) ∷ []) }
{}

/// Shows that both halves have the same list, and changes neither.
pub fn compare<E, R>(account: &mut Account<E, R>, receipt: &mut Receipt<E, R>)
    requires { account.old.name ≡ receipt.old.name }
    ensures same { (account.old.left ≡ receipt.old.left) × (account.old.calls ≡ receipt.old.calls) }
    ensures account { account.new ≡ account.old }
    ensures receipt { receipt.new ≡ receipt.old }
{}

impl<E, R> Drop for Account<E, R> {
    fn drop(self) {
        let Self { marker: _ } = self;
    }
}

impl<E, R> Drop for Receipt<E, R> {
    fn drop(self) {
        let Self { marker: _ } = self;
    }
}

// They have no bytes, and what they own names no thread.
unsafe impl<E, R> Send for Account<E, R> {}

unsafe impl<E, R> Send for Receipt<E, R> {}

unsafe impl<E, R> Sync for Receipt<E, R> {}
