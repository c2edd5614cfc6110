ghost use Rattle.std.specs.Prelude.{ℕ, List, []};

use std::marker::Brand;

/// Which desk it is, in a desk's type. It exists in proofs alone.
///
/// A function that opens a desk is generic in a `J: Naming`. Its caller passes `Brand` and picks
/// the members, in its proof, as the names that `Opened` shows.
pub trait Naming {
    /// The ghost names of the seats' lists of calls, seat 1 first.
    ghost names: { List ℕ };

    /// The ghost name of the desk's opening state.
    ghost desk: { ℕ };
}

impl Naming for Brand {
    ghost names = { [] };

    ghost desk = { 0 };
}
