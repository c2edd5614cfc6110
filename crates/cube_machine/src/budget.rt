//! The budget of a search: how many cubes it may close.

ghost use Rattle.std.specs.Prelude.{◌≡◌, ℕ, ◌<◌, ◌≤◌, ◌↔◌, IsSome, IfSome};
ghost use Rattle.cube_machine.specs.declared.budget.TheConstants.{MAX_BUDGET};

use std::marker::Model;

/// The greatest budget.
pub const MAX_BUDGET: usize = 1_000_000;

/// How many nodes of the tree may be closed: 1 to 1,000,000. Contracts see the number.
#[derive(Clone, Copy, Debug, PartialEq, Eq)]
pub struct Budget {
    number: usize,
}

impl Model for Budget {
    ghost Value = { ℕ };

    ghost view = { λ b. b.number };

    ghost invariant = { λ b. (0 < b.number) × (b.number ≤ MAX_BUDGET) };

    ghost inverse = { λ n. record { number = n } };
}

impl Budget {
    /// The budget of this number, where it is one of 1 to 1,000,000.
    pub fn new(number: usize) -> Option<Budget>
        ensures some { IsSome result ↔ ((0 < number) × (number ≤ MAX_BUDGET)) }
        ensures value { IfSome result (λ b. b ≡ number) }
    {
        if 0 < number && number <= MAX_BUDGET {
            Some(Budget { number })
        } else {
            None
        }
    }

    /// The number.
    pub fn get(self) -> usize
        ensures value { result ≡ self }
        ensures range { (0 < self) × (self ≤ MAX_BUDGET) }
    {
        self.number
    }
}
