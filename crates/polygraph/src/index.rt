//! The number of a choice of a polygraph, and how many choices there can be.

ghost use Rattle.std.specs.Prelude.{◌≡◌, ℕ, ◌<◌, ◌↔◌, IsSome, IfSome};
ghost use Rattle.polygraph.specs.declared.index.TheConstants.{MAX_CHOICES};

use std::marker::Model;

/// The greatest number of choices of a polygraph.
pub const MAX_CHOICES: usize = 100_000;

/// The number of a choice, which counts from 0.
#[derive(Clone, Copy, Debug, PartialEq, Eq)]
pub struct ChoiceIx {
    number: u32,
}

impl Model for ChoiceIx {
    ghost Value = { ℕ };

    ghost view = { λ c. c.number };

    ghost invariant = { λ c. c.number < MAX_CHOICES };

    ghost inverse = { λ n. record { number = n } };
}

impl ChoiceIx {
    /// The choice with this number, where it is one of 0 to 99,999.
    pub fn new(number: usize) -> Option<ChoiceIx>
        ensures some { IsSome result ↔ (number < MAX_CHOICES) }
        ensures value { IfSome result (λ c. c ≡ number) }
    {
        if number < MAX_CHOICES {
            Some(ChoiceIx {
                number: number as u32,
            })
        } else {
            None
        }
    }

    /// The number.
    pub fn get(self) -> usize
        ensures value { result ≡ self }
        ensures range { result < MAX_CHOICES }
    {
        self.number as usize
    }
}
