// The number of a seat, and how many seats a desk has.
ghost use Rattle.std.specs.Prelude.{◌≡◌, ◌<◌, ◌≤◌, ℕ, IfSome, IfNone, ◌⊎◌};
ghost use Rattle.std.specs.Bool.{OnTrue, OnFalse};

use std::marker::Model;

const MOST_SEATS: u8 = 16;

/// Whether it is one of the numbers 1 to 16.
fn is_in_range(number: u8) -> bool
    ensures inside { OnTrue result ((0 < number) × (number ≤ 16)) }
    ensures outside { OnFalse result ((number ≡ 0) ⊎ (16 < number)) }
{
    0 < number && number <= MOST_SEATS
}

/// The number of a seat, 1 to 16. Contracts see the number.
#[derive(Clone, Copy, Debug, PartialEq, Eq)]
pub struct SeatNo {
    number: u8,
}

impl Model for SeatNo {
    ghost Value = { ℕ };

    ghost view = { λ s. s.number };

    ghost invariant = { λ s. (0 < s.number) × (s.number ≤ 16) };

    ghost inverse = { λ n. record { number = n } };
}

impl SeatNo {
    /// The seat of this number; `None` for 0 and above 16.
    pub fn new(number: u8) -> Option<Self>
        ensures some { IfSome result (λ s. s ≡ number) }
        ensures none { IfNone result ((number ≡ 0) ⊎ (16 < number)) }
    {
        if is_in_range(number) {
            Some(SeatNo { number })
        } else {
            None
        }
    }

    pub(crate) fn of(number: u8) -> Self
        requires { (0 < number) × (number ≤ 16) }
        ensures { result ≡ number }
    {
        SeatNo { number }
    }

    /// The number.
    pub fn get(self) -> u8
        ensures value { result ≡ self }
        ensures range { (0 < self) × (self ≤ 16) }
    {
        self.number
    }
}

/// How many seats a desk has, 1 to 16: one for each worker. Contracts see the number.
#[derive(Clone, Copy, Debug, PartialEq, Eq)]
pub struct Workers {
    count: u8,
}

impl Model for Workers {
    ghost Value = { ℕ };

    ghost view = { λ w. w.count };

    ghost invariant = { λ w. (0 < w.count) × (w.count ≤ 16) };

    ghost inverse = { λ n. record { count = n } };
}

impl Workers {
    /// As many workers; `None` for 0 and above 16.
    pub fn new(count: u8) -> Option<Self>
        ensures some { IfSome result (λ w. w ≡ count) }
        ensures none { IfNone result ((count ≡ 0) ⊎ (16 < count)) }
    {
        if is_in_range(count) {
            Some(Workers { count })
        } else {
            None
        }
    }

    /// The number of workers.
    pub fn get(self) -> u8
        ensures value { result ≡ self }
        ensures range { (0 < self) × (self ≤ 16) }
    {
        self.count
    }
}
