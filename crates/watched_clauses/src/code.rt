//! Literals as places in tables.

use serializability::Literal;

/// A literal as a number: twice its variable, and one more for the negation.
#[derive(Clone, Copy, Debug, PartialEq, Eq)]
pub struct Code(u32);

impl Code {
    /// The code of a literal.
    pub fn of(literal: Literal) -> Code {
        let sign = if literal.positive { 0 } else { 1 };
        Code(literal.variable.wrapping_mul(2).wrapping_add(sign))
    }

    /// The literal of a code.
    pub fn literal(self) -> Literal {
        Literal {
            variable: self.0 / 2,
            positive: self.0 % 2 == 0,
        }
    }

    /// The code of the opposite literal.
    pub fn negated(self) -> Code {
        Code(self.0 ^ 1)
    }

    /// Where it stands in a table of literals.
    pub fn place(self) -> usize {
        self.0 as usize
    }

    /// Where its variable stands in a table of variables.
    pub fn variable(self) -> usize {
        (self.0 / 2) as usize
    }

    /// A number that tells it from most others, for sums.
    pub fn mixed(self) -> u64 {
        let spread = u64::from(self.0)
            .wrapping_add(1)
            .wrapping_mul(0x9e37_79b9_7f4a_7c15);
        (spread ^ (spread >> 29)).wrapping_mul(0xbf58_476d_1ce4_e5b9)
    }
}

/// How long a table of all literals of so many variables is.
pub fn places(variables: u32) -> usize {
    (variables as usize).saturating_add(1).saturating_mul(2)
}
