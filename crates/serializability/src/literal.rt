//! Literals of a formula.

/// The greatest number of clauses of a formula.
pub const MAX_CLAUSES: usize = 20_000_000;

/// A variable, counted from 1, or its negation.
#[derive(Clone, Copy, Debug, PartialEq, Eq)]
pub struct Literal {
    pub variable: u32,
    pub positive: bool,
}
