//! What is being done, and how far it is.

use std::io::Eprint;
use std::time::Clock;

/// What is being done with a long log.
#[derive(Clone, Copy, Debug, PartialEq, Eq)]
pub enum Stage {
    /// The log was read: so many transactions.
    Read { transactions: usize },
    /// Rules are applied for the so-manieth time.
    Round(usize),
    /// Sessions are merged into one order: so many of so many transactions stand.
    Merging { placed: usize, nodes: usize },
    /// A part of so many transactions is searched.
    Searching { transactions: usize },
}

/// Who is told how far it is.
pub trait Progress {
    /// Told often; what is made of it is up to the one who is told.
    fn tell<R: Eprint + Clock>(&mut self, rt: &R, stage: Stage);
}
