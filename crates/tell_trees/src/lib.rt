//! The refutation tree of a search, told depth first: the forced steps that its leaves need, and
//! then for each node what it decides, and for each leaf its cycle.
//!
//! Called by `tell_decision`. It knows no format and no piece.
#![tactic(auto)]

mod orders;
mod telling;
mod visits;

pub use telling::tell_tree;

/// How many leaves of a tree are told at the most.
pub const MAX_LEAVES: usize = 1_000;
