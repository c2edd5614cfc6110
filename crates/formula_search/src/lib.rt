//! The clauses of a formula, given to a checker, and the search for an assignment that satisfies
//! them.
//!
//! Called by `solving` and, for the checker alone, by `refute_command`. It knows no log and
//! no text.
#![tactic(auto)]

mod given;
mod nodes;
mod searching;

pub use clause_search::Found;
pub use given::checker_of;
pub use searching::search_formula;
