//! Whether some serial order explains a history, by a search over its formula that learns.
//!
//! Called by `solve_command` and `judging`. It knows no text and no part.
#![tactic(auto)]

mod history;
mod solution;

pub use history::{solve_history, solve_nodes};
pub use solution::Solution;
