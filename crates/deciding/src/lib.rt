//! What is decided of a history: a serial order, or why there is none, or that the budget was
//! spent.
//!
//! Called by `cobra_cli` and `judging`, and by `part_reasons` of a part that is told;
//! `tell_decision` reads its decisions. It knows no text and no part.
#![tactic(auto)]

mod decided;
mod decision;
mod means;

pub use cube_machine::StrategyName;
pub use decided::decide;
pub use decision::Decision;
pub use means::Means;
