//! The headline: the formula of a log can be satisfied exactly where a serial order explains the
//! log.
//!
//! Cited by `cobra_formulas`, `reduction` and the crates that tell. It knows no code and no
//! pruning.
#![tactic(auto)]

pub mod laws;
