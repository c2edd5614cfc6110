//! What the anomalies of a log mean: a log has none exactly where it is clean, one that has some
//! has no serial order, and the anomaly that is reported is what its name says.
//!
//! Cited by `anomalies`, `headline`, `cobra_answers` and the crates that tell. It knows no code and
//! no graph.
//!
//! The definitions of anomalies stand in `serializability`. This crate has the laws about them,
//! each the contract of a function that does nothing.
#![tactic(auto)]

pub mod laws;
