//! What pruning a polygraph keeps: refuted sides, the forced set, dead polygraphs, and ledgers of
//! kept sides.
//!
//! Cited by `polygraph`, `prune_ledger` and what stands above them. It knows no log, and no worker.
//!
//! The definitions stand in `specs/`. This crate has the type that they speak of, and the laws that
//! join them, each the contract of a function that does nothing.
#![tactic(auto)]

pub mod laws;
mod side;

pub use side::Side;
