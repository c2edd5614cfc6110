//! The chains of a log's keys, the polygraph in which each chain stands for its writers, and the
//! orders that fit it.
//!
//! Cited by `write_chains`, `coalesce` and the crates that tell. It knows no code and no table.
//!
//! The definitions stand in `specs/`. This crate has the laws that join them, each the contract of
//! a function that does nothing.
#![tactic(auto)]

pub mod laws;
