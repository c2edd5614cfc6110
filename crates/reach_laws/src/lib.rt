//! Edges and walks: what a walk in a set of edges is, what reaches what, and when edges have a
//! cycle.
//!
//! Cited wherever edges are spoken of. It knows no log, no choice and no table.
//!
//! The definitions stand in `specs/`. This crate has the type that they speak of, and the laws that
//! join them, each the contract of a function that does nothing.
#![tactic(auto)]

mod edge;
pub mod laws;

pub use edge::Edge;
