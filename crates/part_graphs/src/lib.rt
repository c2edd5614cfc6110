//! The graph of a part of a log, for Graphviz: a box for each of its transactions, with their
//! operations, and an arrow for each edge that shows why they have no order of a level.
//!
//! Called by `part_reasons` and `audit_report`. It knows no judge, and does not ask whether what it draws is right: of a
//! place that is not in the log it draws number 0, line 0 and no key. The graph of a cycle or a tree of
//! serial orders is that of `tell_decision`.
#![tactic(auto)]

mod arrows;
mod boxes;
mod drawing;
mod hops;
mod points;

pub use drawing::{empty_graph, evidence_graph, refutation_graph, search_graph};
