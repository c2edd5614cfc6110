//! Graphs of known edges between the nodes of a history: the arcs of a clean history, walks and
//! cycles.
//!
//! Called by every crate with a graph. It knows no choice, no chain and no thread.
#![tactic(auto)]

mod arcs;
mod bit_table;
pub mod bits;
mod edge_list;
mod graph;
mod groups;
pub mod laws;
mod moments;
mod reached;
mod walks;

pub use bit_table::BitTable;
pub use graph::Known;
