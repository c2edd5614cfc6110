//! Explanations as text and as graphs.
//!
//! Called by `tell_decision`. It knows not where its items come from.
#![tactic(auto)]

mod boxes;
mod graph;
mod text;

pub use boxes::put_table;
pub use graph::put_graph;
pub use text::put_items;
