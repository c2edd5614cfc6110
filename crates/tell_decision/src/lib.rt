//! Why a decision stands, as text or as a graph.
//!
//! Called by `cobra_cli`, by `judging`, which makes parts smaller by the nodes on which a decision
//! rests, and by `part_reasons` of a part's log. It knows no part and no status.
#![tactic(auto)]

mod cycles;
mod explained;
mod names;
mod nodes;
mod short;
mod telling;
mod written;

pub use call_options::Format;
pub use nodes::nodes_of;
pub use telling::{explain, explain_placed};
