//! Which node of a graph reaches which, as bit rows: a row of words for each node, in which the bit
//! of each node that it reaches is set.
//!
//! Called by `prune_ledger`, `branching` and `order_cnf`. It knows no choice and no log.
//!
//! A node reaches another by a walk of at least one edge, so it reaches itself only where it lies
//! on a cycle. `Rows` are computed by one worker or several, asked in constant time, and
//! kept up while edges are added to the graph.
#![tactic(auto)]

mod bit_rows;
pub mod laws;
mod parts;
mod source;

pub use bit_rows::Rows;
