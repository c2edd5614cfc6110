//! Whether an order that is proposed for the nodes of a numbered log explains it.
//!
//! Called by `judging`. It knows no text and no session, and not where the order comes from. The time
//! is linear in the number of nodes and operations, with no search and no tree.
#![tactic(auto)]

mod order;
mod replay;
mod step;
mod table;

pub use order::is_serial;
