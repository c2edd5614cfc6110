//! Why one node stands before another in each serial order, and reads that no such order has, found
//! in the log's own operations.
//!
//! Called by the crates that tell. It knows no line, no text and no ledger.
#![tactic(auto)]

mod crossed;
mod initial;
mod operations;
mod overwritten;
mod read;
mod reason;
mod runs;

pub use crossed::{MAX_LOOKS, crossed_reads};
pub use reason::{Reason, reason_of};
pub use runs::without_runs;
