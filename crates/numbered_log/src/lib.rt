//! A log by numbers, made once from the sessions that were read: keys, versions and transactions
//! are numbers, in flat arrays.
//!
//! Called by `judging`, `order_proposals` and `serial_checks`: a count, a search for an order and a check
//! of one stand on it. It knows no text, no order and no limit but that a number has 32 bits.
#![tactic(auto)]

mod fault;
mod keys;
pub mod laws;
mod log;
mod making;
mod mark;
mod numbers;
mod op;
mod versions;

pub use fault::NumberingFault;
pub use log::{Moments, Node, NumberedLog};
pub use op::{NumberedOp, PackedOp};
