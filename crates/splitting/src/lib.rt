//! The log in which each committed transaction that writes is split in two: it has a serial order
//! exactly where the log itself has a snapshot order, or, without locks, a prefix order.
//!
//! Called by `judging` and `split_command`. It knows no text, and nothing of orders. Outcomes are known.
//!
//! The definitions stand in `specs/`. The laws are contracts of functions that do nothing.
#![tactic(auto)]

mod bare;
mod halves;
pub mod laws;
mod log;
mod names;
mod numbers;
mod room;
mod survey;

pub use bare::split_bare;
pub use log::{is_writer, split};
pub use room::NoRoom;
