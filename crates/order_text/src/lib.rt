//! The text of orders: one line for each place, written and read.
//!
//! Called by `cobra_answers` and `cobra_cli`. It knows no formula, and not whether an order is
//! serial.
#![tactic(auto)]

mod fault;
pub mod laws;
mod print;
mod read;

pub use fault::OrderFault;
pub use print::{print_order, put_name};
pub use read::{MAX_ORDER_BYTES, read_order};
