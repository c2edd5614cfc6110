//! How many reads and transactions of a log break serializability by themselves: of each anomaly A1
//! to A7 the count, and the keys with the most of them, in one pass over the log.
//!
//! Called by `census_command`. It knows no text of a log.
#![tactic(auto)]

mod counting;
mod faults;
mod key_counts;
mod lost;
mod numbers;
mod states;
mod tables;
mod text;
mod updates;
mod versions;
mod worst;
mod writes;

pub use counting::census;
pub use numbers::{Census, KeyFaults};
pub use text::{census_text, total_of};
