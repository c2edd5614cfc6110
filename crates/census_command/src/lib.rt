//! The census of a log, `audit --census`: how many of its reads and transactions break serializability
//! by themselves, as text.
//!
//! Called by `cobra_calls`. It knows no word of the command line, and judges nothing.
//!
//! ```text
//! let status = put_census(rt, alloc, &log, workers, &mut sink)?;
//! ```
#![tactic(auto)]

mod command;
mod fault;

pub use command::put_census;
pub use fault::CensusFault;
