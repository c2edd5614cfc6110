//! The command `split`: the log in which each committed transaction that writes is split in two,
//! as text. Whether some serial order explains it tells whether the log itself is snapshot isolated.
//!
//! Called by `cobra_poly`. It knows no word of the command line, and nothing of orders.
//!
//! ```text
//! put_split(rt, alloc, &log, workers, &mut sink)?;
//! ```
#![tactic(auto)]

mod command;
mod fault;

pub use command::put_split;
pub use fault::SplitFault;
