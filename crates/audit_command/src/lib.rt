//! The command `audit`: what is said of a log of any length, over the bytes of the log.
//!
//! Called by `cobra_poly`. It opens no file, reads no word of the command line and writes nothing:
//! what is to be written is its answer.
//!
//! # What is promised
//!
//! The verdict is that on the whole log, at the level of isolation that is asked for. Each part that
//! is told is one of the log and has no order; its code is what was found of it, and the names and
//! the lines of its transactions are the log's. The text is exactly that of what is told, but for
//! the words of a reason and of what may help. The part as a log, and the order, are those of the verdict. The lines of the
//! part's map are tested.
#![tactic(auto)]

mod command;
mod distinct;
mod known;
mod levels;
mod lower;
mod options;
mod outcome;
mod places;
mod printed;
mod refusals;
mod telling;
mod totals;
mod undecided;
mod weaker;

pub use command::audit;
pub use options::AuditOptions;
pub use outcome::{Audited, Refusal};
