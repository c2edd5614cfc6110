//! Whether some serial order explains a log, by a search over the log's formula: the command
//! `solve`, over bytes and a sink.
//!
//! Called by `cobra_poly`. It knows no file, no solver's answer and no word of the command line.
#![tactic(auto)]

mod command;
mod solution;

pub use command::solve;
