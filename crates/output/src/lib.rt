//! Where texts go: sinks, which count their failures, and a text that is put into one.
//!
//! Called by `cobra_answers`, `split_command` and `census_command` for whole texts, and by `dimacs` piece by piece; `cobra_poly` makes the sinks. It knows nothing of what a text says, and no file.
#![tactic(auto)]

mod fault;
mod sink;

pub use fault::{SinkFailed, WriteFault};
pub use sink::{Counted, Sink, put_all, write_all};
