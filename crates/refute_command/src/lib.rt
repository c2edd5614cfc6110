//! A solver's proof that the formula of a log cannot be satisfied, checked: the command `refute`,
//! over bytes and a sink.
//!
//! Called by `cobra_poly`. It knows no file, no search and no word of the command line.
#![tactic(auto)]

mod command;
mod refusal;

pub use command::refute;
pub use refusal::Refusal;
