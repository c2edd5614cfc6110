//! The words of the command line, read by `clap`.
//!
//! Called by `cobra_poly`. It knows no log, no file and no status.
#![tactic(auto)]

mod answers;
mod commands;
mod options;
mod reading;
mod request;
mod values;

pub use call_options::Format;
pub use commands::VERSION;
pub use cube_machine::StrategyName;
pub use reading::words_of;
pub use request::{AuditWords, Command, Request, Words};
