//! The commands `check`, `explain`, `encode`, `decode`, `verify` and `stats`, over bytes and sinks;
//! the others have crates of their own.
//!
//! Called by `cobra_poly`. It opens no file, reads no word of the command line, and knows no piece.
#![tactic(auto)]

mod checking;
mod decoding;
mod encoding;
pub mod laws;
mod options;
mod statistics;
mod telling;
mod verifying;

pub use checking::check;
pub use cobra_answers::{
    CountedRead, Fault, ReadFault, Source, SourceFailed, Status, Stop, read_all,
};
pub use cobra_formulas::{Basis, read_log};
pub use deciding::StrategyName;
pub use decoding::decode;
pub use encoding::encode;
pub use options::Options;
pub use statistics::stats;
pub use tell_decision::Format;
pub use telling::explain;
pub use verifying::verify;
