//! The text of a snapshot order or a prefix order: a line for each point, from a serial order of the
//! log in which writers are split.
//!
//! Called by `audit_command`. It knows no lock: which transactions are split, and where they stand in
//! the log, says the log itself.
#![tactic(auto)]

mod halves;
mod text;

pub use text::points_text;
