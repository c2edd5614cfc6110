//! Logs of any length: when the text of client sessions is one, which fault it is refused with, and
//! what holds of its sessions.
//!
//! Cited by `long_reading`, `judging` and the commands that take such logs; `audit_command` and
//! `cobra_calls` take its limit. It knows no thread and no command.
//!
//! Text and grammar are those of a log. What is asked of its sessions is asked here too, but for
//! the limits on sessions, operations, transactions and keys. The laws are contracts of functions
//! that do nothing.
#![tactic(auto)]

pub mod laws;
mod limits;

pub use limits::MAX_LONG_LOG_BYTES;
