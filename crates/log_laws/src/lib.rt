//! Logs of any length by their nodes: what is asked of one, and what holds of its sessions, lines of
//! nodes, replays and identities.
//!
//! Cited by `long_log_definitions`, the crates of laws of parts, levels and rounds, `numbered_log`,
//! `serial_checks` and all that judges long logs. It knows no text.
//!
//! The definitions stand in `specs/`. The laws are contracts of functions that do nothing.
#![tactic(auto)]

pub mod laws;
