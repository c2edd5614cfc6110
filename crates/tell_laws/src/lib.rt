//! What the told lines rule out, and what an anomaly's text speaks of.
//!
//! Cited by no crate: its contracts are for the reader of `docs/PROMISES.md`. It knows no code.
#![tactic(auto)]

pub mod laws;
