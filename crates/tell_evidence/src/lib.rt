//! Evidence against a level of isolation below prefix consistency, told in sentences: what a read
//! names and what it sees, each with its lines in the log, so that a reader needs no other theory.
//!
//! Called by `part_reasons`, `tell_points` and `part_graphs`. It knows no judge, and does not ask whether the
//! evidence is right: of a place that is not in the log it tells number 0, line 0 and no key.
//!
//! What the field calls such a fault:
//!
//! | Name | What shows it | Source |
//! |---|---|---|
//! | aborted read (G1a) | a read of what was aborted | Adya 1999 |
//! | intermediate read (G1b) | a read of what its writer wrote over | Adya 1999 |
//! | own write missed, future read (internal) | a read that misses an own write, or finds a later one | Biswas and Enea 2019 |
//! | circular information flow (G1c) | a circle of reads | Adya 1999 |
//! | a read from the future (G1c-process) | a circle of reads and sessions | Adya 1999 |
//! | non-repeatable read (internal) | a transaction reads two versions of a key | Bailis and others 2013 |
//! | read skew (G-single) | a read overlooks a transaction that is read from (a fractured read; at monotonic atomic view, an observed transaction vanishes) | Berenson and others 1995, Bailis and others 2013 and 2014 |
//! | a session misses its own write (G-single-process) | a read overlooks what stands before it in its session | Biswas and Enea 2019 |
//! | cycle with one missed write (G-single) | a read overlooks what it sees by several steps (a causal violation); with sessions G-single-process | Biswas and Enea 2019 |
#![tactic(auto)]

mod edges;
mod faults;
mod names;
mod paths;
mod phrases;
mod places;
mod telling;
pub mod words;

pub use names::evidence_name;
pub use phrases::Log;
pub use places::{begin_at, end_at, key_at, line_of, number_at, wid_at};
pub use telling::evidence_text;
