//! Serializability of a log, by its committed transactions: what a serial order is, which reads are
//! anomalies, the polygraph of a log and the orders that fit it, and the formula whose satisfying
//! assignments are those orders.
//!
//! Cited by the contracts of nearly all crates. It knows no text, no session and no table of the
//! code.
//!
//! The definitions stand in `specs/`. This crate has the few types that they speak of, and the laws
//! that join them, each the contract of a function that does nothing.
#![tactic(auto)]

mod anomaly;
mod event;
pub mod laws;
mod literal;
mod node;
pub mod numbers;

pub use anomaly::{Anomaly, ReadAnomaly};
pub use event::Event;
pub use literal::{Literal, MAX_CLAUSES};
pub use node::{MAX_NODES, NodeIx};
