//! Proposes how a history without an order is told: forced steps, and the cycle that they end in,
//! by walks that take few words.
//!
//! Called by `tell_steps`, which takes a proposal only where it shows it to be right, and else what
//! pruning found. So nothing is promised of it but that it ends. It knows no text.
#![tactic(auto)]

mod hops;
mod orders;
mod proposal;
mod rounds;
mod search;

pub use proposal::{Proposal, Step, propose};
