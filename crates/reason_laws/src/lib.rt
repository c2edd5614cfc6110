//! Why one transaction stands before another in each serial order, and which reads no such order
//! has.
//!
//! Cited by `reasons` and the crates that tell. It knows no text and no line.
#![tactic(auto)]

mod crossing;
pub mod laws;

pub use crossing::{Crossing, PairRead};
