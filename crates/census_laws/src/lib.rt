//! What a census counts leaves no serial order: a law over the numbers of `census`.
//!
//! Cited by no crate. It knows no code and no text.
//!
//! The law is the contract of a function that does nothing.
#![tactic(auto)]

pub mod laws;
