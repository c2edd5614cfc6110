//! Why a log is refused, in words for people: as `FILE:LINE: WORDS (CODE)`, and the words by
//! themselves.
//!
//! Called by `audit_command` and `cobra_poly`. It knows no history, and not which command ran.
//!
//! The fault and its line come from those who read the log. The words are made from that line, and
//! from the lines before it, as far as it can be seen there what is wrong. They are those of the
//! fault, but what is wrong with the form of a line is free; so are which earlier line is named, the
//! name of an identity, and which of two things is said outside a transaction.
#![tactic(auto)]

mod form;
mod lines;
mod numbers;
mod quoted;
mod told;

pub use told::{refusal, words_of};
