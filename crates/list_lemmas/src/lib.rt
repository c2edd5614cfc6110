//! Lemmas of lists, options, truth values and numbers, each for several crates, that the library
//! `std` has not.
//!
//! Cited by the crates whose proofs need them. It knows no log and has no code. The lemmas stand in
//! `proofs/`.
#![tactic(auto)]
