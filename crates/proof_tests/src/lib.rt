//! Tests of public calls: steps of the small core, texts of solvers' proofs, and which proofs are
//! accepted.
#![tactic(auto)]

#[cfg(test)]
mod checked;
#[cfg(test)]
mod steps;
#[cfg(test)]
mod texts;
