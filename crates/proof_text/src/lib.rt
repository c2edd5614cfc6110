//! The texts of proofs that solvers write, read step by step: LRAT (Cruz-Filipe, Heule, Hunt,
//! Kaufmann and Schneider-Kamp 2017) as text, and DRAT (Wetzler, Heule and Hunt 2014) as text and
//! in its binary form.
//!
//! Called by `proof_checks`; `refute_command` and `cobra_poly` hand on its faults. It knows no
//! formula, and not whether a step follows.
//!
//! Contracts say which steps a text has, each with its line. That a refuted formula has no solution
//! does not rest on them: whatever steps come out, a checker takes only those that follow.
#![tactic(auto)]

mod binary;
mod drat;
mod fault;
mod form;
mod lrat;
mod number;
mod reading;
mod words;

pub use drat::{DratAction, DratSteps};
pub use fault::{ProofFault, StepFault};
pub use form::{Form, form_of};
pub use lrat::{LratAction, LratSteps};

/// The most bytes that a proof may have.
pub const MAX_PROOF_BYTES: usize = 1024 * 1024 * 1024;
