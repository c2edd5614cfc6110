//! Proofs by unit propagation, checked: the form of proof that Goldberg and Novikov (2003) take
//! from a solver's learnt clauses, and that the proofs called RUP, DRAT and LRAT name.
//!
//! Called by `watched_clauses` and `proof_checks`, which find what it checks; `clause_search` and
//! `formula_search` hand its checker on. It knows no text of a proof and no log.
//!
//! A checker keeps clauses that stand. A step of a proof names a clause; its literals are assumed
//! false, and the checker is shown clauses that stand. One whose literals are all false but one
//! makes that one true; one whose literals are all false shows that the step's clause follows, and
//! then that clause stands too. Which clauses are shown is for the caller to find, and nothing
//! rests on it.
#![tactic(auto)]

mod assignment;
mod checker;
mod clauses;
mod hints;
pub mod laws;

pub use checker::{Checker, Shown};
pub use hints::take_step;
