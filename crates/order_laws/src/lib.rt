//! The reduced formula of a polygraph that is pruned, and its laws: its satisfying assignments
//! stand for the orders that fit.
//!
//! Cited by `order_cnf`, `cobra_formulas` and `cobra_cli`. It knows no text and no variable's
//! number in a table.
//!
//! The definitions stand in `specs/`. The laws that join them are contracts of functions that do
//! nothing.
#![tactic(auto)]

pub mod laws;
