//! Formulas in conjunctive normal form whose satisfying assignments are orders of a history's
//! nodes: the plain formula of a history, the reduced formula of what pruning leaves, and a formula
//! that nothing satisfies. A formula keeps no clause: each is made when it is asked for.
//!
//! Called by `cobra_formulas`; `dimacs`, `decode_order` and `refute_command` read what it makes, and
//! `cobra_answers` names its faults. It knows no text and no solver.
#![tactic(auto)]

mod clause;
mod fault;
mod formula;
mod layout;
mod open_pairs;
mod plain;
mod reduced;
mod relation;
mod sides;
mod term;
mod triples;

pub use clause::Clause;
pub use fault::CnfFault;
pub use formula::{Formula, contradiction};
pub use layout::Clauses;
pub use plain::{MAX_PLAIN_NODES, plain_formula};
pub use reduced::reduced_formula;
