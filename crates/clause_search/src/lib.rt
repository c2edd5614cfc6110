//! Whether clauses can be satisfied, by a search that learns clauses from its conflicts (Marques
//! Silva and Sakallah 1999; Moskewicz, Madigan, Zhao, Zhang and Malik 2001; Eén and Sörensson
//! 2003).
//!
//! Called by `formula_search`. It knows no log, no text and no formula of a log.
//!
//! Nothing rests on the search. Each clause that it learns is a step that the checker of
//! `refutation` takes by the clauses that the search names, as soon as it is learnt, and where it
//! ends with the empty clause, that stands in the checker. An assignment is tested on each clause.
#![tactic(auto)]

mod analysis;
mod found;
mod learnt;
mod levels;
mod order;
mod restarts;
mod search;
mod solver;

pub use found::Found;
pub use solver::{search_clauses, search_used};
