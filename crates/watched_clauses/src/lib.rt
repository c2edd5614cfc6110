//! Clauses that are looked at only where two of their literals are false: which literals are true,
//! since when and why, and what they force.
//!
//! Called by `proof_checks` and `clause_search`. It promises nothing of what it finds but that it
//! ends: the checker of `refutation` looks at each clause that it names. It knows no proof's text,
//! no decision and no log.
//!
//! A clause has the number that the checker has for it. A literal that the clauses alone force is a
//! root. The checker has it as a unit clause of its own, so that each later step that needs it is
//! shown one clause for it.
#![tactic(auto)]

mod clauses;
mod code;
mod grounds;
mod steps;
mod store;
mod trail;
mod watches;

pub use clauses::WatchedClauses;
pub use code::{Code, places};
pub use grounds::Grounds;
pub use steps::take_hinted;
pub use store::Store;
pub use trail::Trail;
