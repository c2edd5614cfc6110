//! From a history to what a search has to look at: its anomaly, a cycle of what is known of it, the
//! ledger of a dead polygraph, or what pruning leaves of the polygraph of its chains.
//!
//! Called by `deciding` and `cobra_formulas`; `tell_decision` takes its chains. It knows no text, no
//! formula and no search.
#![tactic(auto)]

mod outcome;
mod steps;

pub use outcome::Reduction;
pub use steps::{open_chains, reduce};
