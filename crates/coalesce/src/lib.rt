//! The polygraph of a history's chains: fewer choices than bipaths, which the same orders fit.
//!
//! Called by `reduction`. It knows no pruning and no formula.
#![tactic(auto)]

mod choices;
mod coalesced;
mod known;

pub use coalesced::coalesce;
