//! The write chains of a history: of each key the lists of writers in which each next one reads the
//! key externally from the one before, with the nodes that read the last write of each, and the
//! edges that stand inside the chains.
//!
//! Called by `coalesce`, `reduction` and the crates that tell. It knows no polygraph and no
//! pruning.
#![tactic(auto)]

mod all;
mod build;
mod chain;
mod closed;
mod groups;
mod inner;
mod links;
mod lists;
mod readings;

pub use all::Chains;
pub use build::chains;
pub use chain::Chain;
