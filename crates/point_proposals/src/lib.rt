//! Finds why the snapshots and commits of a part's transactions have no order: a circle of them, or
//! two of which neither can commit first, by steps. Nothing is promised of it; `point_refutations`
//! checks what it finds.
//!
//! Called by `part_reasons`. It knows no split log, no lock and no line.
#![tactic(auto)]

mod graph;
mod nodes;
mod proposal;
mod steps;

pub use proposal::propose;
