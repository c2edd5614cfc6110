//! Refutations by points, told in lines: why the snapshots and commits of a part's transactions have
//! no order, so that a reader needs no other theory.
//!
//! Called by `part_reasons`. It knows no judge, and does not ask whether the refutation is right: of
//! a place that is not in the log it tells number 0, line 0 and no key.
#![tactic(auto)]

mod lines;
mod names;
mod short;
mod telling;
mod whys;

pub use names::refutation_name;
pub use telling::refutation_text;
