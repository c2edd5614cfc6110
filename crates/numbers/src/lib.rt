//! Numbers in place of names, for what proposes: lists of numbers, numbers of keys and of
//! identities, and which points lie on circles.
//!
//! Called by `order_proposals` and `level_proposals`. Nothing is promised here but that it ends.
#![tactic(auto)]

mod components;
mod keys;
mod lists;
mod sources;

pub use components::{Components, Edges, components_of};
pub use keys::Keyed;
pub use lists::{Chains, Entry, Lists, NONE, add, at, lists_of, number, put, sum_up, take_one};
pub use sources::{Amounts, Sources, Target};
