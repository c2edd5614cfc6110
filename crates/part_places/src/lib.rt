//! Where the transactions of a part of a log, and their operations, stand in the whole log.
//!
//! Called by `part_reasons`. It knows no anomaly and not who chooses the part.
#![tactic(auto)]

pub mod laws;
mod part;
mod txn;

pub use part::part_places;
