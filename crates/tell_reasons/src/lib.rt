//! The lines that say why there is no order, in a log's own words, and what cycles are called.
//!
//! Called by the other crates that tell. It knows no ledger, no tree and no piece.
#![tactic(auto)]

mod anomalies;
mod crossed;
mod edge;
pub mod laws;
pub mod names;
mod phrases;
mod places;
mod versions;
mod why;
mod words;
mod writers;
mod writes;

pub use anomalies::put_anomaly;
pub use crossed::put_crossing;
pub use edge::put_edge;
pub use versions::{left_at, put_since, put_versions, read_at};
pub use why::{ChainOrder, Why};
pub use words::{Said, Word, put_words};
