//! Where the transactions of a log and their operations stand: in which place of their session, and
//! at which lines.
//!
//! Called by the crates that tell. It knows no anomaly, no edge and no text but its lines' numbers.
#![tactic(auto)]

pub mod laws;
mod placed;
mod places;

pub use placed::PlacedHistory;
pub use places::{LogPlaces, TxnPlace};
