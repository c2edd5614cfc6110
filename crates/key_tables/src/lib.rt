//! What keys hold. A key is looked for by a mark first, so that most steps of a search compare two
//! numbers; keys with one mark are told apart by their bytes, so that no choice of keys makes a
//! search long. Many tables share the keys of a long log.
//!
//! Called by `level_checks`, `numbers` and `numbered_log`. It knows no log.
#![tactic(auto)]

mod mark;
mod table;
mod tables;

pub use table::{held, hold};
pub use tables::KeyTable;
