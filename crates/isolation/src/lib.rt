//! Levels of isolation: their names in the field, and what each asks for in a sentence.
//!
//! Named by `cobra_words`, `part_reasons`, `audit_report` and `audit_command`. It knows no log and no
//! judge.
#![tactic(auto)]

mod level;

pub use level::Isolation;
