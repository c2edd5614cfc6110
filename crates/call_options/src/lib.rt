//! What a call may ask for beside its log: in what form it is answered, and how a search works
//! where the words do not say.
//!
//! Called by `cobra_words`, which reads it from words, and by `tell_decision` and `audit_command`,
//! which do it. It reads no word, and knows no command.
#![tactic(auto)]

mod format;
mod report_form;
mod search_defaults;

pub use format::Format;
pub use report_form::ReportForm;
pub use search_defaults::{AUDIT_DEFAULTS, CHECK_DEFAULTS, SearchDefaults};
