//! How far the judging of a long log is, who is told so, and until when something further is begun.
//!
//! Called by `order_proposals`, `judging` and `audit_command`; `cobra_poly` says what is told. It reads no
//! word and knows no log.
#![tactic(auto)]

mod deadline;
mod stages;

pub use deadline::{Deadline, is_over};
pub use stages::{Progress, Stage};
