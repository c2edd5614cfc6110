//! What nodes are called: the committed transactions of a log whose outcomes are known, each by the
//! number of its session and its place there.
//!
//! Called by `audit_report` and `part_reasons`; its definition of a transaction's node is cited by
//! `level_refutations`. It knows no text and no order.
#![tactic(auto)]

mod number;

pub use number::names_of;
