//! What is asked of an audit.

use call_options::{Format, ReportForm};
use isolation::Isolation;
use judging::JudgeMeans;

/// What is asked of an audit.
#[derive(Clone, Copy)]
pub struct AuditOptions<'a> {
    /// What judging may use.
    pub means: JudgeMeans,
    /// How many committed transactions the log must have.
    pub at_least: usize,
    /// How many parts without an order are told at most.
    pub faults: usize,
    /// The level of isolation that is asked for by name, if one is. It goes before the level that
    /// judging is told.
    pub level: Option<Isolation>,
    /// Whether no other level is judged than the one that is asked for.
    pub only: bool,
    /// Whether the log is judged as if it stated no moments.
    pub no_moments: bool,
    /// Whether to say why a part has no order.
    pub explain: bool,
    /// Whether the told part is asked for as a log.
    pub part: bool,
    /// Whether the serial order is asked for.
    pub order: bool,
    pub form: ReportForm,
    /// How it is written why a part has no order. As a graph, that and comments are all that is written,
    /// whatever the form, and no other level is judged.
    pub explanation: Format,
    /// The first line alone, or of an object the verdict.
    pub quiet: bool,
    /// The version of the program, which an object names.
    pub version: &'a str,
}
