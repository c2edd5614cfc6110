//! In what form a report is written.

/// In what form a report is written.
#[derive(Clone, Copy, Debug)]
pub enum ReportForm {
    /// Lines for people.
    Text,
    /// One object on one line.
    Json,
}
