//! What an audit comes to.

use audit_report::PartFile;
use cobra_answers::Reply;
use session_log::LogFault;

/// What an audit comes to.
#[derive(Drop)]
pub struct Audited {
    pub reply: Reply,
    /// The part that is told first, as a log, where it is asked for.
    pub part: Option<PartFile>,
    /// The serial order, where it is asked for.
    pub order: Option<Vec<u8>>,
}

/// Why there is no answer.
#[derive(Drop)]
pub enum Refusal {
    /// Memory was refused.
    Memory,
    /// The log is refused, and this is said of it.
    Log { fault: LogFault, text: Vec<u8> },
}
