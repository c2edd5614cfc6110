//! Why a log is refused.

ghost use Rattle.std.specs.Prelude.{◌≡◌};
ghost use Rattle.session_log.specs.Codes.{limit_code, code_of, line_of};
ghost use Rattle.session_log.specs.declared.fault.LogFault.TheVariants.{Memory};

use std::alloc::{AllocError, AllocFailed};

/// What a log has too many of.
#[derive(Clone, Copy, Debug, PartialEq, Eq)]
pub enum Limit {
    /// Bytes.
    LogBytes,
    /// Lines that begin with the bytes `session`.
    Sessions,
    /// Reads and writes.
    Operations,
    /// Committed transactions, and those whose outcome is unknown.
    Committed,
    /// Different keys.
    Keys,
}

/// Why a log is refused. Lines count from 1.
#[derive(Clone, Copy, Debug, PartialEq, Eq)]
pub enum LogFault {
    /// The line has none of the forms, or lacks its line feed.
    BadLine { line: usize },
    /// The session's number stood before.
    SessionTwice { line: usize },
    /// No session has begun, or no transaction is open where one is needed.
    OutsideTransaction { line: usize },
    /// A transaction is not ended: the line of its `begin`.
    OpenTransaction { line: usize },
    /// A write has identity 0, that of the initial value.
    WriteZero { line: usize },
    /// Two writes have one identity: the line of the later one.
    WriteTwice { line: usize },
    /// A transaction stands behind one whose outcome is unknown, in one session: the line of its
    /// `begin`.
    UnknownNotLast { line: usize },
    /// A transaction is said to end before it began: the line of its `commit`.
    EndsBeforeBegin { line: usize },
    /// A limit is passed.
    OverLimit { which: Limit },
    /// Memory was refused. It may come in place of any other fault.
    Memory,
}

impl Limit {
    fn code(self) -> &'static str
        ensures code { result.now ≡ limit_code self }
    {
        match self {
            Limit::LogBytes => "L7 log-bytes",
            Limit::Sessions => "L7 sessions",
            Limit::Operations => "L7 operations",
            Limit::Committed => "L7 committed",
            Limit::Keys => "L7 keys",
        }
    }
}

impl LogFault {
    /// Its code, as the table of faults has it, and of a limit its name.
    pub fn code(self) -> &'static str
        ensures code { result.now ≡ code_of self }
    {
        match self {
            LogFault::BadLine { .. } => "L1",
            LogFault::SessionTwice { .. } => "L2",
            LogFault::OutsideTransaction { .. } => "L3",
            LogFault::OpenTransaction { .. } => "L4",
            LogFault::WriteZero { .. } => "L5",
            LogFault::WriteTwice { .. } => "L6",
            LogFault::OverLimit { which } => which.code(),
            LogFault::Memory => "L8",
            LogFault::UnknownNotLast { .. } => "L9",
            LogFault::EndsBeforeBegin { .. } => "L10",
        }
    }

    /// Its line, where it has one.
    pub fn line(self) -> Option<usize>
        ensures line { result ≡ line_of self }
    {
        match self {
            LogFault::BadLine { line }
            | LogFault::SessionTwice { line }
            | LogFault::OutsideTransaction { line }
            | LogFault::OpenTransaction { line }
            | LogFault::WriteZero { line }
            | LogFault::WriteTwice { line }
            | LogFault::UnknownNotLast { line }
            | LogFault::EndsBeforeBegin { line } => Some(line),
            LogFault::OverLimit { .. } | LogFault::Memory => None,
        }
    }
}

impl From<AllocError> for LogFault {
    ghost from_gives = { λ _ e. e ≡ Memory };

    fn from(_e: AllocError) -> LogFault {
        LogFault::Memory
    }
}

impl<T: Drop> From<AllocFailed<T>> for LogFault {
    ghost from_gives = { λ _ e. e ≡ Memory };

    fn from(_e: AllocFailed<T>) -> LogFault {
        LogFault::Memory
    }
}
