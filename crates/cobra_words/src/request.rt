//! What the words of a call ask for.

use call_options::{Format, ReportForm};
use clap::Error;
use cube_machine::{Budget, StrategyName};
use desk::seat_no::Workers;
use isolation::Isolation;

/// What is to be done with a log.
#[derive(Debug, Drop)]
pub enum Command<'a> {
    /// Write the formula of the log.
    Encode,
    /// Turn a solver's answer, in this file, into a serial order.
    Decode { model: &'a str },
    /// Check the solver's proof in this file that the formula of the log cannot be satisfied.
    Refute { proof: &'a str },
    /// Decide whether some serial order explains the log, by a search over its formula that meets so
    /// many conflicts at most.
    Solve { conflicts: u32 },
    /// Decide whether some serial order explains the log.
    Check,
    /// Check the order in this file.
    Verify { order: &'a str },
    /// Write how large the log and its formula are.
    Stats,
    /// Say why no serial order explains the log.
    Explain { format: Format },
    /// Decide whether some serial order explains a log of any length.
    Audit(AuditWords<'a>),
    /// Write the log in which each committed transaction that writes is split in two.
    Split,
    /// Count the reads and transactions that break serializability by themselves.
    Census,
}

/// What is asked of `audit` alone.
#[derive(Clone, Copy, Debug)]
pub struct AuditWords<'a> {
    /// How many committed transactions the log must have.
    pub at_least: usize,
    /// How many parts without an order are told at most.
    pub faults: usize,
    /// For how many seconds something further is begun, where that is limited.
    pub seconds: Option<u32>,
    /// The level of isolation that is asked for by name, if one is.
    pub level: Option<Isolation>,
    /// No other level is to be judged.
    pub only: bool,
    /// The log is judged as if it stated no moments.
    pub no_moments: bool,
    /// Why no serial order explains the log is to be said.
    pub explain: bool,
    /// In what form that is to be said: as a graph, nothing else is.
    pub explanation: Format,
    /// The file into which the told part goes as a log.
    pub part: Option<&'a str>,
    /// The file into which the serial order goes.
    pub order: Option<&'a str>,
    pub format: ReportForm,
    /// The first line alone is asked for.
    pub quiet: bool,
    /// How far it is is to be told from time to time.
    pub progress: bool,
}

/// A call of the program.
#[derive(Drop)]
pub struct Request<'a> {
    pub command: Command<'a>,
    /// The plain formula was asked for.
    pub plain: bool,
    pub workers: Workers,
    pub strategy: StrategyName,
    /// How many cubes a search may close.
    pub budget: Budget,
    /// The file of the log, or standard input.
    pub log: Option<&'a str>,
}

/// A call, or a text of help or usage that is to be shown in its place.
#[derive(Drop)]
pub enum Words<'a> {
    Request(Request<'a>),
    Shown(Error),
}
