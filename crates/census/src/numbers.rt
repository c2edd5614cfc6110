//! The numbers of a census.

use session_log::Key;

/// A key, and how many faults it has: reads of it that break serializability by themselves, and
/// transactions that are in a lost update of it.
#[derive(Debug, Drop)]
pub struct KeyFaults {
    pub key: Key,
    pub faults: usize,
}

/// How many reads and transactions of a log break serializability by themselves.
#[derive(Debug, Drop)]
pub struct Census {
    /// Reads of what no transaction wrote (A1).
    pub unknown_reads: usize,
    /// Reads of an aborted transaction's write (A2).
    pub aborted_reads: usize,
    /// Reads of a write that its transaction wrote over (A3).
    pub intermediate_reads: usize,
    /// Reads that miss an own write before them (A4).
    pub own_writes_missed: usize,
    /// Reads of an own write behind them (A5).
    pub future_reads: usize,
    /// Reads of another version than an earlier read of the key in the transaction (A6).
    pub split_reads: usize,
    /// Transactions that update a version which another one updates too (A7).
    pub lost_updates: usize,
    /// The keys with the most faults, ten at most, the worst first.
    pub worst_keys: Vec<KeyFaults>,
}
