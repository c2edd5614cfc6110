//! What a client's log holds.

ghost use Rattle.std.specs.Prelude.{◌≡◌, length, map};
ghost use Rattle.std.specs.List.{flat_map};
ghost use Rattle.session_log.specs.Moments.{is_earlier};
ghost use Rattle.session_log.specs.Text.{view, view_txn, txn_lines, session_lines, capped};
ghost use Rattle.session_log.specs.Text.{key_of, is_write, is_commit, is_unknown};

use crate::key::Key;

/// An operation of a transaction.
#[derive(Debug, Drop)]
pub enum Op {
    /// A read of `key`, which gave the write of identity `wid`: 0 is the initial value.
    Read { key: Key, wid: u64 },
    /// A write of `key`, under an identity of its own. A legal one is not 0.
    Write { key: Key, wid: u64 },
}

impl Op {
    pub fn key(&self) -> &Key
        ensures { result.now ≡ key_of self.now }
    {
        match self {
            Op::Read { key, .. } | Op::Write { key, .. } => key,
        }
    }

    pub fn is_write(&self) -> bool
        ensures { result ≡ is_write self.now }
    {
        match self {
            Op::Read { .. } => false,
            Op::Write { .. } => true,
        }
    }
}

/// A log of the greatest size can have millions of operations, and is read whole before they are
/// counted.
const _: () = prove!(size_of::<Op>() == 32);

/// How a transaction ended.
#[derive(Clone, Copy, Debug, PartialEq, Eq)]
pub enum Outcome {
    Commit,
    Abort,
    /// The client was not told: it committed or it did not. In a legal session only the last
    /// transaction may end so.
    Unknown,
}

impl Outcome {
    /// Whether the client was not told.
    pub fn is_unknown(self) -> bool
        ensures { result ≡ is_unknown self }
    {
        match self {
            Outcome::Unknown => true,
            Outcome::Commit | Outcome::Abort => false,
        }
    }
}

/// Whether both moments are stated and the one is less than the other.
pub fn is_earlier(one: Option<u64>, other: Option<u64>) -> bool
    ensures { result ≡ is_earlier one other }
{
    match (one, other) {
        (Some(one), Some(other)) => one < other,
        _ => false,
    }
}

/// A transaction: its operations in the order of the log, how it ended, and the moments at which it
/// began and, where it was committed, ended, as the log states them: both by one clock, in whatever
/// unit.
#[derive(Debug, Drop)]
pub struct Txn {
    pub ops: Vec<Op>,
    pub outcome: Outcome,
    pub begun: Option<u64>,
    pub ended: Option<u64>,
}

impl Txn {
    /// Whether the client was told that it is committed.
    pub fn is_committed(&self) -> bool
        ensures { result ≡ is_commit self.now.outcome }
    {
        match self.outcome {
            Outcome::Commit => true,
            Outcome::Abort | Outcome::Unknown => false,
        }
    }

    /// How many lines it has, with the two that begin and end it.
    pub fn line_count(&self) -> usize
        ensures { result ≡ length (txn_lines (view_txn self.now)) }
    {
        self.ops.len() + 2
    }
}

/// A client's session: its number, 1 to 65535 in a legal one, and its transactions in order.
#[derive(Debug, Drop)]
pub struct Session {
    pub number: u16,
    pub txns: Vec<Txn>,
}

impl Session {
    /// How many lines it has, with its first, up to `usize::MAX`.
    pub fn line_count(&self) -> usize
        ensures { result ≡ capped (length (session_lines (view self.now))) }
    {
        let mut count: usize = 1;
        for txn in &self.txns {
            count = count.saturating_add(txn.line_count());
        }
        count
    }
}

/// How many lines these sessions have, up to `usize::MAX`.
pub fn line_count(sessions: &[Session]) -> usize
    ensures { result ≡ capped (length (flat_map session_lines (map view sessions.now))) }
{
    let mut count: usize = 0;
    for session in sessions {
        count = count.saturating_add(session.line_count());
    }
    count
}
