//! What is told of a log.

use crate::counts::LogCounts;
use isolation::Isolation;
use judging::RefutedPart;

/// A transaction of the log: the number of its session, its place there from 1, and its first and
/// its last line.
#[derive(Clone, Copy, Debug, PartialEq, Eq)]
pub struct ToldTxn {
    pub session: usize,
    pub place: usize,
    pub first: usize,
    pub last: usize,
}

/// A part of the log that has no order.
#[derive(Drop)]
pub struct ToldPart {
    pub refuted: RefutedPart,
    /// Its transactions in the log.
    pub txns: Vec<ToldTxn>,
    /// What the field calls such a fault, where it has a name.
    pub known_as: Option<String>,
    /// Why it has no order, in lines, where that is asked for.
    pub why: Vec<u8>,
    /// The same as a graph, where that is asked for.
    pub graph: Vec<u8>,
    /// Whether it has a serial order without the order of sessions, where that is asked for and
    /// known.
    pub is_serial_apart: bool,
}

/// The verdict, in a word.
#[derive(Clone, Copy, Debug, PartialEq, Eq)]
pub enum Word {
    Serializable,
    NotSerializable,
    Unknown,
}

/// The verdict on the log, and what belongs to it.
#[derive(Drop)]
pub enum Answer {
    /// It has an order of the level that is asked for.
    Serializable,
    /// It has one, and the level is one of stated moments, of which the log has none.
    NoMoments,
    /// It has none, since these parts, at least one, have none.
    NotSerializable(Vec<ToldPart>),
    /// It has fewer committed transactions than it must have.
    TooFew { committed: usize, asked: usize },
    /// It is not decided: why, and in lines what may help.
    Undecided { reason: String, advice: Vec<String> },
}

/// How much the log holds.
#[derive(Clone, Copy, Debug, PartialEq, Eq)]
pub struct Totals {
    pub counts: LogCounts,
    /// The transactions of unknown outcome that count as committed.
    pub taken: usize,
}

/// What holds of levels below snapshot isolation, in the order of sessions, where that is asked for.
#[derive(Clone, Copy, Debug, PartialEq, Eq)]
pub struct Lower {
    pub prefix: Option<Word>,
    pub causal: Option<Word>,
    pub read_atomic: Option<Word>,
    pub monotonic_atomic_view: Option<Word>,
    pub read_committed: Option<Word>,
}

/// What is told of a log.
#[derive(Drop)]
pub struct Told {
    /// The level of isolation that is asked for by name, if one is.
    pub level: Option<Isolation>,
    pub answer: Answer,
    /// The verdict on the log as if it stated no moments, where that is another question.
    pub without_moments: Option<Word>,
    /// What holds of weaker levels, where that is asked for: snapshot isolation in the order of the
    /// stated moments, and without them.
    pub strict_snapshot: Option<Word>,
    pub snapshot: Option<Word>,
    /// The part that shows that snapshot isolation was not kept, unless it adds nothing to one of the
    /// answer.
    pub shown: Option<ToldPart>,
    /// What holds of the levels below, down to the first that was kept.
    pub lower: Lower,
    /// The part that shows that the weakest of these that was not kept was not, unless it adds nothing
    /// to another one.
    pub lowest: Option<ToldPart>,
    pub totals: Totals,
}
