//! What is said of a log.

use order_proposals::Flags;
use session_history::Anomaly;
use session_log::{Limit, Session};
use splitting::NoRoom;

/// Why a log has no order.
#[derive(Clone, Copy, Debug, PartialEq, Eq)]
pub enum Finding {
    /// An anomaly stands: the one that is to be reported, one of A1 to A7.
    Anomaly(Anomaly),
    /// What is known has a cycle (A8).
    Cycle,
    /// Pruning ends in a cycle (A9).
    Dead,
    /// A search refuted every cube.
    Refuted,
    /// A search that learns refuted its formula.
    Formula,
    /// At a level below prefix: a read overlooks what it sees, or no level allows it.
    Overlooked,
}

/// Why a log is not decided.
#[derive(Clone, Copy, Debug, PartialEq, Eq)]
pub enum Why {
    /// The search closed so many cubes, which is its budget.
    Spent { closed: usize },
    /// It has too many of these.
    TooLarge { which: Limit },
    /// There are more than 100,000 choices between chains.
    TooManyChoices,
    /// Its split log has no room for locks.
    NoRoom(NoRoom),
    /// A time was set; that it was up is tested.
    NotBegun,
    /// At a level below prefix: neither an order nor evidence was found right. No contract says more.
    NotShown,
}

/// What became of what was proposed of a log that is not decided. No contract speaks of it.
#[derive(Clone, Copy, Debug, PartialEq, Eq)]
pub enum Tried {
    /// Nothing was proposed.
    Nothing,
    /// The order does not explain the log.
    NotSerial,
    /// The part has an order.
    PartSerial,
    /// The part is not decided.
    PartOpen(Why),
}

/// A part of a log that has no order.
#[derive(Drop)]
pub struct RefutedPart {
    /// Its sessions.
    pub part: Vec<Session>,
    /// Which transactions of the log it has; all that it has, reads too, where nothing stands here.
    pub flags: Option<Flags>,
    /// Why it has none.
    pub finding: Finding,
}

/// What is said of a log.
#[derive(Drop)]
pub enum Verdict {
    /// The log that is judged for it has this serial order, by the numbers of the committed
    /// transactions, from 1, by session and then by place.
    Serializable(Vec<usize>),
    /// It has none, since this part of it has none.
    NotSerializable(RefutedPart),
    /// It is not decided, and this is what became of what was proposed.
    Undecided { why: Why, tried: Tried },
}
