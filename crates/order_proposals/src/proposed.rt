//! What may be proposed of a log, and by what means.

use desk::seat_no::Workers;
use progress::Deadline;

/// Of each transaction of each session, by their indices, whether it is chosen. Those behind the
/// last flag are not.
pub type Flags = Vec<Vec<bool>>;

/// Where no order was found.
#[derive(Drop)]
pub struct Stuck {
    /// The transactions around the place where it is stuck.
    pub around: Flags,
    /// Those by which neither of two orders can be, where it is stuck there.
    pub against: Option<Flags>,
    /// So many nodes were placed at most,
    pub placed: usize,
    /// of so many.
    pub nodes: usize,
    /// Nodes that could not be placed next, by the indices of session and transaction; ten at most.
    pub waiting: Vec<(usize, usize)>,
}

/// Why nothing is proposed.
#[derive(Clone, Copy, Debug, PartialEq, Eq)]
pub enum NotTried {
    /// So many sessions run at once, more than `MAX_LANES`.
    TooWide { lanes: usize },
    /// The clocks of so many nodes and lanes need more than `MAX_ENTRIES` numbers.
    TooLarge { nodes: usize, lanes: usize },
    /// The time was up.
    TimeIsUp,
}

/// What is proposed of sessions whose outcomes are known.
#[derive(Drop)]
pub enum Proposal {
    /// An order that explains them: the numbers of the committed transactions, from 1, by session
    /// and then by place.
    Order(Vec<usize>),
    /// A part of them that no order explains.
    Part(Flags),
    /// No order was found.
    Stuck(Stuck),
    /// Nothing.
    NotTried(NotTried),
}

/// What proposing may use.
#[derive(Clone, Copy)]
pub struct ProposeMeans {
    /// How many workers take part.
    pub workers: Workers,
    /// Until when a round of rules or a supposition is begun.
    pub deadline: Option<Deadline>,
    /// The greatest identity that a client gave; those of locks are greater, and say nothing of when
    /// they were given.
    pub greatest: u64,
}
