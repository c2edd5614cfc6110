//! Refutations by points: places of the log, from which each edge follows.

ghost use Rattle.std.specs.Prelude.{◌≡◌};
ghost use Rattle.point_refutations.specs.Edges.{first_of, second_of, says_snapshot, txn_of};

use level_refutations::{OpAt, TxnAt};

/// A point of a transaction.
#[derive(Clone, Copy, Debug, PartialEq, Eq)]
pub enum PointAt {
    Snapshot(TxnAt),
    Commit(TxnAt),
}

impl PointAt {
    /// Whose point it is.
    pub fn txn(self) -> TxnAt
        ensures { result ≡ txn_of self }
    {
        match self {
            PointAt::Snapshot(at) | PointAt::Commit(at) => at,
        }
    }
}

/// Why what a read finds is older than what another transaction writes.
#[derive(Clone, Copy, Debug, PartialEq, Eq)]
pub enum Since {
    /// It is the initial value.
    Initial,
    /// Operation of this index of the other one reads it too.
    ReadToo(usize),
    /// By the step of this index its writer commits before the other one does.
    Step(usize),
}

/// A read that misses a write. Indices are those of operations.
#[derive(Clone, Copy, Debug, PartialEq, Eq)]
pub struct Missed {
    /// The read, of the transaction that misses the write.
    pub read: usize,
    /// The write that it finds; none where that is the initial value.
    pub found: Option<OpAt>,
    /// The write of the other transaction.
    pub write: usize,
    pub since: Since,
}

/// Why a point of one transaction stands before one of another. Indices are those of operations.
#[derive(Clone, Copy, Debug, PartialEq, Eq)]
pub enum Why {
    /// It is an earlier one of its session.
    Session,
    /// It ended before the other one began.
    Moments,
    /// Operation `read` of the other one finds its operation `write` in the snapshot.
    Read { write: usize, read: usize },
    /// By the step of this index.
    Step(usize),
    /// By the step of this index the other one commits later.
    Later(usize),
    /// A read of its snapshot misses a write of the other one.
    Missed(Missed),
}

/// The commit of one transaction stands before the snapshot of another, or, by a step that says no
/// more, before its commit; or, if the one misses a write of the other, its snapshot before the
/// other's commit.
#[derive(Clone, Copy, Debug, PartialEq, Eq)]
pub struct Edge {
    pub from: TxnAt,
    pub to: TxnAt,
    pub why: Why,
}

/// Two writes of one key, by two transactions.
#[derive(Clone, Copy, Debug, PartialEq, Eq)]
pub struct Both {
    pub one: OpAt,
    pub other: OpAt,
}

/// A read that finds what one of two transactions writes, and that would find what the other one
/// writes, if that committed later.
#[derive(Clone, Copy, Debug, PartialEq, Eq)]
pub struct Overwritten {
    pub read: OpAt,
    /// What it finds.
    pub found: OpAt,
    /// The write of the other one.
    pub write: OpAt,
}

/// Why one transaction cannot commit before another one takes its snapshot, or commits: edges lead
/// from that point to its commit. Or somebody reads what it wrote and the other one would have
/// overwritten: then they lead from the other one's commit to the reader's snapshot.
#[derive(Debug, Drop)]
pub struct Against {
    pub overwritten: Option<Overwritten>,
    pub edges: Vec<Edge>,
}

/// One transaction commits before another, which writes one of its keys too, takes its snapshot; or,
/// also where keys are not locked, before that one commits.
#[derive(Debug, Drop)]
pub enum Step {
    /// Edges lead from the commit to the snapshot.
    Shown {
        first: TxnAt,
        second: TxnAt,
        edges: Vec<Edge>,
    },
    /// Both write one key, and the other one cannot commit before this one takes its snapshot.
    Forced {
        both: Both,
        against: Against,
    },
    /// Both write one key, and the other one cannot commit before this one commits.
    Later {
        both: Both,
        against: Against,
    },
}

impl Step {
    /// The transaction that commits.
    pub fn first(&self) -> TxnAt
        ensures { result ≡ first_of self.now }
    {
        match self {
            Step::Shown { first, .. } => *first,
            Step::Forced { both, .. } | Step::Later { both, .. } => both.one.txn,
        }
    }

    /// The one that takes its snapshot, or commits, later.
    pub fn second(&self) -> TxnAt
        ensures { result ≡ second_of self.now }
    {
        match self {
            Step::Shown { second, .. } => *second,
            Step::Forced { both, .. } | Step::Later { both, .. } => both.other.txn,
        }
    }

    /// Whether the other one takes its snapshot later, and does not only commit later.
    pub fn says_snapshot(&self) -> bool
        ensures { result ≡ says_snapshot self.now }
    {
        !matches!(self, Step::Later { .. })
    }
}

/// What steps lead to.
#[derive(Debug, Drop)]
pub enum Ending {
    /// Edges lead from a point to itself, and pass no point twice.
    Circle(Vec<Edge>),
    /// Two write one key, and neither can commit first.
    Neither {
        both: Both,
        not_one: Against,
        not_other: Against,
    },
}

/// Why the points of some transactions have no order: steps, each over the ones before it, and what
/// they lead to. Something rests on each step.
#[derive(Debug, Drop)]
pub struct Refutation {
    pub steps: Vec<Step>,
    pub ending: Ending,
}
