//! How much a log holds.

ghost use Rattle.std.specs.Prelude.{◌≡◌, ◌+◌, ◌-◌, ◌^◌, ◌++◌, ◌∷◌, [], List, length, map, count_by};
ghost use Rattle.std.specs.Prelude.{min, ◌<◌, ◌≤◌};
ghost use Rattle.session_log.specs.Text.{Transaction, view, view_txn};
ghost use Rattle.log_definitions.specs.Unknown.{ops_in, txns_in};
ghost use Rattle.log_definitions.specs.WellFormed.{log_lines};
ghost use Rattle.session_history.specs.Taken.{HoldsAll, placed_in};
ghost use Rattle.session_history.specs.Worklist.{has_ended};
ghost use Rattle.session_history.specs.Counted.{IsTally, CountsAll};
ghost use Rattle.log_definitions.specs.Unknown.{resolved};
ghost use Rattle.session_log.specs.declared.limits.TheConstants.{MAX_OPERATIONS};

use crate::nodes::Transactions;
use session_log::{Outcome, Session, Txn};

/// How much a history holds.
#[derive(Clone, Copy, Debug, PartialEq, Eq)]
pub struct Counts {
    pub sessions: usize,
    /// The transactions that the log says were committed.
    pub committed: usize,
    /// The transactions that the log says were aborted.
    pub aborted: usize,
    /// The transactions whose outcome the client never learnt.
    pub unknown: usize,
    /// Those of unknown outcome of which a committed or a taken one reads a write, and which so are
    /// nodes.
    pub taken: usize,
    pub keys: usize,
    pub operations: usize,
}

/// Whether a transaction ended so.
pub fn has_ended(txn: &Txn, outcome: Outcome) -> bool
    ensures { result ≡ has_ended outcome (view_txn txn.now) }
{
    txn.outcome == outcome
}

/// How many transactions ended in each way, and how many operations they have, each up to
/// `usize::MAX`.
#[derive(Clone, Copy)]
pub struct Tally {
    pub committed: usize,
    pub aborted: usize,
    pub unknown: usize,
    pub operations: usize,
}

impl Tally {
    /// With a transaction more.
    fn plus(self, txn: &Txn) -> Tally
        ensures { (txns : List Transaction) → IsTally txns self →
            IsTally (txns ++ view_txn txn.now ∷ []) result }
    {
        let committed = usize::from(has_ended(txn, Outcome::Commit));
        let aborted = usize::from(has_ended(txn, Outcome::Abort));
        let unknown = usize::from(has_ended(txn, Outcome::Unknown));
        Tally {
            committed: self.committed.saturating_add(committed),
            aborted: self.aborted.saturating_add(aborted),
            unknown: self.unknown.saturating_add(unknown),
            operations: self.operations.saturating_add(txn.ops.len()),
        }
    }

    /// With a session more.
    fn with_session(self, session: &Session) -> Tally
        ensures { (txns : List Transaction) → IsTally txns self →
            IsTally (txns ++ (view session.now).txns) result }
    {
        let mut tally = self;
        for txn in &session.txns {
            tally = tally.plus(txn);
        }
        tally
    }

    /// Of these sessions.
    pub fn of(sessions: &[Session]) -> Tally
        ensures { IsTally (txns_in (map view sessions.now)) result }
    {
        let mut tally = Tally {
            committed: 0,
            aborted: 0,
            unknown: 0,
            operations: 0,
        };
        for session in sessions {
            tally = tally.with_session(session);
        }
        tally
    }
}

/// How much these sessions hold.
pub fn counts_of(sessions: &[Session], all: &Transactions) -> Counts
    requires room { length (log_lines (map view sessions.now)) < 2 ^ 63 }
    requires few { length (ops_in (map view sessions.now)) ≤ MAX_OPERATIONS }
    requires holds { HoldsAll all.now (placed_in (resolved (map view sessions.now))) }
    ensures { CountsAll (map view sessions.now) result }
{
    let tally = Tally::of(sessions);
    Counts {
        sessions: sessions.len(),
        committed: tally.committed,
        aborted: tally.aborted,
        unknown: tally.unknown,
        taken: all.nodes.len() - tally.committed,
        keys: all.numbers.len(),
        operations: tally.operations,
    }
}
