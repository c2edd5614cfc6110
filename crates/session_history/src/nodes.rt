//! The transactions of a log, one after the other.

ghost use Rattle.std.specs.Prelude.{◌≡◌, ◌+◌, ◌<◌, ◌≤◌, ◌^◌, [], ◌∷◌, length, map, count_by, OnOk};
ghost use Rattle.std.specs.Prelude.{IfOk};
ghost use Rattle.std.specs.BTreeSet.{contains};
ghost use Rattle.std.specs.Ordering.{nat_cmp};
ghost use Rattle.session_log.specs.Text.{view, view_txn, txn_lines, session_lines};
ghost use Rattle.log_definitions.specs.Unknown.{is_committed, txns_in, settle, settled};
ghost use Rattle.log_definitions.specs.WellFormed.{log_lines, writes_from};
ghost use Rattle.serializability.specs.declared.node.TheConstants.{MAX_NODES};

use crate::numbers::Numbers;
use crate::writes::Writes;
use serializability::{Event, NodeIx};
use session_log::{Outcome, Session, Txn};
use std::alloc::{AllocError, Global};
use std::collections::BTreeSet;

/// A committed or taken transaction: the number of its session, its place in the session from 1,
/// its operations, and its moments.
#[derive(Drop)]
pub struct Node {
    pub session: u16,
    pub place: usize,
    pub events: Vec<Event>,
    pub begun: Option<u64>,
    pub ended: Option<u64>,
}

/// The node with this number.
pub fn node_at(number: usize) -> NodeIx
    requires { number ≤ MAX_NODES }
    ensures { result ≡ number }
{
    NodeIx::new(number).unwrap_or(NodeIx::INITIAL)
}

/// Whether a transaction is a node, where those of unknown outcome are taken, or not.
pub fn is_node(txn: &Txn, is_taken: bool) -> bool
    ensures { result ≡ is_committed (settle is_taken (view_txn txn.now)) }
{
    match txn.outcome {
        Outcome::Commit => true,
        Outcome::Abort => false,
        Outcome::Unknown => is_taken,
    }
}

/// What the transactions so far hold.
#[derive(Drop)]
pub struct Transactions {
    pub numbers: Numbers,
    pub nodes: Vec<Node>,
    pub writes: Writes,
}

/// What the transactions of sessions without a fault hold, and the numbers of the sessions whose
/// transaction of unknown outcome is taken.
#[derive(Drop)]
pub struct Accepted {
    pub all: Transactions,
    pub taken: BTreeSet<usize>,
}

impl Transactions {
    ghost use Rattle.session_history.specs.Numbering.{FindsEach};
    ghost use Rattle.session_history.specs.Taken.{Takes, IsStart, HoldsAll, placed_in, placed_from};
    ghost use Rattle.session_history.specs.Written.{HasSeen};

    /// No transactions, before this line.
    pub fn new(alloc: Global, line: usize) -> Result<Transactions, AllocError>
        ensures start { IfOk result (IsStart line) }
        ensures finds { IfOk result (λ all. FindsEach all.numbers) }
    {
        Ok(Transactions {
            numbers: Numbers::new(alloc)?,
            nodes: Vec::new(alloc),
            writes: Writes::new(alloc, line),
        })
    }

    /// Takes the next transaction, which stands at this place of its session, whose transactions of
    /// unknown outcome are taken, or not.
    fn add(
        &mut self,
        alloc: Global,
        txn: &Txn,
        session: u16,
        place: usize,
        is_taken: bool,
    ) -> Result<(), AllocError>
        requires finds { FindsEach self.old.numbers }
        requires room { self.old.writes.line + length (txn_lines (view_txn txn.now)) < 2 ^ 64 }
        requires few { length self.old.nodes.items
            + count_by is_committed (settle is_taken (view_txn txn.now) ∷ []) ≤ MAX_NODES }
        ensures finds { OnOk result (FindsEach self.new.numbers) }
        ensures taken { OnOk result (Takes self.old self.new (txn_lines (view_txn txn.now))
            ((session, place, settle is_taken (view_txn txn.now)) ∷ [])) }
    {
        let events = self.numbers.events(alloc, &txn.ops)?;
        if !is_node(txn, is_taken) {
            self.writes.add(&events, NodeIx::INITIAL)?;
            return Ok(());
        }
        let node = node_at(self.nodes.len() + 1);
        self.writes.add(&events, node)?;
        self.nodes.push(Node {
            session,
            place,
            events,
            begun: txn.begun,
            ended: txn.ended,
        })?;
        Ok(())
    }

    /// Takes the next session, whose transactions of unknown outcome are taken, or not.
    fn add_session(
        &mut self,
        alloc: Global,
        session: &Session,
        is_taken: bool,
    ) -> Result<(), AllocError>
        requires finds { FindsEach self.old.numbers }
        requires room { self.old.writes.line + length (session_lines (view session.now)) < 2 ^ 64 }
        requires few { length self.old.nodes.items
            + count_by is_committed (map (settle is_taken) (view session.now).txns) ≤ MAX_NODES }
        ensures finds { OnOk result (FindsEach self.new.numbers) }
        ensures taken { OnOk result (Takes self.old self.new (session_lines (view session.now))
            (placed_from session.now.number 1 (map (settle is_taken) (view session.now).txns))) }
    {
        self.writes.begin_session();
        let mut place = 1;
        for txn in &session.txns {
            self.add(alloc, txn, session.number, place, is_taken)?;
            place += 1;
        }
        Ok(())
    }

    /// Takes all sessions, of which the first stands in line `first`. Of their transactions of
    /// unknown outcome, those in sessions of these numbers are taken.
    pub fn of(
        alloc: Global,
        first: usize,
        sessions: &[Session],
        taken: &BTreeSet<usize>,
    ) -> Result<Transactions, AllocError>
        requires low { first ≤ 2 }
        requires room { length (log_lines (map view sessions.now)) < 2 ^ 63 }
        requires few { count_by is_committed
            (txns_in (settled (contains nat_cmp taken.now) (map view sessions.now))) ≤ MAX_NODES }
        ensures seen { IfOk result (λ all.
            HasSeen (writes_from first (log_lines (map view sessions.now))) all.writes) }
        ensures holds { IfOk result (λ all. HoldsAll all
            (placed_in (settled (contains nat_cmp taken.now) (map view sessions.now)))) }
    {
        let mut all = Transactions::new(alloc, first)?;
        for session in sessions {
            let is_taken = taken.contains(&usize::from(session.number));
            all.add_session(alloc, session, is_taken)?;
        }
        Ok(all)
    }
}
