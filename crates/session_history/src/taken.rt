//! Which transactions of unknown outcome are taken: those of which a committed or a taken one reads
//! a write.

ghost use Rattle.std.specs.Prelude.{◌≡◌, ℕ, List, [], ◌∷◌, ◌++◌, map, count_by, OnOk, IfOk};
ghost use Rattle.std.specs.BTreeSet.{contains};
ghost use Rattle.std.specs.Ordering.{nat_cmp};
ghost use Rattle.session_log.specs.Text.{view, view_txn};
ghost use Rattle.session_log.specs.declared.session.Outcome.TheVariants.{Commit, Unknown};
ghost use Rattle.log_definitions.specs.Unknown.{is_unknown, txns_in, taken};
ghost use Rattle.session_history.specs.Worklist.{IsOnce};

use crate::count::has_ended;
use session_log::{Key, Op, Outcome, Session, Txn};
use std::alloc::{AllocError, Global};
use std::collections::{BTreeMap, BTreeSet};

/// A write of a transaction of unknown outcome: its key, and the session of the transaction.
#[derive(Clone, Copy)]
pub struct UnknownWrite<'a> {
    pub key: &'a Key,
    pub session: &'a Session,
}

/// The writes of the transactions of unknown outcome, by their identities.
#[derive(Drop)]
pub struct UnknownWrites<'a> {
    table: BTreeMap<u64, UnknownWrite<'a>>,
}

impl<'a> UnknownWrites<'a> {
    ghost use Rattle.session_history.specs.Worklist.{WriteAt, writes_of, unknown_writes_of};
    ghost use Rattle.session_history.specs.Worklist.{unknown_writes};
    ghost use Rattle.session_history.specs.Tracked.{FindsLast};

    /// The writes of these sessions.
    fn of(alloc: Global, sessions: &'a [Session]) -> Result<UnknownWrites<'a>, AllocError>
        ensures { IfOk result (FindsLast (unknown_writes (map view sessions.now))) }
    {
        let mut writes = UnknownWrites {
            table: BTreeMap::new(alloc),
        };
        for session in sessions {
            writes.add_session(session)?;
        }
        Ok(writes)
    }

    fn add_session(&mut self, session: &'a Session) -> Result<(), AllocError>
        ensures { OnOk result ((old : List WriteAt) → FindsLast old self.old →
            FindsLast (old ++ unknown_writes_of (view session.now) (view session.now).txns) self.new) }
    {
        for txn in &session.txns {
            self.add_txn(session, txn)?;
        }
        Ok(())
    }

    fn add_txn(&mut self, session: &'a Session, txn: &'a Txn) -> Result<(), AllocError>
        ensures { OnOk result ((old : List WriteAt) → FindsLast old self.old →
            FindsLast (old ++ unknown_writes_of (view session.now) (view_txn txn.now ∷ []))
            self.new) }
    {
        if !has_ended(txn, Outcome::Unknown) {
            return Ok(());
        }
        self.add_ops(session, &txn.ops)?;
        Ok(())
    }

    fn add_ops(&mut self, session: &'a Session, ops: &'a [Op]) -> Result<(), AllocError>
        ensures { OnOk result ((old : List WriteAt) → FindsLast old self.old →
            FindsLast (old ++ writes_of (view session.now) ops.now) self.new) }
    {
        for op in ops {
            self.add(session, op)?;
        }
        Ok(())
    }

    fn add(&mut self, session: &'a Session, op: &'a Op) -> Result<(), AllocError>
        ensures { OnOk result ((old : List WriteAt) → FindsLast old self.old →
            FindsLast (old ++ writes_of (view session.now) (op.now ∷ [])) self.new) }
    {
        let Op::Write { key, wid } = op else {
            return Ok(());
        };
        self.table.insert(*wid, UnknownWrite { key, session })?;
        Ok(())
    }
}

/// The sessions that are taken so far.
#[derive(Drop)]
pub struct Taking<'a> {
    /// In the order in which they were found.
    order: Vec<&'a Session>,
    numbers: BTreeSet<usize>,
}

impl<'a> Taking<'a> {
    ghost use Rattle.session_history.specs.Worklist.{with_session, with_read, with_reads};
    ghost use Rattle.session_history.specs.Worklist.{ops_ended, committed_in_all};
    ghost use Rattle.session_history.specs.Tracked.{IsTaking, order_of, found_in};

    /// No sessions.
    fn new(alloc: Global) -> Taking<'a>
        ensures none { order_of result ≡ [] }
        ensures taking { IsTaking result }
    {
        Taking {
            order: Vec::new(alloc),
            numbers: BTreeSet::new(alloc),
        }
    }

    fn take(&mut self, session: &'a Session) -> Result<(), AllocError>
        requires { IsTaking self.old }
        ensures taking { OnOk result (IsTaking self.new) }
        ensures order { OnOk result
            (order_of self.new ≡ with_session (view session.now) (order_of self.old)) }
    {
        if !self.numbers.insert(usize::from(session.number))? {
            return Ok(());
        }
        self.order.push(session)?;
        Ok(())
    }

    /// Takes the session whose transaction of unknown outcome the operation reads from.
    fn read(&mut self, op: &Op, writes: &UnknownWrites<'a>) -> Result<(), AllocError>
        requires { IsTaking self.old }
        ensures taking { OnOk result (IsTaking self.new) }
        ensures order { OnOk result
            (order_of self.new ≡ with_read (found_in writes.now) op.now (order_of self.old)) }
    {
        let Op::Read { key, wid } = op else {
            return Ok(());
        };
        let Some(write) = writes.table.get(wid) else {
            return Ok(());
        };
        if key != write.key {
            return Ok(());
        }
        self.take(write.session)?;
        Ok(())
    }

    fn read_all(&mut self, ops: &[Op], writes: &UnknownWrites<'a>) -> Result<(), AllocError>
        requires { IsTaking self.old }
        ensures taking { OnOk result (IsTaking self.new) }
        ensures order { OnOk result
            (order_of self.new ≡ with_reads (found_in writes.now) ops.now (order_of self.old)) }
    {
        for op in ops {
            self.read(op, writes)?;
        }
        Ok(())
    }

    /// Takes what a transaction reads from, where it ended so.
    fn read_txn(
        &mut self,
        txn: &Txn,
        outcome: Outcome,
        writes: &UnknownWrites<'a>,
    ) -> Result<(), AllocError>
        requires { IsTaking self.old }
        ensures taking { OnOk result (IsTaking self.new) }
        ensures order { OnOk result (order_of self.new
            ≡ with_reads (found_in writes.now) (ops_ended outcome (view_txn txn.now ∷ []))
            (order_of self.old)) }
    {
        if !has_ended(txn, outcome) {
            return Ok(());
        }
        self.read_all(&txn.ops, writes)?;
        Ok(())
    }

    /// Takes what the session's transactions read from that ended so.
    fn read_session(
        &mut self,
        session: &Session,
        outcome: Outcome,
        writes: &UnknownWrites<'a>,
    ) -> Result<(), AllocError>
        requires { IsTaking self.old }
        ensures taking { OnOk result (IsTaking self.new) }
        ensures order { OnOk result (order_of self.new
            ≡ with_reads (found_in writes.now) (ops_ended outcome (view session.now).txns)
            (order_of self.old)) }
    {
        for txn in &session.txns {
            self.read_txn(txn, outcome, writes)?;
        }
        Ok(())
    }

    /// Takes what the committed transactions read from.
    fn read_committed(
        &mut self,
        sessions: &[Session],
        writes: &UnknownWrites<'a>,
    ) -> Result<(), AllocError>
        requires { IsTaking self.old }
        ensures taking { OnOk result (IsTaking self.new) }
        ensures order { OnOk result (order_of self.new
            ≡ with_reads (found_in writes.now) (committed_in_all (map view sessions.now))
            (order_of self.old)) }
    {
        for session in sessions {
            self.read_session(session, Outcome::Commit, writes)?;
        }
        Ok(())
    }
}

/// The numbers of the sessions whose transaction of unknown outcome is taken. There are `unknown`
/// such transactions, and where there is none, nothing more is looked at.
pub fn taken_among(
    alloc: Global,
    sessions: &[Session],
    unknown: usize,
) -> Result<BTreeSet<usize>, AllocError>
    requires { unknown ≡ count_by is_unknown (txns_in (map view sessions.now)) }
    ensures { IfOk result (λ numbers. IsOnce (map view sessions.now) →
        (n : ℕ) → contains nat_cmp numbers n ≡ taken (map view sessions.now) n) }
{
    if unknown == 0 {
        return Ok(BTreeSet::new(alloc));
    }
    let writes = UnknownWrites::of(alloc, sessions)?;
    let mut taking = Taking::new(alloc);
    taking.read_committed(sessions, &writes)?;
    let mut done = 0;
    'work: while done < taking.order.len() {
        let session = taking.order[done];
        taking.read_session(session, Outcome::Unknown, &writes)?;
        done += 1;
    }
    let Taking { order: _, numbers } = taking;
    Ok(numbers)
}
