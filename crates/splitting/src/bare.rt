//! The sessions of the log that is split without locks.

ghost use Rattle.std.specs.Prelude.{◌≡◌, ◌∷◌, ◌++◌, [], List, map, IfOk, OnOk};
ghost use Rattle.std.specs.List.{flat_map};
ghost use Rattle.session_log.specs.Text.{view, view_txn};
ghost use Rattle.session_log.specs.declared.session.Op.{Op as OpValue};
ghost use Rattle.point_laws.specs.Split.{split_txn, split_writers};
ghost use Rattle.point_laws.specs.Prefix.{no_locks};
ghost use Rattle.splitting.specs.Halves.{parts};
ghost use Rattle.splitting.specs.Sides.{AreSides};

use crate::halves::both_halves;
use crate::log::{copy_op, copy_txn, is_writer};
use session_log::{Key, Op, Session, Txn};
use std::alloc::{AllocError, Global};
use std::collections::BTreeSet;

/// What the operations of a transaction come to so far.
#[derive(Drop)]
pub struct Sides<'a> {
    /// The keys that were written.
    written: BTreeSet<&'a Key>,
    /// The reads of keys that were not written before.
    reads: Vec<Op>,
    /// The other operations.
    rest: Vec<Op>,
}

impl<'a> Sides<'a> {
    fn add(&mut self, alloc: Global, op: &'a Op) -> Result<(), AllocError>
        ensures { OnOk result ((ops behind : List OpValue) → AreSides ops self.old (op.now ∷ behind)
            → AreSides ops self.new behind) }
    {
        let copy = copy_op(alloc, op)?;
        match op {
            Op::Read { key, .. } => {
                if self.written.contains(&key) {
                    self.rest.push(copy)?;
                } else {
                    self.reads.push(copy)?;
                }
            }
            Op::Write { key, .. } => {
                self.rest.push(copy)?;
                self.written.insert(key)?;
            }
        }
        Ok(())
    }

    fn of(alloc: Global, ops: &'a [Op]) -> Result<Sides<'a>, AllocError>
        ensures { IfOk result (λ sides. AreSides ops.now sides []) }
    {
        let mut sides = Sides {
            written: BTreeSet::new(alloc),
            reads: Vec::new(alloc),
            rest: Vec::new(alloc),
        };
        for op in ops {
            sides.add(alloc, op)?;
        }
        Ok(sides)
    }
}

/// The two transactions that a transaction is split into: its reads from the snapshot, and the rest.
fn split_txn(alloc: Global, txn: &Txn) -> Result<(Txn, Txn), AllocError>
    ensures { IfOk result (λ both. view_txn both.0 ∷ view_txn both.1 ∷ []
        ≡ split_txn no_locks (view_txn txn.now)) }
{
    let Sides {
        written: _,
        reads,
        rest,
    } = Sides::of(alloc, &txn.ops)?;
    Ok(both_halves(txn, reads, rest))
}

/// Adds what stands for a transaction in the split log.
fn add_txn(alloc: Global, txn: &Txn, txns: &mut Vec<Txn>) -> Result<(), AllocError>
    ensures { OnOk result (map view_txn txns.new.items
        ≡ map view_txn txns.old.items ++ parts no_locks (view_txn txn.now)) }
{
    if is_writer(txn) {
        let (start, end) = split_txn(alloc, txn)?;
        txns.push(start)?;
        txns.push(end)?;
    } else {
        txns.push(copy_txn(alloc, txn)?)?;
    }
    Ok(())
}

/// The transactions of a session of the split log.
fn split_txns(alloc: Global, txns: &[Txn]) -> Result<Vec<Txn>, AllocError>
    ensures { IfOk result (λ split. map view_txn split.items
        ≡ flat_map (parts no_locks) (map view_txn txns.now)) }
{
    let mut split = Vec::with_capacity(alloc, txns.len())?;
    for txn in txns {
        add_txn(alloc, txn, &mut split)?;
    }
    Ok(split)
}

/// The log in which each committed transaction that writes is split in two without locks: its reads
/// from the snapshot, and the rest. There is always room for it, since it names nothing new.
pub fn split_bare(alloc: Global, sessions: &[Session]) -> Result<Vec<Session>, AllocError>
    ensures bare { IfOk result (λ split. map view split.items
        ≡ split_writers no_locks (map view sessions.now)) }
{
    let mut split = Vec::with_capacity(alloc, sessions.len())?;
    for session in sessions {
        split.push(Session {
            number: session.number,
            txns: split_txns(alloc, &session.txns)?,
        })?;
    }
    Ok(split)
}
