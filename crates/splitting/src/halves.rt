//! The two transactions that a transaction is split into.

ghost use Rattle.std.specs.Prelude.{◌≡◌, ◌∷◌, ◌++◌, [], ◌+◌, ◌≤◌, ℕ, List, length, IfOk, OnOk, None};
ghost use Rattle.session_log.specs.Text.{view_txn};
ghost use Rattle.session_log.specs.declared.session.Op.{Op as OpValue};
ghost use Rattle.session_log.specs.declared.session.Op.TheVariants as op;
ghost use Rattle.point_laws.specs.Split.{Locks, split_txn};
ghost use Rattle.splitting.specs.Names.{name_by, lock_by};
ghost use Rattle.splitting.specs.Room.{Fit, AreNamed};
ghost use Rattle.splitting.specs.Halves.{ComesTo, lists_in};
ghost use Rattle.splitting.specs.declared.names.Names.{Names as NamesValue};

use crate::names::Names;
use session_log::{Key, Op, Txn};
use std::alloc::{AllocError, Global};
use std::collections::BTreeSet;

/// What the operations of a transaction come to so far.
#[derive(Drop)]
pub struct Halves<'a> {
    /// The keys that were written.
    written: BTreeSet<&'a Key>,
    /// The reads of keys that were not written before.
    reads: Vec<Op>,
    /// The writes that take locks, one for each key that was written.
    takes: Vec<Op>,
    /// The reads that find the locks as they were taken.
    finds: Vec<Op>,
    /// The other operations.
    rest: Vec<Op>,
}

impl<'a> Halves<'a> {
    /// Of no operations.
    fn empty(alloc: Global) -> Halves<'a>
        ensures { (names : NamesValue) (last : ℕ) (ops : List OpValue)
            → ComesTo names last ops result ops }
    {
        Halves {
            written: BTreeSet::new(alloc),
            reads: Vec::new(alloc),
            takes: Vec::new(alloc),
            finds: Vec::new(alloc),
            rest: Vec::new(alloc),
        }
    }

    fn add_read(&mut self, alloc: Global, key: &'a Key, wid: u64) -> Result<(), AllocError>
        ensures { OnOk result ((names : NamesValue) (last : ℕ) (ops behind : List OpValue)
            → ComesTo names last ops self.old (op.Read key.now wid ∷ behind)
            → ComesTo names last ops self.new behind) }
    {
        let read = Op::Read {
            key: key.to_owned_key(alloc)?,
            wid,
        };
        if self.written.contains(&key) {
            self.rest.push(read)?;
        } else {
            self.reads.push(read)?;
        }
        Ok(())
    }

    /// The lock of a key is taken under this identity, and found so.
    fn add_lock(
        &mut self,
        alloc: Global,
        names: &Names<'a>,
        key: &'a Key,
        taken_as: u64,
    ) -> Result<(), AllocError>
        requires { names.now.marks + length (name_by names.now key.now) ≤ 64 }
        ensures written { self.new.written ≡ self.old.written }
        ensures lists { let lock = lock_by names.now key.now in
            OnOk result (lists_in self.new ≡ record (lists_in self.old) {
              takes = self.old.takes.items ++ op.Write lock taken_as ∷ [];
              finds = self.old.finds.items ++ op.Read lock taken_as ∷ [];
            }) }
    {
        let lock = names.lock(alloc, key)?;
        self.finds.push(Op::Read {
            key: lock.to_owned_key(alloc)?,
            wid: taken_as,
        })?;
        self.takes.push(Op::Write {
            key: lock,
            wid: taken_as,
        })?;
        Ok(())
    }

    /// Takes a write. Where it is the first of its key, the lock of the key is taken under this
    /// identity.
    fn add_write(
        &mut self,
        alloc: Global,
        names: &Names<'a>,
        key: &'a Key,
        wid: u64,
        taken_as: u64,
    ) -> Result<(), AllocError>
        requires { names.now.marks + length (name_by names.now key.now) ≤ 64 }
        ensures { OnOk result ((last : ℕ) (ops behind : List OpValue)
            → ((locks : Locks) → AreNamed locks names.now last ops
            → locks.identity wid ≡ taken_as)
            → ComesTo names.now last ops self.old (op.Write key.now wid ∷ behind)
            → ComesTo names.now last ops self.new behind) }
    {
        self.rest.push(Op::Write {
            key: key.to_owned_key(alloc)?,
            wid,
        })?;
        if self.written.insert(key)? {
            self.add_lock(alloc, names, key, taken_as)?;
        }
        Ok(())
    }

    /// Of these operations, whose writes give the identities behind this one.
    fn of(
        alloc: Global,
        names: &Names<'a>,
        last: u64,
        ops: &'a [Op],
    ) -> Result<Halves<'a>, AllocError>
        requires { Fit names.now last ops.now }
        ensures { IfOk result (λ h. ComesTo names.now last ops.now h []) }
    {
        let mut halves = Halves::empty(alloc);
        let mut taken_as = last;
        for op in ops {
            match op {
                Op::Read { key, wid } => halves.add_read(alloc, key, *wid)?,
                Op::Write { key, wid } => {
                    taken_as += 1;
                    halves.add_write(alloc, names, key, *wid, taken_as)?;
                }
            }
        }
        Ok(halves)
    }
}

/// The two transactions of these operations that stand for one: the first has begun with it, and the
/// second has ended with it.
pub fn both_halves(txn: &Txn, start: Vec<Op>, end: Vec<Op>) -> (Txn, Txn)
    ensures start { view_txn result.0 ≡ record (view_txn txn.now) {
      ops = start.items;
      ended = None;
    } }
    ensures end { view_txn result.1 ≡ record (view_txn txn.now) {
      ops = end.items;
      begun = None;
    } }
{
    let start = Txn {
        ops: start,
        outcome: txn.outcome,
        begun: txn.begun,
        ended: None,
    };
    let end = Txn {
        ops: end,
        outcome: txn.outcome,
        begun: None,
        ended: txn.ended,
    };
    (start, end)
}

/// The two transactions that a transaction is split into, whose writes give the identities behind
/// this one.
pub fn split_txn<'a>(
    alloc: Global,
    names: &Names<'a>,
    last: u64,
    txn: &'a Txn,
) -> Result<(Txn, Txn), AllocError>
    requires { Fit names.now last txn.now.ops.items }
    ensures { IfOk result (λ both. (locks : Locks) → AreNamed locks names.now last txn.now.ops.items
        → view_txn both.0 ∷ view_txn both.1 ∷ [] ≡ split_txn locks (view_txn txn.now)) }
{
    let Halves {
        written: _,
        mut reads,
        mut takes,
        mut finds,
        mut rest,
    } = Halves::of(alloc, names, last, &txn.ops)?;
    reads.append(&mut takes)?;
    finds.append(&mut rest)?;
    Ok(both_halves(txn, reads, finds))
}
