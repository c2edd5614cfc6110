//! The numbers of the keys of a log.

ghost use Rattle.std.specs.Prelude.{◌≡◌, ◌∷◌, ◌+◌, ◌<◌, ◌^◌, ℕ, [], IfOk, OnOk, List, map, length, decimal, if◌then◌else◌, Some};
ghost use Rattle.std.specs.Str.{bytes_eq};
ghost use Rattle.session_log.specs.Text.{view, view_txn, key_of};
ghost use Rattle.log_definitions.specs.WellFormed.{keys_in};
ghost use Rattle.key_tables.specs.Parts.{held_by};
ghost use Rattle.splitting.specs.Names.{AreNumbers, Adds, number_by};
ghost use Rattle.splitting.specs.Halves.{ops_by};

use itoa::Buffer;
use key_tables::KeyTable;
use session_log::{Key, Op, Session, Txn};
use std::alloc::{AllocError, Global};

/// Keys by their numbers from 1, in the order of their first appearance.
#[derive(Drop)]
pub struct KeyNumbers<'a> {
    table: KeyTable<'a>,
    /// The number of the next key.
    next: u64,
}

impl<'a> KeyNumbers<'a> {
    /// Of no keys, where about so many are to come.
    fn empty(alloc: Global, keys: usize) -> Result<KeyNumbers<'a>, AllocError>
        ensures { IfOk result (AreNumbers []) }
    {
        Ok(KeyNumbers {
            table: KeyTable::new(alloc, keys)?,
            next: 1,
        })
    }

    /// Adds a key that has no number yet.
    fn add_new(&mut self, key: &'a Key) -> Result<(), AllocError>
        ensures next { OnOk result (self.new.next ≡ self.old.next + 1) }
        ensures held { OnOk result ((k : List ℕ) → held_by self.new.table k
            ≡ (if bytes_eq key.now k then Some self.old.next else held_by self.old.table k)) }
    {
        self.table.hold(key, self.next)?;
        self.next = self.next.checked_add(1).ok_or(AllocError)?;
        Ok(())
    }

    fn add_key(&mut self, key: &'a Key) -> Result<(), AllocError>
        ensures { OnOk result (Adds self.old (key.now ∷ []) self.new) }
    {
        if self.table.held(key).is_none() {
            self.add_new(key)?;
        }
        Ok(())
    }

    fn add_ops(&mut self, ops: &'a [Op]) -> Result<(), AllocError>
        ensures { OnOk result (Adds self.old (map key_of ops.now) self.new) }
    {
        for op in ops {
            self.add_key(op.key())?;
        }
        Ok(())
    }

    fn add_txns(&mut self, txns: &'a [Txn]) -> Result<(), AllocError>
        ensures { OnOk result (Adds self.old (map key_of (ops_by (map view_txn txns.now)))
            self.new) }
    {
        for txn in txns {
            self.add_ops(&txn.ops)?;
        }
        Ok(())
    }

    /// Of the keys of these sessions, of which there are about so many.
    pub fn of(
        alloc: Global,
        keys: usize,
        sessions: &'a [Session],
    ) -> Result<KeyNumbers<'a>, AllocError>
        ensures { IfOk result (AreNumbers (keys_in (map view sessions.now))) }
    {
        let mut numbers = KeyNumbers::empty(alloc, keys)?;
        for session in sessions {
            numbers.add_txns(&session.txns)?;
        }
        Ok(numbers)
    }

    /// The number of a key, or the next one.
    pub fn number(&self, key: &'a Key) -> u64
        ensures number { result ≡ number_by self.now key.now }
        ensures few { result < 2 ^ 64 }
    {
        self.table.held(key).unwrap_or(self.next)
    }

    /// How many digits the last number has.
    pub fn most_digits(&self) -> usize
        ensures { (keys : List (List ℕ)) → AreNumbers keys self.now
            → result ≡ length (decimal (length keys)) }
    {
        Buffer::new().format(self.next.saturating_sub(1)).len()
    }
}
