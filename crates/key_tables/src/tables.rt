//! Many tables, each for the keys with some marks, so that most have few keys.

ghost use Rattle.std.specs.Prelude.{◌≡◌, ℕ, List, length, if◌then◌else◌, Some, None, IfOk, OnOk};
ghost use Rattle.std.specs.Str.{bytes_eq};
ghost use Rattle.key_tables.specs.Parts.{held_by, place_in};

use crate::mark::mark_of;
use crate::table::{held, hold};
use session_log::Key;
use std::alloc::{AllocError, Global};
use std::collections::BTreeMap;

/// There are at most so many tables.
const MOST_TABLES: usize = 1 << 14;

/// What keys hold.
#[derive(Drop)]
pub struct KeyTable<'a> {
    tables: Vec<BTreeMap<(u64, &'a Key), u64>>,
}

impl<'a> KeyTable<'a> {
    /// Nothing, where about so many keys are to come.
    pub fn new(alloc: Global, keys: usize) -> Result<KeyTable<'a>, AllocError>
        ensures { IfOk result (λ new. (k : List ℕ) → held_by new k ≡ None) }
    {
        let count = keys.clamp(1, MOST_TABLES);
        let mut tables = Vec::with_capacity(alloc, count)?;
        for _ in 0..count {
            tables.push(BTreeMap::new(alloc))?;
        }
        Ok(KeyTable { tables })
    }

    /// Which table is for a key.
    fn place_of(&self, key: &Key) -> usize
        ensures { result ≡ place_in (length self.now.tables.items) key.now }
    {
        let count = self.tables.len();
        if count == 0 {
            return 0;
        }
        (mark_of(key) % count as u64) as usize
    }

    /// What a key holds.
    pub fn held(&self, key: &'a Key) -> Option<u64>
        ensures { result ≡ held_by self.now key.now }
    {
        let table = self.tables.get(self.place_of(key))?;
        held(table, key)
    }

    /// Has a key hold a number.
    pub fn hold(&mut self, key: &'a Key, value: u64) -> Result<(), AllocError>
        ensures { OnOk result ((k : List ℕ) → held_by self.new k
            ≡ (if bytes_eq key.now k then Some value else held_by self.old k)) }
    {
        let place = self.place_of(key);
        let Some(table) = self.tables.get_mut(place) else {
            return Err(AllocError);
        };
        hold(table, key, value)?;
        Ok(())
    }
}
