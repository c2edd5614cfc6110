//! How many faults each key has.

ghost use Rattle.std.specs.Prelude.{◌≡◌, ◌+◌, ◌<◌, ℕ, List, if◌then◌else◌, count_by, OnOk};
ghost use Rattle.std.specs.Option.{ForSome};
ghost use Rattle.std.specs.BTreeMap.{get_by};
ghost use Rattle.std.specs.Str.{bytes_eq};
ghost use Rattle.census.specs.States.{entry_cmp};
ghost use Rattle.census.specs.Counts.{count_in};

use serializability::ReadAnomaly;
use session_log::Key;
use std::alloc::{AllocError, Global};
use std::collections::BTreeMap;

/// How many faults each key has. Those that have none are not in the table.
#[derive(Drop)]
pub struct KeyCounts<'a> {
    pub table: BTreeMap<&'a Key, usize>,
    ghost positive: { (k : List ℕ) → ForSome (get_by (entry_cmp k) table) (λ n. 0 < n) },
}

impl<'a> KeyCounts<'a> {
    /// None.
    pub fn new(alloc: Global) -> KeyCounts<'a>
        ensures { (k : List ℕ) → count_in result.table k ≡ 0 }
    {
        KeyCounts {
            table: BTreeMap::new(alloc),
        }
    }

    /// How many faults a key has.
    fn of(&self, key: &'a Key) -> usize
        ensures { result ≡ count_in self.now.table key.now }
    {
        self.table.get(&key).copied().unwrap_or(0)
    }

    /// Adds a fault of a key.
    pub fn add(&mut self, key: &'a Key) -> Result<(), AllocError>
        ensures { OnOk result ((k : List ℕ) → count_in self.new.table k
            ≡ count_in self.old.table k + (if bytes_eq k key.now then 1 else 0)) }
    {
        let Some(count) = self.of(key).checked_add(1) else {
            return Err(AllocError);
        };
        self.table.insert(key, count)?;
        Ok(())
    }

    /// Adds a fault of the key of each of these reads.
    pub fn add_reads(&mut self, faults: &[(ReadAnomaly, &'a Key)]) -> Result<(), AllocError>
        ensures { OnOk result ((k : List ℕ) → count_in self.new.table k
            ≡ count_in self.old.table k + count_by (λ f. bytes_eq k f.1.now) faults.now) }
    {
        for (_, key) in faults {
            self.add(*key)?;
        }
        Ok(())
    }
}
