//! A table by keys, each with its mark.

ghost use Rattle.std.specs.Prelude.{◌≡◌, ◌+◌, ℕ, List, if◌then◌else◌, is_some, Some, OnOk};
ghost use Rattle.std.specs.Str.{bytes_eq};
ghost use Rattle.std.specs.BTreeMap.{btree_map_len};
ghost use Rattle.key_tables.specs.Table.{held_in};

use crate::mark::mark_of;
use session_log::Key;
use std::alloc::AllocError;
use std::collections::BTreeMap;

/// What a key holds.
pub fn held<'a>(table: &BTreeMap<(u64, &'a Key), u64>, key: &'a Key) -> Option<u64>
    ensures held { result ≡ held_in table.now key.now }
{
    table.get(&(mark_of(key), key)).copied()
}

/// Has a key hold a number.
pub fn hold<'a>(
    table: &mut BTreeMap<(u64, &'a Key), u64>,
    key: &'a Key,
    value: u64,
) -> Result<(), AllocError>
    ensures held { OnOk result ((k : List ℕ) → held_in table.new k
        ≡ (if bytes_eq key.now k then Some value else held_in table.old k)) }
    ensures count { OnOk result (btree_map_len table.new
        ≡ btree_map_len table.old + (if is_some (held_in table.old key.now) then 0 else 1)) }
{
    table.insert((mark_of(key), key), value)?;
    Ok(())
}
