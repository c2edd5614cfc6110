//! The mark of a key.

ghost use Rattle.std.specs.Prelude.{◌≡◌};
ghost use Rattle.key_tables.specs.Table.{mark_of};

use session_log::Key;

/// An odd number, by which a mark is multiplied for each byte.
const FACTOR: u64 = 0x100_0000_01b3;

/// A number that differs for most keys that do.
pub fn mark_of(key: &Key) -> u64
    ensures mark { result ≡ mark_of key.now }
{
    let mut mark: u64 = 0;
    for byte in key.as_bytes() {
        mark = mark.wrapping_mul(FACTOR).wrapping_add(u64::from(*byte));
    }
    mark
}
