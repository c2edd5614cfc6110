//! The keys of a log.

ghost use Rattle.std.specs.Prelude.{◌≡◌, Some, None, IfOk, if◌then◌else◌, refl};
ghost use Rattle.std.specs.List.{list_all};
ghost use Rattle.std.specs.Str.{bytes_eq};
ghost use Rattle.std.specs.Hash as fed;
ghost use Rattle.std.specs.Hash.{items_Alike};
ghost use Rattle.std.specs.Cmp.{partial_equiv_from_equiv};
ghost use Rattle.std.specs.Cmp.Rules.{hashing};
ghost use Rattle.std.specs.Cmp.Lexicographic.{slice_cmp, nat_list_eq_equiv, nat_list_cmp_total};
ghost use Rattle.std.specs.Cmp.Lexicographic.{texts_ties, texts_po};
ghost use Rattle.std.specs.Ordering.{nat_cmp};
ghost use Rattle.std.proofs.Common.{rules};
ghost use Rattle.session_log.specs.Key.{IsKey, is_key, is_key_byte};

use crate::key_bytes::{KeyBytes, LONGEST};
use std::alloc::{AllocError, Global};
use std::cmp::Ordering;
use std::hash::{Hash, Hasher};
use std::marker::Model;

/// A key: 1 to 64 bytes of `A-Z a-z 0-9 _ . : / -`.
#[derive(Debug, Drop)]
pub struct Key {
    bytes: KeyBytes,
}

impl Model for Key {
    ghost use Rattle.std.specs.Prelude.{List, ℕ};
    ghost use Rattle.session_log.specs.Key.{IsKey};

    ghost Value = { List ℕ };

    ghost view = { λ k. k.bytes };

    ghost invariant = { λ k. IsKey k.bytes };
}

impl Key {
    /// The key of these bytes, where they are one, and `None` where they are not.
    pub fn new(alloc: Global, bytes: &[u8]) -> Result<Option<Key>, AllocError>
        ensures key { IfOk result (λ k. k ≡ (if is_key bytes.now then Some bytes.now else None)) }
    {
        if !is_key(bytes) {
            return Ok(None);
        }
        Ok(Some(Key {
            bytes: KeyBytes::of(alloc, bytes)?,
        }))
    }

    /// The same key, in memory of its own.
    pub fn to_owned_key(&self, alloc: Global) -> Result<Key, AllocError>
        ensures same { IfOk result (λ key. key ≡ self.now) }
    {
        Ok(Key {
            bytes: KeyBytes::of(alloc, self.as_bytes())?,
        })
    }

    /// The bytes, 1 to 64 of those that a key may have.
    pub fn as_bytes(&self) -> &[u8]
        ensures bytes { result.now ≡ self.now }
        ensures legal { IsKey self.now }
    {
        self.bytes.as_slice()
    }
}

impl PartialEq for Key {
    ghost eq = { bytes_eq };

    ghost laws = { partial_equiv_from_equiv nat_list_eq_equiv };

    fn eq(&self, other: &Key) -> bool {
        self.as_bytes() == other.as_bytes()
    }
}

impl Eq for Key {
    ghost laws = { nat_list_eq_equiv };
}

/// By the first bytes that differ; a key stands before the longer ones that it begins.
impl PartialOrd for Key {
    ghost partial_cmp = { λ a b. Some (slice_cmp nat_cmp a b) };

    ghost laws = { texts_po };

    fn partial_cmp(&self, other: &Key) -> Option<Ordering> {
        Some(self.cmp(other))
    }
}

impl Ord for Key {
    ghost cmp = { slice_cmp nat_cmp };

    ghost total = { nat_list_cmp_total };

    ghost matches_partial_cmp = { λ a b. refl };

    ghost matches_eq = { texts_ties };

    fn cmp(&self, other: &Key) -> Ordering {
        self.as_bytes().cmp(&other.as_bytes())
    }
}

impl Hash for Key {
    ghost hash_input = { λ k. fed.slice fed.u8 k };

    ghost respects_eq = { (items_Alike {F = fed.u8}
        (record { fed = Prim.search (hashing, rules) })).fed };

    fn hash<H: Hasher>(&self, state: &mut H) {
        self.as_bytes().hash(state);
    }
}

#[tactic(auto, unfolding(crate::specs::Key::is_key_byte))]
fn is_key_byte(b: u8) -> bool
    ensures { result ≡ is_key_byte b }
{
    matches!(b, b'A'..=b'Z' | b'a'..=b'z' | b'0'..=b'9' | b'_' | b'.' | b':' | b'/' | b'-')
}

fn all_key_bytes(bytes: &[u8]) -> bool
    ensures { result ≡ list_all is_key_byte bytes.now }
{
    bytes.iter().all(|b| is_key_byte(*b))
}

fn is_key(bytes: &[u8]) -> bool
    ensures { result ≡ is_key bytes.now }
{
    !bytes.is_empty() && bytes.len() <= LONGEST && all_key_bytes(bytes)
}
