//! A few bytes, in place.

ghost use Rattle.std.specs.Prelude.{◌≡◌, ◌≤◌, ◌<◌, length};

use std::marker::Model;

/// Up to `N` bytes, in place. Contracts see the bytes.
#[derive(Debug, Drop)]
pub(crate) struct ShortBytes<const N: usize> {
    count: u8,
    bytes: [u8; N],
}

impl<const N: usize> Model for ShortBytes<N> {
    ghost use Rattle.std.specs.Prelude.{List, ℕ, ◌≤◌, take};

    ghost Value = { List ℕ };

    ghost view = { λ b. take b.count b.bytes };

    ghost invariant = { λ b. b.count ≤ N };
}

impl<const N: usize> ShortBytes<N> {
    /// These bytes.
    pub(crate) fn of(text: &[u8]) -> ShortBytes<N>
        requires room { length text.now ≤ N }
        requires few { length text.now < 256 }
        ensures { result ≡ text.now }
    {
        let mut bytes = [0; N];
        bytes[..text.len()].copy_from_slice(text);
        ShortBytes {
            count: text.len() as u8,
            bytes,
        }
    }

    /// The bytes.
    pub(crate) fn as_slice(&self) -> &[u8]
        ensures { result.now ≡ self.now }
    {
        &self.bytes[..usize::from(self.count)]
    }
}
