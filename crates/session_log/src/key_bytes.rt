//! Where the bytes of a key lie.

ghost use Rattle.std.specs.Prelude.{◌≡◌, ◌≤◌, length, IfOk};
ghost use Rattle.session_log.specs.declared.key_bytes.TheConstants.{LONGEST};

use crate::short_bytes::ShortBytes;
use std::alloc::{AllocError, Global};
use std::marker::Model;

/// As many bytes as leave an operation of a log 32 bytes: a log has millions of operations, and
/// most of their keys are this short.
const IN_PLACE: usize = 14;

/// The most bytes of a key.
pub(crate) const LONGEST: usize = 64;

const _: () = prove!(size_of::<KeyBytes>() == 16);

/// Up to `LONGEST` bytes: a few lie in place, and more in memory of their own. Contracts see the
/// bytes.
#[derive(Debug, Drop)]
pub(crate) struct KeyBytes {
    place: Place,
}

#[derive(Debug, Drop)]
enum Place {
    Here(ShortBytes<IN_PLACE>),
    Apart(Box<ShortBytes<LONGEST>>),
}

impl Model for KeyBytes {
    ghost use Rattle.std.specs.Prelude.{List, ℕ};

    ghost Value = { List ℕ };

    ghost use Rattle.session_log.specs.Placed.{bytes_at};

    ghost view = { λ b. bytes_at b.place };
}

impl KeyBytes {
    /// These bytes, with memory where they are many.
    pub(crate) fn of(alloc: Global, bytes: &[u8]) -> Result<KeyBytes, AllocError>
        requires { length bytes.now ≤ LONGEST }
        ensures { IfOk result (λ b. b ≡ bytes.now) }
    {
        let place = if bytes.len() <= IN_PLACE {
            Place::Here(ShortBytes::of(bytes))
        } else {
            Place::Apart(Box::new(alloc, ShortBytes::of(bytes))?)
        };
        Ok(KeyBytes { place })
    }

    /// The bytes.
    pub(crate) fn as_slice(&self) -> &[u8]
        ensures { result.now ≡ self.now }
    {
        match &self.place {
            Place::Here(bytes) => bytes.as_slice(),
            Place::Apart(bytes) => bytes.as_slice(),
        }
    }
}
