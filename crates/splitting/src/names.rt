//! The keys of locks.

ghost use Rattle.std.specs.Prelude.{◌≡◌, ◌+◌, ◌≤◌, ℕ, Bool, List, length, map, nat_lt, if◌then◌else◌, decimal, IfOk};
ghost use Rattle.session_log.specs.Key.{IsKey};
ghost use Rattle.session_log.specs.Text.{view};
ghost use Rattle.log_definitions.specs.WellFormed.{keys_in};
ghost use Rattle.splitting.specs.Locks.{lock_key};
ghost use Rattle.splitting.specs.Names.{name_by, lock_by, NumbersWhere};

use crate::numbers::KeyNumbers;
use crate::survey::Survey;
use itoa::Buffer;
use session_log::{Key, Session};
use std::alloc::{AllocError, Global};

/// How the locks of a log are named.
#[derive(Drop)]
pub struct Names<'a> {
    /// How many underscores a lock begins with.
    marks: usize,
    /// The numbers of the keys, where some key has no room behind the underscores.
    numbers: Option<KeyNumbers<'a>>,
}

/// A lock: so many underscores, and a name.
fn lock_key(alloc: Global, marks: usize, name: &[u8]) -> Result<Key, AllocError>
    requires name { IsKey name.now }
    requires room { marks + length name.now ≤ 64 }
    ensures { IfOk result (λ lock. lock ≡ lock_key marks name.now) }
{
    let mut bytes = vec![in alloc; b'_'; marks]?;
    bytes.extend_from_slice(name)?;
    match Key::new(alloc, &bytes)? {
        Some(lock) => Ok(lock),
        None => unreachable!(),
    }
}

impl<'a> Names<'a> {
    /// Those of a log that has this.
    pub fn of(
        alloc: Global,
        survey: Survey,
        sessions: &'a [Session],
    ) -> Result<Names<'a>, AllocError>
        ensures marks { IfOk result (λ names. names.marks ≡ survey.marks) }
        ensures numbers { IfOk result (λ names.
            NumbersWhere (nat_lt 64 (survey.marks + survey.longest))
            (keys_in (map view sessions.now)) names.numbers) }
    {
        let numbers = if survey.is_long() {
            Some(KeyNumbers::of(alloc, survey.writes, sessions)?)
        } else {
            None
        };
        Ok(Names {
            marks: survey.marks,
            numbers,
        })
    }

    /// The bytes of the longest name, where the longest key has so many.
    pub fn widest(&self, longest: usize) -> usize
        ensures { (long : Bool) (keys : List (List ℕ)) → NumbersWhere long keys self.now.numbers
            → result ≡ (if long then length (decimal (length keys)) else longest) }
    {
        match &self.numbers {
            Some(numbers) => numbers.most_digits(),
            None => longest,
        }
    }

    /// The lock of a key.
    pub fn lock(&self, alloc: Global, key: &'a Key) -> Result<Key, AllocError>
        requires { self.now.marks + length (name_by self.now key.now) ≤ 64 }
        ensures { IfOk result (λ lock. lock ≡ lock_by self.now key.now) }
    {
        match &self.numbers {
            Some(numbers) => {
                let mut digits = Buffer::new();
                lock_key(
                    alloc,
                    self.marks,
                    digits.format(numbers.number(key)).as_bytes(),
                )
            }
            None => lock_key(alloc, self.marks, key.as_bytes()),
        }
    }
}
