//! Keys as numbers.

ghost use Rattle.std.specs.Prelude.{◌≡◌, ℕ, ◌<◌, List, [], ◌∷◌, map, length, slice_get, Some};
ghost use Rattle.std.specs.Prelude.{IsTrue, OnOk, IfOk};
ghost use Rattle.log_definitions.specs.WellFormed.{first_seen};
ghost use Rattle.session_log.specs.Text.{key_of};
ghost use Rattle.log_definitions.specs.Numbers.{number_in, event_of, events_of};

use serializability::Event;
use session_log::{Key, Op};
use std::alloc::{AllocError, Global};
use std::collections::BTreeMap;
use std::hash::{FoldHasher, Hasher};

/// How many marks there are.
const MARKS: usize = 65_536;

/// The keys that have been seen, in the order of their first appearance. A key is tried first at
/// the number that the last key of its mark had, and else found by comparison, so that no choice of
/// keys makes the search long.
#[derive(Drop)]
pub struct Numbers {
    texts: Vec<Key>,
    numbers: BTreeMap<Key, usize>,
    /// By mark, the number that the last key of this mark had.
    recent: Vec<usize>,
}

impl Numbers {
    ghost use Rattle.session_history.specs.Numbering.{FindsEach};

    /// No keys.
    pub fn new(alloc: Global) -> Result<Numbers, AllocError>
        ensures empty { IfOk result (λ numbers. numbers.texts.items ≡ []) }
        ensures finds { IfOk result FindsEach }
    {
        Ok(Numbers {
            texts: Vec::new(alloc),
            numbers: BTreeMap::new(alloc),
            recent: vec![in alloc; 0; MARKS]?,
        })
    }

    /// How many keys there are.
    pub fn len(&self) -> usize
        ensures { result ≡ length self.now.texts.items }
    {
        self.texts.len()
    }

    /// The keys.
    pub fn into_texts(self) -> Vec<Key>
        ensures { result.items ≡ self.texts.items }
    {
        self.texts
    }

    /// Whether this is the number of the key.
    fn has(&self, number: usize, key: &Key) -> bool
        ensures { IsTrue result → slice_get self.now.texts.items number ≡ Some key.now }
    {
        match self.texts.get(number) {
            Some(text) => text == key,
            None => false,
        }
    }

    /// The number of a key, which is added where it is new.
    fn number(&mut self, alloc: Global, key: &Key) -> Result<usize, AllocError>
        requires { FindsEach self.old }
        ensures finds { OnOk result (FindsEach self.new) }
        ensures keys { OnOk result
            (self.new.texts.items ≡ first_seen self.old.texts.items (key.now ∷ [])) }
        ensures number { IfOk result (λ n. (later : List (List ℕ)) →
            n ≡ number_in (first_seen self.new.texts.items later) key.now) }
    {
        let mark = mark_of(key);
        let guess = self.recent[mark];
        if self.has(guess, key) {
            return Ok(guess);
        }
        let number = self.search(alloc, key)?;
        self.recent[mark] = number;
        Ok(number)
    }

    /// The number of a key, found by comparison; a new key is added.
    fn search(&mut self, alloc: Global, key: &Key) -> Result<usize, AllocError>
        requires { FindsEach self.old }
        ensures finds { OnOk result (FindsEach self.new) }
        ensures keys { OnOk result
            (self.new.texts.items ≡ first_seen self.old.texts.items (key.now ∷ [])) }
        ensures number { IfOk result (λ n. (later : List (List ℕ)) →
            n ≡ number_in (first_seen self.new.texts.items later) key.now) }
    {
        if let Some(number) = self.numbers.get(key) {
            return Ok(*number);
        }
        let number = self.len();
        self.numbers.insert(key.to_owned_key(alloc)?, number)?;
        self.texts.push(key.to_owned_key(alloc)?)?;
        Ok(number)
    }

    /// An operation, with a number for its key.
    fn event(&mut self, alloc: Global, op: &Op) -> Result<Event, AllocError>
        requires { FindsEach self.old }
        ensures finds { OnOk result (FindsEach self.new) }
        ensures keys { OnOk result
            (self.new.texts.items ≡ first_seen self.old.texts.items (key_of op.now ∷ [])) }
        ensures event { IfOk result (λ event. (later : List (List ℕ)) →
            event ≡ event_of (first_seen self.new.texts.items later) op.now) }
    {
        match op {
            Op::Read { key, wid } => {
                let key = self.number(alloc, key)?;
                Ok(Event::Read { key, wid: *wid })
            }
            Op::Write { key, wid } => {
                let key = self.number(alloc, key)?;
                Ok(Event::Write { key, wid: *wid })
            }
        }
    }

    /// The operations, with numbers for the keys.
    pub fn events(&mut self, alloc: Global, ops: &[Op]) -> Result<Vec<Event>, AllocError>
        requires { FindsEach self.old }
        ensures finds { OnOk result (FindsEach self.new) }
        ensures keys { OnOk result
            (self.new.texts.items ≡ first_seen self.old.texts.items (map key_of ops.now)) }
        ensures events { IfOk result (λ events. (later : List (List ℕ)) →
            events.items ≡ events_of (first_seen self.new.texts.items later) ops.now) }
    {
        let mut events = Vec::with_capacity(alloc, ops.len())?;
        for op in ops {
            events.push(self.event(alloc, op)?)?;
        }
        Ok(events)
    }
}

/// A number that equal keys share, and most others do not.
fn mark_of(key: &Key) -> usize
    ensures { result < 65536 }
{
    let mut hasher = FoldHasher::default();
    hasher.write(key.as_bytes());
    hasher.finish() as usize % MARKS
}
