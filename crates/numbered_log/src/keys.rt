//! The numbers of keys.

ghost use Rattle.std.specs.Prelude.{◌≡◌, ◌≢◌, ◌↔◌, ◌+◌, ◌%◌, ◌<◌, [], ◌∷◌, Some, length, slice_get, IfOk, OnOk};
ghost use Rattle.std.specs.Prelude.{IsTrue, slice_index};
ghost use Rattle.key_tables.specs.Table.{mark_of};
ghost use Rattle.log_definitions.specs.WellFormed.{first_seen};
ghost use Rattle.numbered_log.specs.Finding.{FindsKeys};
ghost use Rattle.numbered_log.specs.View.{texts_of};

use crate::fault::{NumberingFault, short};
use crate::mark::mark_of;
use key_tables::{held, hold};
use session_log::Key;
use std::alloc::{AllocError, Global};
use std::collections::BTreeMap;

/// The keys that have been seen, in the order of their first appearance. The first key of a mark is
/// found by the mark, and another one in a tree, so that no choice of keys makes the search long.
#[derive(Drop)]
pub struct KeyNumbers<'a> {
    pub texts: Vec<&'a Key>,
    /// By mark, the number of its first key and 1, or 0.
    firsts: Vec<u32>,
    others: BTreeMap<(u64, &'a Key), u64>,
}

/// A number below this one that equal keys share, and most others do not.
fn place_of(key: &Key, marks: usize) -> usize
    requires { 0 < marks }
    ensures place { result ≡ mark_of key.now % marks }
    ensures below { result < marks }
{
    (mark_of(key) % marks as u64) as usize
}

impl<'a> KeyNumbers<'a> {
    /// No keys, with room for so many marks.
    pub fn new(alloc: Global, marks: usize) -> Result<KeyNumbers<'a>, AllocError>
        requires { 0 < marks }
        ensures empty { IfOk result (λ keys. keys.texts.items ≡ []) }
        ensures finds { IfOk result FindsKeys }
    {
        Ok(KeyNumbers {
            texts: Vec::new(alloc),
            firsts: vec![in alloc; 0; marks]?,
            others: BTreeMap::new(alloc),
        })
    }

    /// Whether this is the number of the key.
    fn has(&self, number: usize, key: &Key) -> bool
        ensures { IsTrue result ↔ (slice_get (texts_of self.now.texts.items) number ≡ Some key.now) }
    {
        match self.texts.get(number) {
            Some(text) => *text == key,
            None => false,
        }
    }

    /// The number of a key, which it gets where it is new.
    pub fn number(&mut self, key: &'a Key) -> Result<u32, NumberingFault>
        requires { FindsKeys self.old }
        ensures finds { OnOk result (FindsKeys self.new) }
        ensures keys { OnOk result (texts_of self.new.texts.items
            ≡ first_seen (texts_of self.old.texts.items) (key.now ∷ [])) }
        ensures number { IfOk result
            (λ n. slice_get (texts_of self.new.texts.items) n ≡ Some key.now) }
    {
        let place = place_of(key, self.firsts.len());
        let first = self.firsts[place];
        if first == 0 {
            return self.add_first(key, place);
        }
        if self.has(first as usize - 1, key) {
            return Ok(first - 1);
        }
        self.search(key, first as usize - 1)
    }

    /// Adds the first key of a mark.
    fn add_first(&mut self, key: &'a Key, place: usize) -> Result<u32, NumberingFault>
        requires finds { FindsKeys self.old }
        requires place { place ≡ mark_of key.now % length self.old.firsts.items }
        requires below { place < length self.old.firsts.items }
        requires none { slice_index self.old.firsts.items place ≡ 0 }
        ensures finds { OnOk result (FindsKeys self.new) }
        ensures keys { OnOk result (texts_of self.new.texts.items
            ≡ first_seen (texts_of self.old.texts.items) (key.now ∷ [])) }
        ensures number { IfOk result
            (λ n. slice_get (texts_of self.new.texts.items) n ≡ Some key.now) }
    {
        let number = short(self.texts.len())?;
        self.texts.push(key)?;
        self.firsts[place] = number + 1;
        Ok(number)
    }

    /// The number of a key that is not the first one of its mark, which is this one.
    fn search(&mut self, key: &'a Key, first: usize) -> Result<u32, NumberingFault>
        requires finds { FindsKeys self.old }
        requires first { slice_index self.old.firsts.items
            (mark_of key.now % length self.old.firsts.items) ≡ first + 1 }
        requires other { slice_get (texts_of self.old.texts.items) first ≢ Some key.now }
        ensures finds { OnOk result (FindsKeys self.new) }
        ensures keys { OnOk result (texts_of self.new.texts.items
            ≡ first_seen (texts_of self.old.texts.items) (key.now ∷ [])) }
        ensures number { IfOk result
            (λ n. slice_get (texts_of self.new.texts.items) n ≡ Some key.now) }
    {
        if let Some(number) = held(&self.others, key) {
            return short(number as usize);
        }
        let number = short(self.texts.len())?;
        self.texts.push(key)?;
        hold(&mut self.others, key, u64::from(number))?;
        Ok(number)
    }
}
