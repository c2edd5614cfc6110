//! Which clause has a set of literals.

use crate::distinct::Marks;
use std::alloc::{AllocError, Global};
use watched_clauses::{Code, Store};

/// The most clauses of one list that are looked at, so that no choice of clauses makes it slow. A
/// deletion of a clause behind these is passed over, which only leaves more clauses standing.
const MOST_LOOKED_AT: usize = 64;

/// A clause in its list: its sum, and the clause that came into the list before it.
#[derive(Clone, Copy)]
struct Entry {
    sum: u32,
    before: Option<u32>,
    listed: bool,
}

/// Lists of clauses by a sum over their literals.
#[derive(Drop)]
pub(crate) struct Index {
    alloc: Global,
    // which clause came last into each list
    lists: Vec<Option<u32>>,
    entries: Vec<Entry>,
}

/// How many lists there are at first.
const FEWEST_LISTS: usize = 1024;

/// A sum over the literals of a clause, in whatever order.
fn sum_of(clause: &[Code]) -> u32 {
    let mut sum: u64 = 0;
    for code in clause {
        sum = sum.wrapping_add(code.mixed());
    }
    (sum >> 32) as u32
}

impl Index {
    pub(crate) fn new(alloc: Global) -> Result<Index, AllocError> {
        Ok(Index {
            alloc,
            lists: vec![in alloc; None; FEWEST_LISTS]?,
            entries: Vec::new(alloc),
        })
    }

    /// The place of the list of a sum.
    fn list_of(&self, sum: u32) -> usize {
        (sum as usize).checked_rem(self.lists.len()).unwrap_or(0)
    }

    /// Takes in the clauses that were stored since the last call.
    pub(crate) fn take_in(&mut self, store: &Store) -> Result<(), AllocError> {
        for number in self.entries.len()..store.len() {
            self.add(store.clause(number))?;
        }
        Ok(())
    }

    /// Adds a clause under the next number. One without literals is in no list.
    fn add(&mut self, clause: &[Code]) -> Result<(), AllocError> {
        let number = self.entries.len();
        self.entries.push(Entry {
            sum: sum_of(clause),
            before: None,
            listed: !clause.is_empty(),
        })?;
        if number > self.lists.len() {
            self.grow()
        } else {
            self.link(number);
            Ok(())
        }
    }

    /// Puts a clause into the list of its sum.
    fn link(&mut self, number: usize) {
        let Some(entry) = self.entries.get(number).copied() else {
            return;
        };
        let list = self.list_of(entry.sum);
        if list < self.lists.len() && number < self.entries.len() && entry.listed {
            self.entries[number].before = self.lists[list];
            self.lists[list] = u32::try_from(number).ok();
        }
    }

    /// Makes twice as many lists.
    fn grow(&mut self) -> Result<(), AllocError> {
        let count = self.lists.len().saturating_mul(2);
        self.lists = vec![in self.alloc; None; count]?;
        for number in 0..self.entries.len() {
            self.link(number);
        }
        Ok(())
    }

    /// Takes out a clause that has the marked literals, which are those of `clause`, and gives its
    /// number.
    pub(crate) fn take(&mut self, store: &Store, marks: &Marks, clause: &[Code]) -> Option<u32> {
        let sum = sum_of(clause);
        let mut behind = None;
        let mut next = self.lists.get(self.list_of(sum)).copied().flatten();
        for _ in 0..MOST_LOOKED_AT {
            let number = next?;
            let entry = self.entries.get(number as usize).copied()?;
            if entry.sum == sum && is_marked(store.clause(number as usize), marks, clause.len()) {
                self.unlink(behind, number, entry);
                return Some(number);
            }
            behind = next;
            next = entry.before;
        }
        None
    }

    /// Takes a clause out of its list, in which this one came behind it, where one did.
    fn unlink(&mut self, behind: Option<u32>, number: u32, entry: Entry) {
        let list = self.list_of(entry.sum);
        if let Some(behind) = behind {
            if let Some(place) = self.entries.get_mut(behind as usize) {
                place.before = entry.before;
            }
        } else if let Some(place) = self.lists.get_mut(list) {
            *place = entry.before;
        }
        if let Some(place) = self.entries.get_mut(number as usize) {
            place.listed = false;
        }
    }
}

/// Whether a clause has so many literals, all of them marked.
fn is_marked(clause: &[Code], marks: &Marks, length: usize) -> bool {
    clause.len() == length && clause.iter().all(|code| marks.has(code.literal()))
}
