//! The numbers of keys.

use crate::lists::number;
use key_tables::KeyTable;
use session_log::Key;
use std::alloc::{AllocError, Global};

/// The numbers of keys from 0, and what is known of each key.
#[derive(Drop)]
pub struct Keyed<'a, T> {
    numbers: KeyTable<'a>,
    known: Vec<T>,
    unknown: T,
}

impl<'a, T: Copy> Keyed<'a, T> {
    /// No key, where so many operations are to come; `unknown` is what is known of a new one.
    pub fn new(alloc: Global, operations: usize, unknown: T) -> Result<Keyed<'a, T>, AllocError> {
        Ok(Keyed {
            numbers: KeyTable::new(alloc, operations)?,
            known: Vec::new(alloc),
            unknown,
        })
    }

    /// The number of a key, which it gets where it has none.
    pub fn number_of(&mut self, key: &'a Key) -> Result<u32, AllocError> {
        if let Some(known) = self.numbers.held(key) {
            return Ok(number(known as usize));
        }
        let new = number(self.known.len());
        self.numbers.hold(key, u64::from(new))?;
        self.known.push(self.unknown)?;
        Ok(new)
    }

    /// How many keys there are.
    pub fn count(&self) -> u32 {
        number(self.known.len())
    }

    /// What is known of the key with this number.
    pub fn of(&self, key: u32) -> T {
        match self.known.get(key as usize) {
            Some(known) => *known,
            None => self.unknown,
        }
    }

    /// Notes what is known of the key with this number.
    pub fn note(&mut self, key: u32, new: T) {
        if let Some(known) = self.known.get_mut(key as usize) {
            *known = new;
        }
    }
}
