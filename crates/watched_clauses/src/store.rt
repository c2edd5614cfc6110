//! The search's own copy of the clauses, by the numbers that the checker has for them.

use crate::code::Code;
use std::alloc::{AllocError, Global};
use std::ops::Range;

/// Where the codes of a clause begin, and how many they are: none where the clause is forgotten, or
/// not for the search.
#[derive(Clone, Copy)]
struct Span {
    start: u32,
    length: u32,
}

/// Codes of clauses.
#[derive(Drop)]
pub struct Store {
    alloc: Global,
    codes: Vec<Code>,
    spans: Vec<Span>,
    // how many codes belong to no clause any more
    unused: usize,
}

impl Store {
    pub fn new(alloc: Global) -> Store {
        Store {
            alloc,
            codes: Vec::new(alloc),
            spans: Vec::new(alloc),
            unused: 0,
        }
    }

    /// How many numbers were given to clauses.
    pub fn len(&self) -> usize {
        self.spans.len()
    }

    /// Where the codes of the clause with a number stand.
    fn range(&self, number: usize) -> Option<Range<usize>> {
        let span = self.spans.get(number)?;
        let start = span.start as usize;
        Some(start..start.wrapping_add(span.length as usize))
    }

    /// The clause with a number; a forgotten one is empty.
    pub fn clause(&self, number: usize) -> &[Code] {
        let range = self.range(number).unwrap_or(0..0);
        self.codes.get(range).unwrap_or(&[])
    }

    /// The same, to change the order of its literals.
    pub fn clause_mut(&mut self, number: usize) -> Option<&mut [Code]> {
        let range = self.range(number)?;
        self.codes.as_mut_slice().get_mut(range)
    }

    /// Adds a clause under the next number.
    pub fn push(&mut self, clause: &[Code]) -> Result<(), AllocError> {
        let start = u32::try_from(self.codes.len()).unwrap_or(u32::MAX);
        let length = u32::try_from(clause.len()).unwrap_or(0);
        self.codes.extend_from_slice(clause)?;
        self.spans.push(Span { start, length })?;
        Ok(())
    }

    /// Forgets a clause.
    pub fn forget(&mut self, number: usize) {
        self.unused = self.unused.saturating_add(self.clause(number).len());
        if number < self.spans.len() {
            self.spans[number].length = 0;
        }
    }

    /// Whether most of the memory is that of forgotten clauses.
    pub fn is_mostly_unused(&self) -> bool {
        let used = self.codes.len().saturating_sub(self.unused);
        self.unused > used.saturating_add(self.spans.len())
    }

    /// Gives back the memory of forgotten clauses.
    pub fn pack(&mut self) -> Result<(), AllocError> {
        let mut packed = Store::new(self.alloc);
        for number in 0..self.len() {
            packed.push(self.clause(number))?;
        }
        *self = packed;
        Ok(())
    }
}
