//! Two watched literals a clause (Moskewicz, Madigan, Zhao, Zhang and Malik 2001): a clause is
//! looked at only when one of them becomes false.

use crate::code::{Code, places};
use std::alloc::{AllocError, Global};
use std::mem;

/// A clause by its number, and another literal of it: where that is true, the clause need not be
/// looked at.
#[derive(Clone, Copy)]
pub struct Watch {
    pub number: u32,
    pub other: Code,
}

/// Which clauses watch which literal.
#[derive(Drop)]
pub struct Watches {
    alloc: Global,
    lists: Vec<Vec<Watch>>,
}

impl Watches {
    /// No watches, for the literals of so many variables.
    pub fn new(alloc: Global, variables: u32) -> Result<Watches, AllocError> {
        let mut lists = Vec::with_capacity(alloc, places(variables))?;
        for _ in 0..places(variables) {
            lists.push(Vec::new(alloc))?;
        }
        Ok(Watches { alloc, lists })
    }

    /// Adds a clause to those that watch a literal.
    pub fn add(&mut self, code: Code, watch: Watch) -> Result<(), AllocError> {
        if let Some(list) = self.lists.get_mut(code.place()) {
            list.push(watch)?;
        }
        Ok(())
    }

    /// Takes away all clauses that watch a literal.
    pub fn take(&mut self, code: Code) -> Vec<Watch> {
        let alloc = self.alloc;
        match self.lists.get_mut(code.place()) {
            Some(list) => mem::replace(list, Vec::new(alloc)),
            None => Vec::new(alloc),
        }
    }

    /// Puts clauses back that watch a literal, of which none was added since.
    pub fn put(&mut self, code: Code, watching: Vec<Watch>) {
        if let Some(list) = self.lists.get_mut(code.place()) {
            *list = watching;
        }
    }
}

/// What a clause does when one of its watched literals becomes false.
#[derive(Clone, Copy)]
pub enum Look {
    /// It is no clause any more.
    Gone,
    /// It goes on watching, and this literal of it is true.
    Stays(Code),
    /// It watches this literal from now on; the second one is its other watched literal.
    Moves(Code, Code),
    /// All its literals are false but this one.
    Forces(Code),
    /// All its literals are false.
    Conflicts,
}

/// Whether a literal is true, by a table.
pub fn is_true(truth: &[bool], code: Code) -> bool {
    truth.get(code.place()).copied().unwrap_or(false)
}

/// Looks at a clause, one of whose two watched literals, which stand first, became false.
pub fn inspect(truth: &[bool], clause: &mut [Code], falsified: Code) -> Look {
    if clause.len() < 2 {
        return Look::Gone;
    }
    if clause[0] == falsified {
        clause.swap(0, 1);
    }
    let first = clause[0];
    if is_true(truth, first) {
        return Look::Stays(first);
    }
    for index in 2..clause.len() {
        let code = clause[index];
        if !is_true(truth, code.negated()) {
            clause.swap(1, index);
            return Look::Moves(code, first);
        }
    }
    if is_true(truth, first.negated()) {
        Look::Conflicts
    } else {
        Look::Forces(first)
    }
}
