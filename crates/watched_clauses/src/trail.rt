//! Which literals are true, since when and why.

use crate::code::{Code, places};
use crate::watches::is_true;
use std::alloc::{AllocError, Global};

/// What is known of a variable that has a value.
#[derive(Clone, Copy, Default)]
struct Known {
    // the clause that forced it, by its number; none where it was assumed
    reason: Option<u32>,
    level: u32,
    place: u32,
}

/// The true literals, in the order in which they became so. Each level but the first begins with a
/// literal that was assumed; those of the first are roots.
#[derive(Drop)]
pub struct Trail {
    truth: Vec<bool>,
    known: Vec<Known>,
    codes: Vec<Code>,
    // how many literals were true when each level but the first began
    begins: Vec<usize>,
    // how many of them were propagated
    propagated: usize,
}

/// A number of a place or of a level, as it is kept.
fn short(number: usize) -> u32 {
    u32::try_from(number).unwrap_or(u32::MAX)
}

impl Trail {
    /// No true literals of so many variables.
    pub fn new(alloc: Global, variables: u32) -> Result<Trail, AllocError> {
        Ok(Trail {
            truth: vec![in alloc; false; places(variables)]?,
            known: vec![in alloc; Known::default(); places(variables) / 2]?,
            codes: Vec::new(alloc),
            begins: Vec::new(alloc),
            propagated: 0,
        })
    }

    /// Which literals are true, by their places.
    pub fn truth(&self) -> &[bool] {
        &self.truth
    }

    pub fn is_true(&self, code: Code) -> bool {
        is_true(&self.truth, code)
    }

    pub fn is_false(&self, code: Code) -> bool {
        self.is_true(code.negated())
    }

    /// What is known of the variable of a literal.
    fn known(&self, code: Code) -> Known {
        self.known.get(code.variable()).copied().unwrap_or_default()
    }

    /// The clause that forced the variable of a literal, which has a value.
    pub fn reason(&self, code: Code) -> Option<u32> {
        self.known(code).reason
    }

    /// At which level the variable of a literal got its value.
    pub fn level_of(&self, code: Code) -> u32 {
        self.known(code).level
    }

    /// Where on the trail the variable of a literal got its value.
    pub fn place_of(&self, code: Code) -> u32 {
        self.known(code).place
    }

    /// The level that grows, counted from 0.
    pub fn level(&self) -> u32 {
        short(self.begins.len())
    }

    /// How many literals are true.
    pub fn len(&self) -> usize {
        self.codes.len()
    }

    /// The literal that became true at a place.
    pub fn code(&self, place: usize) -> Option<Code> {
        self.codes.get(place).copied()
    }

    /// How many literals were true when a level ended that has another one behind it.
    pub fn end_of(&self, level: u32) -> usize {
        let begin = self.begins.get(level as usize).copied();
        begin.unwrap_or(self.codes.len())
    }

    /// Begins a level.
    pub fn begin_level(&mut self) -> Result<(), AllocError> {
        self.begins.push(self.codes.len())?;
        Ok(())
    }

    /// Makes an open literal true.
    pub fn push(&mut self, code: Code, reason: Option<u32>) -> Result<(), AllocError> {
        let place = short(self.codes.len());
        let level = self.level();
        self.codes.push(code)?;
        self.set_truth(code, true);
        if let Some(known) = self.known.get_mut(code.variable()) {
            *known = Known {
                reason,
                level,
                place,
            };
        }
        Ok(())
    }

    fn set_truth(&mut self, code: Code, truth: bool) {
        if let Some(place) = self.truth.get_mut(code.place()) {
            *place = truth;
        }
    }

    /// Names another clause that forces a true literal.
    pub fn set_reason(&mut self, code: Code, reason: Option<u32>) {
        if let Some(known) = self.known.get_mut(code.variable()) {
            known.reason = reason;
        }
    }

    /// The next literal that is to be propagated.
    pub fn next(&mut self) -> Option<Code> {
        let code = self.codes.get(self.propagated).copied()?;
        self.propagated = self.propagated.wrapping_add(1);
        Some(code)
    }

    /// Takes back all literals of the levels behind this one.
    pub fn undo_to(&mut self, level: u32) {
        let end = self.end_of(level);
        for index in end..self.codes.len() {
            if let Some(code) = self.codes.get(index).copied() {
                self.set_truth(code, false);
            }
        }
        self.codes.truncate(end);
        self.begins.truncate(level as usize);
        self.propagated = self.propagated.min(end);
    }
}
