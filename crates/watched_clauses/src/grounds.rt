//! By which clauses a checker took its steps.

use std::alloc::{AllocError, Global};

/// So many numbers are kept at most.
const MOST: usize = 20_000_000;

/// The clauses of steps that a checker took, by their numbers, and by which clauses it took each.
/// What is kept is a hint: no contract speaks of it.
#[derive(Drop)]
pub struct Grounds {
    steps: Vec<usize>,
    // of each step where its grounds end
    ends: Vec<usize>,
    grounds: Vec<u32>,
    // whether some were left out
    is_cut: bool,
}

impl Grounds {
    /// Of no step.
    pub fn new(alloc: Global) -> Grounds {
        Grounds {
            steps: Vec::new(alloc),
            ends: Vec::new(alloc),
            grounds: Vec::new(alloc),
            is_cut: false,
        }
    }

    /// Keeps by which clauses a step was taken, behind those before.
    pub fn put(&mut self, step: usize, hints: &[usize]) -> Result<(), AllocError> {
        if self.grounds.len().saturating_add(hints.len()) > MOST {
            self.is_cut = true;
            return Ok(());
        }
        for hint in hints {
            self.grounds.push(u32::try_from(*hint).unwrap_or(u32::MAX))?;
        }
        self.steps.push(step)?;
        self.ends.push(self.grounds.len())?;
        Ok(())
    }

    /// The grounds of the step at a place.
    fn of_place(&self, place: usize) -> &[u32] {
        let start = match place.checked_sub(1) {
            Some(before) => self.ends.get(before).copied().unwrap_or(0),
            None => 0,
        };
        let end = self.ends.get(place).copied().unwrap_or(0);
        match self.grounds.as_slice().get(start..end) {
            Some(grounds) => grounds,
            None => &[],
        }
    }

    /// Marks the clauses on which the last step rests, by their numbers.
    fn mark(&self, is_used: &mut [bool]) {
        for place in (0..self.steps.len()).rev() {
            let step = self.steps.get(place).copied().unwrap_or(usize::MAX);
            if is_used.get(step).copied() != Some(true) {
                continue;
            }
            for ground in self.of_place(place) {
                if let Some(mark) = is_used.get_mut(*ground as usize) {
                    *mark = true;
                }
            }
        }
    }

    /// Of the clauses with the first numbers, so many, those on which the last step rests; none,
    /// where not all grounds were kept.
    pub fn of_last(&self, alloc: Global, given: usize) -> Result<Vec<usize>, AllocError> {
        let mut used = Vec::new(alloc);
        let Some(last) = self.steps.last().copied() else {
            return Ok(used);
        };
        if self.is_cut {
            return Ok(used);
        }
        let mut is_used = vec![in alloc; false; last.saturating_add(1)]?;
        if let Some(mark) = is_used.get_mut(last) {
            *mark = true;
        }
        self.mark(is_used.as_mut_slice());
        for (number, is_used) in is_used.iter().enumerate() {
            if *is_used && number < given {
                used.push(number)?;
            }
        }
        Ok(used)
    }
}
