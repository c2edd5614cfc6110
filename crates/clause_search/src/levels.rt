//! Marks of levels, all of which are taken away at once.

use std::alloc::{AllocError, Global};

/// The round in which each level was marked last.
#[derive(Drop)]
pub(crate) struct Levels {
    rounds: Vec<u32>,
    round: u32,
}

impl Levels {
    /// No marks, for so many levels behind the first.
    pub(crate) fn new(alloc: Global, levels: u32) -> Result<Levels, AllocError> {
        let count = (levels as usize).saturating_add(1);
        Ok(Levels {
            rounds: vec![in alloc; 0; count]?,
            round: 0,
        })
    }

    /// Takes all marks away.
    pub(crate) fn clear(&mut self) {
        if self.round == u32::MAX {
            self.rounds.fill(0);
            self.round = 0;
        }
        self.round = self.round.wrapping_add(1);
    }

    pub(crate) fn has(&self, level: u32) -> bool {
        self.rounds.get(level as usize).copied() == Some(self.round)
    }

    /// Marks a level, and says whether it was not marked before.
    pub(crate) fn add(&mut self, level: u32) -> bool {
        let round = self.round;
        match self.rounds.get_mut(level as usize) {
            Some(last) if *last != round => {
                *last = round;
                true
            }
            _ => false,
        }
    }
}
