//! Marks of points.

use std::alloc::{AllocError, Global};

/// Of each point whether it has a mark.
#[derive(Drop)]
pub struct Marks {
    words: Vec<u64>,
}

/// The bit of a point in its word.
fn bit_of(point: u32) -> u64 {
    1 << (point % 64)
}

/// The word of a point.
fn word_of(point: u32) -> usize {
    (point / 64) as usize
}

impl Marks {
    /// None, of so many points.
    pub fn new(alloc: Global, points: usize) -> Result<Marks, AllocError> {
        Ok(Marks {
            words: vec![in alloc; 0; (points / 64).saturating_add(1)]?,
        })
    }

    /// Sets the mark of a point.
    pub fn set(&mut self, point: u32) {
        if let Some(word) = self.words.get_mut(word_of(point)) {
            *word |= bit_of(point);
        }
    }

    /// Whether a point has a mark.
    pub fn has(&self, point: u32) -> bool {
        match self.words.get(word_of(point)) {
            Some(word) => *word & bit_of(point) != 0,
            None => false,
        }
    }

    /// Takes away the mark of a point; answers whether it had one.
    pub fn take(&mut self, point: u32) -> bool {
        match self.words.get_mut(word_of(point)) {
            Some(word) => {
                let had = *word & bit_of(point) != 0;
                *word &= !bit_of(point);
                had
            }
            None => false,
        }
    }

    /// Whether some point has a mark.
    pub fn has_one(&self) -> bool {
        for word in &self.words {
            if *word != 0 {
                return true;
            }
        }
        false
    }

    /// Takes away all marks.
    pub fn clear(&mut self) {
        self.words.fill(0);
    }
}
