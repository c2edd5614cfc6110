//! Clauses that were learnt, and which of them are forgotten.

use std::alloc::{AllocError, Global};

/// Clauses that join so few levels are kept for good.
const FEW_LEVELS: u32 = 2;

/// After how many conflicts some are forgotten first, and how many more it is each time.
const FIRST_INTERVAL: u64 = 2000;

const LONGER_INTERVAL: u64 = 300;

/// A clause that was learnt, by its number, and how many levels its literals had then.
#[derive(Clone, Copy)]
struct Entry {
    number: u32,
    levels: u32,
}

/// Clauses that were learnt and may be forgotten.
#[derive(Drop)]
pub(crate) struct Learnt {
    entries: Vec<Entry>,
    // how many numbers the given clauses have
    given: usize,
    // of each number behind those whether its clause took part in a conflict since some were
    // forgotten
    used: Vec<bool>,
    conflicts: u64,
    interval: u64,
}

impl Learnt {
    /// No clauses, behind so many that are given.
    pub(crate) fn new(alloc: Global, given: usize) -> Learnt {
        Learnt {
            entries: Vec::new(alloc),
            given,
            used: Vec::new(alloc),
            conflicts: 0,
            interval: FIRST_INTERVAL,
        }
    }

    /// A clause was learnt under a number, whose literals have so many levels.
    pub(crate) fn add(&mut self, number: usize, levels: u32) -> Result<(), AllocError> {
        if levels > FEW_LEVELS {
            self.entries.push(Entry {
                number: u32::try_from(number).unwrap_or(u32::MAX),
                levels,
            })?;
        }
        Ok(())
    }

    /// A clause took part in a conflict.
    pub(crate) fn use_clause(&mut self, number: u32) -> Result<(), AllocError> {
        let Some(place) = (number as usize).checked_sub(self.given) else {
            return Ok(());
        };
        if place >= self.used.len() {
            self.used.resize(place.saturating_add(1), false)?;
        }
        if let Some(used) = self.used.get_mut(place) {
            *used = true;
        }
        Ok(())
    }

    /// A conflict was met.
    pub(crate) fn count(&mut self) {
        self.conflicts = self.conflicts.saturating_add(1);
    }

    /// Whether some are to be forgotten.
    pub(crate) fn is_due(&self) -> bool {
        self.conflicts >= self.interval
    }

    /// Whether a clause took part in a conflict of late; that is not asked twice.
    fn take_used(&mut self, number: u32) -> bool {
        let place = (number as usize).checked_sub(self.given);
        match place.and_then(|place| self.used.get_mut(place)) {
            Some(used) => std::mem::replace(used, false),
            None => false,
        }
    }

    /// Takes out half of the clauses that took part in no conflict of late, those that join the
    /// most levels, and of these the oldest. Their numbers.
    pub(crate) fn take_worst(&mut self, alloc: Global) -> Result<Vec<u32>, AllocError> {
        self.conflicts = 0;
        self.interval = self.interval.saturating_add(LONGER_INTERVAL);
        let mut kept = Vec::new(alloc);
        let mut idle = Vec::new(alloc);
        for index in 0..self.entries.len() {
            let Some(entry) = self.entries.get(index).copied() else {
                break;
            };
            if self.take_used(entry.number) {
                kept.push(entry)?;
            } else {
                idle.push(entry)?;
            }
        }
        idle.sort_unstable_by_key(|entry: &Entry| (entry.levels, u32::MAX - entry.number));
        let half = idle.len() / 2;
        let mut worst = Vec::new(alloc);
        for (place, entry) in idle.iter().enumerate() {
            if place < half {
                kept.push(*entry)?;
            } else {
                worst.push(entry.number)?;
            }
        }
        self.entries = kept;
        Ok(worst)
    }
}
