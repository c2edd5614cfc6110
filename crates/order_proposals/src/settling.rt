//! Settling: any two that write a key are put in an order, with what follows from it, before sessions
//! are merged.

use crate::behind::Pair;
use crate::merging::Merging;
use crate::watch::Alarm;
use numbers::{NONE, add, at, number, put};
use std::alloc::{AllocError, Global};
use std::time::Clock;

/// Of each key the writers that are settled, in their order: as many as the count says, where the
/// versions of the key have their numbers.
#[derive(Drop)]
struct Settled {
    writers: Vec<u32>,
    counts: Vec<u32>,
}

impl Merging<'_> {
    /// The rank of the writer of a version.
    fn rank_of(&self, version: u32) -> u64 {
        let writer = self.versions.writer(version);
        self.ranks.get(writer as usize).copied().unwrap_or(0)
    }

    /// The versions that nodes write, in the order of the ranks of their writers, each with its key.
    fn versions_by_rank(&self, alloc: Global) -> Result<Vec<(u32, u32)>, AllocError> {
        let mut sorted = Vec::with_capacity(alloc, self.versions.writers.len())?;
        for key in 0..self.versions.keys {
            let (first, behind) = self.versions.of_key(key);
            for version in first..behind {
                sorted.push((key, version))?;
            }
        }
        sorted.sort_unstable_by_key(|entry: &(u32, u32)| (self.rank_of(entry.1), entry.1));
        Ok(sorted)
    }

    /// Puts the writer of a version behind those settled that come before it; answers whether that can
    /// be, and nothing ran out.
    fn settle<R: Clock>(
        &mut self,
        alarm: &mut Alarm<'_, R>,
        alloc: Global,
        settled: &mut Settled,
        key: u32,
        version: u32,
    ) -> Result<bool, AllocError> {
        let (first, _) = self.versions.of_key(key);
        let writer = self.versions.writer(version);
        let mut place = first.saturating_add(at(&settled.counts, key));
        for _ in 0..at(&settled.counts, key) {
            if alarm.rings(1) {
                return Ok(false);
            }
            let before = at(&settled.writers, place.saturating_sub(1));
            let pair = Pair {
                first: before,
                second: writer,
            };
            let is_known = self.is_behind(writer, before) || self.is_behind(before, writer);
            if !is_known && !self.suppose_either(alarm, alloc, pair)? {
                return Ok(false);
            }
            if self.is_behind(writer, before) {
                break;
            }
            put(settled.writers.as_mut_slice(), place, before);
            place = place.saturating_sub(1);
        }
        put(settled.writers.as_mut_slice(), place, writer);
        add(settled.counts.as_mut_slice(), key, 1);
        Ok(true)
    }

    /// Puts all that write the same key in an order; answers whether that can be, and neither time nor
    /// steps ran out.
    pub fn settle_all<R: Clock>(
        &mut self,
        alarm: &mut Alarm<'_, R>,
        alloc: Global,
    ) -> Result<bool, AllocError> {
        let mut settled = Settled {
            writers: vec![in alloc; NONE; self.versions.writers.len()]?,
            counts: vec![in alloc; 0; self.versions.keys as usize]?,
        };
        for (key, version) in self.versions_by_rank(alloc)? {
            if alarm.rings(1) || !self.settle(alarm, alloc, &mut settled, key, version)? {
                return Ok(false);
            }
        }
        Ok(true)
    }
}
