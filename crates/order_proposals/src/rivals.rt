//! Who has to write a key first, by the moments that nodes state.

use crate::marks::Marks;
use numbered_log::{NumberedLog, NumberedOp};
use numbers::{Entry, Lists, at, lists_of, number, put};
use std::alloc::{AllocError, Global};

/// So many nodes that write the same key are looked at, at most.
const MOST_RIVALS: usize = 64;

/// Of each version when the last of its readers began, and of each key who writes it, in the order
/// of ends, and how many of these at the front are placed; of none, where no node states a moment.
#[derive(Drop)]
pub struct Rivals {
    begun: Vec<u64>,
    writers: Lists<u32>,
    placed: Vec<u32>,
}

/// When a node ended.
fn end_of(log: &NumberedLog<'_>, node: u32) -> u64 {
    log.moments_of(node as usize).ended.unwrap_or(u64::MAX)
}

/// Of each version when the last of its readers began.
fn begun_of(alloc: Global, log: &NumberedLog<'_>) -> Result<Vec<u64>, AllocError> {
    let mut last = vec![in alloc; 0; log.identities.len()]?;
    for (i, node) in log.nodes.iter().enumerate() {
        let begun = log.moments_of(i).begun.unwrap_or(0);
        for op in log.ops_of(*node) {
            if let NumberedOp::Read { version, .. } = op.get()
                && let Some(moment) = last.get_mut(version as usize)
            {
                *moment = begun.max(*moment);
            }
        }
    }
    Ok(last)
}

/// Of each key who writes it, in the order of ends.
fn writers_of(alloc: Global, log: &NumberedLog<'_>) -> Result<Lists<u32>, AllocError> {
    let mut nodes = Vec::with_capacity(alloc, log.nodes.len())?;
    for node in 0..number(log.nodes.len()) {
        nodes.push(node)?;
    }
    nodes.sort_by_key(|node: &u32| end_of(log, *node))?;
    let mut entries = Vec::new(alloc);
    for item in &nodes {
        if let Some(node) = log.nodes.get(*item as usize) {
            for op in log.ops_of(*node) {
                if let NumberedOp::Write { key, .. } = op.get() {
                    entries.push(Entry {
                        list: key,
                        item: *item,
                    })?;
                }
            }
        }
    }
    lists_of(alloc, number(log.keys.len()), &entries)
}

impl Rivals {
    /// Those of a log.
    pub fn of(alloc: Global, log: &NumberedLog<'_>) -> Result<Rivals, AllocError> {
        if log.moments.is_empty() {
            return Ok(Rivals {
                begun: Vec::new(alloc),
                writers: Lists::new(alloc),
                placed: Vec::new(alloc),
            });
        }
        Ok(Rivals {
            begun: begun_of(alloc, log)?,
            writers: writers_of(alloc, log)?,
            placed: vec![in alloc; 0; log.keys.len()]?,
        })
    }

    /// The writers of a key without those at the front that are placed.
    fn rest(&self, key: u32) -> &[u32] {
        let writers = self.writers.list(key);
        let first = at(&self.placed, key) as usize;
        match writers.get(first..writers.len()) {
            Some(rest) => rest,
            None => &[],
        }
    }

    /// Passes those at the front of the writers of a key that are placed.
    fn pass(&mut self, placed: &Marks, key: u32) {
        let mut first = at(&self.placed, key);
        for writer in self.rest(key) {
            if !placed.has(*writer) {
                break;
            }
            first = first.saturating_add(1);
        }
        put(self.placed.as_mut_slice(), key, first);
    }

    /// Whether another node has to write a key before this one writes a version of it: one that
    /// ended before some reader of the version began.
    pub fn is_late(
        &mut self,
        log: &NumberedLog<'_>,
        placed: &Marks,
        node: u32,
        key: u32,
        version: u32,
    ) -> bool {
        let Some(begun) = self.begun.get(version as usize).copied() else {
            return false;
        };
        self.pass(placed, key);
        for writer in self.rest(key).iter().take(MOST_RIVALS) {
            if end_of(log, *writer) >= begun {
                return false;
            }
            if *writer != node && !placed.has(*writer) {
                return true;
            }
        }
        false
    }
}
