//! The writes of all transactions, by their identities.

use crate::lists::{NONE, number};
use session_log::{Op, Outcome, Session};
use std::alloc::{AllocError, Global};

/// How much sessions hold: committed transactions, reads, writes, and the least and the greatest
/// identity of a write.
#[derive(Clone, Copy)]
pub struct Amounts {
    pub committed: usize,
    pub reads: usize,
    pub writes: usize,
    least: u64,
    greatest: u64,
}

impl Amounts {
    /// Counts an operation.
    fn add(&mut self, op: &Op) {
        match op {
            Op::Read { .. } => self.reads = self.reads.saturating_add(1),
            Op::Write { wid, .. } => {
                self.writes = self.writes.saturating_add(1);
                self.least = self.least.min(*wid);
                self.greatest = self.greatest.max(*wid);
            }
        }
    }

    /// How much these sessions hold.
    pub fn of(sessions: &[Session]) -> Amounts {
        let mut amounts = Amounts {
            committed: 0,
            reads: 0,
            writes: 0,
            least: u64::MAX,
            greatest: 0,
        };
        for session in sessions {
            for txn in &session.txns {
                if txn.outcome == Outcome::Commit {
                    amounts.committed = amounts.committed.saturating_add(1);
                }
                for op in &txn.ops {
                    amounts.add(op);
                }
            }
        }
        amounts
    }

    /// How many identities there are from the least to the greatest, where they lie close.
    fn close(&self) -> Option<usize> {
        let count = self.greatest.checked_sub(self.least)?.checked_add(1)?;
        let most = self.writes.saturating_mul(2);
        usize::try_from(count).ok().filter(|count| *count <= most)
    }
}

/// What a write writes: a key, and the version of it that others can read; none of a write that is
/// not the last one of a committed transaction.
#[derive(Clone, Copy)]
pub struct Target {
    pub key: u32,
    pub version: u32,
}

/// Stands for no write.
const NO_TARGET: Target = Target {
    key: NONE,
    version: NONE,
};

/// A write.
#[derive(Clone, Copy)]
struct Source {
    wid: u64,
    target: Target,
}

/// The writes: from the least identity on one behind the other where identities lie close, else in a
/// list.
#[derive(Drop)]
pub struct Sources {
    is_close: bool,
    least: u64,
    table: Vec<Target>,
    list: Vec<Source>,
}

impl Sources {
    /// None of so many.
    pub fn new(alloc: Global, amounts: &Amounts) -> Result<Sources, AllocError> {
        let close = amounts.close();
        let list = if close.is_some() { 0 } else { amounts.writes };
        Ok(Sources {
            is_close: close.is_some(),
            least: amounts.least,
            table: vec![in alloc; NO_TARGET; close.unwrap_or(0)]?,
            list: Vec::with_capacity(alloc, list)?,
        })
    }

    /// Where a write of this identity stands in the table.
    fn slot(&self, wid: u64) -> usize {
        usize::try_from(wid.wrapping_sub(self.least)).unwrap_or(usize::MAX)
    }

    /// Adds a write; gives where it stands.
    pub fn add(&mut self, wid: u64, target: Target) -> Result<u32, AllocError> {
        if !self.is_close {
            self.list.push(Source { wid, target })?;
            return Ok(number(self.list.len()).saturating_sub(1));
        }
        let slot = self.slot(wid);
        if let Some(entry) = self.table.get_mut(slot) {
            *entry = target;
        }
        Ok(number(slot))
    }

    /// Others cannot read the write that stands here.
    pub fn hide(&mut self, place: u32) {
        if let Some(source) = self.list.get_mut(place as usize) {
            source.target.version = NONE;
        }
        if let Some(target) = self.table.get_mut(place as usize) {
            target.version = NONE;
        }
    }

    /// Puts writes in the order of identities; from now on they can be found, and none is added.
    pub fn sort(&mut self) {
        self.list.sort_unstable_by_key(|source| source.wid);
    }

    /// The write of an identity. Where identities in a list count up without a gap it is found at
    /// once.
    pub fn find(&self, wid: u64) -> Option<Target> {
        let slot = self.slot(wid);
        if self.is_close {
            return self
                .table
                .get(slot)
                .copied()
                .filter(|target| target.key != NONE);
        }
        if let Some(source) = self.list.get(slot)
            && source.wid == wid
        {
            return Some(source.target);
        }
        let place = self
            .list
            .binary_search_by_key(&wid, |source| source.wid)
            .ok()?;
        self.list.get(place).map(|source| source.target)
    }
}
