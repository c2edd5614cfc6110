//! Which nodes may come next by the moments that they state.

use crate::marks::Marks;
use numbered_log::NumberedLog;
use std::alloc::{AllocError, Global};
use std::cmp::Reverse;
use std::collections::BinaryHeap;

/// A moment and a node, the earliest first.
type At = Reverse<(u64, u32)>;

/// When the first of those ends that are not placed, and who began after that.
#[derive(Drop)]
pub struct Times {
    /// Of each node the first end of it and of those behind it in its session; of none, where no
    /// node states a moment.
    ends: Vec<u64>,
    /// Of each session where it stands, by the first end.
    heads: BinaryHeap<At>,
    /// Nodes that wait, by when they began.
    early: BinaryHeap<At>,
    /// The first end.
    first: u64,
}

/// Of each node the first end of it and of those behind it in its session.
fn ends_of(alloc: Global, log: &NumberedLog<'_>) -> Result<Vec<u64>, AllocError> {
    let mut ends = vec![in alloc; u64::MAX; log.nodes.len()]?;
    let (mut session, mut first) = (u32::MAX, u64::MAX);
    for (i, node) in log.nodes.iter().enumerate().rev() {
        if node.session != session {
            session = node.session;
            first = u64::MAX;
        }
        first = first.min(log.moments_of(i).ended.unwrap_or(u64::MAX));
        if let Some(end) = ends.get_mut(i) {
            *end = first;
        }
    }
    Ok(ends)
}

impl Times {
    /// Those of a log.
    pub fn of(alloc: Global, log: &NumberedLog<'_>) -> Result<Times, AllocError> {
        let ends = if log.moments.is_empty() {
            Vec::new(alloc)
        } else {
            ends_of(alloc, log)?
        };
        Ok(Times {
            ends,
            heads: BinaryHeap::new(alloc),
            early: BinaryHeap::new(alloc),
            first: 0,
        })
    }

    /// A session has come to a node.
    pub fn come_to(&mut self, node: u32) -> Result<(), AllocError> {
        if let Some(end) = self.ends.get(node as usize) {
            self.heads.push(Reverse((*end, node)))?;
        }
        Ok(())
    }

    /// Looks what ends first of those that are not placed.
    pub fn renew(&mut self, placed: &Marks) {
        self.first = u64::MAX;
        for _ in 0..u64::MAX {
            let Some(Reverse((end, node))) = self.heads.peek() else {
                break;
            };
            if !placed.has(*node) {
                self.first = *end;
                break;
            }
            self.heads.pop();
        }
    }

    /// Has a node wait, if it began after another one ended that is not placed; answers whether it
    /// does.
    pub fn hold(&mut self, log: &NumberedLog<'_>, node: u32) -> Result<bool, AllocError> {
        let Some(begun) = log.moments_of(node as usize).begun else {
            return Ok(false);
        };
        if begun > self.first {
            self.early.push(Reverse((begun, node)))?;
        }
        Ok(begun > self.first)
    }

    /// One that waits no longer.
    pub fn release(&mut self) -> Option<u32> {
        let Reverse((begun, node)) = *self.early.peek()?;
        if begun > self.first {
            return None;
        }
        self.early.pop();
        Some(node)
    }
}
