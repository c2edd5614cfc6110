//! An order found in one go, in time linear in the log, or nothing where that is stuck.
//!
//! A session is at its first node that is not placed, its head. A head can be placed if its reads
//! find their versions and it overwrites nothing that others still have to read. If it overwrites
//! only what it reads, or nobody reads what it writes, then no order is lost by placing it at once.
//! Among the others it is a guess: the least rank comes first, but for those whose readers began
//! after another node had ended that is still to write the same key. Nothing is taken back.

use crate::heaps::Heaps;
use crate::holdings::{Going, Holdings, Way};
use crate::marks::Marks;
use crate::ranks::ranks_of;
use crate::rivals::Rivals;
use crate::times::Times;
use crate::watch::Alarm;
use numbered_log::{NumberedLog, NumberedOp, PackedOp};
use numbers::{NONE, at, number, put};
use std::alloc::{AllocError, Global};
use std::time::Clock;

/// So many looks for each node and operation, and so many more, are made at most.
const LOOKS: usize = 8;

const MORE_LOOKS: usize = 1000;
/// A look takes about as long as so many numbers of a clock.
const STEPS_PER_LOOK: usize = 1 << 8;

/// The state of the try.
#[derive(Drop)]
struct Quick {
    holdings: Holdings,
    times: Times,
    rivals: Rivals,
    /// Of each key the heads that wait to overwrite what it holds, and in one more heap, of this
    /// number, those that can be placed.
    heaps: Heaps,
    open: u32,
    /// Which nodes are in a heap, and which are placed.
    held: Marks,
    placed: Marks,
    /// Of each node the key that was free when it was taken out of its heap.
    freed_by: Vec<u32>,
    /// Heads to be looked at.
    fresh: Vec<u32>,
    order: Vec<usize>,
    looks: usize,
}

/// The node of this index, and its operations.
fn ops_of<'a>(log: &'a NumberedLog<'_>, node: u32) -> &'a [PackedOp] {
    match log.nodes.get(node as usize) {
        Some(node) => log.ops_of(*node),
        None => &[],
    }
}

impl Quick {
    /// Before the first node is placed.
    fn new(
        alloc: Global,
        log: &NumberedLog<'_>,
        holdings: Holdings,
        most: u64,
    ) -> Result<Quick, AllocError> {
        let (nodes, keys) = (log.nodes.len(), log.keys.len());
        let ranks = ranks_of(alloc, log, most)?;
        let most = nodes.saturating_add(log.ops.len()).saturating_mul(LOOKS);
        let mut quick = Quick {
            holdings,
            times: Times::of(alloc, log)?,
            rivals: Rivals::of(alloc, log)?,
            heaps: Heaps::new(alloc, keys.saturating_add(1), ranks)?,
            open: number(keys),
            held: Marks::new(alloc, nodes)?,
            placed: Marks::new(alloc, nodes)?,
            freed_by: vec![in alloc; NONE; nodes]?,
            fresh: Vec::new(alloc),
            order: Vec::with_capacity(alloc, nodes)?,
            looks: most.saturating_add(MORE_LOOKS),
        };
        let mut session = None;
        for (i, node) in log.nodes.iter().enumerate() {
            if session != Some(node.session) {
                session = Some(node.session);
                quick.come_to(number(i))?;
            }
        }
        quick.times.renew(&quick.placed);
        Ok(quick)
    }

    /// A node is the head of its session.
    fn come_to(&mut self, node: u32) -> Result<(), AllocError> {
        self.times.come_to(node)?;
        self.fresh.push(node)?;
        Ok(())
    }

    /// Has a head be in a heap.
    fn hold(&mut self, heap: u32, node: u32) {
        if !self.held.has(node) {
            self.held.set(node);
            self.heaps.push(heap, node);
        }
    }

    /// Takes the head of the least rank out of a heap.
    fn take(&mut self, heap: u32) -> Option<u32> {
        for _ in 0..u64::MAX {
            let node = self.heaps.pop(heap)?;
            self.held.take(node);
            if !self.placed.has(node) {
                return Some(node);
            }
        }
        None
    }

    /// Nobody has to read what a key holds: one that waits to overwrite it is looked at.
    fn free(&mut self, key: u32) -> Result<(), AllocError> {
        if let Some(node) = self.take(key) {
            put(self.freed_by.as_mut_slice(), node, key);
            self.fresh.push(node)?;
        }
        Ok(())
    }

    /// A head waits. If a key was free for it, that is for another one.
    fn pass_on(&mut self, node: u32) -> Result<(), AllocError> {
        let key = at(&self.freed_by, node);
        put(self.freed_by.as_mut_slice(), node, NONE);
        if key != NONE && self.holdings.is_free(key) {
            self.free(key)?;
        }
        Ok(())
    }

    /// Looks again at those that waited, from the last one on.
    fn wake(&mut self, last: u32) -> Result<(), AllocError> {
        let mut node = last;
        for _ in 0..u64::MAX {
            if node == NONE {
                break;
            }
            self.fresh.push(node)?;
            node = self.holdings.before(node);
        }
        Ok(())
    }

    /// Lets heads go on that waited for this.
    fn release(&mut self, key: u32, going: Going) -> Result<(), AllocError> {
        self.wake(going.waiting)?;
        self.wake(going.late)?;
        if going.updater != NONE {
            self.fresh.push(going.updater)?;
        }
        if going.is_free {
            self.free(key)?;
        }
        Ok(())
    }

    /// Places a head.
    fn place(&mut self, log: &NumberedLog<'_>, node: u32) -> Result<(), AllocError> {
        let ops = ops_of(log, node);
        let next = node.saturating_add(1);
        self.placed.set(node);
        self.order.push(next as usize)?;
        self.holdings.place(node, ops);
        for op in ops {
            let (NumberedOp::Read { key, .. } | NumberedOp::Write { key, .. }) = op.get();
            let going = self.holdings.release(key);
            self.release(key, going)?;
        }
        if is_followed(log, node) {
            self.come_to(next)?;
        }
        self.times.renew(&self.placed);
        for _ in 0..u64::MAX {
            let Some(node) = self.times.release() else {
                break;
            };
            self.fresh.push(node)?;
        }
        Ok(())
    }

    /// A key that another node has to write first.
    fn late_key(&mut self, log: &NumberedLog<'_>, node: u32, ops: &[PackedOp]) -> Option<u32> {
        for op in ops {
            if let NumberedOp::Write { key, version } = op.get()
                && self.holdings.is_guess(node, key, version)
                && self.rivals.is_late(log, &self.placed, node, key, version)
            {
                return Some(key);
            }
        }
        None
    }

    /// Looks at a head, and places it if that is chosen or loses no order; answers whether an order
    /// is still possible.
    fn look(
        &mut self,
        log: &NumberedLog<'_>,
        node: u32,
        is_chosen: bool,
    ) -> Result<bool, AllocError> {
        let ops = ops_of(log, node);
        let cost = ops.len().saturating_add(1);
        let Some(looks) = self.looks.checked_sub(cost) else {
            return Ok(false);
        };
        self.looks = looks;
        if self.placed.has(node) || self.times.hold(log, node)? {
            return Ok(true);
        }
        match self.holdings.way_of(log, node, ops) {
            Way::Free => self.place(log, node)?,
            Way::Open => match self.late_key(log, node, ops) {
                Some(key) => {
                    self.holdings.await_change(node, key);
                    self.pass_on(node)?;
                }
                None if is_chosen => self.place(log, node)?,
                None => self.hold(self.open, node),
            },
            way => return self.wait(node, way),
        }
        Ok(true)
    }

    /// Has a head wait that cannot be placed; answers whether an order is still possible.
    fn wait(&mut self, node: u32, way: Way) -> Result<bool, AllocError> {
        let mut is_possible = true;
        match way {
            Way::Read { version } => self.holdings.await_version(node, version),
            Way::Update { key } => is_possible = self.holdings.await_update(node, key),
            Way::Write { key } => self.hold(key, node),
            Way::Free | Way::Open => {}
        }
        self.pass_on(node)?;
        Ok(is_possible)
    }

    /// Looks at a head; answers whether there is one, and an order is still possible.
    fn step(&mut self, log: &NumberedLog<'_>) -> Result<bool, AllocError> {
        if let Some(node) = self.fresh.pop() {
            return self.look(log, node, false);
        }
        match self.take(self.open) {
            Some(node) => self.look(log, node, true),
            None => Ok(false),
        }
    }
}

/// Whether another node of its session comes behind a node.
pub fn is_followed(log: &NumberedLog<'_>, node: u32) -> bool {
    let place = node as usize;
    match (log.nodes.get(place), log.nodes.get(place.saturating_add(1))) {
        (Some(node), Some(next)) => node.session == next.session,
        _ => false,
    }
}

/// An order of all nodes of a log, by their numbers from 1, where one is found in one go before the
/// time is up. Greater identities than this one are those of locks.
pub fn quick_order<R: Clock>(
    alarm: &mut Alarm<'_, R>,
    alloc: Global,
    log: &NumberedLog<'_>,
    most: u64,
) -> Result<Option<Vec<usize>>, AllocError> {
    let Some(holdings) = Holdings::of(alloc, log)? else {
        return Ok(None);
    };
    let mut quick = Quick::new(alloc, log, holdings, most)?;
    for _ in 0..u64::MAX {
        if alarm.rings(STEPS_PER_LOOK) || !quick.step(log)? {
            break;
        }
    }
    let Quick { order, .. } = quick;
    if order.len() < log.nodes.len() {
        return Ok(None);
    }
    Ok(Some(order))
}
