//! What keys hold while nodes are placed in one go.

use numbered_log::{NumberedLog, NumberedOp, PackedOp};
use numbers::{NONE, number};
use std::alloc::{AllocError, Global};

/// What a key holds.
#[derive(Clone, Copy)]
struct Holding {
    version: u32,
    /// How many nodes read that version from others and are not placed.
    readers: u32,
    /// The last node that was seen to read the key from others.
    reader: u32,
    /// One that reads the version, and waits until it alone does so to overwrite it.
    updater: u32,
    /// The last one of those that wait until what the key holds has changed.
    late: u32,
}

/// What is asked of a version that its key does not hold yet.
#[derive(Clone, Copy)]
struct Asked {
    /// How many nodes read it from others.
    readers: u32,
    /// The last one of those that wait for it.
    waiting: u32,
}

/// The last node that named a key, and the version that it named.
#[derive(Clone, Copy)]
struct Named {
    node: u32,
    version: u32,
}

/// Whether a node can be placed, or what it waits for.
#[derive(Clone, Copy)]
pub enum Way {
    /// It can, and nobody has to wait for longer.
    Free,
    /// It can, but overwriting what it writes has to wait for readers.
    Open,
    /// It reads a version that its key does not hold.
    Read { version: u32 },
    /// Others still have to read what it reads and overwrites.
    Update { key: u32 },
    /// Others still have to read what it overwrites.
    Write { key: u32 },
}

/// Who goes on where the state of a key has changed.
#[derive(Clone, Copy)]
pub struct Going {
    /// The last ones of those that waited for the version and for a change, and the one that waited
    /// to overwrite what it reads.
    pub waiting: u32,
    pub late: u32,
    pub updater: u32,
    /// Whether nobody has to read what the key holds.
    pub is_free: bool,
}

/// What keys hold, what is asked of versions, and of each node the one that waited before it for
/// the same.
#[derive(Drop)]
pub struct Holdings {
    keys: Vec<Holding>,
    versions: Vec<Asked>,
    before: Vec<u32>,
}

/// Whether a node writes a version.
fn writes(log: &NumberedLog<'_>, node: u32, version: u32) -> bool {
    log.writers.get(version as usize).copied() == node.checked_add(1)
}

/// Whether no node writes a version that is none of the initial ones.
fn has_no_writer(log: &NumberedLog<'_>, version: u32) -> bool {
    let writer = log.writers.get(version as usize).copied();
    version != 0 && writer.unwrap_or(0) == 0
}

impl Holdings {
    /// Before the first node is placed; nothing where the reads of some node have no order.
    pub fn of(alloc: Global, log: &NumberedLog<'_>) -> Result<Option<Holdings>, AllocError> {
        let initial = Holding {
            version: 0,
            readers: 0,
            reader: NONE,
            updater: NONE,
            late: NONE,
        };
        let (node, version, readers, waiting) = (NONE, NONE, 0, NONE);
        let mut holdings = Holdings {
            keys: vec![in alloc; initial; log.keys.len()]?,
            versions: vec![in alloc; Asked { readers, waiting }; log.identities.len()]?,
            before: vec![in alloc; NONE; log.nodes.len()]?,
        };
        let mut named = vec![in alloc; Named { node, version }; log.keys.len()]?;
        for (i, node) in log.nodes.iter().enumerate() {
            for op in log.ops_of(*node) {
                if !holdings.count(log, named.as_mut_slice(), number(i), op) {
                    return Ok(None);
                }
            }
        }
        Ok(Some(holdings))
    }

    /// Counts an operation of a node; answers whether what it reads can be there.
    fn count(
        &mut self,
        log: &NumberedLog<'_>,
        named: &mut [Named],
        node: u32,
        op: &PackedOp,
    ) -> bool {
        match op.get() {
            NumberedOp::Read { key, version } => {
                let Some(last) = named.get_mut(key as usize) else {
                    return false;
                };
                if last.node == node {
                    return last.version == version;
                }
                *last = Named { node, version };
                self.add_reader(key, version);
                !writes(log, node, version) && !has_no_writer(log, version)
            }
            NumberedOp::Write { key, version } => {
                if let Some(last) = named.get_mut(key as usize) {
                    *last = Named { node, version };
                }
                true
            }
        }
    }

    /// One more reads a version from others.
    fn add_reader(&mut self, key: u32, version: u32) {
        if version == 0
            && let Some(holding) = self.keys.get_mut(key as usize)
        {
            holding.readers = holding.readers.saturating_add(1);
        } else if let Some(asked) = self.versions.get_mut(version as usize) {
            asked.readers = asked.readers.saturating_add(1);
        }
    }

    /// Whether a read of a node finds its version, there or in what the node writes itself.
    fn finds(&mut self, log: &NumberedLog<'_>, node: u32, key: u32, version: u32) -> bool {
        let Some(holding) = self.keys.get_mut(key as usize) else {
            return false;
        };
        if holding.version == version {
            holding.reader = node;
            return true;
        }
        writes(log, node, version)
    }

    /// What is asked of a version.
    fn asked(&self, version: u32) -> Asked {
        match self.versions.get(version as usize) {
            Some(asked) => *asked,
            None => Asked {
                readers: 0,
                waiting: NONE,
            },
        }
    }

    /// The way of a node with a write, by the way that it has without it.
    fn way_with(&self, way: Way, node: u32, key: u32, version: u32) -> Way {
        let Some(holding) = self.keys.get(key as usize) else {
            return way;
        };
        let reads = holding.reader == node;
        let most = if reads { 1 } else { 0 };
        match way {
            Way::Read { .. } | Way::Update { .. } | Way::Write { .. } => way,
            _ if holding.readers > most && reads => Way::Update { key },
            _ if holding.readers > most => Way::Write { key },
            _ if reads || self.asked(version).readers == 0 => way,
            _ => Way::Open,
        }
    }

    /// Whether a node with these operations can be placed.
    pub fn way_of(&mut self, log: &NumberedLog<'_>, node: u32, ops: &[PackedOp]) -> Way {
        let mut way = Way::Free;
        for op in ops {
            match op.get() {
                NumberedOp::Read { key, version } => {
                    if !self.finds(log, node, key, version) {
                        return Way::Read { version };
                    }
                }
                NumberedOp::Write { key, version } => {
                    way = self.way_with(way, node, key, version);
                }
            }
        }
        way
    }

    /// A node that can be placed has read a key, if it read it from others.
    fn take_reader(&mut self, node: u32, key: u32) {
        if let Some(holding) = self.keys.get_mut(key as usize)
            && holding.reader == node
        {
            holding.readers = holding.readers.saturating_sub(1);
            holding.reader = NONE;
        }
    }

    /// A key holds a version from now on.
    fn overwrite(&mut self, key: u32, version: u32) {
        let Asked { readers, .. } = self.asked(version);
        if let Some(holding) = self.keys.get_mut(key as usize) {
            holding.version = version;
            holding.readers = readers;
            holding.reader = NONE;
            holding.updater = NONE;
        }
    }

    /// Places a node that was seen last of all, and can be placed.
    pub fn place(&mut self, node: u32, ops: &[PackedOp]) {
        for op in ops {
            match op.get() {
                NumberedOp::Read { key, .. } => self.take_reader(node, key),
                NumberedOp::Write { key, version } => self.overwrite(key, version),
            }
        }
    }

    /// Has a node wait for a version.
    pub fn await_version(&mut self, node: u32, version: u32) {
        if let Some(asked) = self.versions.get_mut(version as usize)
            && let Some(before) = self.before.get_mut(node as usize)
        {
            *before = asked.waiting;
            asked.waiting = node;
        }
    }

    /// Has a node wait until what a key holds has changed.
    pub fn await_change(&mut self, node: u32, key: u32) {
        if let Some(holding) = self.keys.get_mut(key as usize)
            && let Some(before) = self.before.get_mut(node as usize)
        {
            *before = holding.late;
            holding.late = node;
        }
    }

    /// Whether a node that can be placed has others read what it writes to a key, and does not read
    /// what it overwrites.
    pub fn is_guess(&self, node: u32, key: u32, version: u32) -> bool {
        match self.keys.get(key as usize) {
            Some(holding) => holding.reader != node && self.asked(version).readers > 0,
            None => false,
        }
    }

    /// The one that waited for the same before a node did.
    pub fn before(&self, node: u32) -> u32 {
        self.before.get(node as usize).copied().unwrap_or(NONE)
    }

    /// Has a node wait to overwrite what it reads; answers whether it is the only one.
    pub fn await_update(&mut self, node: u32, key: u32) -> bool {
        let Some(holding) = self.keys.get_mut(key as usize) else {
            return false;
        };
        let is_alone = holding.updater == NONE || holding.updater == node;
        holding.updater = node;
        is_alone
    }

    /// Whether nobody has to read what a key holds.
    pub fn is_free(&self, key: u32) -> bool {
        match self.keys.get(key as usize) {
            Some(holding) => holding.readers == 0,
            None => false,
        }
    }

    /// Lets those go on that the state of a key kept from it.
    pub fn release(&mut self, key: u32) -> Going {
        let mut going = Going {
            waiting: NONE,
            late: NONE,
            updater: NONE,
            is_free: self.is_free(key),
        };
        let Some(holding) = self.keys.get_mut(key as usize) else {
            return going;
        };
        going.late = holding.late;
        holding.late = NONE;
        if holding.readers == 1 {
            going.updater = holding.updater;
            holding.updater = NONE;
        }
        if let Some(asked) = self.versions.get_mut(holding.version as usize) {
            going.waiting = asked.waiting;
            asked.waiting = NONE;
        }
        going
    }
}
