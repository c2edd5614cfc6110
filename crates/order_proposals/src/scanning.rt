//! The rules, key by key: all who write a key, and those who read it from them, are looked at in one
//! go, so that its versions lie near, and the writers of each lane in order.

use crate::by_lane::{ByLane, Group};
use crate::known::{Edge, Why};
use crate::rules::{Facts, Finds, Looked, entry_of};
use crate::watch::Alarm;
use numbers::{NONE, at, number};
use std::alloc::{AllocError, Global};
use std::ops::Range;
use std::time::Clock;

/// Keys from one to before another.
#[derive(Clone, Copy)]
pub struct Share {
    pub start: u32,
    pub end: u32,
}

/// How far a group's versions come before the writer of a lane that is looked at. The writers of a
/// lane are looked at in order, and their clocks only grow, so that a finger only moves on.
#[derive(Clone, Copy)]
struct Finger {
    lane: u32,
    /// The place of the writer of the next version,
    next: u32,
    /// and of the first one of which it is not known that it comes before what readers of the writer
    /// find.
    reach: u32,
    /// The next version, and that behind the last one of the group.
    version: u32,
    end: u32,
}

impl Finger {
    /// That of a group before the first writer of a lane.
    fn of(by_lane: &ByLane, group: Group) -> Finger {
        Finger {
            lane: group.lane,
            next: by_lane.place(group.start),
            reach: NONE,
            version: group.start,
            end: group.end,
        }
    }

    /// Moves on behind the versions whose writers stand up to a place, of which there is one.
    fn move_to(&mut self, by_lane: &ByLane, place: u32) {
        for _ in self.version..self.end {
            self.version = self.version.saturating_add(1);
            if self.version >= self.end {
                self.next = NONE;
                return;
            }
            self.next = by_lane.place(self.version);
            if self.next > place {
                return;
            }
        }
    }

    /// The version before the next one.
    fn before(&self) -> u32 {
        self.version.saturating_sub(1)
    }

    /// The last version from the next one on whose writer stands up to a place, of which there is
    /// one.
    fn last_up_to(&self, by_lane: &ByLane, place: u32) -> u32 {
        let places = by_lane.places(self.version, self.end);
        let behind = match places.binary_search(&place) {
            Ok(found) => found.saturating_add(1),
            Err(behind) => behind,
        };
        self.version
            .saturating_add(number(behind))
            .saturating_sub(1)
    }

    /// The place of the writer of the version behind one of the group.
    fn place_behind(&self, by_lane: &ByLane, version: u32) -> u32 {
        let behind = version.saturating_add(1);
        if behind < self.end {
            by_lane.place(behind)
        } else {
            NONE
        }
    }

    /// A reader of a writer that stands here in its lane reaches the versions from the next one on;
    /// in the lane of the writer from the one behind its own on.
    fn reach_from(&mut self, by_lane: &ByLane, writer: &Looked<'_>, version: u32) {
        self.reach = if self.lane == writer.lane {
            self.place_behind(by_lane, version)
        } else {
            self.next
        };
    }
}

/// A version that is looked at: whether its writer's row grew, and how many readers stand before its
/// own ones in the block.
#[derive(Clone, Copy)]
struct Item {
    version: u32,
    is_grown: bool,
    first: u32,
}

/// Versions of a lane, and readers of them whose rows grew. Their rows are copied one after the
/// other, so that memory is asked for many of them at once.
#[derive(Drop)]
struct Block {
    items: Vec<Item>,
    readers: Vec<u32>,
    writer_rows: Vec<u32>,
    reader_rows: Vec<u32>,
}

/// So many versions are in a block at most,
const MOST_VERSIONS: usize = 64;
/// and so many readers.
const MOST_READERS: usize = 128;

impl Block {
    fn new(alloc: Global) -> Block {
        Block {
            items: Vec::new(alloc),
            readers: Vec::new(alloc),
            writer_rows: Vec::new(alloc),
            reader_rows: Vec::new(alloc),
        }
    }

    fn clear(&mut self) {
        self.items.clear();
        self.readers.clear();
        self.writer_rows.clear();
        self.reader_rows.clear();
    }

    /// Adds a version.
    fn open(&mut self, version: u32, is_grown: bool) -> Result<(), AllocError> {
        let first = number(self.readers.len());
        self.items.push(Item {
            version,
            is_grown,
            first,
        })?;
        Ok(())
    }

    /// Copies the rows.
    fn copy_rows(&mut self, facts: Facts<'_>) -> Result<(), AllocError> {
        for item in &self.items {
            let writer = facts.versions.writer(item.version);
            self.writer_rows
                .extend_from_slice(facts.clocks.row(writer))?;
        }
        for reader in &self.readers {
            self.reader_rows
                .extend_from_slice(facts.clocks.row(*reader))?;
        }
        Ok(())
    }

    /// A version.
    fn item(&self, place: usize) -> Option<Item> {
        self.items.get(place).copied()
    }

    /// Where the readers of a version stand.
    fn readers_of(&self, place: usize) -> Range<usize> {
        let start = self.item(place).map_or(0, |item| item.first as usize);
        let behind = self.item(place.saturating_add(1));
        start..behind.map_or(self.readers.len(), |item| item.first as usize)
    }
}

/// One of these rows of so many numbers.
fn row_at(rows: &[u32], place: usize, lanes: usize) -> &[u32] {
    let start = place.saturating_mul(lanes);
    match rows.get(start..start.saturating_add(lanes)) {
        Some(row) => row,
        None => &[],
    }
}

/// A scan of keys, with a finger for each lane that writes the one that is looked at, where there is
/// something to be looked at, and what is found.
#[derive(Drop)]
struct Scan<'a, R> {
    alarm: Alarm<'a, R>,
    facts: Facts<'a>,
    key: u32,
    fingers: Vec<Finger>,
    block: Block,
    finds: Finds,
}

impl<R: Clock> Scan<'_, R> {
    /// Puts the fingers of the key before the first writer of a lane.
    fn begin_lane(&mut self) -> Result<(), AllocError> {
        for group in self.facts.by_lane.groups.list(self.key) {
            self.fingers.push(Finger::of(self.facts.by_lane, *group))?;
        }
        Ok(())
    }

    /// Moves the fingers to the writer of a version, which comes behind the readers of those that come
    /// before the writer. Of these those are known that come before an earlier writer of its lane;
    /// and those of a writer whose row did not grow.
    fn look_at_writer(&mut self, writer: &Looked<'_>, item: Item) -> Result<(), AllocError> {
        let by_lane = self.facts.by_lane;
        for finger in self.fingers.iter_mut() {
            let place = writer.before(finger.lane);
            if finger.next <= place {
                finger.move_to(by_lane, place);
                let readers = by_lane.last_readers.list(finger.before());
                if item.is_grown && !readers.is_empty() {
                    let other = self.facts.versions.writer(finger.before());
                    self.finds.note_readers(by_lane, writer, other, readers)?;
                }
            }
            finger.reach_from(by_lane, writer, item.version);
        }
        Ok(())
    }

    /// What a node with this row reads of a writer, at which the fingers are, was written behind all
    /// other versions that come before the node.
    fn look_at_reader(&mut self, node: u32, row: &[u32], writer: u32) -> Result<(), AllocError> {
        let by_lane = self.facts.by_lane;
        for finger in self.fingers.iter_mut() {
            if finger.reach > entry_of(row, finger.lane) {
                continue;
            }
            let place = Looked::at(self.facts.graph, node, row).before(finger.lane);
            if finger.reach <= place {
                let last = finger.last_up_to(by_lane, place);
                let from = self.facts.versions.writer(last);
                self.finds.note(from, writer, Why::Before { reader: node })?;
                finger.reach = finger.place_behind(by_lane, last);
            }
        }
        Ok(())
    }

    /// Looks at a version of a group, which stands here in a block, and at its readers there: the last
    /// one first, since what several show is noted of the one that is looked at first.
    fn look_at_version(
        &mut self,
        block: &Block,
        group: Group,
        place: usize,
        item: Item,
    ) -> Result<(), AllocError> {
        let by_lane = self.facts.by_lane;
        let lanes = self.facts.clocks.lanes();
        let writer = Looked {
            node: self.facts.versions.writer(item.version),
            lane: group.lane,
            place: by_lane.place(item.version),
            row: row_at(&block.writer_rows, place, lanes),
        };
        self.look_at_writer(&writer, item)?;
        for i in block.readers_of(place).rev() {
            let node = block.readers.get(i).copied().unwrap_or(NONE);
            let row = row_at(&block.reader_rows, i, lanes);
            self.look_at_reader(node, row, writer.node)?;
        }
        Ok(())
    }

    /// Whether the time is up before another block is looked at.
    fn is_over(&mut self) -> bool {
        let lanes = self.facts.clocks.lanes();
        let rows = self
            .block
            .items
            .len()
            .saturating_add(self.block.readers.len());
        self.alarm.rings(rows.saturating_mul(lanes.saturating_add(self.fingers.len())))
    }

    /// Looks at the versions of a block where the time is not up, and empties it.
    fn look_at_block(&mut self, alloc: Global, group: Group) -> Result<(), AllocError> {
        if self.block.items.is_empty() || self.is_over() {
            self.block.clear();
            return Ok(());
        }
        if self.fingers.is_empty() {
            self.begin_lane()?;
        }
        let mut block = std::mem::replace(&mut self.block, Block::new(alloc));
        block.copy_rows(self.facts)?;
        for place in 0..block.items.len() {
            if let Some(item) = block.item(place) {
                self.look_at_version(&block, group, place, item)?;
            }
        }
        block.clear();
        self.block = block;
        Ok(())
    }

    /// Adds a reader of a version to the block, which is looked at first where it is full.
    fn add_reader(
        &mut self,
        alloc: Global,
        group: Group,
        version: u32,
        reader: u32,
    ) -> Result<(), AllocError> {
        if self.block.readers.len() >= MOST_READERS {
            self.look_at_block(alloc, group)?;
        }
        let last = self.block.items.last().map_or(NONE, |item| item.version);
        if last != version {
            self.block.open(version, false)?;
        }
        self.block.readers.push(reader)?;
        Ok(())
    }

    /// Adds a version and its readers to the block, where their rows grew.
    fn add_version(&mut self, alloc: Global, group: Group, version: u32) -> Result<(), AllocError> {
        let Facts {
            versions,
            clocks,
            ..
        } = self.facts;
        if self.block.items.len() >= MOST_VERSIONS {
            self.look_at_block(alloc, group)?;
        }
        if clocks.is_grown(versions.writer(version)) {
            self.block.open(version, true)?;
        }
        for reader in versions.readers.list(version) {
            if clocks.is_grown(*reader) {
                self.add_reader(alloc, group, version, *reader)?;
            }
        }
        Ok(())
    }

    /// Looks at a key.
    fn look_at_key(&mut self, alloc: Global, key: u32) -> Result<(), AllocError> {
        let by_lane = self.facts.by_lane;
        self.key = key;
        for group in by_lane.groups.list(key) {
            self.fingers.clear();
            for version in group.start..group.end {
                self.add_version(alloc, *group, version)?;
            }
            self.look_at_block(alloc, *group)?;
        }
        Ok(())
    }
}

/// What the rules say of those nodes whose rows grew, by the keys of a share; less of it where the
/// time is up.
pub fn found_in<R: Clock>(
    alarm: Alarm<'_, R>,
    alloc: Global,
    facts: Facts<'_>,
    share: Share,
) -> Result<Vec<Edge>, AllocError> {
    let mut scan = Scan {
        alarm,
        facts,
        key: NONE,
        fingers: Vec::new(alloc),
        block: Block::new(alloc),
        finds: Finds::new(alloc),
    };
    for key in share.start..share.end {
        if scan.alarm.rings(0) {
            break;
        }
        scan.look_at_key(alloc, key)?;
    }
    let Scan { finds, .. } = scan;
    let Finds { edges, .. } = finds;
    Ok(edges)
}

/// How much there is to be looked at of a key: its versions and their readers.
fn weight_of(facts: Facts<'_>, key: u32) -> usize {
    let (first, behind) = facts.versions.of_key(key);
    let readers = facts.versions.readers.span(first, behind).len();
    readers.saturating_add(behind.saturating_sub(first) as usize)
}

/// The keys in so many shares or fewer, of about as much to be looked at.
pub fn shares(alloc: Global, facts: Facts<'_>, workers: u8) -> Result<Vec<Share>, AllocError> {
    let (reads, writers) = (facts.versions.reads.items(), &facts.versions.writers);
    let all = reads.len().saturating_add(writers.len());
    let size = all / usize::from(workers.max(1));
    let mut shares = Vec::new(alloc);
    let mut start: u32 = 0;
    let mut weight: usize = 0;
    for key in 0..facts.versions.keys {
        weight = weight.saturating_add(weight_of(facts, key));
        if weight > size {
            let end = key.saturating_add(1);
            shares.push(Share { start, end })?;
            start = end;
            weight = 0;
        }
    }
    let end = facts.versions.keys;
    shares.push(Share { start, end })?;
    Ok(shares)
}
