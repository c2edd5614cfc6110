//! The versions of keys and their readers, by lane.

use crate::known::{Graph, Point};
use crate::versions::Versions;
use numbers::{Lists, at, number, put};
use std::alloc::{AllocError, Global};

/// The last reader of a version in a lane: its place there.
#[derive(Clone, Copy)]
pub struct Reader {
    pub lane: u32,
    pub place: u32,
}

/// The versions of a key that a lane wrote: from one to another.
#[derive(Clone, Copy)]
pub struct Group {
    pub lane: u32,
    pub start: u32,
    pub end: u32,
}

/// Versions by lane, where nodes stand in the order of lanes and places.
#[derive(Drop)]
pub struct ByLane {
    /// Of each version the last reader of each lane.
    pub last_readers: Lists<Reader>,
    /// Of each key the lanes that write it.
    pub groups: Lists<Group>,
    /// Of each lane its first node.
    starts: Vec<u32>,
    /// Of each version the place of its writer.
    places: Vec<u32>,
}

/// Adds the last of some readers, in the order of nodes, in each lane.
fn push_last(last: &mut Lists<Reader>, graph: &Graph, readers: &[u32]) -> Result<(), AllocError> {
    let mut before: Option<Reader> = None;
    for node in readers {
        let Point { lane, place } = graph.point(*node);
        if let Some(reader) = before
            && reader.lane != lane
        {
            last.push(reader)?;
        }
        before = Some(Reader { lane, place });
    }
    if let Some(reader) = before {
        last.push(reader)?;
    }
    last.close()
}

/// Of each version the last reader of each lane.
fn last_readers_of(
    alloc: Global,
    versions: &Versions,
    graph: &Graph,
) -> Result<Lists<Reader>, AllocError> {
    let count = versions.initial(0);
    let most = versions.readers.span(0, count).len();
    let mut last = Lists::with_room(alloc, count as usize, most)?;
    for version in 0..count {
        push_last(&mut last, graph, versions.readers.list(version))?;
    }
    Ok(last)
}

/// Of each lane its first node.
fn starts_of(alloc: Global, graph: &Graph) -> Result<Vec<u32>, AllocError> {
    let mut starts = vec![in alloc; 0; graph.lanes as usize]?;
    for node in 0..graph.nodes {
        let Point { lane, place } = graph.point(node);
        if place == 1 {
            put(starts.as_mut_slice(), lane, node);
        }
    }
    Ok(starts)
}

impl ByLane {
    /// Puts versions by lane.
    pub fn of(alloc: Global, versions: &Versions, graph: &Graph) -> Result<ByLane, AllocError> {
        let mut by_lane = ByLane {
            last_readers: last_readers_of(alloc, versions, graph)?,
            groups: Lists::new(alloc),
            starts: starts_of(alloc, graph)?,
            places: Vec::with_capacity(alloc, versions.writers.len())?,
        };
        for writer in &versions.writers {
            by_lane.places.push(graph.point(*writer).place)?;
        }
        for key in 0..versions.keys {
            by_lane.add_groups(versions, graph, key)?;
        }
        Ok(by_lane)
    }

    /// Adds the groups of a key.
    fn add_groups(
        &mut self,
        versions: &Versions,
        graph: &Graph,
        key: u32,
    ) -> Result<(), AllocError> {
        let (first, _) = versions.of_key(key);
        let mut group: Option<Group> = None;
        for (i, writer) in versions.writers_of(key).iter().enumerate() {
            let start = first.saturating_add(number(i));
            let end = start.saturating_add(1);
            let lane = graph.point(*writer).lane;
            group = match group {
                Some(group) if group.lane == lane => Some(Group { end, ..group }),
                Some(group) => {
                    self.groups.push(group)?;
                    Some(Group { lane, start, end })
                }
                None => Some(Group { lane, start, end }),
            };
        }
        if let Some(group) = group {
            self.groups.push(group)?;
        }
        self.groups.close()
    }

    /// The versions of a key that a lane wrote, where it wrote some.
    pub fn group(&self, key: u32, lane: u32) -> Option<Group> {
        let groups = self.groups.list(key);
        match groups.binary_search_by_key(&lane, |group| group.lane) {
            Ok(place) => groups.get(place).copied(),
            Err(_) => None,
        }
    }

    /// The node of a reader.
    pub fn node(&self, reader: Reader) -> u32 {
        at(&self.starts, reader.lane)
            .saturating_add(reader.place)
            .saturating_sub(1)
    }

    /// The places of the writers of these versions.
    pub fn places(&self, start: u32, end: u32) -> &[u32] {
        match self.places.as_slice().get(start as usize..end as usize) {
            Some(places) => places,
            None => &[],
        }
    }

    /// The place of the writer of a version.
    pub fn place(&self, version: u32) -> u32 {
        at(&self.places, version)
    }
}
