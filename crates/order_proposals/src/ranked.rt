//! An order in which the versions of each key follow the ranks of their writers.

use crate::clocks::{Swept, sweep_edges};
use crate::known::Graph;
use crate::ranks::ranks_of;
use crate::versions::Versions;
use numbered_log::NumberedLog;
use numbers::Entry;
use std::alloc::{AllocError, Global};

/// Versions in the order of ranks, and the edges that follow from it.
#[derive(Drop)]
struct Ranked<'a> {
    versions: &'a Versions,
    /// Of each transaction of the log its rank.
    ranks: Vec<u64>,
    edges: Vec<Entry>,
    /// The versions of a key.
    sorted: Vec<u32>,
}

impl Ranked<'_> {
    /// The rank of the writer of a version.
    fn rank(&self, version: u32) -> u64 {
        match self
            .versions
            .nodes
            .get(self.versions.writer(version) as usize)
        {
            Some(node) => {
                let place = (node.number as usize).saturating_sub(1);
                self.ranks.get(place).copied().unwrap_or(0)
            }
            None => 0,
        }
    }

    /// Adds the edges of a version whose next one has this writer: from its own writer, and from its
    /// readers.
    fn add_version(&mut self, version: u32, next: u32) -> Result<(), AllocError> {
        let writer = self.versions.writer(version);
        if (writer as usize) < self.versions.nodes.len() {
            self.edges.push(Entry {
                list: writer,
                item: next,
            })?;
        }
        for reader in self.versions.readers.list(version) {
            if *reader != next {
                self.edges.push(Entry {
                    list: *reader,
                    item: next,
                })?;
            }
        }
        Ok(())
    }

    /// Adds the edges of a key.
    fn add_key(&mut self, alloc: Global, key: u32) -> Result<(), AllocError> {
        let (first, behind) = self.versions.of_key(key);
        let mut sorted = std::mem::replace(&mut self.sorted, Vec::new(alloc));
        sorted.clear();
        for version in first..behind {
            sorted.push(version)?;
        }
        sorted.sort_unstable_by_key(|version: &u32| (self.rank(*version), *version));
        let mut before = self.versions.initial(key);
        for version in &sorted {
            self.add_version(before, self.versions.writer(*version))?;
            before = *version;
        }
        self.sorted = sorted;
        Ok(())
    }
}

/// An order of nodes in which the versions of each key follow the ranks of their writers, where there
/// is one by what is known. Greater identities than this one are those of locks.
pub fn ranked_order(
    alloc: Global,
    log: &NumberedLog<'_>,
    versions: &Versions,
    graph: &Graph,
    greatest: u64,
) -> Result<Option<Vec<u32>>, AllocError> {
    let mut ranked = Ranked {
        versions,
        ranks: ranks_of(alloc, log, greatest)?,
        edges: Vec::with_capacity(alloc, graph.known.len().saturating_mul(2))?,
        sorted: Vec::new(alloc),
    };
    ranked.edges.extend_from_slice(&graph.known)?;
    for key in 0..versions.keys {
        ranked.add_key(alloc, key)?;
    }
    let Swept { mut order, .. } = sweep_edges(alloc, graph.count(), &ranked.edges)?;
    if order.len() < graph.points.len() {
        return Ok(None);
    }
    order.retain(|point| *point < graph.nodes);
    Ok(Some(order))
}
