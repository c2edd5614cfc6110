//! The edges of a graph by their sources.

use crate::known::Graph;
use numbers::{Entry, Lists, lists_of};
use std::alloc::{AllocError, Global};

/// The targets of edges by their sources: of those that the log shows, and of those that were found.
#[derive(Drop)]
pub struct Hops {
    known: Lists<u32>,
    found: Lists<u32>,
}

impl Hops {
    /// Those of what a log shows.
    pub fn of(alloc: Global, graph: &Graph) -> Result<Hops, AllocError> {
        Ok(Hops {
            known: lists_of(alloc, graph.count(), &graph.known)?,
            found: Lists::new(alloc),
        })
    }

    /// Puts in what was found meanwhile.
    pub fn renew(&mut self, alloc: Global, graph: &Graph) -> Result<(), AllocError> {
        self.found = Lists::new(alloc);
        let mut entries = Vec::with_capacity(alloc, graph.found.len())?;
        for edge in &graph.found {
            let (list, item) = (edge.from, edge.to);
            entries.push(Entry { list, item })?;
        }
        self.found = lists_of(alloc, graph.count(), &entries)?;
        Ok(())
    }

    /// Those of what the log shows.
    pub fn known(&self, point: u32) -> &[u32] {
        self.known.list(point)
    }

    /// Those of what was found.
    pub fn found(&self, point: u32) -> &[u32] {
        self.found.list(point)
    }
}
