//! What stands behind points.

use crate::hops::Hops;
use numbers::Chains;
use std::alloc::{AllocError, Global};

/// Two nodes, the first of which is to come before the second.
#[derive(Clone, Copy)]
pub struct Pair {
    pub first: u32,
    pub second: u32,
}

/// What stands behind points: by edges, by what was supposed, and by holding back.
#[derive(Drop)]
pub struct Behind<'a> {
    hops: &'a Hops,
    supposed: Chains,
    held: Chains,
    holds: Vec<Pair>,
}

impl<'a> Behind<'a> {
    /// By the edges of a graph of so many points.
    pub fn of(alloc: Global, hops: &'a Hops, points: u32) -> Behind<'a> {
        Behind {
            hops,
            supposed: Chains::new(alloc, points),
            held: Chains::new(alloc, points),
            holds: Vec::new(alloc),
        }
    }

    /// Puts what comes behind a point, by edges and by what was supposed, in the place of these.
    pub fn find(&self, point: u32, targets: &mut Vec<u32>) -> Result<(), AllocError> {
        targets.clear();
        targets.extend_from_slice(self.hops.known(point))?;
        targets.extend_from_slice(self.hops.found(point))?;
        self.supposed.add_to(point, targets)
    }

    /// The same with what is held back until the point is placed.
    pub fn find_all(&self, point: u32, targets: &mut Vec<u32>) -> Result<(), AllocError> {
        self.find(point, targets)?;
        self.held.add_to(point, targets)
    }

    /// Supposes a pair.
    pub fn suppose(&mut self, pair: Pair) -> Result<(), AllocError> {
        self.supposed.push(pair.first, pair.second)
    }

    /// Takes back the pair that was supposed last.
    pub fn take_back(&mut self, pair: Pair) {
        self.supposed.pop(pair.first);
    }

    /// Whether the second of a pair is held back until the first is placed.
    pub fn is_held(&self, pair: Pair) -> bool {
        self.held.contains(pair.first, pair.second)
    }

    /// Holds back the second of a pair until the first is placed.
    pub fn hold(&mut self, pair: Pair) -> Result<(), AllocError> {
        self.holds.push(pair)?;
        self.held.push(pair.first, pair.second)
    }

    /// Lets go all that is held back; these are the pairs.
    pub fn let_go(&mut self, alloc: Global) -> Vec<Pair> {
        for pair in &self.holds {
            self.held.reset(pair.first);
        }
        self.held.clear();
        std::mem::replace(&mut self.holds, Vec::new(alloc))
    }
}
