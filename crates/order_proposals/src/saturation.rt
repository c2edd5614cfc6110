//! Rules are applied until nothing comes of them.

use crate::by_lane::ByLane;
use crate::clocks::{Clocks, Swept, copy_row, ranks_of, sweep, waits_of};
use crate::hops::Hops;
use crate::known::{Edge, Graph};
use crate::rules::Facts;
use crate::scanning::{Share, found_in, shares};
use crate::versions::Versions;
use crate::watch::{Alarm, Watch};
use numbers::{Entry, add, at, lists_of, number};
use progress::{Deadline, Progress, Stage};
use std::alloc::{AllocError, Global};
use std::io::Eprint;
use std::thread;
use std::thread::Threads;
use std::time::Clock;

/// What is known of the order of points: edges, clocks, and a topological order.
#[derive(Drop)]
pub struct Known {
    pub graph: Graph,
    pub hops: Hops,
    /// Of each point how many edges lead to it.
    pub degrees: Vec<u32>,
    pub clocks: Clocks,
    pub order: Vec<u32>,
    /// How many edges had been found when the points were put in this order.
    swept: usize,
}

/// What comes of the rules.
#[derive(Drop)]
pub enum Saturated {
    /// All that does.
    Whole,
    /// A circle: the points of these waits are on it or behind it.
    Circle(Vec<u32>),
    TimeIsUp,
}

/// One edge in so many nodes, or fewer, are few.
const NODES_TO_ONE: usize = 128;
/// So many passes at most are made in the order of the last sweep.
const PASSES: usize = 8;

impl Known {
    /// What a graph shows. Its edges by number go: there are many, and `hops` has them by source.
    pub fn new(alloc: Global, mut graph: Graph, hops: Hops) -> Result<Known, AllocError> {
        let degrees = waits_of(alloc, graph.count(), &graph.known)?;
        graph.known = Vec::new(alloc);
        Ok(Known {
            hops,
            degrees,
            clocks: Clocks::new(alloc, &graph)?,
            order: Vec::new(alloc),
            swept: 0,
            graph,
        })
    }

    /// Clocks that say what edges show, and nothing that was supposed; answers whether the time is not
    /// up.
    pub fn begin_anew<R: Clock>(
        &mut self,
        alarm: &mut Alarm<'_, R>,
        alloc: Global,
    ) -> Result<bool, AllocError> {
        self.clocks = Clocks::none(alloc)?;
        self.clocks = Clocks::new(alloc, &self.graph)?;
        let swept = self.sweep_all(alarm, alloc)?;
        Ok(matches!(swept, Saturated::Whole))
    }

    /// Adds an edge, where it says something new.
    fn add(&mut self, edge: Edge, row: &mut [u32]) -> Result<(), AllocError> {
        let from = self.graph.point(edge.from);
        if edge.from == edge.to || self.clocks.is_behind(edge.to, from) {
            return Ok(());
        }
        copy_row(row, self.clocks.row(edge.from));
        self.clocks.raise_by(edge.to, row);
        add(self.degrees.as_mut_slice(), edge.to, 1);
        self.graph.found.push(edge)?;
        Ok(())
    }

    /// Tells those behind points of their rows, where these grew, in the order of the last sweep.
    fn pass<R: Clock>(&mut self, alarm: &mut Alarm<'_, R>, row: &mut [u32]) {
        for point in &self.order {
            if self.clocks.take_fresh(*point) {
                copy_row(row, self.clocks.row(*point));
                for targets in [self.hops.known(*point), self.hops.found(*point)] {
                    self.clocks.tell(targets, row);
                    if alarm.rings(targets.len().saturating_mul(row.len())) {
                        return;
                    }
                }
            }
        }
    }

    /// Brings clocks up to date in few passes, where that can be and the time is not up.
    fn spread<R: Clock>(
        &mut self,
        alarm: &mut Alarm<'_, R>,
        alloc: Global,
    ) -> Result<bool, AllocError> {
        let mut row = vec![in alloc; 0; self.clocks.lanes()]?;
        for _ in 0..PASSES {
            self.pass(alarm, row.as_mut_slice());
            if alarm.rings(0) {
                break;
            }
            if !self.clocks.is_one_fresh() {
                return Ok(true);
            }
        }
        Ok(false)
    }

    /// Whether one of the edges from one on is on a circle, where clocks are up to date.
    fn is_circular(&self, first: usize) -> bool {
        for edge in self.graph.found.iter().skip(first) {
            let to = self.graph.point(edge.to);
            if self.clocks.is_behind(edge.from, to) {
                return true;
            }
        }
        false
    }

    /// Brings clocks up to date by all points.
    fn sweep_all<R: Clock>(
        &mut self,
        alarm: &mut Alarm<'_, R>,
        alloc: Global,
    ) -> Result<Saturated, AllocError> {
        match sweep(alarm, alloc, &self.hops, &self.degrees, &mut self.clocks)? {
            Some(Swept { order, waits }) => {
                if order.len() < self.graph.points.len() {
                    return Ok(Saturated::Circle(waits));
                }
                self.order = order;
                self.swept = self.graph.found.len();
                Ok(Saturated::Whole)
            }
            None => Ok(Saturated::TimeIsUp),
        }
    }

    /// Puts points in topological order once more, where edges were found since the last sweep.
    fn renew_order<R: Clock>(
        &mut self,
        alarm: &mut Alarm<'_, R>,
        alloc: Global,
    ) -> Result<Saturated, AllocError> {
        if self.swept < self.graph.found.len() {
            return self.sweep_all(alarm, alloc);
        }
        Ok(Saturated::Whole)
    }

    /// Brings clocks up to date, where the edges from one on are new: in the order of the last sweep
    /// where they are few, else by another one.
    fn update<R: Clock>(
        &mut self,
        alarm: &mut Alarm<'_, R>,
        alloc: Global,
        first: usize,
    ) -> Result<Saturated, AllocError> {
        let added = self.graph.found.len().saturating_sub(first);
        let is_few = added > 0 && added <= self.graph.points.len() / NODES_TO_ONE;
        if is_few && self.spread(alarm, alloc)? && !self.is_circular(first) {
            return Ok(Saturated::Whole);
        }
        self.sweep_all(alarm, alloc)
    }

    /// Adds what was found, until the time is up: edges from points that come late first, since others
    /// often follow.
    fn add_found<R: Clock>(
        &mut self,
        alarm: &mut Alarm<'_, R>,
        alloc: Global,
        found: &[Edge],
    ) -> Result<(), AllocError> {
        let ranks = ranks_of(alloc, &self.order)?;
        let mut entries = Vec::with_capacity(alloc, found.len())?;
        for (i, edge) in found.iter().enumerate() {
            let (list, item) = (at(&ranks, edge.from), number(i));
            entries.push(Entry { list, item })?;
        }
        let by_rank = lists_of(alloc, number(ranks.len()), &entries)?;
        let mut row = vec![in alloc; 0; self.clocks.lanes()]?;
        for i in by_rank.items().iter().rev() {
            if alarm.rings(row.len()) {
                break;
            }
            if let Some(edge) = found.get(*i as usize) {
                self.add(*edge, row.as_mut_slice())?;
            }
        }
        Ok(())
    }

    /// A round: what the rules say of each node whose row grew, each share of the keys in a thread of
    /// its own; less of it where the time is up.
    fn apply_rules<R: Threads + Clock + Eprint + Sync, P: Progress>(
        &mut self,
        watch: &Watch<'_, R, P>,
        alloc: Global,
        versions: &Versions,
        by_lane: &ByLane,
    ) -> Result<(), AllocError> {
        let facts = Facts {
            versions,
            by_lane,
            graph: &self.graph,
            clocks: &self.clocks,
        };
        let shares = shares(alloc, facts, watch.workers.get())?;
        let found = found_by_all(watch.rt, alloc, facts, &shares, watch.deadline)?;
        self.clocks.clear_grown();
        self.add_found(&mut watch.alarm(), alloc, &joined(alloc, found)?)
    }

    /// Adds what comes of the rules, until nothing does.
    pub fn saturate<R: Threads + Clock + Eprint + Sync, P: Progress>(
        &mut self,
        watch: &mut Watch<'_, R, P>,
        alloc: Global,
        versions: &Versions,
        by_lane: &ByLane,
    ) -> Result<Saturated, AllocError> {
        let mut alarm = watch.alarm();
        let mut first = 0;
        for round in 1..usize::MAX {
            watch.tell(Stage::Round(round));
            match self.update(&mut alarm, alloc, first)? {
                Saturated::Whole => {}
                ended => return Ok(ended),
            }
            let found = self.graph.found.len();
            self.graph.rounds.push(number(found))?;
            self.apply_rules(watch, alloc, versions, by_lane)?;
            if watch.is_over() {
                return Ok(Saturated::TimeIsUp);
            }
            if self.graph.found.len() == found {
                break;
            }
            self.hops.renew(alloc, &self.graph)?;
            first = found;
        }
        self.renew_order(&mut alarm, alloc)
    }
}

/// What was found in all shares.
fn joined(
    alloc: Global,
    found: Vec<Result<Vec<Edge>, AllocError>>,
) -> Result<Vec<Edge>, AllocError> {
    let mut all = Vec::new(alloc);
    for part in found {
        let mut part = part?;
        if all.is_empty() {
            all = part;
        } else {
            all.append(&mut part)?;
        }
    }
    Ok(all)
}

/// What the rules say of the keys of each share.
fn found_by_all<R: Threads + Clock + Sync>(
    rt: &R,
    alloc: Global,
    facts: Facts<'_>,
    shares: &[Share],
    deadline: Option<Deadline>,
) -> Result<Vec<Result<Vec<Edge>, AllocError>>, AllocError> {
    let found = |place: usize| -> Result<Vec<Edge>, AllocError> {
        match shares.get(place) {
            Some(share) => found_in(Alarm::new(rt, deadline), alloc, facts, *share),
            None => Ok(Vec::new(alloc)),
        }
    };
    thread::map_indices(rt, alloc, shares.len(), &found)
}
