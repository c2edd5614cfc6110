//! Lanes: which sessions follow each other, by what is known, and share one.

use crate::clocks::{Swept, grow, ranks_of, sweep_edges};
use crate::known::{Graph, NOWHERE, Point};
use crate::versions::Versions;
use crate::watch::Alarm;
use numbers::{Entry, Lists, NONE, add, at, lists_of, number, put};
use std::alloc::{AllocError, Global};
use std::time::Clock;

/// The most lanes.
pub const MAX_LANES: usize = 1024;
/// The most numbers of clocks, a gigabyte of them.
pub const MAX_ENTRIES: usize = 1 << 28;
/// Up to so many sessions have a lane each.
const FEW: usize = 32;
/// Those of more sessions too, where fewer than one in so many could share one.
const FEW_SHARE: usize = 8;

/// What comes of giving lanes to sessions.
#[derive(Drop)]
pub enum Given {
    /// Each has one: versions, and what is known, with nodes by lane.
    Lanes(Versions, Graph),
    /// What is known has a circle: the points of these waits are on it or behind it.
    Circle(Versions, Graph, Vec<u32>),
    /// There are too many lanes.
    TooWide { lanes: usize },
    /// So many nodes with so many lanes need too many numbers.
    TooLarge { nodes: usize, lanes: usize },
    TimeIsUp,
}

/// The nodes of a session, and its lane and how many nodes of others stand before it there.
#[derive(Clone, Copy)]
struct Span {
    start: u32,
    end: u32,
    lane: u32,
    before: u32,
}

/// The sessions that have nodes.
fn spans_of(alloc: Global, versions: &Versions) -> Result<Vec<Span>, AllocError> {
    let mut spans: Vec<Span> = Vec::new(alloc);
    let mut session = NONE;
    for (i, node) in versions.nodes.iter().enumerate() {
        let (start, end) = (number(i), number(i).saturating_add(1));
        if node.session != session {
            session = node.session;
            spans.push(Span {
                start,
                end,
                lane: number(spans.len()),
                before: 0,
            })?;
        } else if let Some(span) = spans.last_mut() {
            span.end = end;
        }
    }
    Ok(spans)
}

/// A row of clocks among others, which are as long as there were lanes when they were made.
#[derive(Clone, Copy)]
struct Row {
    start: u32,
    end: u32,
}

/// A sweep in topological order that gives lanes to sessions.
#[derive(Drop)]
struct Sharing {
    spans: Vec<Span>,
    /// Of each node its span.
    of_nodes: Vec<u32>,
    /// Of each lane the place of the last node of the session that has it.
    ends: Vec<u32>,
    rows: Vec<Row>,
    entries: Vec<u32>,
    row: Vec<u32>,
}

impl Sharing {
    /// Puts together what is known before a point.
    fn gather(&mut self, before: &[u32]) {
        self.row.fill(0);
        for point in before {
            if let Some(row) = self.rows.get(*point as usize)
                && let Some(by) = self
                    .entries
                    .as_slice()
                    .get(row.start as usize..row.end as usize)
            {
                grow(self.row.as_mut_slice(), by);
            }
        }
    }

    /// A lane all of whose nodes come before the point whose row was put together, or a new one.
    fn free_lane(&mut self) -> Result<u32, AllocError> {
        for (lane, (end, known)) in self.ends.iter().zip(&self.row).enumerate() {
            if *end <= *known {
                return Ok(number(lane));
            }
        }
        self.ends.push(0)?;
        self.row.push(0)?;
        Ok(number(self.ends.len()).saturating_sub(1))
    }

    /// Gives a lane to a session whose first node this is.
    fn give(&mut self, span: u32) -> Result<(), AllocError> {
        let lane = self.free_lane()?;
        let before = at(&self.ends, lane);
        if let Some(span) = self.spans.get_mut(span as usize) {
            span.lane = lane;
            span.before = before;
            let count = span.end.saturating_sub(span.start);
            add(self.ends.as_mut_slice(), lane, count);
        }
        Ok(())
    }

    /// Notes what a node is in its lane.
    fn enter(&mut self, node: u32) -> Result<(), AllocError> {
        let number = at(&self.of_nodes, node);
        let Some(span) = self.spans.get(number as usize).copied() else {
            return Ok(());
        };
        if span.start == node {
            self.give(number)?;
        }
        if let Some(span) = self.spans.get(number as usize).copied() {
            let place = node.saturating_sub(span.start).saturating_add(span.before);
            put(self.row.as_mut_slice(), span.lane, place.saturating_add(1));
        }
        Ok(())
    }

    /// Makes the row of a point behind others.
    fn make_row(&mut self, point: u32, before: &[u32]) -> Result<(), AllocError> {
        self.gather(before);
        self.enter(point)?;
        let start = number(self.entries.len());
        self.entries.extend_from_slice(&self.row)?;
        let end = number(self.entries.len());
        if let Some(row) = self.rows.get_mut(point as usize) {
            *row = Row { start, end };
        }
        Ok(())
    }

    /// Whether there are too many lanes, or too many numbers.
    fn fault(&self) -> Option<Given> {
        let (nodes, lanes) = (self.of_nodes.len(), self.ends.len());
        if lanes > MAX_LANES {
            return Some(Given::TooWide { lanes });
        }
        if self.entries.len().saturating_add(lanes) > MAX_ENTRIES {
            return Some(Given::TooLarge { nodes, lanes });
        }
        None
    }
}

/// The sources of edges by their targets.
fn points_before(alloc: Global, graph: &Graph) -> Result<Lists<u32>, AllocError> {
    let mut entries = Vec::with_capacity(alloc, graph.known.len())?;
    for pair in &graph.known {
        let (list, item) = (pair.item, pair.list);
        entries.push(Entry { list, item })?;
    }
    lists_of(alloc, graph.count(), &entries)
}

/// Of each of so many nodes its span.
fn spans_of_nodes(alloc: Global, nodes: u32, spans: &[Span]) -> Result<Vec<u32>, AllocError> {
    let mut of_nodes = Vec::with_capacity(alloc, nodes as usize)?;
    for (i, span) in spans.iter().enumerate() {
        for _ in span.start..span.end {
            of_nodes.push(number(i))?;
        }
    }
    Ok(of_nodes)
}

/// Lanes for sessions.
#[derive(Drop)]
enum Shared {
    /// Sessions by lane.
    Spans(Vec<Span>),
    /// Not all points have a place in topological order.
    Circle(Vec<u32>),
    /// There are too many lanes or numbers, or the time is up.
    Fault(Given),
}

/// So many sessions at most stand at once in this topological order of points, from the first node of
/// each to its last one: each of these needs a lane.
fn most_at_once(alloc: Global, order: &[u32], spans: &[Span]) -> Result<usize, AllocError> {
    let ranks = ranks_of(alloc, order)?;
    let mut begins = Vec::with_capacity(alloc, spans.len())?;
    let mut ends = Vec::with_capacity(alloc, spans.len())?;
    for span in spans {
        begins.push(at(&ranks, span.start))?;
        ends.push(at(&ranks, span.end.saturating_sub(1)))?;
    }
    begins.sort_unstable();
    ends.sort_unstable();
    let mut most: usize = 0;
    for (begun, begin) in begins.iter().enumerate() {
        let ended = match ends.binary_search(begin) {
            Ok(place) => place,
            Err(place) => place,
        };
        most = most.max(begun.saturating_add(1).saturating_sub(ended));
    }
    Ok(most)
}

/// Gives lanes to sessions: one that begins behind the end of another takes over its lane. Where few
/// could, each has its own.
fn share<R: Clock>(
    alarm: &mut Alarm<'_, R>,
    alloc: Global,
    graph: &Graph,
    spans: Vec<Span>,
) -> Result<Shared, AllocError> {
    let Swept { order, waits } = sweep_edges(alloc, graph.count(), &graph.known)?;
    if order.len() < graph.points.len() {
        return Ok(Shared::Circle(waits));
    }
    let most = most_at_once(alloc, &order, &spans)?;
    if spans.len() <= MAX_LANES && most >= spans.len().saturating_sub(spans.len() / FEW_SHARE) {
        return Ok(Shared::Spans(spans));
    }
    let before = points_before(alloc, graph)?;
    let mut sharing = Sharing {
        of_nodes: spans_of_nodes(alloc, graph.nodes, &spans)?,
        spans,
        ends: Vec::new(alloc),
        rows: vec![in alloc; Row { start: 0, end: 0 }; graph.points.len()]?,
        entries: Vec::new(alloc),
        row: Vec::new(alloc),
    };
    for point in &order {
        let before = before.list(*point);
        sharing.make_row(*point, before)?;
        if let Some(fault) = sharing.fault() {
            return Ok(Shared::Fault(fault));
        }
        if alarm.rings(before.len().saturating_mul(sharing.row.len())) {
            return Ok(Shared::Fault(Given::TimeIsUp));
        }
    }
    let Sharing { spans, .. } = sharing;
    Ok(Shared::Spans(spans))
}

impl Graph {
    /// Gives the nodes of edges the numbers that they have in this order.
    fn rearrange(&mut self, alloc: Global, order: &[u32]) -> Result<(), AllocError> {
        let mut numbers = vec![in alloc; NONE; order.len()]?;
        for (i, node) in order.iter().enumerate() {
            put(numbers.as_mut_slice(), *node, number(i));
        }
        for pair in self.known.iter_mut() {
            let (from, to) = (at(&numbers, pair.list), at(&numbers, pair.item));
            if from != NONE {
                pair.list = from;
            }
            if to != NONE {
                pair.item = to;
            }
        }
        Ok(())
    }

    /// Puts nodes where they stand, where they are by lane.
    fn place_points(&mut self, alloc: Global, spans: &[Span]) -> Result<(), AllocError> {
        let mut points = Vec::with_capacity(alloc, self.points.len())?;
        for span in spans {
            self.lanes = self.lanes.max(span.lane.saturating_add(1));
            for i in span.start..span.end {
                let place = i.saturating_sub(span.start).saturating_add(span.before);
                points.push(Point {
                    lane: span.lane,
                    place: place.saturating_add(1),
                })?;
            }
        }
        for _ in points.len()..self.points.len() {
            points.push(NOWHERE)?;
        }
        self.points = points;
        Ok(())
    }
}

/// The nodes of these spans, one after the other.
fn nodes_of(alloc: Global, nodes: u32, spans: &[Span]) -> Result<Vec<u32>, AllocError> {
    let mut order = Vec::with_capacity(alloc, nodes as usize)?;
    for span in spans {
        for node in span.start..span.end {
            order.push(node)?;
        }
    }
    Ok(order)
}

/// Puts nodes by lane.
fn put_by_lane(
    alloc: Global,
    versions: Versions,
    mut graph: Graph,
    mut spans: Vec<Span>,
) -> Result<Given, AllocError> {
    spans.sort_by_key(|span| (span.lane, span.before))?;
    let order = nodes_of(alloc, graph.nodes, &spans)?;
    let versions = versions.rearranged(alloc, &order)?;
    graph.rearrange(alloc, &order)?;
    graph.place_points(alloc, &spans)?;
    Ok(fitting(versions, graph))
}

/// Nodes by lane, where their clocks have not too many numbers.
fn fitting(versions: Versions, graph: Graph) -> Given {
    let (nodes, lanes) = (versions.nodes.len(), graph.lanes as usize);
    if graph.points.len().saturating_mul(lanes) > MAX_ENTRIES {
        return Given::TooLarge { nodes, lanes };
    }
    Given::Lanes(versions, graph)
}

/// Gives lanes to sessions.
pub fn give_lanes<R: Clock>(
    alarm: &mut Alarm<'_, R>,
    alloc: Global,
    versions: Versions,
    mut graph: Graph,
) -> Result<Given, AllocError> {
    let spans = spans_of(alloc, &versions)?;
    if spans.len() <= FEW {
        graph.place_points(alloc, &spans)?;
        return Ok(fitting(versions, graph));
    }
    match share(alarm, alloc, &graph, spans)? {
        Shared::Spans(spans) => put_by_lane(alloc, versions, graph, spans),
        Shared::Circle(waits) => Ok(Given::Circle(versions, graph, waits)),
        Shared::Fault(fault) => Ok(fault),
    }
}
