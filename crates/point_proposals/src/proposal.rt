//! What is found, by its places.

use crate::graph::{Edge, Way, Why};
use crate::nodes::{Access, Node, Part, same_of};
use crate::steps::{Ending, Neither, Pair, Step, refute};
use point_refutations::{self as told, Against, Both, Missed, Overwritten, Refutation, Since};
use session_log::Session;
use std::alloc::{AllocError, Global};

/// Of a part with more committed transactions, or with more operations in them, nothing is sought.
const MANY_NODES: usize = 48;

const MANY_OPS: usize = 4_000;

/// A part, and the steps that are told of it, by their numbers.
#[derive(Clone, Copy)]
struct Telling<'a, 'b> {
    alloc: Global,
    part: &'b Part<'a>,
    is_locked: bool,
    needed: &'b [usize],
}

/// The read of the only edge of a way, where that misses a write.
fn only_missed<'a>(way: &Way<'a>) -> Option<Access<'a>> {
    match (way.edges.first()?.why, way.edges.len()) {
        (Why::Missed(read, _), 1) => Some(read),
        _ => None,
    }
}

/// The key of what two read, where each overwrites it.
fn lost<'a>(two: &Neither<'a>) -> Option<&'a [u8]> {
    let one = only_missed(&two.not_first)?;
    let other = only_missed(&two.not_second)?;
    one.is_same(&other).then_some(one.key)
}

/// The edges of a circle, which ends with one that misses a write, where there is one.
fn turned<'a>(alloc: Global, circle: &Way<'a>) -> Result<Vec<Edge<'a>>, AllocError> {
    let edges = circle.edges.as_slice();
    let seen = edges.iter().rev().take_while(|edge| !edge.is_missed());
    let (line, behind) = edges.split_at(edges.len().saturating_sub(seen.count()));
    let mut turned = Vec::with_capacity(alloc, edges.len())?;
    for edge in behind.iter().chain(line) {
        turned.push(*edge)?;
    }
    Ok(turned)
}

impl<'a, 'b> Telling<'a, 'b> {
    /// The index of a step among those that are told.
    fn index(&self, step: usize) -> usize {
        let mut needed = self.needed.iter();
        needed.position(|it| *it == step).unwrap_or(0)
    }

    /// The same of the step of an edge.
    fn index_of(&self, edge: &Edge<'a>) -> usize {
        edge.step.map_or(0, |step| self.index(step))
    }

    /// Why what is read is older than what a node writes.
    fn since(&self, read: &Access<'a>, writer: Node<'a>, step: Option<usize>) -> Since {
        match (step, same_of(&self.part.reads, writer, read)) {
            (Some(step), _) => Since::Step(self.index(step)),
            (None, Some(also)) => Since::ReadToo(also.op),
            (None, None) => Since::Initial,
        }
    }

    fn why(&self, edge: &Edge<'a>) -> told::Why {
        match edge.why {
            Why::Session => told::Why::Session,
            Why::Moments => told::Why::Moments,
            Why::Written => told::Why::Step(self.index_of(edge)),
            Why::Later => told::Why::Later(self.index_of(edge)),
            Why::Read(read, write) => told::Why::Read {
                write: write.op,
                read: read.op,
            },
            Why::Missed(read, write) => told::Why::Missed(Missed {
                read: read.op,
                found: self.part.found(&read).map(|it| it.at()),
                write: write.op,
                since: self.since(&read, edge.second, edge.step),
            }),
        }
    }

    fn edges(&self, edges: &[Edge<'a>]) -> Result<Vec<told::Edge>, AllocError> {
        let mut told = Vec::new(self.alloc);
        for edge in edges {
            told.push(told::Edge {
                from: edge.first.at,
                to: edge.second.at,
                why: self.why(edge),
            })?;
        }
        Ok(told)
    }

    /// Why a node cannot commit first.
    fn against(&self, way: &Way<'a>) -> Result<Against, AllocError> {
        let overwritten = match way.overwritten {
            Some(edge) if let Why::Missed(read, write) = edge.why => {
                self.part.found(&read).map(|found| Overwritten {
                    read: read.at(),
                    found: found.at(),
                    write: write.at(),
                })
            }
            _ => None,
        };
        let edges = self.edges(&way.edges)?;
        Ok(Against { overwritten, edges })
    }

    /// The first writes of a key by two nodes.
    fn both(&self, pair: Pair<'a>, key: &[u8]) -> Option<Both> {
        Some(Both {
            one: self.part.first_write(pair.first, key)?.at(),
            other: self.part.first_write(pair.second, key)?.at(),
        })
    }

    fn step(&self, step: &Step<'a>) -> Result<Option<told::Step>, AllocError> {
        let Pair { first, second, key } = step.pair;
        if self.is_locked && !step.is_forced {
            return Ok(Some(told::Step::Shown {
                first: first.at,
                second: second.at,
                edges: self.edges(&step.way.edges)?,
            }));
        }
        let Some(both) = self.both(step.pair, key) else {
            return Ok(None);
        };
        let against = self.against(&step.way)?;
        Ok(Some(if self.is_locked {
            told::Step::Forced { both, against }
        } else {
            told::Step::Later { both, against }
        }))
    }

    fn ending(&self, ending: &Ending<'a>) -> Result<Option<told::Ending>, AllocError> {
        let two = match ending {
            Ending::Circle(way) => {
                let edges = turned(self.alloc, way)?;
                return Ok(Some(told::Ending::Circle(self.edges(&edges)?)));
            }
            Ending::Neither(two) => two,
        };
        let Some(both) = self.both(two.pair, lost(two).unwrap_or(two.pair.key)) else {
            return Ok(None);
        };
        Ok(Some(told::Ending::Neither {
            both,
            not_one: self.against(&two.not_first)?,
            not_other: self.against(&two.not_second)?,
        }))
    }
}

/// Whether one of the steps with these numbers rests on another one.
fn one_rests_on(steps: &[Step<'_>], numbers: &[usize], step: usize) -> bool {
    numbers.iter().any(|number| match steps.get(*number) {
        Some(it) => it.way.rests_on(step),
        None => false,
    })
}

/// Puts the steps on which some edges rest, each behind those on which it rests in turn.
fn put_needed(
    alloc: Global,
    steps: &[Step<'_>],
    edges: &[Edge<'_>],
    needed: &mut Vec<usize>,
) -> Result<(), AllocError> {
    for last in edges.iter().filter_map(|edge| edge.step) {
        let mut wanted = vec![in alloc; last]?;
        for number in (0..last).rev() {
            if one_rests_on(steps, &wanted, number) {
                wanted.push(number)?;
            }
        }
        for number in wanted.iter().rev() {
            if !needed.contains(number) {
                needed.push(*number)?;
            }
        }
    }
    Ok(())
}

/// The steps on which an ending rests, in the order in which its edges are told.
fn needed_by(
    alloc: Global,
    steps: &[Step<'_>],
    ending: &Ending<'_>,
) -> Result<Vec<usize>, AllocError> {
    let mut needed = Vec::new(alloc);
    match ending {
        Ending::Circle(way) => put_needed(alloc, steps, &turned(alloc, way)?, &mut needed)?,
        Ending::Neither(two) => {
            put_needed(alloc, steps, &two.not_first.edges, &mut needed)?;
            put_needed(alloc, steps, &two.not_second.edges, &mut needed)?;
        }
    }
    Ok(needed)
}

/// What is found of a part, by its places.
fn tell<'a>(
    alloc: Global,
    part: &Part<'a>,
    is_locked: bool,
    found: &[Step<'a>],
    ending: &Ending<'a>,
) -> Result<Option<Refutation>, AllocError> {
    let needed = needed_by(alloc, found, ending)?;
    let telling = Telling {
        alloc,
        part,
        is_locked,
        needed: &needed,
    };
    let mut steps = Vec::new(alloc);
    for step in needed.iter().filter_map(|number| found.get(*number)) {
        steps.extend(telling.step(step)?)?;
    }
    match telling.ending(ending)? {
        Some(ending) => Ok(Some(Refutation { steps, ending })),
        None => Ok(None),
    }
}

/// Why the snapshots and commits of these sessions, whose outcomes are known, have no order, where
/// keys are locked or not; `None` where circles and steps do not show it, as where only a search
/// does. What shows it without moments comes first: so a fault is told alike at a strict level and
/// at a weaker one.
pub fn propose(
    alloc: Global,
    sessions: &[Session],
    is_locked: bool,
) -> Result<Option<Refutation>, AllocError> {
    let part = Part::of(alloc, sessions)?;
    let ops = part.reads.len().saturating_add(part.writes.len());
    if part.nodes.len() > MANY_NODES || ops > MANY_OPS {
        return Ok(None);
    }
    let is_timed = part.nodes.iter().any(|node| node.txn.begun.is_some());
    let found = match refute(alloc, &part, is_locked, false)? {
        None if is_timed => refute(alloc, &part, is_locked, true)?,
        found => found,
    };
    match found {
        Some((steps, ending)) => tell(alloc, &part, is_locked, &steps, &ending),
        None => Ok(None),
    }
}
