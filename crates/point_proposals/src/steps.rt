//! Which of two that write a key commits first, where the other way round closes a circle.

use crate::graph::{Edge, Graph, Way, Why};
use crate::nodes::{Access, Node, Part, same_of};
use std::alloc::{AllocError, Global};

/// At most so many rounds of steps are gone.
const MANY_ROUNDS: usize = 100;

/// What it costs to tell that a read would be overwritten.
const READ_COST: usize = 1_000_000;

/// Two nodes, and the first key that the first one writes of those that both write.
#[derive(Clone, Copy)]
pub struct Pair<'a> {
    pub first: Node<'a>,
    pub second: Node<'a>,
    pub key: &'a [u8],
}

/// Of two that write a key the first commits before the second takes its snapshot; or, where keys are
/// not locked, before it commits.
#[derive(Drop)]
pub struct Step<'a> {
    pub pair: Pair<'a>,
    /// Whether it is so since the second cannot commit first; else the way leads from the first
    /// one's commit to that point of the second one.
    pub is_forced: bool,
    pub way: Way<'a>,
}

/// Two that write a key, and why neither can commit first.
#[derive(Drop)]
pub struct Neither<'a> {
    pub pair: Pair<'a>,
    pub not_first: Way<'a>,
    pub not_second: Way<'a>,
}

/// What a part comes to that has no snapshot order.
#[derive(Drop)]
pub enum Ending<'a> {
    /// What is known closes a circle.
    Circle(Way<'a>),
    Neither(Neither<'a>),
}

/// A part, what is known of its points, the steps so far, and each two nodes, in both orders, that
/// write a key and of which no step says which commits first.
#[derive(Drop)]
struct Search<'a, 'b> {
    alloc: Global,
    part: &'b Part<'a>,
    is_locked: bool,
    graph: Graph<'a>,
    steps: Vec<Step<'a>>,
    open: Vec<Pair<'a>>,
}

impl<'a, 'b> Search<'a, 'b> {
    /// What a part itself says, with moments or without, and with no step.
    fn of(
        alloc: Global,
        part: &'b Part<'a>,
        is_locked: bool,
        is_timed: bool,
    ) -> Result<Search<'a, 'b>, AllocError> {
        let mut open = Vec::new(alloc);
        for first in part.nodes.iter().copied() {
            for second in part.nodes.iter().copied() {
                if first.number != second.number
                    && let Some(key) = part.both_write(first, second)
                {
                    open.push(Pair { first, second, key })?;
                }
            }
        }
        Ok(Search {
            alloc,
            part,
            is_locked,
            graph: Graph::of(alloc, part, is_timed)?,
            steps: Vec::new(alloc),
            open,
        })
    }

    /// The way of one edge by which a read misses a write.
    fn missed(&self, read: Access<'a>, write: Access<'a>) -> Result<Way<'a>, AllocError> {
        let edge = Edge {
            first: read.node,
            second: write.node,
            why: Why::Missed(read, write),
            step: None,
        };
        Ok(Way {
            edges: vec![in self.alloc; edge]?,
            cost: 0,
            overwritten: None,
        })
    }

    /// Two that read one version of a key, and both overwrite it.
    fn lost(&self) -> Result<Option<Neither<'a>>, AllocError> {
        let part = self.part;
        for one in part.reads.iter().copied() {
            for other in part.reads.iter().copied() {
                let (first, second, key) = (one.node, other.node, one.key);
                if first.number < second.number
                    && one.is_same(&other)
                    && let Some(its) = part.first_write(first, key)
                    && let Some(others) = part.first_write(second, key)
                {
                    return Ok(Some(Neither {
                        pair: Pair { first, second, key },
                        not_first: self.missed(other, its)?,
                        not_second: self.missed(one, others)?,
                    }));
                }
            }
        }
        Ok(None)
    }

    /// The point of a node before which another one that writes its key commits.
    fn point(&self, node: Node<'a>) -> usize {
        if self.is_locked {
            node.snapshot()
        } else {
            node.commit()
        }
    }

    /// Why a node cannot commit before this point of another: a way from that point to its commit. Or
    /// somebody reads what it wrote, so that his snapshot would stand before the
    /// other's commit; then it is a way from that commit to that snapshot.
    fn way_against(
        &self,
        first: Node<'a>,
        second: Node<'a>,
    ) -> Result<Option<Way<'a>>, AllocError> {
        let (part, graph, from) = (self.part, &self.graph, second.commit());
        let best = part
            .reads
            .iter()
            .filter(|read| read.node.number != first.number && read.node.number != second.number)
            .filter(|read| same_of(&part.writes, first, read).is_some())
            .filter_map(|read| Some((*read, part.first_write(second, read.key)?)))
            .min_by_key(|(read, _)| graph.cost(from, read.node.snapshot()));
        let plain = graph.cost(self.point(second), first.commit());
        if let Some((read, write)) = best
            && let to = read.node.snapshot()
            && graph.cost(from, to).saturating_add(READ_COST) < plain
        {
            let overwritten = Some(Edge {
                first: read.node,
                second,
                why: Why::Missed(read, write),
                step: None,
            });
            let way = graph.way(self.alloc, from, to)?;
            return Ok(way.map(|way| Way { overwritten, ..way }));
        }
        graph.way(self.alloc, self.point(second), first.commit())
    }

    /// Each two that write a key, of whom what is known shows which commits first.
    fn shown(&self) -> Result<Vec<Step<'a>>, AllocError> {
        let mut shown = Vec::new(self.alloc);
        for pair in self.open.iter().copied() {
            let (from, to) = (pair.first.commit(), self.point(pair.second));
            if let Some(way) = self.graph.way(self.alloc, from, to)? {
                let is_forced = false;
                shown.push(Step {
                    pair,
                    is_forced,
                    way,
                })?;
            }
        }
        Ok(shown)
    }

    /// Each two that write a key, of whom one cannot commit first; and the two of whom neither can,
    /// where there are such: those that are told for least. Where keys are not locked, what follows
    /// of these closes a circle.
    fn forced(&self) -> Result<(Vec<Step<'a>>, Option<Neither<'a>>), AllocError> {
        let (mut forced, mut neither, mut least) = (Vec::new(self.alloc), None, usize::MAX);
        for pair in self.open.iter().copied() {
            let Pair { first, second, key } = pair;
            if first.number > second.number {
                continue;
            }
            let is_forced = true;
            match (
                self.way_against(first, second)?,
                self.way_against(second, first)?,
            ) {
                (None, None) => {}
                (None, Some(way)) => forced.push(Step {
                    pair,
                    is_forced,
                    way,
                })?,
                (Some(_), Some(way)) if !self.is_locked => forced.push(Step {
                    pair,
                    is_forced,
                    way,
                })?,
                (Some(way), None) => {
                    let (first, second) = (second, first);
                    let pair = Pair { first, second, key };
                    forced.push(Step {
                        pair,
                        is_forced,
                        way,
                    })?;
                }
                (Some(not_first), Some(not_second)) => {
                    let cost = not_first.cost.saturating_add(not_second.cost);
                    if cost < least {
                        least = cost;
                        neither = Some(Neither {
                            pair,
                            not_first,
                            not_second,
                        });
                    }
                }
            }
        }
        Ok((forced, neither))
    }

    /// Takes a step, with what it adds to what is known.
    fn take(&mut self, taken: Step<'a>) -> Result<(), AllocError> {
        let Pair { first, second, .. } = taken.pair;
        let step = Some(self.steps.len());
        let written = if self.is_locked {
            Why::Written
        } else {
            Why::Later
        };
        self.graph.add(first, second, written, step);
        for read in self.part.reads.iter().copied() {
            if read.node.number != second.number
                && same_of(&self.part.writes, first, &read).is_some()
                && let Some(write) = self.part.last_write(second, read.key)
            {
                let why = Why::Missed(read, write);
                self.graph.add(read.node, second, why, step);
            }
        }
        let two = [first.number, second.number];
        self.open.retain(|it| !two.contains(&it.first.number) || !two.contains(&it.second.number));
        self.steps.push(taken)?;
        Ok(())
    }
}

/// Why the points of a part have no order, with moments or without: the steps that follow from what
/// is known of them, and to what they lead; `None` where these do not show it. In each round a circle
/// is sought; else, where keys are locked and there are no steps yet, a lost update; else steps that
/// what is known shows; else those that are forced.
pub fn refute<'a>(
    alloc: Global,
    part: &Part<'a>,
    is_locked: bool,
    is_timed: bool,
) -> Result<Option<(Vec<Step<'a>>, Ending<'a>)>, AllocError> {
    let mut search = Search::of(alloc, part, is_locked, is_timed)?;
    for _ in 0..MANY_ROUNDS {
        search.graph.learn_costs();
        if let Some(circle) = search.graph.circle(alloc)? {
            return Ok(Some((search.steps, Ending::Circle(circle))));
        }
        if is_locked
            && search.steps.is_empty()
            && let Some(two) = search.lost()?
        {
            return Ok(Some((search.steps, Ending::Neither(two))));
        }
        let mut steps = search.shown()?;
        if steps.is_empty() {
            let (forced, neither) = search.forced()?;
            if let Some(two) = neither {
                return Ok(Some((search.steps, Ending::Neither(two))));
            }
            steps = forced;
        }
        if steps.is_empty() {
            break;
        }
        for step in steps {
            search.take(step)?;
        }
    }
    Ok(None)
}
