//! Shorter walks: an edge that the log shows in place of a way around.

use crate::decided::readers_behind;
use crate::orders::turned;
use crate::shown::Shown;
use serializability::NodeIx;
use std::alloc::AllocError;
use tell_proposals::Step;

/// Whether walks are told as they are, or shorter.
#[derive(Clone, Copy)]
pub enum Walks {
    Same,
    Shorter,
}

/// The place of the first of these nodes from which the log shows an edge to another; where it
/// shows none, that of the last.
fn earliest(shown: &mut Shown<'_>, nodes: &[NodeIx], end: NodeIx) -> Result<usize, AllocError> {
    for (place, node) in nodes.iter().enumerate() {
        if shown.shows(*node, end)? == Some(true) {
            return Ok(place);
        }
    }
    Ok(nodes.len().saturating_sub(1))
}

/// Leads along a line to another node: each node is reached from the first one that the log shows
/// to stand before it.
fn walk_to(shown: &mut Shown<'_>, line: &[NodeIx], end: NodeIx) -> Result<Vec<NodeIx>, AllocError> {
    let mut back = Vec::new(shown.alloc);
    back.push(end)?;
    let mut next = earliest(shown, line, end)?;
    for done in 0..line.len() {
        let place = line.len() - 1 - done;
        if place == next {
            back.push(line[place])?;
            next = earliest(shown, &line[..place], line[place])?;
        }
    }
    back.reverse();
    Ok(back)
}

/// A line with the same ends, of some of its nodes.
pub fn shorter_line(shown: &mut Shown<'_>, line: &[NodeIx]) -> Result<Vec<NodeIx>, AllocError> {
    let Some(end) = line.last() else {
        return Ok(Vec::new(shown.alloc));
    };
    walk_to(shown, &line[..line.len().saturating_sub(1)], *end)
}

/// A walk that begins as a line does and leads to the first of these nodes that the log shows to
/// stand behind the first place of the line, of those from which it goes on by two edges or more.
fn walk_to_one(
    shown: &mut Shown<'_>,
    line: &[NodeIx],
    ends: &[NodeIx],
) -> Result<Option<Vec<NodeIx>>, AllocError> {
    for place in 0..line.len().saturating_sub(2) {
        for end in ends {
            if shown.shows(line[place], *end)? == Some(true) {
                return Ok(Some(walk_to(shown, &line[..place + 1], *end)?));
            }
        }
    }
    Ok(None)
}

/// The same step, or where walks may be shorter, one by a shorter walk, from a nearer node where
/// there is one.
pub fn shorter_step(shown: &mut Shown<'_>, step: &Step, walks: Walks) -> Result<Step, AllocError> {
    if let Walks::Shorter = walks {
        let chains = shown.chains;
        let line = shorter_line(shown, &step.walk)?;
        let nearer = walk_to_one(shown, &line, readers_behind(chains, turned(step.order)))?;
        return Ok(Step {
            order: step.order,
            walk: nearer.unwrap_or(line),
        });
    }
    Ok(Step {
        order: step.order,
        walk: Vec::from_slice(shown.alloc, &step.walk)?,
    })
}
