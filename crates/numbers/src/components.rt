//! Strongly connected components of the points at which a sweep is stuck.

use crate::lists::{Lists, NONE, at, number, put};
use std::alloc::{AllocError, Global};

/// Points, and the edges that lead to each.
pub trait Edges {
    /// How many points there are.
    fn points(&self) -> usize;

    /// The point that the edge in this slot comes from, from slot 0 on; none behind the last one.
    fn source(&self, point: u32, slot: u32) -> Option<u32>;
}

/// The component of a point that is in none of several points.
const ALONE: u32 = NONE - 1;

/// Components of several points: of each point its component, and of each component its points.
#[derive(Drop)]
pub struct Components {
    pub of_points: Vec<u32>,
    pub members: Lists<u32>,
    count: u32,
}

/// A point whose edges are looked at, and the place of the next one.
#[derive(Clone, Copy)]
struct Call {
    point: u32,
    next: u32,
}

/// A search depth first. Of each point in which turn it was met, and the first turn that it leads
/// to among the points that are in no component yet, which are the open ones.
#[derive(Drop)]
struct Descent<'a, E> {
    edges: &'a E,
    waits: &'a [u32],
    turns: Vec<u32>,
    lows: Vec<u32>,
    open: Vec<u32>,
    calls: Vec<Call>,
    turn: u32,
    found: Components,
}

impl<E: Edges> Descent<'_, E> {
    /// Meets a point.
    fn meet(&mut self, point: u32) -> Result<(), AllocError> {
        put(self.turns.as_mut_slice(), point, self.turn);
        put(self.lows.as_mut_slice(), point, self.turn);
        self.turn = self.turn.saturating_add(1);
        self.open.push(point)?;
        self.calls.push(Call { point, next: 0 })?;
        Ok(())
    }

    /// Notes that a point leads to this turn.
    fn lower(&mut self, point: u32, turn: u32) {
        if turn < at(&self.lows, point) {
            put(self.lows.as_mut_slice(), point, turn);
        }
    }

    /// Looks at a point before another one.
    fn look(&mut self, point: u32, from: u32) -> Result<(), AllocError> {
        let waits = at(self.waits, from);
        if waits == 0 || waits == NONE {
            return Ok(());
        }
        let turn = at(&self.turns, from);
        if turn == NONE {
            self.meet(from)?;
        } else if at(&self.found.of_points, from) == NONE {
            self.lower(point, turn);
        }
        Ok(())
    }

    /// Puts the open points up to this one into a component.
    fn close(&mut self, point: u32) -> Result<(), AllocError> {
        let is_alone = self.open.last().copied() == Some(point);
        let component = if is_alone { ALONE } else { self.found.count };
        for _ in 0..self.turns.len() {
            let Some(member) = self.open.pop() else {
                break;
            };
            put(self.found.of_points.as_mut_slice(), member, component);
            if !is_alone {
                self.found.members.push(member)?;
            }
            if member == point {
                break;
            }
        }
        if !is_alone {
            self.found.members.close()?;
            self.found.count = self.found.count.saturating_add(1);
        }
        Ok(())
    }

    /// Leaves a point all of whose edges were looked at.
    fn leave(&mut self, point: u32) -> Result<(), AllocError> {
        let low = at(&self.lows, point);
        if low == at(&self.turns, point) {
            self.close(point)?;
        }
        if let Some(call) = self.calls.last().copied() {
            self.lower(call.point, low);
        }
        Ok(())
    }

    /// Meets all that comes before a point.
    fn descend(&mut self, root: u32) -> Result<(), AllocError> {
        self.meet(root)?;
        for _ in 0..u64::MAX {
            let Some(Call { point, next }) = self.calls.pop() else {
                break;
            };
            match self.edges.source(point, next) {
                Some(from) => {
                    let next = next.saturating_add(1);
                    self.calls.push(Call { point, next })?;
                    self.look(point, from)?;
                }
                None => self.leave(point)?,
            }
        }
        Ok(())
    }
}

impl Components {
    /// The components, those with the fewest points first.
    pub fn by_size(&self, alloc: Global) -> Result<Vec<u32>, AllocError> {
        let mut components = Vec::with_capacity(alloc, self.count as usize)?;
        for component in 0..self.count {
            components.push(component)?;
        }
        components.sort_by_key(|component: &u32| self.members.list(*component).len())?;
        Ok(components)
    }
}

/// The components of the points that wait for some.
pub fn components_of<E: Edges>(
    alloc: Global,
    edges: &E,
    waits: &[u32],
) -> Result<Components, AllocError> {
    let points = edges.points();
    let mut descent = Descent {
        edges,
        waits,
        turns: vec![in alloc; NONE; points]?,
        lows: vec![in alloc; NONE; points]?,
        open: Vec::new(alloc),
        calls: Vec::new(alloc),
        turn: 0,
        found: Components {
            of_points: vec![in alloc; NONE; points]?,
            members: Lists::new(alloc),
            count: 0,
        },
    };
    for point in 0..number(points) {
        if at(waits, point) > 0 && at(&descent.turns, point) == NONE {
            descent.descend(point)?;
        }
    }
    let Descent { found, .. } = descent;
    Ok(found)
}
