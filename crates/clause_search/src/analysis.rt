//! What is learnt from a conflict: a clause, and the clauses that it follows from.

use crate::learnt::Learnt;
use crate::levels::Levels;
use crate::order::Order;
use std::alloc::{AllocError, Global};
use watched_clauses::{Code, Trail, WatchedClauses, places};

/// How many steps it may take to find that a literal is needless.
const MOST_STEPS: usize = 4096;

/// What is known of a variable while a conflict is looked at.
#[derive(Clone, Copy, PartialEq, Eq)]
enum Mark {
    None,
    /// The conflict rests on it.
    Met,
    /// It follows from those that were met.
    Needless,
    /// It may not follow from those that were met.
    Needed,
}

/// Marks of variables.
#[derive(Drop)]
struct Marks {
    marks: Vec<Mark>,
    marked: Vec<Code>,
}

impl Marks {
    fn new(alloc: Global, variables: u32) -> Result<Marks, AllocError> {
        Ok(Marks {
            marks: vec![in alloc; Mark::None; places(variables) / 2]?,
            marked: Vec::new(alloc),
        })
    }

    fn get(&self, code: Code) -> Mark {
        self.marks
            .get(code.variable())
            .copied()
            .unwrap_or(Mark::Met)
    }

    /// Marks the variable of a literal that has no mark.
    fn set(&mut self, code: Code, mark: Mark) -> Result<(), AllocError> {
        if let Some(held) = self.marks.get_mut(code.variable()) {
            *held = mark;
            self.marked.push(code)?;
        }
        Ok(())
    }

    /// Takes all marks away.
    fn clear(&mut self) {
        for code in self.marked.iter() {
            if let Some(held) = self.marks.get_mut(code.variable()) {
                *held = Mark::None;
            }
        }
        self.marked.clear();
    }
}

/// A literal, and how many literals of its reason were looked at.
#[derive(Clone, Copy)]
struct Frame {
    code: Code,
    looked_at: usize,
}

/// Whether a literal follows from those that were met.
enum Verdict {
    Follows,
    Fails,
    Open,
}

/// What is learnt from a conflict.
#[derive(Drop)]
pub(crate) struct Analysis {
    /// The clause that is learnt. All its literals are false, and the first became so last; the
    /// second is of the level to which the search goes back.
    pub(crate) clause: Vec<Code>,
    /// The clauses that it follows from, in the order in which the checker is to be shown them.
    pub(crate) hints: Vec<usize>,
    /// How many levels its literals have.
    pub(crate) levels: u32,
    marks: Marks,
    among: Levels,
    // where on the trail those literals stand whose reasons the clause rests on
    resolved: Vec<u32>,
    frames: Vec<Frame>,
    met: Vec<Code>,
}

impl Analysis {
    pub(crate) fn new(alloc: Global, variables: u32) -> Result<Analysis, AllocError> {
        Ok(Analysis {
            clause: Vec::new(alloc),
            hints: Vec::new(alloc),
            levels: 0,
            marks: Marks::new(alloc, variables)?,
            among: Levels::new(alloc, variables)?,
            resolved: Vec::new(alloc),
            frames: Vec::new(alloc),
            met: Vec::new(alloc),
        })
    }

    /// Learns from a clause that is false, at a level behind the first.
    pub(crate) fn learn(
        &mut self,
        clauses: &WatchedClauses,
        conflict: u32,
        order: &mut Order,
        learnt: &mut Learnt,
    ) -> Result<(), AllocError> {
        self.clause.clear();
        self.hints.clear();
        self.resolved.clear();
        self.walk_back(clauses, conflict, order, learnt)?;
        self.mark_levels(&clauses.trail);
        self.drop_needless(clauses)?;
        self.put_second(&clauses.trail);
        self.count_levels(&clauses.trail);
        self.hint(clauses, conflict)?;
        self.marks.clear();
        Ok(())
    }

    /// The hints of the empty clause, where a clause is false by the roots.
    pub(crate) fn hint_contradiction(
        &mut self,
        clauses: &WatchedClauses,
        conflict: u32,
    ) -> Result<(), AllocError> {
        self.hints.clear();
        for code in clauses.store.clause(conflict as usize) {
            if let Some(unit) = clauses.trail.reason(*code) {
                self.hints.push(unit as usize)?;
            }
        }
        self.hints.push(conflict as usize)?;
        Ok(())
    }

    /// Replaces literals of the last level by those that forced them, the last one first, until one
    /// is left.
    fn walk_back(
        &mut self,
        clauses: &WatchedClauses,
        conflict: u32,
        order: &mut Order,
        learnt: &mut Learnt,
    ) -> Result<(), AllocError> {
        let trail = &clauses.trail;
        let last = trail.level();
        let mut open = self.meet(clauses, conflict, order, learnt)?;
        for place in (trail.end_of(last.saturating_sub(1))..trail.len()).rev() {
            let Some(code) = trail.code(place) else {
                break;
            };
            if self.marks.get(code) != Mark::Met {
                continue;
            }
            if open <= 1 {
                self.clause.push(code.negated())?;
                break;
            }
            let Some(reason) = trail.reason(code) else {
                break;
            };
            self.resolved.push(trail.place_of(code))?;
            let more = self.meet(clauses, reason, order, learnt)?;
            open = open.saturating_sub(1).saturating_add(more);
        }
        // The literal of the last level comes first.
        let behind = self.clause.len().saturating_sub(1);
        if behind < self.clause.len() {
            self.clause.swap(0, behind);
        }
        Ok(())
    }

    /// Marks the literals of a clause. How many of the last level had no mark.
    fn meet(
        &mut self,
        clauses: &WatchedClauses,
        number: u32,
        order: &mut Order,
        learnt: &mut Learnt,
    ) -> Result<usize, AllocError> {
        learnt.use_clause(number)?;
        let trail = &clauses.trail;
        let last = trail.level();
        let mut found = 0usize;
        for code in clauses.store.clause(number as usize) {
            let code = *code;
            if self.marks.get(code) != Mark::None {
                continue;
            }
            self.marks.set(code, Mark::Met)?;
            let level = trail.level_of(code);
            if level == 0 {
                self.hint_root(trail, code)?;
                continue;
            }
            order.bump(code.literal().variable);
            if level == last {
                found = found.saturating_add(1);
            } else {
                self.clause.push(code)?;
            }
        }
        Ok(found)
    }

    /// Adds the unit clause of a root.
    fn hint_root(&mut self, trail: &Trail, code: Code) -> Result<(), AllocError> {
        if let Some(unit) = trail.reason(code) {
            self.hints.push(unit as usize)?;
        }
        Ok(())
    }

    /// Marks the levels of the clause.
    fn mark_levels(&mut self, trail: &Trail) {
        self.among.clear();
        for code in self.clause.iter() {
            self.among.add(trail.level_of(*code));
        }
    }

    /// Leaves out the literals that follow from the others.
    fn drop_needless(&mut self, clauses: &WatchedClauses) -> Result<(), AllocError> {
        self.met.clear();
        self.met.extend_from_slice(&self.clause)?;
        let mut kept = 1usize;
        for index in 1..self.met.len() {
            let Some(code) = self.met.get(index).copied() else {
                break;
            };
            if self.is_needless(clauses, code)? {
                continue;
            }
            if let Some(place) = self.clause.get_mut(kept) {
                *place = code;
            }
            kept = kept.saturating_add(1);
        }
        self.clause.truncate(kept);
        Ok(())
    }

    /// Whether a literal that was met follows from others, by their reasons.
    fn is_needless(&mut self, clauses: &WatchedClauses, code: Code) -> Result<bool, AllocError> {
        if clauses.trail.reason(code).is_none() {
            return Ok(false);
        }
        self.frames.clear();
        self.frames.push(Frame { code, looked_at: 0 })?;
        for _ in 0..MOST_STEPS {
            let Some(frame) = self.frames.pop() else {
                return Ok(true);
            };
            match self.step(clauses, frame)? {
                Verdict::Fails => {
                    self.fail(frame)?;
                    return Ok(false);
                }
                Verdict::Follows | Verdict::Open => {}
            }
        }
        Ok(false)
    }

    /// Looks at the next literal of a frame's reason.
    fn step(&mut self, clauses: &WatchedClauses, frame: Frame) -> Result<Verdict, AllocError> {
        let trail = &clauses.trail;
        let Some(reason) = trail.reason(frame.code) else {
            return Ok(Verdict::Fails);
        };
        let next = clauses
            .store
            .clause(reason as usize)
            .get(frame.looked_at)
            .copied();
        let Some(other) = next else {
            self.resolved.push(trail.place_of(frame.code))?;
            if self.marks.get(frame.code) == Mark::None {
                self.marks.set(frame.code, Mark::Needless)?;
            }
            return Ok(Verdict::Follows);
        };
        self.frames.push(Frame {
            code: frame.code,
            looked_at: frame.looked_at.saturating_add(1),
        })?;
        if other.variable() == frame.code.variable() {
            return Ok(Verdict::Follows);
        }
        self.judge(trail, other)
    }

    /// Whether a literal follows from those that were met, as far as it is known; else it is to be
    /// looked at.
    fn judge(&mut self, trail: &Trail, code: Code) -> Result<Verdict, AllocError> {
        match self.marks.get(code) {
            Mark::Met | Mark::Needless => return Ok(Verdict::Follows),
            Mark::Needed => return Ok(Verdict::Fails),
            Mark::None => {}
        }
        let level = trail.level_of(code);
        if level == 0 {
            self.marks.set(code, Mark::Met)?;
            self.hint_root(trail, code)?;
            return Ok(Verdict::Follows);
        }
        if trail.reason(code).is_none() || !self.among.has(level) {
            self.marks.set(code, Mark::Needed)?;
            return Ok(Verdict::Fails);
        }
        self.frames.push(Frame { code, looked_at: 0 })?;
        Ok(Verdict::Open)
    }

    /// Marks those that are being looked at as needed.
    fn fail(&mut self, last: Frame) -> Result<(), AllocError> {
        self.frames.push(last)?;
        for frame in self.frames.iter() {
            if self.marks.get(frame.code) == Mark::None {
                self.marks.set(frame.code, Mark::Needed)?;
            }
        }
        Ok(())
    }

    /// Puts the literal second whose level is the greatest behind the first.
    fn put_second(&mut self, trail: &Trail) {
        let mut second = 1usize;
        let mut greatest = 0;
        for index in 1..self.clause.len() {
            if let Some(code) = self.clause.get(index).copied() {
                let level = trail.level_of(code);
                if level > greatest {
                    greatest = level;
                    second = index;
                }
            }
        }
        if second < self.clause.len() && 1 < self.clause.len() {
            self.clause.swap(1, second);
        }
    }

    /// Counts the levels of the clause.
    fn count_levels(&mut self, trail: &Trail) {
        self.among.clear();
        self.levels = 0;
        for code in self.clause.iter() {
            if self.among.add(trail.level_of(*code)) {
                self.levels = self.levels.saturating_add(1);
            }
        }
    }

    /// Adds the reasons that the clause rests on, in the order of the trail, and the clause that is
    /// false.
    fn hint(&mut self, clauses: &WatchedClauses, conflict: u32) -> Result<(), AllocError> {
        self.resolved.sort_unstable();
        for place in self.resolved.iter() {
            let code = clauses.trail.code(*place as usize);
            if let Some(reason) = code.and_then(|code| clauses.trail.reason(code)) {
                self.hints.push(reason as usize)?;
            }
        }
        self.hints.push(conflict as usize)?;
        Ok(())
    }
}
