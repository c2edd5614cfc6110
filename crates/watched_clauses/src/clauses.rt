//! Clauses by their numbers, the true literals, and what these force.

ghost use Rattle.std.specs.Prelude.{ℕ};
ghost use Rattle.watched_clauses.specs.Extends.{Extends};

use crate::code::Code;
use crate::grounds::Grounds;
use crate::steps::take_hinted;
use crate::store::Store;
use crate::trail::Trail;
use crate::watches::{Look, Watch, Watches, inspect};
use refutation::Checker;
use serializability::Literal;
use std::alloc::{AllocError, Global};

/// Clauses, each with the number that the checker has for it, and the literals that are true.
#[derive(Drop)]
pub struct WatchedClauses {
    pub store: Store,
    pub trail: Trail,
    /// By which clauses the checker took its steps.
    pub grounds: Grounds,
    watches: Watches,
    // a clause all of whose literals are false by the roots
    contradiction: Option<u32>,
    // how many roots the checker has as unit clauses
    settled: usize,
    // the codes of the clause that is added
    codes: Vec<Code>,
    // the clauses by which the checker takes a root
    hints: Vec<usize>,
}

/// The number of a clause as it is kept.
fn short(number: usize) -> u32 {
    u32::try_from(number).unwrap_or(u32::MAX)
}

impl WatchedClauses {
    /// No clauses over so many variables.
    pub fn new(alloc: Global, variables: u32) -> Result<WatchedClauses, AllocError> {
        Ok(WatchedClauses {
            store: Store::new(alloc),
            trail: Trail::new(alloc, variables)?,
            grounds: Grounds::new(alloc),
            watches: Watches::new(alloc, variables)?,
            contradiction: None,
            settled: 0,
            codes: Vec::new(alloc),
            hints: Vec::new(alloc),
        })
    }

    /// The clauses of a checker over so many variables.
    pub fn of(
        alloc: Global,
        checker: &Checker,
        variables: u32,
    ) -> Result<WatchedClauses, AllocError> {
        let mut clauses = WatchedClauses::new(alloc, variables)?;
        for number in 0..checker.len() {
            clauses.put(checker.clause(number).unwrap_or(&[]))?;
        }
        Ok(clauses)
    }

    /// A clause all of whose literals are false by the roots, by its number.
    pub fn contradiction(&self) -> Option<u32> {
        self.contradiction
    }

    /// Adds a clause that the checker has under the next number, while all true literals are roots.
    pub fn put(&mut self, literals: &[Literal]) -> Result<(), AllocError> {
        self.codes.clear();
        for literal in literals {
            self.codes.push(Code::of(*literal))?;
        }
        let open = self.put_open_first();
        let number = short(self.store.len());
        self.store.push(&self.codes)?;
        match open {
            0 => self.contradiction = self.contradiction.or(Some(number)),
            1 => self.add_root(number)?,
            _ => self.watch(number)?,
        }
        Ok(())
    }

    /// Puts two literals first that are not false, as far as the clause has them, and says how many
    /// it found.
    fn put_open_first(&mut self) -> usize {
        let mut open = 0usize;
        for index in 0..self.codes.len() {
            let Some(code) = self.codes.get(index).copied() else {
                break;
            };
            if !self.trail.is_false(code) {
                if open < self.codes.len() && index < self.codes.len() {
                    self.codes.swap(open, index);
                }
                open = open.wrapping_add(1);
                if open == 2 {
                    break;
                }
            }
        }
        open
    }

    /// Makes the first literal of the clause that was added true, where it is open.
    fn add_root(&mut self, number: u32) -> Result<(), AllocError> {
        match self.codes.first().copied() {
            Some(code) if !self.trail.is_true(code) => self.trail.push(code, Some(number)),
            _ => Ok(()),
        }
    }

    /// Has the clause that was added watch its first two literals.
    fn watch(&mut self, number: u32) -> Result<(), AllocError> {
        if let [first, second, ..] = *self.codes.as_slice() {
            for (code, other) in [(first, second), (second, first)] {
                self.watches.add(code, Watch { number, other })?;
            }
        }
        Ok(())
    }

    /// Adds a clause that the checker has under the next number, whose first literal alone is not
    /// false, and makes that one true. Of its other literals the second became false last.
    pub fn put_forcing(&mut self, clause: &[Code]) -> Result<(), AllocError> {
        self.codes.clear();
        self.codes.extend_from_slice(clause)?;
        let number = short(self.store.len());
        self.store.push(clause)?;
        self.watch(number)?;
        self.add_root(number)
    }

    /// Adds nothing under the next number, which the checker has for a clause that is not looked
    /// at.
    fn skip(&mut self) -> Result<(), AllocError> {
        self.store.push(&[])
    }

    /// Forgets a clause that forces no true literal.
    pub fn forget(&mut self, number: usize) {
        self.store.forget(number);
    }

    /// Gives back the memory of forgotten clauses, once it is more than that of all others.
    pub fn reclaim(&mut self) -> Result<(), AllocError> {
        if self.store.is_mostly_unused() {
            self.store.pack()?;
        }
        Ok(())
    }

    /// Finds the roots that the clauses added since give, and has the checker take each as a unit
    /// clause. All true literals are roots, and the checker has no other clauses than these.
    pub fn settle(&mut self, checker: &mut Checker) -> Result<(), AllocError>
        ensures extends { (n : ℕ) → Extends n checker.old.clauses checker.new.clauses }
    {
        let conflict = self.propagate()?;
        self.contradiction = self.contradiction.or(conflict);
        for index in self.settled..self.trail.len() {
            self.take_root(checker, index)?;
        }
        self.settled = self.trail.len();
        Ok(())
    }

    /// Has the checker take the root at a place of the trail as a unit clause, unless the clause
    /// that forced it is one.
    fn take_root(&mut self, checker: &mut Checker, index: usize) -> Result<(), AllocError>
        ensures extends { (n : ℕ) → Extends n checker.old.clauses checker.new.clauses }
    {
        let Some(code) = self.trail.code(index) else {
            return Ok(());
        };
        let Some(reason) = self.trail.reason(code) else {
            return Ok(());
        };
        if self.store.clause(reason as usize).len() == 1 {
            return Ok(());
        }
        self.hint_roots(reason, code)?;
        let number = short(checker.len());
        if take_hinted(checker, &[code.literal()], &self.hints)? {
            self.trail.set_reason(code, Some(number));
            self.skip()?;
            self.grounds.put(number as usize, &self.hints)?;
        }
        Ok(())
    }

    /// The hints by which a clause of roots forces a literal.
    fn hint_roots(&mut self, reason: u32, forced: Code) -> Result<(), AllocError> {
        self.hints.clear();
        for code in self.store.clause(reason as usize) {
            if *code != forced {
                if let Some(unit) = self.trail.reason(*code) {
                    self.hints.push(unit as usize)?;
                }
            }
        }
        self.hints.push(reason as usize)?;
        Ok(())
    }

    /// Makes true what the true literals force. The number of a clause that is false, if there is
    /// one.
    pub fn propagate(&mut self) -> Result<Option<u32>, AllocError> {
        for _ in 0..self.trail.truth().len() {
            let Some(code) = self.trail.next() else {
                break;
            };
            let falsified = code.negated();
            let mut watching = self.watches.take(falsified);
            let conflict = self.visit(falsified, &mut watching);
            self.watches.put(falsified, watching);
            if let Some(number) = conflict? {
                return Ok(Some(number));
            }
        }
        Ok(None)
    }

    /// Looks at each clause that watches a literal which became false.
    fn visit(
        &mut self,
        falsified: Code,
        watching: &mut Vec<Watch>,
    ) -> Result<Option<u32>, AllocError> {
        let mut conflict = None;
        let mut kept = 0usize;
        for index in 0..watching.len() {
            let Some(mut watch) = watching.get(index).copied() else {
                break;
            };
            if conflict.is_none() && !self.trail.is_true(watch.other) {
                match self.look_at(watch.number, falsified) {
                    Look::Gone => continue,
                    Look::Stays(other) => watch.other = other,
                    Look::Moves(code, other) => {
                        let number = watch.number;
                        self.watches.add(code, Watch { number, other })?;
                        continue;
                    }
                    Look::Forces(code) => self.trail.push(code, Some(watch.number))?,
                    Look::Conflicts => conflict = Some(watch.number),
                }
            }
            if let Some(place) = watching.get_mut(kept) {
                *place = watch;
            }
            kept = kept.wrapping_add(1);
        }
        watching.truncate(kept);
        Ok(conflict)
    }

    /// Looks at a clause, one of whose watched literals became false.
    fn look_at(&mut self, number: u32, falsified: Code) -> Look {
        match self.store.clause_mut(number as usize) {
            Some(clause) => inspect(self.trail.truth(), clause, falsified),
            None => Look::Gone,
        }
    }
}
