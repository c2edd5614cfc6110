//! What unit propagation finds of a step: the clauses that the checker is to be shown. Where it
//! finds none, `plain` has the last word. Roots are given to the checker; that they follow is proved
//! here.

ghost use Rattle.std.specs.Prelude.{◌≡◌, ◌∷◌, [], List, Option, Some, IfOk, OnOk, IsTrue, IsFalse};
ghost use Rattle.serializability.specs.declared.literal.Literal.{Literal};
ghost use Rattle.refutation.specs.Follows.{Entails};
ghost use Rattle.refutation.specs.Numbered.{clause_at};
ghost use Rattle.proof_checks.specs.Distinct.{is_same, negated};
ghost use Rattle.proof_checks.specs.Held.{Holds};
ghost use Rattle.proof_checks.specs.Marks.{HasRounds, IsMarking};
ghost use Rattle.proof_checks.specs.Passed.{IsFound, IsTaken};
ghost use Rattle.proof_checks.specs.Propagation.{IsMadeFalse};

use crate::distinct::{Marks, has, is_same, negated};
use crate::index::Index;
use crate::plain::is_implied;
use refutation::{Checker, take_step};
use serializability::Literal;
use std::alloc::{AllocError, Global};
use std::mem;
use watched_clauses::{Code, WatchedClauses, places};

/// Marks of variables.
#[derive(Drop)]
struct Seen {
    marks: Vec<bool>,
}

impl Seen {
    /// No marks of so many variables.
    fn new(alloc: Global, variables: u32) -> Result<Seen, AllocError> {
        Ok(Seen {
            marks: vec![in alloc; false; places(variables) / 2]?,
        })
    }

    fn has(&self, code: Code) -> bool {
        self.marks.get(code.variable()).copied().unwrap_or(false)
    }

    /// Marks the variable of a literal, or takes its mark away, and says whether it was marked.
    fn mark(&mut self, code: Code, seen: bool) -> bool {
        match self.marks.get_mut(code.variable()) {
            Some(place) => mem::replace(place, seen),
            None => true,
        }
    }
}

/// What becomes of deletions.
#[derive(Clone, Copy)]
enum Deletions {
    /// None was made.
    Unused,
    /// Some clauses are forgotten.
    Used,
    /// They are passed over, since a step followed from a forgotten clause.
    Ignored,
}

/// Clauses, the roots, and the clauses that a step follows from.
#[derive(Drop)]
pub(crate) struct Search {
    alloc: Global,
    variables: u32,
    clauses: WatchedClauses,
    // a clause all of whose literals are false by the roots
    contradiction: Option<u32>,
    // how many roots the checker has as unit clauses
    settled: usize,
    index: Index,
    deletions: Deletions,
    // the variables that the conflict rests on that is explained
    seen: Seen,
    // the clauses that the checker is to be shown, in turn
    hints: Vec<usize>,
    // the literals that a conflict rests on, and the clauses that forced them, the last one first
    marked: Vec<Code>,
    forcing: Vec<u32>,
    // the codes of the clause that is looked up
    codes: Vec<Code>,
}

impl Search {
    /// The clauses of a checker over so many variables.
    pub(crate) fn of(
        alloc: Global,
        checker: &Checker,
        variables: u32,
    ) -> Result<Search, AllocError> {
        Ok(Search {
            alloc,
            variables,
            clauses: WatchedClauses::of(alloc, checker, variables)?,
            contradiction: None,
            settled: 0,
            index: Index::new(alloc)?,
            deletions: Deletions::Unused,
            seen: Seen::new(alloc, variables)?,
            hints: Vec::new(alloc),
            marked: Vec::new(alloc),
            forcing: Vec::new(alloc),
            codes: Vec::new(alloc),
        })
    }

    /// Adds a clause that the checker has under the next number.
    pub(crate) fn put(&mut self, literals: &[Literal]) -> Result<(), AllocError> {
        self.clauses.put(literals)
    }

    /// Finds the roots that the clauses added since give, and has the checker take each as a unit
    /// clause. The checker has no other clauses than the search.
    pub(crate) fn settle(&mut self, checker: &mut Checker) -> Result<(), AllocError>
        ensures follows { Entails checker.old.clauses checker.new.clauses }
        ensures holds { (clauses : List (Option (List Literal))) →
            Holds clauses checker.old.clauses → Holds clauses checker.new.clauses }
    {
        let conflict = self.clauses.propagate()?;
        self.contradiction = self.contradiction.or(conflict);
        for index in self.settled..self.clauses.trail.len() {
            self.take_root(checker, index)?;
        }
        self.settled = self.clauses.trail.len();
        Ok(())
    }

    /// Has the checker take the root at a place of the trail as a unit clause, unless the clause
    /// that forced it is one.
    fn take_root(&mut self, checker: &mut Checker, index: usize) -> Result<(), AllocError>
        ensures follows { Entails checker.old.clauses checker.new.clauses }
        ensures holds { (clauses : List (Option (List Literal))) →
            Holds clauses checker.old.clauses → Holds clauses checker.new.clauses }
    {
        let Some(code) = self.clauses.trail.code(index) else {
            return Ok(());
        };
        let Some(reason) = self.clauses.trail.reason(code) else {
            return Ok(());
        };
        if self.clauses.store.clause(reason as usize).len() == 1 {
            return Ok(());
        }
        let number = u32::try_from(checker.len()).ok();
        if self.give_root(checker, reason as usize, code.literal())? {
            self.clauses.trail.set_reason(code, number);
            self.clauses.store.push(&[])?;
        }
        Ok(())
    }

    /// Gives the checker a unit clause of a literal, where roots and the clause with a number force
    /// it. Whether it did.
    fn give_root(
        &self,
        checker: &mut Checker,
        reason: usize,
        literal: Literal,
    ) -> Result<bool, AllocError>
        ensures follows { Entails checker.old.clauses checker.new.clauses }
        ensures holds { (clauses : List (Option (List Literal))) →
            Holds clauses checker.old.clauses → Holds clauses checker.new.clauses }
    {
        if !self.forces(checker, reason, literal) {
            return Ok(false);
        }
        checker.give(&[literal])?;
        Ok(true)
    }

    /// Whether the clause with a number has a literal, and all its others are false by unit clauses
    /// that stand.
    fn forces(&self, checker: &Checker, reason: usize, literal: Literal) -> bool
        ensures { IsTrue result → IsMadeFalse checker.now.clauses [] (negated literal) }
    {
        let Some(clause) = checker.clause(reason) else {
            return false;
        };
        for &other in clause {
            if !self.is_it_or_false(checker, literal, other) {
                return false;
            }
        }
        has(clause, literal)
    }

    /// Whether one literal is the other, or false by a unit clause that stands.
    fn is_it_or_false(&self, checker: &Checker, literal: Literal, other: Literal) -> bool
        ensures { IsTrue result → IsFalse (is_same other literal) →
            IsMadeFalse checker.now.clauses [] other }
    {
        if is_same(other, literal) {
            return true;
        }
        self.is_false_root(checker, other)
    }

    /// Whether a literal is false by a unit clause that stands.
    fn is_false_root(&self, checker: &Checker, literal: Literal) -> bool
        ensures { IsTrue result → IsMadeFalse checker.now.clauses [] literal }
    {
        match self.clauses.trail.reason(Code::of(literal)) {
            Some(number) => is_unit(checker, number as usize, negated(literal)),
            None => false,
        }
    }

    /// Has the checker take a step, whose literals are marked, where it follows by unit
    /// propagation. Whether it did.
    pub(crate) fn take(
        &mut self,
        checker: &mut Checker,
        marks: &mut Marks,
        literals: &[Literal],
    ) -> Result<bool, AllocError>
        requires { IsMarking marks.old literals.now }
        ensures follows { Entails checker.old.clauses checker.new.clauses }
        ensures rounds { OnOk result (HasRounds marks.new) }
        ensures taken { (clauses : List (Option (List Literal))) →
            Holds clauses checker.old.clauses →
            IfOk result (IsTaken clauses checker.new.clauses literals.now) }
    {
        if self.take_hinted(checker, literals)? {
            return Ok(true);
        }
        self.take_plainly(checker, marks, literals)
    }

    /// Has the checker take a step where hints are found for it, at last among all clauses. Whether
    /// it did.
    fn take_hinted(
        &mut self,
        checker: &mut Checker,
        literals: &[Literal],
    ) -> Result<bool, AllocError>
        ensures follows { Entails checker.old.clauses checker.new.clauses }
        ensures found { (clauses : List (Option (List Literal))) →
            Holds clauses checker.old.clauses →
            IfOk result (IsFound clauses checker.new.clauses literals.now) }
    {
        if self.take_found(checker, literals)? {
            return Ok(true);
        }
        self.take_renewed(checker, literals)
    }

    /// Finds the clauses that a step follows from, and has the checker take it. Whether it did.
    fn take_found(
        &mut self,
        checker: &mut Checker,
        literals: &[Literal],
    ) -> Result<bool, AllocError>
        ensures follows { Entails checker.old.clauses checker.new.clauses }
        ensures found { (clauses : List (Option (List Literal))) →
            Holds clauses checker.old.clauses →
            IfOk result (IsFound clauses checker.new.clauses literals.now) }
    {
        if !self.find_hints(literals)? {
            return Ok(false);
        }
        take_step(checker, literals, &self.hints)
    }

    /// The same once more with all clauses, where some are forgotten, of which the step may have
    /// need. From then on deletions are passed over, so that this is done but once.
    fn take_renewed(
        &mut self,
        checker: &mut Checker,
        literals: &[Literal],
    ) -> Result<bool, AllocError>
        ensures follows { Entails checker.old.clauses checker.new.clauses }
        ensures found { (clauses : List (Option (List Literal))) →
            Holds clauses checker.old.clauses →
            IfOk result (IsFound clauses checker.new.clauses literals.now) }
    {
        if !matches!(self.deletions, Deletions::Used) {
            return Ok(false);
        }
        *self = Search::of(self.alloc, checker, self.variables)?;
        self.deletions = Deletions::Ignored;
        self.settle(checker)?;
        self.take_found(checker, literals)
    }

    /// Has the checker take a step, where all clauses show that it follows. Whether it did.
    fn take_plainly(
        &self,
        checker: &mut Checker,
        marks: &mut Marks,
        literals: &[Literal],
    ) -> Result<bool, AllocError>
        requires { IsMarking marks.old literals.now }
        ensures follows { Entails checker.old.clauses checker.new.clauses }
        ensures rounds { OnOk result (HasRounds marks.new) }
        ensures taken { (clauses : List (Option (List Literal))) →
            Holds clauses checker.old.clauses →
            IfOk result (IsTaken clauses checker.new.clauses literals.now) }
    {
        if !is_implied(self.alloc, checker, marks, literals, &self.hints)? {
            return Ok(false);
        }
        checker.give(literals)?;
        Ok(true)
    }

    /// Finds the hints of a step, where unit propagation shows that it follows; else those clauses
    /// that force literals.
    fn find_hints(&mut self, literals: &[Literal]) -> Result<bool, AllocError> {
        self.hints.clear();
        let conflict = match self.contradiction.or(self.clauses.contradiction()) {
            Some(number) => Some(number),
            None => self.assume(literals)?,
        };
        match conflict {
            Some(number) => self.explain(number)?,
            None => self.tell_all()?,
        }
        self.clauses.trail.undo_to(0);
        Ok(conflict.is_some())
    }

    /// Names the clause that forced each true literal.
    fn tell_all(&mut self) -> Result<(), AllocError> {
        for index in 0..self.clauses.trail.len() {
            let code = self.clauses.trail.code(index);
            if let Some(reason) = code.and_then(|code| self.clauses.trail.reason(code)) {
                self.hints.push(reason as usize)?;
            }
        }
        Ok(())
    }

    /// Makes each literal of a step false, and what follows true. The number of a clause that is
    /// false then, if there is one.
    fn assume(&mut self, literals: &[Literal]) -> Result<Option<u32>, AllocError> {
        self.clauses.trail.begin_level()?;
        for literal in literals {
            let code = Code::of(*literal);
            if self.clauses.trail.is_true(code) {
                return Ok(self.clauses.trail.reason(code));
            }
            if !self.clauses.trail.is_false(code) {
                self.clauses.trail.push(code.negated(), None)?;
            }
        }
        self.clauses.propagate()
    }

    /// Finds the clauses that a conflict rests on: those of the roots, then those that forced
    /// literals, in their order, and last the clause that is false.
    fn explain(&mut self, conflict: u32) -> Result<(), AllocError> {
        self.marked.clear();
        self.forcing.clear();
        self.mark_clause(conflict)?;
        for index in (self.clauses.trail.end_of(0)..self.clauses.trail.len()).rev() {
            if let Some(code) = self.clauses.trail.code(index) {
                self.explain_literal(code)?;
            }
        }
        for number in self.forcing.iter().rev() {
            self.hints.push(*number as usize)?;
        }
        self.hints.push(conflict as usize)?;
        for code in self.marked.iter() {
            self.seen.mark(*code, false);
        }
        Ok(())
    }

    /// Adds the clause that forced a literal, where the conflict rests on it.
    fn explain_literal(&mut self, code: Code) -> Result<(), AllocError> {
        if !self.seen.has(code) {
            return Ok(());
        }
        if let Some(reason) = self.clauses.trail.reason(code) {
            self.forcing.push(reason)?;
            self.mark_clause(reason)?;
        }
        Ok(())
    }

    /// Marks the literals of a clause, and adds the unit clauses of those that are roots.
    fn mark_clause(&mut self, number: u32) -> Result<(), AllocError> {
        for code in self.clauses.store.clause(number as usize) {
            if !self.seen.mark(*code, true) {
                self.marked.push(*code)?;
                if self.clauses.trail.level_of(*code) == 0 {
                    if let Some(unit) = self.clauses.trail.reason(*code) {
                        self.hints.push(unit as usize)?;
                    }
                }
            }
        }
        Ok(())
    }

    /// Looks no more at a clause that has the marked literals, which are these, where one is neither
    /// a unit nor false by the roots. The checker keeps it.
    pub(crate) fn forget(&mut self, marks: &Marks, literals: &[Literal]) -> Result<(), AllocError> {
        if literals.len() < 2 || matches!(self.deletions, Deletions::Ignored) {
            return Ok(());
        }
        self.codes.clear();
        for literal in literals {
            self.codes.push(Code::of(*literal))?;
        }
        self.index.take_in(&self.clauses.store)?;
        if let Some(number) = self.index.take(&self.clauses.store, marks, &self.codes) {
            if self.contradiction != Some(number) && self.clauses.contradiction() != Some(number) {
                self.clauses.forget(number as usize);
                self.deletions = Deletions::Used;
            }
        }
        self.clauses.reclaim()
    }
}

/// Whether the clause with a number has this literal alone.
fn is_unit(checker: &Checker, number: usize, literal: Literal) -> bool
    ensures { IsTrue result → clause_at checker.now.clauses number ≡ Some (literal ∷ []) }
{
    match checker.clause(number) {
        Some([unit]) => *unit == literal,
        _ => false,
    }
}
