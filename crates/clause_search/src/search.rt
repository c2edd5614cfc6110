//! The search: decisions, conflicts, and what is learnt from them.

ghost use Rattle.std.specs.Prelude.{◌≡◌, ℕ, length, IfOk};
ghost use Rattle.watched_clauses.specs.Extends.{Extends};

use crate::analysis::Analysis;
use crate::learnt::Learnt;
use crate::order::Order;
use crate::restarts::Restarts;
use refutation::Checker;
use serializability::Literal;
use std::alloc::{AllocError, Global};
use watched_clauses::{Code, WatchedClauses, places, take_hinted};

/// How a round ends.
#[derive(Clone, Copy)]
pub(crate) enum Round {
    /// In a conflict, from which something was learnt.
    Learnt,
    /// In the empty clause.
    Closed,
    /// Each variable has a value, and no clause is false.
    Full,
}

/// The state of a search.
#[derive(Drop)]
pub(crate) struct Search {
    alloc: Global,
    variables: u32,
    clauses: WatchedClauses,
    order: Order,
    // the value that each variable had last
    phases: Vec<bool>,
    analysis: Analysis,
    learnt: Learnt,
    restarts: Restarts,
    // the literals of the clause that is learnt
    literals: Vec<Literal>,
}

impl Search {
    /// A search over the clauses of a checker, whose variables are 1 to `variables`.
    pub(crate) fn new(
        alloc: Global,
        checker: &Checker,
        variables: u32,
    ) -> Result<Search, AllocError> {
        Ok(Search {
            alloc,
            variables,
            clauses: WatchedClauses::of(alloc, checker, variables)?,
            order: Order::new(alloc, variables)?,
            phases: vec![in alloc; true; places(variables) / 2]?,
            analysis: Analysis::new(alloc, variables)?,
            learnt: Learnt::new(alloc, checker.len()),
            restarts: Restarts::new(),
            literals: Vec::new(alloc),
        })
    }

    /// Goes on to the next conflict, or to values for all variables. So many clauses were given, by
    /// the first numbers.
    pub(crate) fn round(&mut self, checker: &mut Checker, given: usize) -> Result<Round, AllocError>
        ensures extends { Extends given checker.old.clauses checker.new.clauses }
    {
        if self.begins_anew() {
            self.go_back_to(0)?;
        }
        for _ in 0..places(self.variables) {
            if let Some(round) = self.advance(checker, given)? {
                return Ok(round);
            }
        }
        Ok(Round::Learnt)
    }

    /// Whether the search is to begin anew, with what was learnt.
    fn begins_anew(&mut self) -> bool {
        let is_full = self.clauses.trail.len() >= self.variables as usize;
        self.restarts.is_due() || self.learnt.is_due() || is_full
    }

    /// Makes true what is forced, and then decides a variable. How the round ends, if it does.
    fn advance(&mut self, checker: &mut Checker, given: usize) -> Result<Option<Round>, AllocError>
        ensures extends { Extends given checker.old.clauses checker.new.clauses }
    {
        if self.clauses.trail.level() == 0 {
            return self.advance_roots(checker, given);
        }
        match self.clauses.propagate()? {
            Some(number) => self.learn(checker, number),
            None => self.decide(),
        }
    }

    /// The same, while all true literals are roots.
    fn advance_roots(
        &mut self,
        checker: &mut Checker,
        given: usize,
    ) -> Result<Option<Round>, AllocError>
        ensures extends { Extends given checker.old.clauses checker.new.clauses }
    {
        self.settle(checker, given)?;
        match self.clauses.contradiction() {
            Some(number) => self.close(checker, number),
            None => self.decide(),
        }
    }

    /// The values of variables 1 to `variables`.
    pub(crate) fn values(&self, variables: u32) -> Result<Vec<bool>, AllocError>
        ensures { IfOk result (λ values. length values.items ≡ variables) }
    {
        let mut values = Vec::new(self.alloc);
        for before in 0..variables {
            let code = Code::of(Literal {
                variable: before + 1,
                positive: true,
            });
            values.push(self.clauses.trail.is_true(code))?;
        }
        Ok(values)
    }

    /// Which of the given clauses, so many, the last step rests on, as far as it is known.
    pub(crate) fn used(&self, given: usize) -> Result<Vec<usize>, AllocError> {
        self.clauses.grounds.of_last(self.alloc, given)
    }

    /// Finds what the clauses alone force, and forgets clauses where it is time.
    fn settle(&mut self, checker: &mut Checker, given: usize) -> Result<(), AllocError>
        ensures extends { Extends given checker.old.clauses checker.new.clauses }
    {
        self.clauses.settle(checker)?;
        if !self.learnt.is_due() {
            return Ok(());
        }
        self.forget(checker, given)
    }

    /// Forgets clauses that are of little use, and none that was given.
    fn forget(&mut self, checker: &mut Checker, given: usize) -> Result<(), AllocError>
        ensures extends { Extends given checker.old.clauses checker.new.clauses }
    {
        let worst = self.learnt.take_worst(self.alloc)?;
        for index in 0..worst.len() {
            self.forget_one(checker, given, worst[index] as usize);
        }
        self.clauses.reclaim()?;
        checker.reclaim()
    }

    /// Forgets a clause, unless it was given.
    #[tactic(auto, using(watched_clauses::proofs::Extending::extends_without, watched_clauses::proofs::Extending::extends_same))]
    fn forget_one(&mut self, checker: &mut Checker, given: usize, number: usize)
        ensures extends { Extends given checker.old.clauses checker.new.clauses }
    {
        if number < given {
            return;
        }
        self.clauses.forget(number);
        checker.forget(number);
    }

    /// Takes the empty clause, where a clause is false by the roots.
    fn close(&mut self, checker: &mut Checker, number: u32) -> Result<Option<Round>, AllocError>
        ensures extends { (n : ℕ) → Extends n checker.old.clauses checker.new.clauses }
    {
        self.analysis.hint_contradiction(&self.clauses, number)?;
        let step = checker.len();
        if take_hinted(checker, &[], &self.analysis.hints)? {
            self.clauses.grounds.put(step, &self.analysis.hints)?;
        }
        Ok(Some(Round::Closed))
    }

    /// Learns from a clause that is false, and goes back to where what is learnt forces a literal.
    fn learn(&mut self, checker: &mut Checker, conflict: u32) -> Result<Option<Round>, AllocError>
        ensures extends { (n : ℕ) → Extends n checker.old.clauses checker.new.clauses }
    {
        self.analyse(conflict)?;
        let number = checker.len();
        if take_hinted(checker, &self.literals, &self.analysis.hints)? {
            self.clauses.grounds.put(number, &self.analysis.hints)?;
            self.keep(number)?;
        } else {
            self.go_back_to(0)?;
        }
        Ok(Some(Round::Learnt))
    }

    /// Finds what is to be learnt.
    fn analyse(&mut self, conflict: u32) -> Result<(), AllocError> {
        self.restarts.count();
        self.learnt.count();
        self.analysis
            .learn(&self.clauses, conflict, &mut self.order, &mut self.learnt)?;
        self.order.age();
        self.literals.clear();
        for code in self.analysis.clause.iter() {
            self.literals.push(code.literal())?;
        }
        Ok(())
    }

    /// Keeps what was learnt, which the checker has under a number.
    fn keep(&mut self, number: usize) -> Result<(), AllocError> {
        let Some(second) = self.analysis.clause.get(1).copied() else {
            self.go_back_to(0)?;
            return self.clauses.put(&self.literals);
        };
        let level = self.clauses.trail.level_of(second);
        self.go_back_to(level)?;
        self.learnt.add(number, self.analysis.levels)?;
        self.clauses.put_forcing(&self.analysis.clause)
    }

    /// Takes back what was decided behind a level.
    fn go_back_to(&mut self, level: u32) -> Result<(), AllocError> {
        if level >= self.clauses.trail.level() {
            return Ok(());
        }
        for place in self.clauses.trail.end_of(level)..self.clauses.trail.len() {
            if let Some(code) = self.clauses.trail.code(place) {
                if let Some(phase) = self.phases.get_mut(code.variable()) {
                    *phase = code.literal().positive;
                }
                self.order.insert(code.literal().variable)?;
            }
        }
        self.clauses.trail.undo_to(level);
        Ok(())
    }

    /// The next variable that has no value, as a literal.
    fn next_open(&mut self) -> Option<Code> {
        for _ in 0..places(self.variables) {
            let variable = self.order.take()?;
            let positive = self.phases.get(variable as usize).copied().unwrap_or(true);
            let code = Code::of(Literal { variable, positive });
            if !self.clauses.trail.is_true(code) && !self.clauses.trail.is_false(code) {
                return Some(code);
            }
        }
        None
    }

    /// Decides a variable that has no value; where there is none, the round ends.
    fn decide(&mut self) -> Result<Option<Round>, AllocError> {
        let Some(code) = self.next_open() else {
            return Ok(Some(Round::Full));
        };
        self.clauses.trail.begin_level()?;
        self.clauses.trail.push(code, None)?;
        Ok(None)
    }
}
