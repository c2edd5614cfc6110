//! The checker.

ghost use Rattle.std.specs.Prelude.{◌≡◌, ◌∷◌, [], ◌++◌, None, Some, length, slice_set, OnOk, OnErr};
ghost use Rattle.std.specs.Prelude.{IfOk, MatchOption, IsTrue, ◌↔◌, Contains};
ghost use Rattle.refutation.specs.Follows.{Entails, IsRefuted};
ghost use Rattle.refutation.specs.Known.{Assumes, left_of, with_false, all_open};
ghost use Rattle.refutation.specs.Left.{IsLeft};
ghost use Rattle.refutation.specs.Numbered.{clause_at};
ghost use Rattle.refutation.specs.Shown.{Shows};

use crate::assignment::Assignment;
use crate::clauses::Clauses;
use serializability::Literal;
use std::alloc::{AllocError, Global};
use std::marker::Model;

/// What a clause that stands has shown.
#[derive(Clone, Copy)]
pub enum Shown {
    /// Nothing: two of its literals are not false, or there is no such clause.
    Nothing,
    /// This literal is true, since all others are false.
    Forced(Literal),
    /// That the step's clause follows, since all literals are false. The step's clause stands now.
    Closed,
}

/// Clauses that stand, by their numbers, and the step that is being taken.
#[derive(Drop)]
pub struct Checker {
    clauses: Clauses,
    step: Vec<Literal>,
    assigned: Assignment,
}

impl Model for Checker {
    ghost use Rattle.refutation.specs.Standing.{Standing, standing, IsSound};

    ghost Value = { Standing };

    ghost view = { λ c. standing c.clauses c.step.items c.assigned };

    ghost invariant = { λ c. IsSound c.clauses c.step.items c.assigned };
}

impl Checker {
    /// A checker without clauses, for variables below a number.
    pub fn new(alloc: Global, variables: usize) -> Result<Checker, AllocError>
        ensures { IfOk result (λ c. c ≡ record {
          clauses = [];
          step = [];
          known = all_open
              variables;
        }) }
    {
        Ok(Checker {
            clauses: Clauses::new(alloc),
            step: Vec::new(alloc),
            assigned: Assignment::new(alloc, variables)?,
        })
    }

    /// Takes a clause for granted, as those of the formula are.
    pub fn give(&mut self, clause: &[Literal]) -> Result<(), AllocError>
        ensures given { OnOk result (self.new ≡ record self.old
            { clauses = self.old.clauses ++ Some clause.now ∷ [] }) }
        ensures same { OnErr result (self.new ≡ self.old) }
    {
        self.clauses.push(clause)
    }

    /// Begins a step: the literals of its clause are assumed false, and what an earlier step knew
    /// is forgotten.
    pub fn begin(&mut self, step: &[Literal]) -> Result<(), AllocError>
        ensures clauses { self.new.clauses ≡ self.old.clauses }
        ensures step { OnOk result (self.new.step ≡ step.now) }
        ensures known { OnOk result (self.new.known ≡ with_false step.now
            (all_open (length self.old.known))) }
    {
        self.assigned.clear();
        self.step.clear();
        self.step.extend_from_slice(step)?;
        assume(&mut self.assigned, step)
    }

    /// Looks at the clause with a number.
    #[tactic(auto, using(crate::proofs::Units::show_steps))]
    pub fn show(&mut self, number: usize) -> Result<Shown, AllocError>
        ensures shown { IfOk result (λ s. Shows self.old self.new number s) }
        ensures same { OnErr result (self.new ≡ self.old) }
    {
        let Some(clause) = self.clauses.get(number) else {
            return Ok(Shown::Nothing);
        };
        match what_is_left(&self.assigned, clause) {
            Left::More => Ok(Shown::Nothing),
            Left::One(literal) => {
                self.assigned.set(literal)?;
                Ok(Shown::Forced(literal))
            }
            Left::Nothing => {
                self.clauses.push(&self.step)?;
                Ok(Shown::Closed)
            }
        }
    }

    /// Forgets the clause with a number, and what the step knew.
    pub fn forget(&mut self, number: usize)
        ensures clauses { self.new.clauses ≡ slice_set self.old.clauses number None }
        ensures known { self.new.known ≡ all_open (length self.old.known) }
        ensures follows { Entails self.old.clauses self.new.clauses }
    {
        self.assigned.clear();
        self.clauses.forget(number);
    }

    /// Gives back the memory of forgotten clauses, once it is more than that of all others.
    pub fn reclaim(&mut self) -> Result<(), AllocError>
        ensures { self.new ≡ self.old }
    {
        self.clauses.reclaim()
    }

    /// How many numbers were given to clauses.
    pub fn len(&self) -> usize
        ensures { result ≡ length self.now.clauses }
    {
        self.clauses.len()
    }

    /// The clause with a number.
    pub fn clause(&self, number: usize) -> Option<&[Literal]>
        ensures { MatchOption result (clause_at self.now.clauses number ≡ None)
            (λ c. clause_at self.now.clauses number ≡ Some c.now) }
    {
        self.clauses.get(number)
    }

    /// Whether the empty clause stands. Then no assignment satisfies the clauses.
    pub fn is_refuted(&self) -> bool
        ensures empty { IsTrue result ↔ Contains self.now.clauses (Some []) }
        ensures refuted { IsTrue result → IsRefuted self.now.clauses }
    {
        for number in 0..self.clauses.len() {
            if let Some([]) = self.clauses.get(number) {
                return true;
            }
        }
        false
    }
}

/// What is left of a clause when its false literals are taken away.
enum Left {
    Nothing,
    One(Literal),
    More,
}

/// What is left of a clause under what is known.
fn what_is_left(assigned: &Assignment, clause: &[Literal]) -> Left
    ensures { IsLeft (left_of assigned.now clause.now) result }
{
    let mut one = None;
    for &literal in clause {
        if !assigned.is_false(literal) {
            if one.is_some() {
                return Left::More;
            }
            one = Some(literal);
        }
    }
    match one {
        None => Left::Nothing,
        Some(literal) => Left::One(literal),
    }
}

/// Makes each literal of a clause false.
#[tactic(auto, using(crate::proofs::Units::assumed_more, crate::proofs::Units::false_more))]
fn assume(assigned: &mut Assignment, clause: &[Literal]) -> Result<(), AllocError>
    ensures assumes { Assumes clause.now assigned.old assigned.new }
    ensures known { OnOk result (assigned.new ≡ with_false clause.now assigned.old) }
{
    for &literal in clause {
        assigned.set(Literal {
            variable: literal.variable,
            positive: !literal.positive,
        })?;
    }
    Ok(())
}
