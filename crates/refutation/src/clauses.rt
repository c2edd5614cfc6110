//! Clauses by their numbers.

ghost use Rattle.std.specs.Prelude.{◌≡◌, ◌∷◌, [], ◌++◌, None, Some, length, slice_set, OnOk, OnErr};
ghost use Rattle.std.specs.Prelude.{IfOk, MatchOption};
ghost use Rattle.refutation.specs.Numbered.{clause_at};

use serializability::Literal;
use std::alloc::{AllocError, Global};
use std::marker::Model;

/// Where the literals of a clause begin, and where they end.
#[derive(Clone, Copy)]
struct Span {
    start: usize,
    end: usize,
}

/// Clauses by their numbers, counted from 0 in the order in which they came. A clause that is
/// forgotten leaves its number unused.
#[derive(Drop)]
pub struct Clauses {
    alloc: Global,
    literals: Vec<Literal>,
    spans: Vec<Option<Span>>,
    // how many literals belong to no clause any more; nothing but the time of `reclaim` rests on it
    unused: usize,
}

impl Model for Clauses {
    ghost use Rattle.std.specs.Prelude.{List, Option, length};
    ghost use Rattle.serializability.specs.declared.literal.Literal.{Literal};
    ghost use Rattle.refutation.specs.Stored.{clauses_in, AreWithin};

    ghost Value = { List (Option (List Literal)) };

    ghost view = { λ c. clauses_in c.literals.items c.spans.items };

    ghost invariant = { λ c. AreWithin (length c.literals.items) c.spans.items };
}

impl Clauses {
    /// No clauses.
    pub fn new(alloc: Global) -> Clauses
        ensures { result ≡ [] }
    {
        Clauses {
            alloc,
            literals: Vec::new(alloc),
            spans: Vec::new(alloc),
            unused: 0,
        }
    }

    /// How many numbers were given to clauses.
    pub fn len(&self) -> usize
        ensures { result ≡ length self.now }
    {
        self.spans.len()
    }

    /// The clause with a number.
    pub fn get(&self, number: usize) -> Option<&[Literal]>
        ensures { MatchOption result (clause_at self.now number ≡ None)
            (λ c. clause_at self.now number ≡ Some c.now) }
    {
        match self.spans.get(number) {
            Some(Some(span)) => Some(&self.literals[span.start..span.end]),
            _ => None,
        }
    }

    /// Adds a clause under the next number.
    #[tactic(auto, using(crate::proofs::Stores::clause_pushed))]
    pub fn push(&mut self, clause: &[Literal]) -> Result<(), AllocError>
        ensures pushed { OnOk result (self.new ≡ self.old ++ Some clause.now ∷ []) }
        ensures same { OnErr result (self.new ≡ self.old) }
    {
        let start = self.literals.len();
        self.literals.extend_from_slice(clause)?;
        let end = self.literals.len();
        self.spans.push(Some(Span { start, end }))?;
        Ok(())
    }

    /// Leaves the next number unused.
    fn skip(&mut self) -> Result<(), AllocError>
        ensures skipped { OnOk result (self.new ≡ self.old ++ None ∷ []) }
        ensures same { OnErr result (self.new ≡ self.old) }
    {
        self.spans.push(None)?;
        Ok(())
    }

    /// How many literals the clause with a number has.
    fn length_of(&self, number: usize) -> usize {
        self.get(number).map_or(0, |clause| clause.len())
    }

    /// Forgets the clause with a number. Its memory is given back by `reclaim`.
    pub fn forget(&mut self, number: usize)
        ensures { self.new ≡ slice_set self.old number None }
    {
        if number < self.spans.len() {
            self.unused = self.unused.saturating_add(self.length_of(number));
            self.spans[number] = None;
        }
    }

    /// The same clauses, without the literals that belong to none.
    #[tactic(auto, using(crate::proofs::Units::take_clause))]
    fn packed(&self) -> Result<Clauses, AllocError>
        ensures { IfOk result (λ c. c ≡ self.now) }
    {
        let mut packed = Clauses::new(self.alloc);
        for number in 0..self.len() {
            match self.get(number) {
                Some(clause) => packed.push(clause)?,
                None => packed.skip()?,
            }
        }
        Ok(packed)
    }

    /// Gives back the memory of forgotten clauses, once it is more than that of all others and of
    /// the numbers.
    pub fn reclaim(&mut self) -> Result<(), AllocError>
        ensures { self.new ≡ self.old }
    {
        let used = self.literals.len().saturating_sub(self.unused);
        if self.unused > used.saturating_add(self.spans.len()) {
            *self = self.packed()?;
        }
        Ok(())
    }
}
