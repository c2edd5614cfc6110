//! Literals, each once.

ghost use Rattle.std.specs.Prelude.{◌≡◌, ℕ, ◌<◌, ◌^◌, List, [], ◌++◌, ◌∷◌, length};
ghost use Rattle.std.specs.Prelude.{slice_index, OnOk};
ghost use Rattle.serializability.specs.declared.literal.Literal.{Literal};
ghost use Rattle.proof_checks.specs.Distinct.{code_of, distinct, is_among, is_same};
ghost use Rattle.proof_checks.specs.Distinct.{is_tautology, negated, with_literal};
ghost use Rattle.proof_checks.specs.Marks.{HasRounds, IsMarking};

use serializability::Literal;
use std::alloc::{AllocError, Global};

/// Marks for literals, all of which are taken away at once.
#[derive(Drop)]
pub(crate) struct Marks {
    // the round in which each literal was marked last, by its place
    rounds: Vec<u32>,
    round: u32,
}

/// The place of a literal among the marks.
fn place_of(literal: Literal) -> usize
    ensures place { result ≡ code_of literal }
    ensures few { result < 2 ^ 33 }
{
    2 * literal.variable as usize + usize::from(!literal.positive)
}

/// Whether two literals are the same.
pub(crate) fn is_same(one: Literal, two: Literal) -> bool
    ensures { result ≡ is_same one two }
{
    place_of(one) == place_of(two)
}

/// Whether a literal is among these.
pub(crate) fn has(literals: &[Literal], literal: Literal) -> bool
    ensures { result ≡ is_among literals.now literal }
{
    for &other in literals {
        if is_same(literal, other) {
            return true;
        }
    }
    false
}

/// The opposite of a literal.
pub(crate) fn negated(literal: Literal) -> Literal
    ensures { result ≡ negated literal }
{
    Literal {
        variable: literal.variable,
        positive: !literal.positive,
    }
}

impl Marks {
    /// No marks.
    pub(crate) fn new(alloc: Global) -> Marks
        ensures { HasRounds result }
    {
        Marks {
            rounds: Vec::new(alloc),
            round: 1,
        }
    }

    /// Takes all marks away.
    fn clear(&mut self)
        requires { HasRounds self.old }
        ensures { IsMarking self.new [] }
    {
        if self.round == u32::MAX {
            self.rounds.clear();
            self.round = 0;
        }
        self.round += 1;
    }

    /// Whether a literal is marked.
    pub(crate) fn has(&self, literal: Literal) -> bool
        ensures { (marked : List Literal) → IsMarking self.now marked →
            result ≡ is_among marked literal }
    {
        self.rounds.get(place_of(literal)).copied().unwrap_or(0) == self.round
    }

    /// Makes room for the mark of a place.
    fn reach(&mut self, place: usize) -> Result<(), AllocError>
        requires { place < 2 ^ 33 }
        ensures round { self.new.round ≡ self.old.round }
        ensures within { OnOk result (place < length self.new.rounds.items) }
        ensures same { OnOk result ((k : ℕ) →
            slice_index self.new.rounds.items k ≡ slice_index self.old.rounds.items k) }
    {
        if place < self.rounds.len() {
            return Ok(());
        }
        self.rounds.resize(place + 1, 0)?;
        Ok(())
    }

    /// Marks a literal.
    fn add(&mut self, literal: Literal) -> Result<(), AllocError>
        ensures { (marked : List Literal) → IsMarking self.old marked →
            OnOk result (IsMarking self.new (marked ++ literal ∷ [])) }
    {
        let place = place_of(literal);
        self.reach(place)?;
        self.rounds[place] = self.round;
        Ok(())
    }

    /// Keeps a literal, unless it is marked, and marks it.
    pub(crate) fn keep_one(
        &mut self,
        literal: Literal,
        kept: &mut Vec<Literal>,
    ) -> Result<(), AllocError>
        requires { IsMarking self.old kept.old.items }
        ensures kept { OnOk result (kept.new.items ≡ with_literal kept.old.items literal) }
        ensures marked { OnOk result (IsMarking self.new kept.new.items) }
    {
        if self.has(literal) {
            return Ok(());
        }
        self.add(literal)?;
        kept.push(literal)?;
        Ok(())
    }

    /// Keeps each literal once, and marks it.
    pub(crate) fn keep(
        &mut self,
        literals: &[Literal],
        kept: &mut Vec<Literal>,
    ) -> Result<(), AllocError>
        requires { HasRounds self.old }
        ensures kept { OnOk result (kept.new.items ≡ distinct literals.now) }
        ensures marked { OnOk result (IsMarking self.new kept.new.items) }
    {
        self.clear();
        kept.clear();
        for &literal in literals {
            self.keep_one(literal, kept)?;
        }
        Ok(())
    }

    /// Whether literals, all of which are marked, have one and its negation among them.
    pub(crate) fn is_tautology(&self, literals: &[Literal]) -> bool
        requires { IsMarking self.now literals.now }
        ensures { result ≡ is_tautology literals.now }
    {
        for &literal in literals {
            if self.has(negated(literal)) {
                return true;
            }
        }
        false
    }
}
