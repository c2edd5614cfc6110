//! The sides that are decided.

ghost use Rattle.std.specs.Prelude.{◌≡◌, ◌+◌, ◌<◌, ◌≤◌, [], ◌∷◌, true, Some, None, Option};
ghost use Rattle.std.specs.Prelude.{MatchOption, IfSome, IfOk, is_some, length, replicate};
ghost use Rattle.std.specs.Prelude.{slice_get, slice_set};
ghost use Rattle.std.specs.List.{filter};
ghost use Rattle.branching.specs.Opens.{is_open_at, open_past};
ghost use Rattle.polygraph.specs.declared.index.TheConstants.{MAX_CHOICES};

use crate::bits::{clear_bit, next_set, set_below};
use known_graph::bits::{has_bit, row_len};
use polygraph::ChoiceIx;
use pruning_laws::Side;
use std::alloc::{AllocError, Global};
use std::marker::Model;

/// Of each choice the side that is decided, or none where it is open. Contracts see the list of
/// these.
#[derive(Drop)]
pub struct Sides {
    sides: Vec<Option<Side>>,
    open: Vec<u64>,
    decided: usize,
}

impl Model for Sides {
    ghost use Rattle.std.specs.Prelude.{List, Option};
    ghost use Rattle.pruning_laws.specs.declared.side.Side as side;
    ghost use Rattle.branching.specs.Sides.{AreHeld};

    ghost Value = { List (Option side.Side) };

    ghost view = { λ s. s.sides.items };

    ghost invariant = { AreHeld };
}

impl Sides {
    /// The sides of so many choices, all of them open.
    pub fn open(alloc: Global, count: usize) -> Result<Sides, AllocError>
        requires few { count ≤ MAX_CHOICES }
        ensures open { IfOk result (λ sides. sides ≡ replicate count None) }
    {
        let mut open = vec![in alloc; 0; row_len(count)]?;
        set_below(open.as_mut_slice(), count);
        Ok(Sides {
            sides: vec![in alloc; None; count]?,
            open,
            decided: 0,
        })
    }

    /// Opens each choice. It takes no memory.
    pub fn reopen(&mut self)
        ensures open { self.new ≡ replicate (length self.old) None }
    {
        set_below(self.open.as_mut_slice(), self.sides.len());
        self.sides.as_mut_slice().fill(None);
        self.decided = 0;
    }

    /// The same sides.
    pub fn copy(&self, alloc: Global) -> Result<Sides, AllocError>
        ensures same { IfOk result (λ sides. sides ≡ self.now) }
    {
        Ok(Sides {
            sides: Vec::from_slice(alloc, &self.sides)?,
            open: Vec::from_slice(alloc, &self.open)?,
            decided: self.decided,
        })
    }

    /// Makes these the same as others. It takes no memory.
    pub fn copy_from(&mut self, other: &Sides)
        requires count { length self.old ≡ length other.now }
        ensures same { self.new ≡ other.now }
    {
        self.sides.as_mut_slice().copy_from_slice(&other.sides);
        self.open.as_mut_slice().copy_from_slice(&other.open);
        self.decided = other.decided;
    }

    /// Decides an open choice. It takes no memory.
    pub fn decide(&mut self, choice: ChoiceIx, side: Side)
        requires open { is_open_at self.old choice ≡ true }
        ensures decided { self.new ≡ slice_set self.old choice (Some side) }
    {
        let number = choice.get();
        clear_bit(self.open.as_mut_slice(), number);
        self.sides[number] = Some(side);
        self.decided += 1;
    }

    /// How many choices there are.
    pub fn count(&self) -> usize
        ensures count { result ≡ length self.now }
        ensures few { result ≤ MAX_CHOICES }
    {
        self.sides.len()
    }

    /// How many choices are decided.
    pub fn decided(&self) -> usize
        ensures decided { result ≡ length (filter is_some self.now) }
        ensures within { result ≤ length self.now }
    {
        self.decided
    }

    /// Whether there is such a choice and it is open.
    pub fn is_open(&self, choice: ChoiceIx) -> bool
        ensures open { result ≡ is_open_at self.now choice }
    {
        has_bit(&self.open, choice.get())
    }

    /// The side that is decided of a choice, or none where it is open.
    pub fn side_of(&self, choice: ChoiceIx) -> Option<Side>
        requires choice { choice < length self.now }
        ensures side { slice_get self.now choice ≡ Some result }
    {
        self.sides[choice.get()]
    }

    /// The open choice of least number from a number on.
    pub fn next_open(&self, from: usize) -> Option<ChoiceIx>
        ensures next { MatchOption result (open_past self.now from ≡ [])
            (λ c. open_past self.now from ≡ c ∷ open_past self.now (c + 1)) }
        ensures within { IfSome result (λ c. (from ≤ c) × (c < length self.now)
            × (is_open_at self.now c ≡ true)) }
    {
        ChoiceIx::new(next_set(&self.open, from)?)
    }
}
