//! How many edges choices have.

ghost use Rattle.std.specs.Prelude.{◌≡◌, ℕ, ◌<◌, ◌≤◌, IfOk, length, map, slice_index};
ghost use Rattle.branching.specs.Picks.{size_of};
ghost use Rattle.branching.specs.Counts.{AreBounds};

use polygraph::Choice;
use std::alloc::{AllocError, Global};
use std::marker::Model;

/// How many edges both sides of each choice have together. Contracts see the list of these numbers.
///
/// No number is below `fewest` or above `most`.
#[derive(Drop)]
pub struct EdgeCounts {
    counts: Vec<usize>,
    fewest: usize,
    most: usize,
}

impl Model for EdgeCounts {
    ghost use Rattle.std.specs.Prelude.{List, ℕ};
    ghost use Rattle.branching.specs.Counts.{AreBounds};

    ghost Value = { List ℕ };

    ghost view = { λ c. c.counts.items };

    ghost invariant = { λ c. AreBounds c.counts.items c.fewest c.most };
}

impl EdgeCounts {
    /// The numbers of these choices.
    pub fn new(alloc: Global, choices: &[Choice]) -> Result<EdgeCounts, AllocError>
        ensures counts { IfOk result (λ counts. counts ≡ map size_of choices.now) }
    {
        let counts = counts_of(alloc, choices)?;
        let (fewest, most) = bounds_of(&counts);
        Ok(EdgeCounts {
            counts,
            fewest,
            most,
        })
    }

    /// The number of one choice.
    pub fn of(&self, number: usize) -> usize
        requires within { number < length self.now }
        ensures count { result ≡ slice_index self.now number }
    {
        self.counts[number]
    }

    /// A number that no choice is below.
    pub fn fewest(&self) -> usize
        ensures fewest { (k : ℕ) → k < length self.now → result ≤ slice_index self.now k }
    {
        self.fewest
    }

    /// A number that no choice is above.
    pub fn most(&self) -> usize
        ensures most { (k : ℕ) → slice_index self.now k ≤ result }
    {
        self.most
    }
}

fn counts_of(alloc: Global, choices: &[Choice]) -> Result<Vec<usize>, AllocError>
    ensures counts { IfOk result (λ counts. counts.items ≡ map size_of choices.now) }
{
    choices
        .iter()
        .map(|choice| choice.one().len() + choice.two().len())
        .collect(alloc)
}

/// The least and the greatest of these numbers.
fn bounds_of(counts: &[usize]) -> (usize, usize)
    ensures bounds { AreBounds counts.now result.0 result.1 }
{
    let mut fewest = usize::MAX;
    let mut most = 0;
    for &count in counts {
        fewest = fewest.min(count);
        most = most.max(count);
    }
    (fewest, most)
}
