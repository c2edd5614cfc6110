//! A row of words that the machine lends to workers.

ghost use Rattle.std.specs.Prelude.{◌≡◌, ◌<◌, Some, IfOk, IfSome};
ghost use Rattle.pruning_laws.specs.declared.side.Side.{Side};
ghost use Rattle.cube_machine.specs.declared.origin.Origin.{Origin};
ghost use Rattle.cube_machine.specs.Growth.{most_nodes};
ghost use Rattle.cube_machine.specs.Words.{side_bit, word_of, Fits};

use crate::budget::Budget;
use crate::origin::Origin;
use polygraph::ChoiceIx;
use pruning_laws::Side;
use std::alloc::{AllocError, Global};
use std::marker::Model;
use std::sync::atomic::{AtomicU64, Ordering};

/// A word has the side in bit 0, the choice in bits 1 to 17, the parent in bits 18 to 38, and bit
/// 39 set.
const CHOICE_UNIT: u64 = 1 << 1;

const PARENT_UNIT: u64 = 1 << 18;

const PARENTS: usize = 1 << 21;

const WRITTEN: u64 = 1 << 39;

/// A row of atomic words, one for each node of the tree, in which the machine notes how a node was
/// led to before it replies. Nothing that is proved rests on it: who reads something senseless
/// there sends it, and is refused. Contracts see for how many nodes it has a word.
#[derive(Drop)]
pub struct OriginRow {
    words: Vec<AtomicU64>,
}

impl Model for OriginRow {
    ghost use Rattle.std.specs.Prelude.{ℕ, length};

    ghost Value = { ℕ };

    ghost view = { λ r. length r.words.items };
}

impl OriginRow {
    /// The row for a budget, with a word for each node that it allows, and nothing noted.
    pub fn new(alloc: Global, budget: Budget) -> Result<OriginRow, AllocError>
        ensures words { IfOk result (λ row. row ≡ most_nodes budget) }
    {
        let len = 2 * budget.get() + 1;
        let mut words = Vec::with_capacity(alloc, len)?;
        for _ in 0..len {
            words.push(AtomicU64::new(0))?;
        }
        Ok(OriginRow { words })
    }

    /// How a node was led to, as it was noted; `None` for node 0, for a node of which nothing is
    /// noted and for a senseless note. A parent's number is less than the node's.
    pub fn origin(&self, node: usize) -> Option<Origin>
        ensures earlier { IfSome result (λ o. o.parent < node) }
    {
        let word = self.words.get(node)?.load(Ordering::SeqCst);
        let origin = unpacked(word)?;
        if origin.parent < node {
            Some(origin)
        } else {
            None
        }
    }

    /// Notes how a node was led to, where the row has a word for the node and the parent's number
    /// is below 2^21. The machine does so for each node that it makes.
    pub fn note(&self, node: usize, origin: Origin) {
        if origin.parent >= PARENTS {
            return;
        }
        if let Some(word) = self.words.get(node) {
            word.store(packed(origin), Ordering::SeqCst);
        }
    }
}

/// The word for an origin.
fn packed(origin: Origin) -> u64
    requires parent { origin.parent < 2097152 }
    ensures word { result ≡ word_of origin }
{
    let side = match origin.side {
        Side::One => 0,
        Side::Two => 1,
    };
    WRITTEN + origin.parent as u64 * PARENT_UNIT + origin.choice.get() as u64 * CHOICE_UNIT + side
}

/// The origin that a word stands for.
fn unpacked(word: u64) -> Option<Origin>
    ensures read { (o : Origin) → Fits o → word ≡ word_of o → result ≡ Some o }
{
    if word < WRITTEN {
        return None;
    }
    let rest = word - WRITTEN;
    let low = rest % PARENT_UNIT;
    let choice = ChoiceIx::new((low / CHOICE_UNIT) as usize)?;
    Some(Origin {
        parent: (rest / PARENT_UNIT) as usize,
        choice,
        side: side_of(low % CHOICE_UNIT),
    })
}

/// The side that a bit stands for.
fn side_of(bit: u64) -> Side
    ensures side { (s : Side) → bit ≡ side_bit s → result ≡ s }
{
    if bit == 0 { Side::One } else { Side::Two }
}
