//! Marks of choices, where a view keeps them.

ghost use Rattle.std.specs.Prelude.{◌≡◌, ℕ, ◌+◌, ◌^◌, ◌/◌, ◌<◌, ◌≤◌, ◌==◌, ◌&&◌, not, length, IfOk};
ghost use Rattle.std.specs.Prelude.{IfSome, IfNone};
ghost use Rattle.known_graph.specs.Bits.{bit_of, row_len};
ghost use Rattle.polygraph.specs.declared.index.TheConstants.{MAX_CHOICES};
ghost use Rattle.branching.specs.Markings.{AreBlank, HaveLists, HaveRoom, HasRoom, HasBits};
ghost use Rattle.branching.specs.Markings.{ClearsMarks, SavesMarks, TakesSaved, AddsMarks};
ghost use Rattle.branching.specs.Markings.{RemovesMark, IsUnmarked};

use crate::bits::{clear_bit, next_set, set_below};
use crate::marks::mark_refuted;
use known_graph::bits::row_len;
use polygraph::{ChoiceIx, Polygraph};
use reach_laws::Edge;
use reach_rows::Rows;
use side_edges::{SideEdge, side_edges};
use std::alloc::{AllocError, Global};

/// Marks of the open choices of which a side may be refuted.
#[derive(Drop)]
pub enum Marks {
    /// None are kept: any open choice may have a side that is refuted.
    Unkept,
    /// The marks that are kept: an open choice without one has no such side.
    Kept(KeptMarks),
}

/// Marks as bits, one for each choice, and the edges by which choices come to be marked.
#[derive(Drop)]
pub struct KeptMarks {
    pub incoming: Vec<Vec<SideEdge>>,
    pub bits: Vec<u64>,
}

impl Marks {
    /// Marks of a polygraph's choices, with no choice marked.
    pub fn blank(alloc: Global, polygraph: &Polygraph) -> Result<Marks, AllocError>
        ensures blank { IfOk result (AreBlank polygraph.now.nodes polygraph.now.choices) }
    {
        Ok(Marks::Kept(KeptMarks {
            incoming: side_edges(alloc, polygraph)?,
            bits: vec![in alloc; 0; row_len(polygraph.choices().len())]?,
        }))
    }

    /// Takes each mark away.
    pub fn clear(&mut self)
        ensures clears { ClearsMarks self.old self.new }
    {
        match self {
            Marks::Unkept => {}
            Marks::Kept(kept) => kept.bits.as_mut_slice().fill(0),
        }
    }

    /// The bits of the marks, where they are kept.
    pub fn bits(&self, alloc: Global) -> Result<Option<Vec<u64>>, AllocError>
        ensures saves { IfOk result (SavesMarks self.now) }
    {
        match self {
            Marks::Unkept => Ok(None),
            Marks::Kept(kept) => Ok(Some(Vec::from_slice(alloc, &kept.bits)?)),
        }
    }

    /// Takes over the bits of marks, and marks each of so many choices where none were kept.
    pub fn copy_from(&mut self, bits: &Option<Vec<u64>>, count: usize)
        requires marks { HaveRoom count self.old }
        requires bits { HasRoom count bits.now }
        ensures takes { TakesSaved count bits.now self.old self.new }
    {
        match self {
            Marks::Unkept => {}
            Marks::Kept(kept) => copy_bits(kept.bits.as_mut_slice(), bits, count),
        }
    }

    /// Marks the choices of which an edge more refutes a side that the edges of these rows do not.
    pub fn add_edge(&mut self, rows: &Rows, edge: Edge)
        requires lists { HaveLists (rows.now.nodes + 1) self.old }
        ensures adds { AddsMarks rows.now edge self.old self.new }
        ensures lists { (count : ℕ) → HaveLists count self.old → HaveLists count self.new }
    {
        match self {
            Marks::Unkept => {}
            Marks::Kept(kept) => {
                let marks = kept.bits.as_mut_slice();
                mark_refuted(&kept.incoming, rows, marks, edge.source(), edge.target());
            }
        }
    }

    /// Takes away the mark of a choice that is decided.
    pub fn remove(&mut self, choice: ChoiceIx)
        ensures removes { RemovesMark choice self.old self.new }
    {
        match self {
            Marks::Unkept => {}
            Marks::Kept(kept) => clear_within(kept.bits.as_mut_slice(), choice.get()),
        }
    }
}

impl KeptMarks {
    /// The marked choice of least number from a number on.
    pub fn next(&self, from: usize) -> Option<ChoiceIx>
        requires short { length self.now.bits.items < 2 ^ 32 }
        ensures from { IfSome result (λ c. from ≤ c) }
        ensures below { IfSome result (IsUnmarked self.now.bits.items from) }
        ensures none { IfNone result (IsUnmarked self.now.bits.items from MAX_CHOICES) }
    {
        ChoiceIx::new(next_set(&self.bits, from)?)
    }
}

/// Writes these bits over others, or sets those of so many choices where there are none.
fn copy_bits(marks: &mut [u64], bits: &Option<Vec<u64>>, count: usize)
    requires len { length marks.old ≡ row_len count }
    requires bits { HasRoom count bits.now }
    ensures bits { HasBits count bits.now marks.new }
{
    match bits {
        Some(bits) => marks.copy_from_slice(bits),
        None => set_below(marks, count),
    }
}

/// Clears the bit of this number; past the last word there is none.
fn clear_within(words: &mut [u64], number: usize)
    ensures bits { (k : ℕ) → bit_of words.new k ≡ (not (k == number) && bit_of words.old k) }
    ensures len { length words.new ≡ length words.old }
{
    if number / 64 < words.len() {
        clear_bit(words, number);
    }
}
