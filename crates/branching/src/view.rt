//! What a strategy sees of a cube.

ghost use Rattle.std.specs.Prelude.{◌≡◌, ℕ, ◌+◌, ◌<◌, ◌≤◌, [], ◌∷◌, true, Some, MatchOption};
ghost use Rattle.std.specs.Prelude.{IfSome, IfOk, IfNone, is_some, length, slice_get, List, Option};
ghost use Rattle.std.specs.List.{AllByRecursion};
ghost use Rattle.serializability.specs.Polygraph as spec;
ghost use Rattle.pruning_laws.specs.declared.side.Side as side;
ghost use Rattle.pruning_laws.specs.declared.side.Side.TheVariants.{One, Two};
ghost use Rattle.polygraph.specs.Polygraphs.{Joins};
ghost use Rattle.reach_rows.specs.ReachRows.{AreRowsOf};
ghost use Rattle.prune_ledger.specs.Rounds.{AddsEdges};
ghost use Rattle.branching.specs.View.{is_open_in, depth_of, graph_in, opened, decided};
ghost use Rattle.branching.specs.Picks.{edge_count};
ghost use Rattle.branching.specs.Refuted.{is_refuted_in, is_forced_in, first_forced, AreUnforced};
ghost use Rattle.branching.specs.Opens.{open_past};
ghost use Rattle.branching.specs.Held.{IsView, AreEdgesOf};
ghost use Rattle.branching.specs.Markings.{AreMarks, AreBlank, HaveLists};
ghost use Rattle.polygraph.specs.declared.index.TheConstants.{MAX_CHOICES};

use crate::counts::EdgeCounts;
use crate::kept_marks::Marks;
use crate::sides::Sides;
use known_graph::Known;
use polygraph::{Choice, ChoiceIx};
use prune_ledger::{Reduced, RefutedSides, judge};
use pruning_laws::Side;
use reach_laws::Edge;
use reach_rows::Rows;
use std::alloc::{AllocError, Global};
use std::marker::Model;

/// What a strategy sees of a cube: the choices of a polygraph, and of each the side that is
/// decided, or none where it is open.
///
/// It keeps up the known edges with those of the decided sides, which node reaches which by them,
/// and, for a strategy that uses marks, a mark for each open choice of which they refute a side.
#[derive(Drop)]
pub struct CubeView<'a> {
    reduced: &'a Reduced,
    counts: EdgeCounts,
    sides: Sides,
    graph: Known,
    rows: Rows,
    marks: Marks,
}

impl<'a> Model for CubeView<'a> {
    ghost use Rattle.branching.specs.View.{View};
    ghost use Rattle.branching.specs.Held.{view_of, IsHeld};

    ghost Value = { View };

    ghost view = { view_of };

    ghost invariant = { IsHeld };
}

/// What a view saw of a cube, so that a view can go back to it. Contracts see that view.
#[derive(Drop)]
pub struct SavedView<'a> {
    reduced: &'a Reduced,
    sides: Sides,
    graph: Known,
    rows: Rows,
    marks: Option<Vec<u64>>,
}

impl<'a> Model for SavedView<'a> {
    ghost use Rattle.branching.specs.View.{View};
    ghost use Rattle.branching.specs.Saved.{saved_view, IsSaved};

    ghost Value = { View };

    ghost view = { saved_view };

    ghost invariant = { IsSaved };
}

impl<'a> CubeView<'a> {
    /// The view of the cube in which no choice is decided.
    pub fn new(alloc: Global, reduced: &'a Reduced) -> Result<CubeView<'a>, AllocError>
        ensures opened { IfOk result (λ view. view ≡ opened reduced.now.poly) }
    {
        let marks = Marks::blank(alloc, reduced.poly())?;
        open_view(alloc, reduced, marks)
    }

    /// The view of that cube for strategies that do not use marks: it spares the time and the
    /// memory for them.
    pub fn without_marks(alloc: Global, reduced: &'a Reduced) -> Result<CubeView<'a>, AllocError>
        ensures opened { IfOk result (λ view. view ≡ opened reduced.now.poly) }
    {
        open_view(alloc, reduced, Marks::Unkept)
    }

    /// Opens each choice again. It takes no memory.
    pub fn restart(&mut self)
        ensures opened { self.new ≡ opened self.old.polygraph }
    {
        let reduced = self.reduced;
        self.sides.reopen();
        self.graph.copy_from(reduced.poly().known());
        self.rows.copy_from(reduced.rows());
        self.marks.clear();
    }

    /// What is seen now, to go back to.
    pub fn save(&self, alloc: Global) -> Result<SavedView<'a>, AllocError>
        ensures saved { IfOk result (λ saved. saved ≡ self.now) }
    {
        Ok(SavedView {
            reduced: self.reduced,
            sides: self.sides.copy(alloc)?,
            graph: self.graph.copy(alloc)?,
            rows: self.rows.copy(alloc)?,
            marks: self.marks.bits(alloc)?,
        })
    }

    /// Goes back to what a view of the same polygraph saw. It takes no memory.
    pub fn restore(&mut self, saved: &SavedView<'_>)
        requires polygraph { saved.now.polygraph ≡ self.old.polygraph }
        ensures restored { self.new ≡ saved.now }
    {
        let count = self.sides.count();
        self.sides.copy_from(&saved.sides);
        self.graph.copy_from(&saved.graph);
        self.rows.copy_from(&saved.rows);
        self.marks.copy_from(&saved.marks, count);
    }

    /// Decides an open choice. It takes no memory.
    pub fn decide(&mut self, choice: ChoiceIx, side: Side)
        requires open { is_open_in self.old choice ≡ true }
        ensures decided { self.new ≡ decided self.old choice side }
    {
        let choices = self.reduced.poly().choices();
        let edges = choices[choice.get()].edges(side);
        add_edges(&mut self.graph, &mut self.rows, &mut self.marks, edges);
        self.marks.remove(choice);
        self.sides.decide(choice, side);
    }

    /// How many choices are decided.
    pub fn depth(&self) -> usize
        ensures depth { result ≡ depth_of self.now }
        ensures within { result ≤ length self.now.sides }
    {
        self.sides.decided()
    }

    /// How many choices there are.
    pub fn count(&self) -> usize
        ensures count { result ≡ length self.now.polygraph.choices }
        ensures few { result ≤ MAX_CHOICES }
        ensures view { IsView self.now }
    {
        self.sides.count()
    }

    /// Whether there is such a choice and it is open.
    pub fn is_open(&self, choice: ChoiceIx) -> bool
        ensures open { result ≡ is_open_in self.now choice }
    {
        self.sides.is_open(choice)
    }

    /// A choice by its number.
    pub fn choice(&self, choice: ChoiceIx) -> &Choice
        requires choice { choice < length self.now.polygraph.choices }
        ensures choice { slice_get self.now.polygraph.choices choice ≡ Some result.now }
    {
        &self.reduced.poly().choices()[choice.get()]
    }

    /// The side that is decided of a choice, or none where it is open.
    pub fn side_of(&self, choice: ChoiceIx) -> Option<Side>
        requires choice { choice < length self.now.polygraph.choices }
        ensures side { slice_get self.now.sides choice ≡ Some result }
    {
        self.sides.side_of(choice)
    }

    /// The open choice of least number from a number on.
    pub(crate) fn next_open(&self, from: usize) -> Option<ChoiceIx>
        ensures next { MatchOption result (open_past self.now.sides from ≡ [])
            (λ c. open_past self.now.sides from ≡ c ∷ open_past self.now.sides (c + 1)) }
        ensures within { IfSome result (λ c. (from ≤ c) × (c < length self.now.polygraph.choices)
            × (is_open_in self.now c ≡ true)) }
    {
        self.sides.next_open(from)
    }

    /// How many edges both sides of a choice have together.
    pub(crate) fn edge_count(&self, choice: ChoiceIx) -> usize
        requires choice { choice < length self.now.polygraph.choices }
        ensures count { result ≡ edge_count self.now.polygraph.choices choice }
    {
        self.counts.of(choice.get())
    }

    /// Whether a side of a choice is refuted by the known edges and those of the decided sides.
    pub(crate) fn is_refuted(&self, choice: ChoiceIx, side: Side) -> bool
        requires choice { choice < length self.now.sides }
        ensures refuted { result ≡ is_refuted_in self.now choice side }
    {
        let verdict = self.verdict(choice);
        match side {
            Side::One => verdict.one.is_some(),
            Side::Two => verdict.two.is_some(),
        }
    }

    /// Whether a side of a choice is refuted, whichever.
    pub(crate) fn is_forced(&self, choice: ChoiceIx) -> bool
        requires choice { choice < length self.now.sides }
        ensures forced { result ≡ is_forced_in self.now choice }
    {
        let verdict = self.verdict(choice);
        verdict.one.is_some() || verdict.two.is_some()
    }

    /// What refutes the sides of a choice.
    fn verdict(&self, choice: ChoiceIx) -> RefutedSides
        requires choice { choice < length self.now.sides }
        ensures one { is_some result.one ≡ is_refuted_in self.now choice One }
        ensures two { is_some result.two ≡ is_refuted_in self.now choice Two }
    {
        judge(&self.rows, &self.reduced.poly().choices()[choice.get()])
    }

    /// The open choice of least number of which a side is refuted.
    pub(crate) fn first_forced(&self) -> Option<ChoiceIx>
        ensures choice { result ≡ first_forced self.now }
    {
        let mut from = 0;
        while let Some(choice) = self.next_marked(from) {
            if self.is_open(choice) && self.is_forced(choice) {
                return Some(choice);
            }
            from = choice.get() + 1;
        }
        None
    }

    /// The choice of least number from a number on that is marked, or open where no marks are kept;
    /// those below it are not open and forced.
    fn next_marked(&self, from: usize) -> Option<ChoiceIx>
        ensures next { IfSome result (λ c. from ≤ c) }
        ensures below { IfSome result (λ c. AreUnforced self.now from c) }
        ensures none { IfNone result ((c : ℕ) → AreUnforced self.now from c) }
    {
        match &self.marks {
            Marks::Unkept => self.sides.next_open(from),
            Marks::Kept(kept) => kept.next(from),
        }
    }

    /// A number of edges that no choice has fewer of, both sides together.
    pub(crate) fn fewest_edges(&self) -> usize
        ensures fewest { (c : ℕ) → c < length self.now.polygraph.choices →
            result ≤ edge_count self.now.polygraph.choices c }
        ensures view { IsView self.now }
    {
        self.counts.fewest()
    }

    /// A number of edges that no choice has more of, both sides together.
    pub(crate) fn most_edges(&self) -> usize
        ensures most { (c : ℕ) → edge_count self.now.polygraph.choices c ≤ result }
    {
        self.counts.most()
    }

    /// The known edges with those of the decided sides.
    pub(crate) fn graph(&self) -> &Known
        ensures edges { AreEdgesOf self.now result.now }
    {
        &self.graph
    }

    /// Which node reaches which by these edges.
    pub(crate) fn rows(&self) -> &Rows
        ensures rows { AreRowsOf result.now (graph_in self.now) }
        ensures view { IsView self.now }
    {
        &self.rows
    }
}

/// The view of the cube in which no choice is decided, with marks of which none is set.
fn open_view<'a>(
    alloc: Global,
    reduced: &'a Reduced,
    marks: Marks,
) -> Result<CubeView<'a>, AllocError>
    requires blank { AreBlank reduced.now.poly.nodes reduced.now.poly.choices marks }
    ensures opened { IfOk result (λ view. view ≡ opened reduced.now.poly) }
{
    let poly = reduced.poly();
    let _invariant = poly.nodes();
    Ok(CubeView {
        reduced,
        counts: EdgeCounts::new(alloc, poly.choices())?,
        sides: Sides::open(alloc, poly.choices().len())?,
        graph: poly.known().copy(alloc)?,
        rows: reduced.rows().copy(alloc)?,
        marks,
    })
}

/// Adds these edges to a graph and to its rows, and marks the choices of which they refute a side.
fn add_edges(graph: &mut Known, rows: &mut Rows, marks: &mut Marks, edges: &[Edge])
    requires joined { AllByRecursion (Joins graph.old.nodes) edges.now }
    requires rows { AreRowsOf rows.old graph.old }
    requires lists { HaveLists (graph.old.nodes + 1) marks.old }
    ensures edges { AddsEdges graph.old graph.new edges.now }
    ensures rows { AreRowsOf rows.new graph.new }
    ensures marks { (n : ℕ) (choices : List spec.Choice) (sides : List (Option side.Side))
        → length sides ≡ length choices →
        AreMarks n choices sides graph.old.edges marks.old
        → AreMarks n choices sides graph.new.edges marks.new }
{
    for &edge in edges {
        marks.add_edge(rows, edge);
        graph.add_edge(edge.source(), edge.target());
        rows.add_edge(edge.source(), edge.target());
    }
}
