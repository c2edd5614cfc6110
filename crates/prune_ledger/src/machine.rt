//! The machine that keeps sides of choices.

ghost use Rattle.std.specs.Prelude.{◌≡◌, ℕ, ◌+◌, ◌<◌, ◌≤◌, ◌&&◌, ◌||◌, Bool, true, false, List};
ghost use Rattle.std.specs.Prelude.{length, slice_get, Some, IfSome, IfNone, IfOk, IsTrue};
ghost use Rattle.std.specs.Prelude.{replicate, map};
ghost use Rattle.std.specs.List.{AllByRecursion};
ghost use Rattle.pruning_laws.specs.Forced.{edges_of, other};
ghost use Rattle.polygraph.specs.Polygraphs.{Joins, JoinsBoth};
ghost use Rattle.known_graph.specs.Tests.{has_edge};
ghost use Rattle.prune_ledger.specs.Steps.{with_edges, is_refused, post_reply, refused, refuses};
ghost use Rattle.prune_ledger.specs.Steps.{free_from, take_reply, taken, posted, refusing, is_free};
ghost use Rattle.prune_ledger.specs.Steps.{hand_out};
ghost use Rattle.prune_ledger.specs.Kept.{IsPast};
ghost use Rattle.prune_ledger.specs.Opening.{no_mark, opening_state, given_back, reopened_state};
ghost use Rattle.prune_ledger.specs.Pruned.{unrefused, AreSettled};
ghost use Rattle.prune_ledger.specs.declared.messages.PruneReply.TheVariants.{Entered};
ghost use Rattle.polygraph.specs.declared.index.TheConstants.{MAX_CHOICES};

use crate::messages::{ChoiceState, PruneReply, Refutation};
use known_graph::Known;
use polygraph::{Choice, ChoiceIx};
use pruning_laws::Side;
use reach_laws::Edge;
use serializability::NodeIx;
use std::alloc::{AllocError, Global};
use std::marker::Model;

/// The machine that keeps sides of choices. Contracts see its choices, its graph, which is the
/// known edges with those of the sides that it keeps, a mark for each choice, and whether it is
/// dead.
#[derive(Drop)]
pub struct PruneMachine {
    choices: Vec<Choice>,
    graph: Known,
    marks: Vec<ChoiceState>,
    cursor: usize,
    dead: bool,
}

impl Model for PruneMachine {
    ghost use Rattle.prune_ledger.specs.State.{State};
    ghost use Rattle.prune_ledger.specs.Kept.{IsKept};

    ghost Value = { State };

    ghost view = { λ m. record {
      choices = m.choices.items;
      graph = m.graph;
      marks = m.marks.items;
      dead = m.dead;
    } };

    ghost invariant = { λ m. IsKept m.graph.nodes m.choices.items m.marks.items m.cursor };
}

/// The other side of a choice.
pub fn other_side(side: Side) -> Side
    ensures { result ≡ other side }
{
    match side {
        Side::One => Side::Two,
        Side::Two => Side::One,
    }
}

fn is_refusing(mark: ChoiceState, side: Side) -> bool
    ensures { result ≡ refuses mark side }
{
    match side {
        Side::One => mark.one,
        Side::Two => mark.two,
    }
}

fn with_refused(mark: ChoiceState, side: Side) -> ChoiceState
    ensures { result ≡ refusing mark side }
{
    match side {
        Side::One => ChoiceState { one: true, ..mark },
        Side::Two => ChoiceState { two: true, ..mark },
    }
}

fn handed_out(mark: ChoiceState) -> ChoiceState
    ensures { result ≡ hand_out mark }
{
    ChoiceState {
        handed: true,
        ..mark
    }
}

fn is_free(mark: ChoiceState) -> bool
    ensures { result ≡ is_free mark }
{
    !(mark.one || mark.two) && !mark.handed
}

/// Whether the edge is in the list.
pub fn has_edge(edges: &[Edge], edge: Edge) -> bool
    ensures { result ≡ has_edge edges.now edge }
{
    let (u, v) = (edge.source().get(), edge.target().get());
    edges
        .iter()
        .any(|e| e.source().get() == u && e.target().get() == v)
}

/// The least free choice, where none before the cursor is free.
fn free_choice(marks: &[ChoiceState], cursor: usize) -> Option<usize>
    requires within { cursor ≤ length marks.now }
    requires past { IsPast cursor marks.now }
    ensures first { result ≡ free_from 0 marks.now }
    ensures within { IfSome result (λ c. c < length marks.now) }
{
    for k in cursor..marks.len() {
        if is_free(marks[k]) {
            return Some(k);
        }
    }
    None
}

/// Adds each edge of a side.
fn add_all(graph: &mut Known, side: &[Edge])
    requires { AllByRecursion (Joins graph.old.nodes) side.now }
    ensures { graph.new ≡ with_edges graph.old side.now }
{
    for &edge in side {
        graph.add_edge(edge.source(), edge.target());
    }
    let _invariant = graph.nodes();
}

/// No choice is refused or handed out.
fn free_marks(alloc: Global, count: usize) -> Result<Vec<ChoiceState>, AllocError>
    ensures { IfOk result (λ v. v.items ≡ replicate count no_mark) }
{
    let mark = ChoiceState {
        one: false,
        two: false,
        handed: false,
    };
    let mut marks = Vec::with_capacity(alloc, count)?;
    for done in 0..count {
        marks.push(mark)?;
    }
    Ok(marks)
}

/// Takes back what was handed out.
fn give_back(marks: &mut [ChoiceState])
    ensures { marks.new ≡ map given_back marks.old }
{
    for k in 0..marks.len() {
        marks[k] = given(marks[k]);
    }
}

fn given(mark: ChoiceState) -> ChoiceState
    ensures { result ≡ given_back mark }
{
    ChoiceState {
        handed: false,
        ..mark
    }
}

/// Whether a side is refused.
fn has_refused(mark: ChoiceState) -> bool
    ensures { result ≡ (mark.one || mark.two) }
{
    mark.one || mark.two
}

/// Whether each choice has a refused side or its flag is set.
fn are_settled(marks: &[ChoiceState], flags: &[bool]) -> bool
    requires { length flags.now ≡ length marks.now }
    ensures { IsTrue result → AreSettled marks.now flags.now }
{
    for k in 0..marks.len() {
        if !has_refused(marks[k]) && !flags[k] {
            return false;
        }
    }
    true
}

/// The choices of which neither side is refused.
fn open_choices(
    alloc: Global,
    marks: &[ChoiceState],
    choices: Vec<Choice>,
) -> Result<Vec<Choice>, AllocError>
    requires { length marks.now ≡ length choices.items }
    ensures { IfOk result (λ v. v.items ≡ unrefused marks.now choices.items) }
{
    let mut open = Vec::with_capacity(alloc, choices.len())?;
    let mut number = 0;
    for choice in choices {
        let refused = has_refused(marks[number]);
        number += 1;
        if !refused {
            open.push(choice)?;
        }
    }
    Ok(open)
}

impl PruneMachine {
    /// The opening state: the choices and known edges of a polygraph, and nothing refused or handed
    /// out.
    pub fn opening(
        alloc: Global,
        choices: Vec<Choice>,
        known: Known,
    ) -> Result<PruneMachine, AllocError>
        requires few { length choices.items ≤ MAX_CHOICES }
        requires joined { AllByRecursion (JoinsBoth known.nodes) choices.items }
        ensures { IfOk result (λ m. m ≡ opening_state choices.items known) }
    {
        let marks = free_marks(alloc, choices.len())?;
        Ok(PruneMachine {
            choices,
            graph: known,
            marks,
            cursor: 0,
            dead: false,
        })
    }

    /// The known edges, with those of the sides that are kept.
    pub fn graph(&self) -> &Known
        ensures graph { result.now ≡ self.now.graph }
    {
        &self.graph
    }

    /// The machine for a further round, in which nothing is handed out.
    pub fn reopened(self) -> PruneMachine
        ensures { result ≡ reopened_state self }
    {
        let PruneMachine {
            choices,
            graph,
            mut marks,
            cursor: _,
            dead,
        } = self;
        give_back(marks.as_mut_slice());
        PruneMachine {
            choices,
            graph,
            marks,
            cursor: 0,
            dead,
        }
    }

    /// Whether each choice has a refused side or its flag is set.
    pub(crate) fn is_settled(&self, flags: &[bool]) -> bool
        requires { length flags.now ≡ length self.now.choices }
        ensures { IsTrue result → AreSettled self.now.marks flags.now }
    {
        are_settled(&self.marks, flags)
    }

    /// The choices of which neither side is refused, in their order.
    pub(crate) fn into_open(self, alloc: Global) -> Result<Vec<Choice>, AllocError>
        ensures choices { IfOk result (λ v. v.items ≡ unrefused self.marks self.choices) }
        ensures few { IfOk result (λ v. length v.items ≤ MAX_CHOICES) }
        ensures joined { IfOk result (λ v. AllByRecursion (JoinsBoth self.graph.nodes) v.items) }
    {
        let PruneMachine {
            choices,
            graph: _,
            marks,
            cursor: _,
            dead: _,
        } = self;
        let open = open_choices(alloc, &marks, choices)?;
        Ok(open)
    }

    pub(crate) fn is_dead(&self) -> bool
        ensures { result ≡ self.now.dead }
    {
        self.dead
    }

    pub(crate) fn take(&mut self) -> PruneReply
        ensures reply { result ≡ take_reply (free_from 0 self.old.marks) }
        ensures state { self.new ≡ taken self.old (free_from 0 self.old.marks) }
    {
        let Some(choice) = free_choice(&self.marks, self.cursor) else {
            return PruneReply::NoneLeft;
        };
        let mark = self.marks[choice];
        self.marks[choice] = handed_out(mark);
        self.cursor = choice + 1;
        PruneReply::Judge(choice_ix(choice))
    }

    pub(crate) fn post(&mut self, post: &Refutation) -> PruneReply
        ensures reply { result ≡ post_reply self.old post.now }
        ensures state { self.new ≡ posted self.old post.now }
    {
        let reply = self.judged(post);
        if let PruneReply::Entered = reply {
            self.refuse(post.choice.get(), post.side);
        }
        reply
    }

    fn judged(&self, post: &Refutation) -> PruneReply
        ensures reply { result ≡ post_reply self.now post.now }
        ensures within { result ≡ Entered → (post.now.choice < length self.now.choices)
            × (is_refused self.now post.now.choice post.now.side ≡ false) }
    {
        let number = post.choice.get();
        if number >= self.choices.len() {
            return PruneReply::BadWalk;
        }
        if is_refusing(self.marks[number], post.side) {
            return PruneReply::AlreadyIn;
        }
        let choice = &self.choices[number];
        if has_edge(choice.edges(post.side), post.edge)
            && self
                .graph
                .is_line(post.edge.target(), &post.walk, post.edge.source())
        {
            PruneReply::Entered
        } else {
            PruneReply::BadWalk
        }
    }

    fn refuse(&mut self, choice: usize, side: Side)
        requires within { choice < length self.old.choices }
        requires open { is_refused self.old choice side ≡ false }
        ensures { self.new ≡ refused self.old choice side }
    {
        let mark = self.marks[choice];
        let kept = other_side(side);
        let sides = &self.choices[choice];
        add_all(&mut self.graph, sides.edges(kept));
        self.dead = is_refusing(mark, kept);
        self.marks[choice] = with_refused(mark, side);
    }
}

/// The choice with this number.
pub(crate) fn choice_ix(number: usize) -> ChoiceIx
    requires few { number < MAX_CHOICES }
    ensures value { result ≡ number }
{
    ChoiceIx::new(number).unwrap()
}
