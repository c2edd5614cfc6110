//! The machine of the search.

ghost use Rattle.std.specs.Prelude.{◌≡◌, ℕ, ◌+◌, ◌<◌, ◌≤◌, ◌^◌, true, false, ◌∷◌, [], length};
ghost use Rattle.std.specs.Prelude.{IfOk};
ghost use Rattle.cube_laws.specs.State.{opening_state, root};
ghost use Rattle.cube_laws.specs.Steps.{is_finished, is_exhausted, node_held};
ghost use Rattle.cube_laws.specs.Steps.{last_open, claim_reply, any_reply, split_reply};
ghost use Rattle.cube_laws.specs.Steps.{refute_reply, solve_reply, claimed, taken, held_where};
ghost use Rattle.cube_laws.specs.Steps.{split_where, refuted_where, solved_where, opened_at};
ghost use Rattle.cube_laws.specs.Steps.{can_split, cube_at, is_cycle, decides_all, is_solution};
ghost use Rattle.cube_laws.specs.Steps.{waits_of};
ghost use Rattle.cube_laws.specs.Cubes.{edges_under};
ghost use Rattle.cube_laws.specs.declared.messages.CubeEvent.TheVariants.{TakeAny};
ghost use Rattle.cube_laws.specs.declared.messages.CubeReply.TheVariants.{Released};
ghost use Rattle.cube_machine.specs.Growth.{most_nodes};
ghost use Rattle.cube_machine.specs.Noted.{AreNoted};

use crate::budget::Budget;
use crate::cycles::is_cycle;
use crate::decided::Decided;
use crate::order::fits_graph;
use crate::origin::Origin;
use crate::row::OriginRow;
use crate::sides::fill;
use crate::tree::{SEAT_SLOTS, Tree};
use cube_laws::{CubeReply, CubeState};
use desk::seat_no::SeatNo;
use known_graph::Known;
use polygraph::{ChoiceIx, Polygraph};
use pruning_laws::Side;
use serializability::NodeIx;
use side_edges::{SideEdge, side_edges};
use std::alloc::{AllocError, Global};
use std::marker::Model;

/// The machine of the search. Contracts see the polygraph, the nodes of the tree with their cubes,
/// how many of them are closed, and the budget.
#[derive(Drop)]
pub struct CubeMachine<'a> {
    polygraph: &'a Polygraph,
    row: &'a OriginRow,
    tree: Tree,
    closed: usize,
    budget: Budget,
    // The edges of the cube that is solved.
    graph: Known,
    // The edges of all sides, by their targets.
    sides: Vec<Vec<SideEdge>>,
    // Of each seat what its cube decides.
    decided: Vec<Decided>,
}

impl<'a> Model for CubeMachine<'a> {
    ghost use Rattle.cube_laws.specs.State.{State};
    ghost use Rattle.cube_machine.specs.Machines.{IsMachine};

    ghost Value = { State };

    ghost view = { λ m. record {
      polygraph = m.polygraph.now;
      nodes = m.tree.nodes;
      closed
          = m.closed;
      budget = m.budget;
    } };

    ghost invariant = { λ m. IsMachine m.polygraph.now m.tree m.closed m.budget m.graph
        m.sides.items m.decided.items };
}

impl<'a> CubeMachine<'a> {
    /// The opening state: node 0 alone, open, with no choice decided. All memory is taken here.
    ///
    /// In the row each node that the budget allows has a word.
    pub fn opening(
        alloc: Global,
        polygraph: &'a Polygraph,
        budget: Budget,
        row: &'a OriginRow,
    ) -> Result<CubeMachine<'a>, AllocError>
        requires row { most_nodes budget ≤ row.now }
        ensures opening { IfOk result (λ m. m ≡ opening_state polygraph.now budget) }
    {
        let tree = Tree::root(alloc, 2 * budget.get() + 1)?;
        let graph = polygraph.known().copy(alloc)?;
        let sides = side_edges(alloc, polygraph)?;
        let decided = decided_of_seats(alloc, polygraph.choices().len())?;
        Ok(CubeMachine {
            polygraph,
            row,
            tree,
            closed: 0,
            budget,
            graph,
            sides,
            decided,
        })
    }

    /// Whether no node is solved, open or held, so that every cube is split or refuted.
    pub fn is_exhausted(&self) -> bool
        ensures exhausted { result ≡ is_exhausted self.now }
    {
        !self.tree.has_solved() && !self.tree.has_live()
    }

    /// How many nodes are closed.
    pub fn closed(&self) -> usize
        ensures closed { result ≡ self.now.closed }
    {
        self.closed
    }

    /// Whether the search is finished: a node is solved, the budget is spent, or no node is open or
    /// held.
    pub fn is_finished(&self) -> bool
        ensures finished { result ≡ is_finished self.now }
    {
        self.tree.has_solved() || self.closed == self.budget.get() || !self.tree.has_live()
    }

    /// The cube of this node, from now on held.
    pub(crate) fn claim(&mut self, seat: SeatNo, id: usize) -> CubeReply
        ensures reply { result ≡ claim_reply self.old id (node_held self.old seat) }
        ensures state { self.new ≡ held_where self.old seat
            (claimed self.old id (node_held self.old seat)) }
    {
        if self.tree.held(seat).is_some() {
            return CubeReply::HasCube;
        }
        if !self.tree.is_open(id) {
            return CubeReply::NotOpen;
        }
        self.tree.hold(seat, id);
        CubeReply::Cube(id)
    }

    /// The open cube of greatest number, from now on held.
    pub(crate) fn take_any(&mut self, seat: SeatNo) -> CubeReply
        ensures reply { result ≡ any_reply (node_held self.old seat) (last_open self.old) }
        ensures state { self.new ≡ held_where self.old seat
            (taken (node_held self.old seat) (last_open self.old)) }
    {
        if self.tree.held(seat).is_some() {
            return CubeReply::HasCube;
        }
        let Some(id) = self.tree.last_open() else {
            return CubeReply::NoneNow;
        };
        self.tree.hold(seat, id);
        CubeReply::Cube(id)
    }

    /// Splits the cube that the seat holds.
    pub(crate) fn split(&mut self, seat: SeatNo, choice: ChoiceIx) -> CubeReply
        requires going { is_finished self.old ≡ false }
        ensures reply { result ≡ split_reply self.old choice (node_held self.old seat) }
        ensures state { self.new ≡ split_where self.old choice (node_held self.old seat) }
    {
        let Some(id) = self.tree.held(seat) else {
            return CubeReply::NoCube;
        };
        if !self.can_split(seat, id, choice) {
            return CubeReply::BadChoice;
        }
        let first = self.tree.len();
        self.tree.split(seat, id, choice);
        self.closed += 1;
        note_children(self.row, id, choice, first);
        CubeReply::Children(first, first + 1)
    }

    /// Whether there is such a choice, and the cube of a node that the seat holds leaves it open.
    fn can_split(&mut self, seat: SeatNo, id: usize, choice: ChoiceIx) -> bool
        requires within { id < length self.old.nodes }
        ensures split { result ≡ can_split self.old (cube_at self.old id) choice }
        ensures same { self.new ≡ self.old }
    {
        let number = choice.get();
        if number >= self.polygraph.choices().len() {
            return false;
        }
        let decided = &mut self.decided[usize::from(seat.get())];
        decided.go_to(&self.tree, id);
        !decided.decides(number)
    }

    /// Refutes the cube that the seat holds.
    pub(crate) fn refute(&mut self, seat: SeatNo, line: &[NodeIx]) -> CubeReply
        requires going { is_finished self.old ≡ false }
        ensures reply { result ≡ refute_reply self.old line.now (node_held self.old seat) }
        ensures state { self.new ≡ refuted_where self.old line.now (node_held self.old seat) }
    {
        let Some(id) = self.tree.held(seat) else {
            return CubeReply::NoCube;
        };
        if !self.is_cycle_at(seat, id, line) {
            return CubeReply::BadCycle;
        }
        self.tree.close(seat, id, CubeState::Refuted);
        self.closed += 1;
        CubeReply::Closed
    }

    /// Whether these are the nodes of a cycle in the edges of the cube of a node that the seat
    /// holds.
    fn is_cycle_at(&mut self, seat: SeatNo, id: usize, line: &[NodeIx]) -> bool
        requires within { id < length self.old.nodes }
        ensures cycle { result ≡ is_cycle (edges_under self.old.polygraph (cube_at self.old id))
            line.now }
        ensures same { self.new ≡ self.old }
    {
        let decided = &mut self.decided[usize::from(seat.get())];
        decided.go_to(&self.tree, id);
        is_cycle(self.polygraph.known(), &self.sides, &decided.flags, line)
    }

    /// Solves the cube that the seat holds.
    pub(crate) fn solve(&mut self, seat: SeatNo, order: &[NodeIx]) -> CubeReply
        requires going { is_finished self.old ≡ false }
        ensures reply { result ≡ solve_reply self.old order.now (node_held self.old seat) }
        ensures state { self.new ≡ solved_where self.old order.now (node_held self.old seat) }
    {
        let Some(id) = self.tree.held(seat) else {
            return CubeReply::NoCube;
        };
        if !self.is_solution_at(seat, id, order) {
            return CubeReply::BadOrder;
        }
        self.tree.close(seat, id, CubeState::Solved);
        self.closed += 1;
        CubeReply::Solved
    }

    /// Whether the cube of a node that the seat holds leaves no choice open, and the order lists
    /// the nodes once and keeps its edges.
    fn is_solution_at(&mut self, seat: SeatNo, id: usize, order: &[NodeIx]) -> bool
        requires within { id < length self.old.nodes }
        ensures solution { result ≡ is_solution self.old.polygraph (cube_at self.old id) order.now }
        ensures same { self.new ≡ self.old }
    {
        if !self.decides_all(seat, id) {
            return false;
        }
        fill(&mut self.graph, self.polygraph, &self.tree, id);
        fits_graph(&self.graph, order)
    }

    /// Whether the cube of a node that the seat holds leaves no choice open.
    fn decides_all(&mut self, seat: SeatNo, id: usize) -> bool
        requires within { id < length self.old.nodes }
        ensures all { result ≡ decides_all self.old.polygraph (cube_at self.old id) }
        ensures same { self.new ≡ self.old }
    {
        let decided = &mut self.decided[usize::from(seat.get())];
        decided.go_to(&self.tree, id);
        decided.all()
    }

    /// Opens the node that the seat holds, if any.
    pub(crate) fn release(&mut self, seat: SeatNo) -> CubeReply
        ensures reply { result ≡ Released }
        ensures state { self.new ≡ opened_at self.old (node_held self.old seat) }
    {
        if let Some(id) = self.tree.held(seat) {
            self.tree.reopen(seat, id);
        }
        CubeReply::Released
    }

    /// Whether a request for any cube waits.
    #[tactic(auto, unfolding(cube_laws::specs::Steps::waits_of))]
    pub(crate) fn waits_for_any(&self, seat: SeatNo) -> bool
        ensures { result ≡ waits_of self.now seat TakeAny }
    {
        if self.is_finished() {
            return false;
        }
        if self.tree.held(seat).is_some() {
            return false;
        }
        if self.tree.last_open().is_some() {
            return false;
        }
        self.tree.has_held()
    }
}

/// Of each number of a seat that node 0 decides none of so many choices.
fn decided_of_seats(alloc: Global, count: usize) -> Result<Vec<Decided>, AllocError>
    ensures seats { IfOk result (λ table. length table.items ≡ 17) }
    ensures noted { IfOk result (λ table. AreNoted (root ∷ []) count table.items) }
{
    let mut table = Vec::with_capacity(alloc, SEAT_SLOTS)?;
    for _ in 0..SEAT_SLOTS {
        table.push(Decided::none(alloc, count)?)?;
    }
    Ok(table)
}

/// Notes how both children of a node were led to.
fn note_children(row: &OriginRow, parent: usize, choice: ChoiceIx, first: usize)
    requires few { first + 1 < 2 ^ 64 }
{
    row.note(
        first,
        Origin {
            parent,
            choice,
            side: Side::One,
        },
    );
    row.note(
        first + 1,
        Origin {
            parent,
            choice,
            side: Side::Two,
        },
    );
}
