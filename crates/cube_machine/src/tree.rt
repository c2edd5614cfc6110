//! The tree of cubes.

ghost use Rattle.std.specs.Prelude.{◌≡◌, ℕ, ◌+◌, ◌<◌, ◌≤◌, ◌&&◌, ◌||◌, Bool, true, false, not};
ghost use Rattle.std.specs.Prelude.{List, [], ◌∷◌, ◌++◌, length, slice_get, slice_index, Option};
ghost use Rattle.std.specs.Prelude.{Some, None, IfOk, MatchOption, is_some};
ghost use Rattle.std.specs.Option.{option_map_or};
ghost use Rattle.std.specs.List.{list_any};
ghost use Rattle.cube_laws.specs.State.{root};
ghost use Rattle.cube_laws.specs.Steps.{is_open, is_solved, is_held, held_from, last_open_from};
ghost use Rattle.cube_laws.specs.Steps.{has_solved, has_live, with_mark, child};
ghost use Rattle.cube_laws.specs.declared.messages.CubeState.TheVariants.{Open, Held};
ghost use Rattle.cube_laws.specs.declared.messages.CubeState.TheVariants.{Split as Divided};
ghost use Rattle.pruning_laws.specs.declared.side.Side.TheVariants.{One, Two};
ghost use Rattle.cube_machine.specs.Ways.{cube_in, IsWay};
ghost use Rattle.cube_machine.specs.Kept.{IsAscending, is_closed};

use crate::node::TreeNode;
use crate::origin::Origin;
use cube_laws::CubeState;
use desk::seat_no::SeatNo;
use polygraph::ChoiceIx;
use pruning_laws::Side;
use std::alloc::{AllocError, Global};
use std::marker::Model;

/// One slot for each number of a seat, 1 to 16; the first one, number 0, stays empty.
pub const SEAT_SLOTS: usize = 17;

/// The nodes of the tree, by their numbers. Contracts see the nodes with their cubes, and for how
/// many there is room.
#[derive(Drop)]
pub struct Tree {
    nodes: Vec<TreeNode>,
    // The numbers of the open nodes, ascending.
    open_nodes: Vec<usize>,
    // The node that each seat holds.
    held: [Option<usize>; SEAT_SLOTS],
    solved: bool,
}

impl Model for Tree {
    ghost use Rattle.cube_machine.specs.Growth.{Growth};

    ghost Value = { Growth };

    ghost use Rattle.std.specs.Prelude.{◌≤◌, vec_capacity};
    ghost use Rattle.cube_machine.specs.Ways.{nodes_of};
    ghost use Rattle.cube_machine.specs.Kept.{IsTree};

    ghost view = { λ t. record { nodes = nodes_of t.nodes.items; room = vec_capacity t.nodes } };

    ghost invariant = { λ t. IsTree t.nodes.items t.open_nodes.items t.held t.solved
        × (vec_capacity t.nodes ≤ vec_capacity t.open_nodes) };
}

/// The place in an ascending list that a number has, or would have.
fn place_of(numbers: &[usize], number: usize) -> usize
    requires ascending { IsAscending numbers.now }
    ensures within { result ≤ length numbers.now }
    ensures below { (k : ℕ) → k < result → slice_index numbers.now k < number }
    ensures above { (k : ℕ) → result ≤ k → k < length numbers.now
        → number ≤ slice_index numbers.now k }
{
    let mut place = numbers.len();
    while place > 0 && numbers[place - 1] >= number {
        place -= 1;
    }
    place
}

impl Tree {
    /// Node 0 alone, open, with no choice decided, and room for as many nodes as are named.
    pub fn root(alloc: Global, room: usize) -> Result<Tree, AllocError>
        requires room { 0 < room }
        ensures nodes { IfOk result (λ t. t.nodes ≡ root ∷ []) }
        ensures room { IfOk result (λ t. t.room ≡ room) }
    {
        let mut nodes = Vec::with_capacity(alloc, room)?;
        let mut open_nodes = Vec::with_capacity(alloc, room)?;
        nodes.push_reserved(TreeNode {
            origin: None,
            mark: CubeState::Open,
        });
        open_nodes.push_reserved(0);
        Ok(Tree {
            nodes,
            open_nodes,
            held: [None; SEAT_SLOTS],
            solved: false,
        })
    }

    /// The number of nodes.
    pub fn len(&self) -> usize
        ensures count { result ≡ length self.now.nodes }
    {
        self.nodes.len()
    }

    /// How a node was led to.
    pub fn origin(&self, id: usize) -> Option<Origin>
        requires within { id < length self.now.nodes }
        ensures way { IsWay self.now.nodes id result }
        ensures root { cube_in self.now.nodes 0 ≡ [] }
    {
        self.nodes[id].origin
    }

    /// Whether there is such an open node.
    pub fn is_open(&self, id: usize) -> bool
        ensures test { result ≡ option_map_or (λ x. is_open x.mark)
            (slice_get self.now.nodes id) false }
    {
        match self.nodes.get(id) {
            Some(node) => is_open(node.mark),
            None => false,
        }
    }

    /// Whether a node is solved.
    pub fn has_solved(&self) -> bool
        ensures solved { result ≡ has_solved self.now.nodes }
    {
        self.solved
    }

    /// Whether a node is held.
    pub fn has_held(&self) -> bool
        ensures held { result ≡ list_any (λ x. is_held x.mark) self.now.nodes }
    {
        has_some(&self.held)
    }

    /// Whether a node is open or held.
    pub fn has_live(&self) -> bool
        ensures live { result ≡ has_live self.now.nodes }
    {
        !self.open_nodes.is_empty() || has_some(&self.held)
    }

    /// The node that a seat holds.
    pub fn held(&self, seat: SeatNo) -> Option<usize>
        ensures held { result ≡ held_from seat 0 self.now.nodes }
    {
        self.held[usize::from(seat.get())]
    }

    /// The open node of greatest number.
    pub fn last_open(&self) -> Option<usize>
        ensures last { result ≡ last_open_from 0 self.now.nodes }
    {
        self.open_nodes.last().copied()
    }

    /// Gives an open node to a seat that holds none.
    pub fn hold(&mut self, seat: SeatNo, id: usize)
        requires ready { option_map_or (λ x. is_open x.mark)
            (slice_get self.old.nodes id) false ≡ true }
        requires free { held_from seat 0 self.old.nodes ≡ None }
        ensures nodes { self.new.nodes ≡ with_mark self.old.nodes id (Held seat) }
        ensures room { self.new.room ≡ self.old.room }
    {
        let slot = usize::from(seat.get());
        self.nodes[id].mark = CubeState::Held(seat);
        let place = place_of(&self.open_nodes, id);
        self.open_nodes.remove(place);
        self.held[slot] = Some(id);
    }

    /// Opens the node that a seat holds.
    pub fn reopen(&mut self, seat: SeatNo, id: usize)
        requires held { held_from seat 0 self.old.nodes ≡ Some id }
        ensures nodes { self.new.nodes ≡ with_mark self.old.nodes id Open }
        ensures room { self.new.room ≡ self.old.room }
    {
        let slot = usize::from(seat.get());
        self.nodes[id].mark = CubeState::Open;
        let place = place_of(&self.open_nodes, id);
        self.open_nodes.insert(place, id).unwrap();
        self.held[slot] = None;
    }

    /// Closes the node that a seat holds.
    pub fn close(&mut self, seat: SeatNo, id: usize, mark: CubeState)
        requires held { held_from seat 0 self.old.nodes ≡ Some id }
        requires closed { is_closed mark ≡ true }
        ensures nodes { self.new.nodes ≡ with_mark self.old.nodes id mark }
        ensures room { self.new.room ≡ self.old.room }
    {
        let slot = usize::from(seat.get());
        let solved = is_solved(&mark);
        self.nodes[id].mark = mark;
        self.held[slot] = None;
        self.solved |= solved;
    }

    /// Splits the node that a seat holds, and adds its two children, both open.
    pub fn split(&mut self, seat: SeatNo, id: usize, choice: ChoiceIx)
        requires held { held_from seat 0 self.old.nodes ≡ Some id }
        requires room { length self.old.nodes + 2 ≤ self.old.room }
        ensures nodes { self.new.nodes ≡ with_mark self.old.nodes id (Divided choice)
            ++ child id (cube_in self.old.nodes id) choice One
            ∷ child id (cube_in self.old.nodes id) choice Two ∷ [] }
        ensures room { self.new.room ≡ self.old.room }
    {
        self.close(seat, id, CubeState::Split(choice));
        self.grow(id, choice, Side::One);
        self.grow(id, choice, Side::Two);
    }

    /// Adds an open child of a node.
    fn grow(&mut self, parent: usize, choice: ChoiceIx, side: Side)
        requires within { parent < length self.old.nodes }
        requires room { length self.old.nodes < self.old.room }
        ensures nodes { self.new.nodes ≡ self.old.nodes ++ child parent
            (cube_in self.old.nodes parent) choice side ∷ [] }
        ensures room { self.new.room ≡ self.old.room }
    {
        let number = self.nodes.len();
        self.nodes.push_reserved(TreeNode {
            origin: Some(Origin {
                parent,
                choice,
                side,
            }),
            mark: CubeState::Open,
        });
        self.open_nodes.push_reserved(number);
    }
}

fn is_open(mark: CubeState) -> bool
    ensures { result ≡ is_open mark }
{
    match mark {
        CubeState::Open => true,
        CubeState::Held(_) | CubeState::Split(_) | CubeState::Refuted | CubeState::Solved => false,
    }
}

fn is_solved(mark: &CubeState) -> bool
    ensures { result ≡ is_solved mark.now }
{
    match mark {
        CubeState::Solved => true,
        CubeState::Open | CubeState::Held(_) | CubeState::Split(_) | CubeState::Refuted => false,
    }
}

/// Whether a seat holds a node.
fn has_some(held: &[Option<usize>]) -> bool
    ensures { result ≡ list_any is_some held.now }
{
    held.iter().any(|node| node.is_some())
}
