//! What workers send to the machine, what it answers, and what it notes of a node of the tree.

use desk::seat_no::SeatNo;
use polygraph::ChoiceIx;
use session_history::NodeLine;

/// What is noted of a node of the tree.
#[derive(Clone, Copy, Debug, PartialEq, Eq)]
pub enum CubeState {
    /// Its cube waits for a worker.
    Open,
    /// A seat works on its cube.
    Held(SeatNo),
    /// Its cube was split by this choice.
    Split(ChoiceIx),
    /// Its cube's edges have a cycle.
    Refuted,
    /// An order keeps its cube's edges, and no choice is left.
    Solved,
}

/// What a worker sends.
#[derive(Drop)]
pub enum CubeEvent {
    /// Asks for the cube of this node.
    Claim(usize),
    /// Asks for the open cube of greatest number.
    TakeAny,
    /// Splits the cube that the seat holds by this choice.
    Split(ChoiceIx),
    /// Refutes the cube that the seat holds by a cycle, its first node repeated last.
    Refute(NodeLine),
    /// Solves the cube that the seat holds by an order.
    Solve(NodeLine),
    /// Gives back the cube that the seat holds, if any.
    Release,
}

/// What the machine answers. Nodes of the tree go by their numbers.
#[derive(Clone, Copy, Debug, PartialEq, Eq)]
pub enum CubeReply {
    /// A node is solved, the budget is spent, or no node is open or held.
    Finished,
    /// The seat holds a node already.
    HasCube,
    /// There is no such open node.
    NotOpen,
    /// No node is open.
    NoneNow,
    /// The seat holds this node from now on.
    Cube(usize),
    /// The seat holds no node.
    NoCube,
    /// There is no such choice, or it is decided in the cube.
    BadChoice,
    /// The node is split; these are its children by side one and by side two, both open.
    Children(usize, usize),
    /// The nodes are not those of a cycle in the cube's edges.
    BadCycle,
    /// The node is refuted.
    Closed,
    /// A choice is undecided in the cube, or the order does not keep the cube's edges.
    BadOrder,
    /// The node is solved.
    Solved,
    /// The answer to `Release`.
    Released,
}
