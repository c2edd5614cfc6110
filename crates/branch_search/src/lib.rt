//! A search for a serial order: workers split, refute and solve the cubes of a polygraph.
//!
//! Called by `deciding`. It knows no key, no text and no command; the trees that it hands out are
//! those of `cube_laws`.
//!
//! The workers sit at a desk whose machine keeps the tree of cubes. A worker takes a cube, refutes
//! it where its edges have a cycle, solves it where no choice is left, and else splits it by the
//! strategy. When all have left, the answer is read from the machine and its history.
#![tactic(auto)]

mod answer;
mod crew;
mod growing;
mod reading;
mod retrace;
mod searching;
mod worker;

pub use answer::Answer;
pub use branching::{
    Alternate, ByWords, CubeView, FirstOpen, Forced, LeastEdges, MostEdges, Strategy,
};
pub use cube_laws::{CubeEvent, CubeReply};
pub use cube_machine::{Budget, CubeMachine};
pub use searching::{Effort, search};
pub use session_history::NodeLine;
