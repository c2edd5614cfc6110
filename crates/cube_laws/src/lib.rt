//! Searching the open choices of a polygraph: cubes, trees that refute every cube, the events that
//! workers send and what they are answered, and the laws of every list of steps.
//!
//! Cited by `cube_machine`, `branching` and `branch_search`, which share its messages; its trees go
//! from `branch_search` by `tree_checks` and `deciding` to the crates that tell. It knows no log, no
//! clock and no thread.
//!
//! A cube is a list of decided choices, each with its side. A search splits cubes by choices that
//! they leave open, refutes a cube by a cycle, or solves it by an order that keeps its edges. The
//! definitions stand in `specs/`; the laws are the contracts of functions that do nothing.
#![tactic(auto)]

pub mod laws;
mod messages;
mod tree;

pub use messages::{CubeEvent, CubeReply, CubeState};
pub use tree::{CubeDecision, Growth, Tree, TreeNode};
