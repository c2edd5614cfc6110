//! Branching on the open choices of a polygraph: what a strategy sees of a cube, the strategies,
//! and what a worker does with the cube that it holds.
//!
//! Called by `branch_search`. It knows no desk's history, no log and no budget.
#![tactic(auto)]

mod alternate;
mod bits;
mod by_size;
mod by_words;
mod counts;
mod first_open;
mod forced;
mod kept_marks;
pub mod laws;
mod marks;
mod order;
mod sides;
mod strategy;
pub mod turns;
mod view;

pub use alternate::Alternate;
pub use by_size::{LeastEdges, MostEdges};
pub use by_words::ByWords;
pub use first_open::FirstOpen;
pub use forced::Forced;
pub use strategy::Strategy;
pub use view::{CubeView, SavedView};
