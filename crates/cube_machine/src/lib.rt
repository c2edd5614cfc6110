//! The machine of the search for an order that fits a polygraph: the tree of cubes that workers
//! claim, split, refute and solve, in memory that is taken when the search begins.
//!
//! Called by `branch_search`, through a desk, and cited by `tree_checks` and `tell_trees`;
//! `deciding`, `judging`, `cobra_cli` and `cobra_words` hand on its budgets and its names of
//! strategies. It knows no log and no thread, and of a strategy only the name.
//!
//! A cube is a list of decided choices, each with its side. Contracts see the machine as the state
//! of the written step. The tree in memory keeps of each node its parent and the one choice that
//! led to it from there, so a cube is the way up; and it keeps which nodes are open, which one each
//! seat holds and what the last cube of each seat decides, so that a step looks at what the next
//! cube decides otherwise.
#![tactic(auto)]

mod budget;
mod cycles;
mod decided;
mod machine;
mod node;
mod order;
mod origin;
mod row;
mod rules;
mod sides;
mod strategy_name;
mod tree;

pub use budget::{Budget, MAX_BUDGET};
pub use machine::CubeMachine;
pub use origin::Origin;
pub use row::OriginRow;
pub use strategy_name::StrategyName;
