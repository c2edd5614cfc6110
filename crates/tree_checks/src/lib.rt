//! Trees of a search, checked: whether a tree shows that no order fits a polygraph.
//!
//! Called by `deciding`, before it says that there is no order. It knows no thread, and nothing of
//! how the tree came to be.
#![tactic(auto)]

mod checking;

pub use checking::check_tree;
