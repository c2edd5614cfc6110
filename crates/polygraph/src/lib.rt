//! Polygraphs: known edges between the nodes of a history, and choices of which an order keeps one
//! side; the bipaths of a history; and the orders that fit a polygraph.
//!
//! Called by the crates that prune, search, audit, tell and write formulas, from `coalesce` to
//! `order_cnf`. It knows no chain, no formula and no thread.
#![tactic(auto)]

mod bipath;
mod choice;
mod compact;
mod edges;
mod fault;
mod fits;
mod index;
pub mod places;
mod polygraph;

pub use bipath::{bipath_graph, bipaths};
pub use choice::Choice;
pub use compact::{Bipath, BipathGraph};
pub use edges::Edges;
pub use fault::PolyFault;
pub use fits::{keeps_known, order_fits};
pub use index::{ChoiceIx, MAX_CHOICES};
pub use polygraph::Polygraph;
pub use pruning_laws::Side;
pub use reach_laws::Edge;
