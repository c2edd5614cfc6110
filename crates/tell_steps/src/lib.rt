//! How the ledger of pruning is told: as forced steps, each of which rests on the log and on
//! earlier steps alone, and only those that some lines need.
//!
//! Called by `tell_decision` and `tell_trees`. It knows no format, no tree and no piece. Nothing is
//! promised of what `needed` and `shorter` choose: what is not right there is not told.
#![tactic(auto)]

mod dead;
mod decided;
mod item;
mod lines;
mod needed;
mod orders;
mod rounds;
mod shorter;
mod shown;
mod steps;
mod whole;

pub use dead::tell_dead;
pub use item::Item;
pub use orders::{choice_orders, turned};
pub use rounds::Round;
pub use whole::tell_rounds;
