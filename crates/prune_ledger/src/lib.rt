//! Pruning a polygraph: rounds in which workers refute sides of choices by walks, a machine that
//! keeps the other sides, and the ledger of what was kept and why.
//!
//! Called by `reduction` and `graph_bench`. `ledger_checks` and the crates that tell read its
//! ledgers; `order_cnf`, `branching` and `branch_search` go on from what it leaves. It knows no log,
//! no key and no formula: its polygraph may be any.
#![tactic(auto)]

mod copies;
mod crew;
mod entered;
mod judging;
pub mod laws;
mod ledger;
pub mod machine;
pub mod messages;
mod remains;
mod round;
mod rounds;
mod rowed;
mod rules;

pub use judging::{RefutedSides, judge};
pub use ledger::{Ledger, LedgerEntry};
pub use machine::PruneMachine;
pub use remains::{Pruned, Reduced};
pub use rounds::prune;
