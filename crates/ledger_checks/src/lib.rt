//! Ledgers of pruning, checked: whether each entry is shown by those before it.
//!
//! Called by no command: by `graph_tests` and `graph_bench`, and by whoever wants to check a ledger.
//! It knows no thread, and nothing of how the ledger came to be.
#![tactic(auto)]

mod checking;
mod kept;

pub use checking::check_ledger;
