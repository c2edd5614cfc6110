//! Tests of the crates of graphs, each by its public calls: known edges, choices, chains that stand
//! for their writers, and what reaches what; of those that prune, and of those that write a formula
//! and read an answer.
#![tactic(auto)]

#[cfg(test)]
mod coalesce_tests;
#[cfg(test)]
mod decode_order_tests;
#[cfg(test)]
mod dimacs_tests;
#[cfg(test)]
mod known_graph_tests;
#[cfg(test)]
mod logs;
#[cfg(test)]
mod node;
#[cfg(test)]
mod prune_ledger_tests;
#[cfg(test)]
mod reach_rows_tests;
#[cfg(test)]
mod reduction_tests;
