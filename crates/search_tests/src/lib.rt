//! Tests of the search, each by its public calls: its machine, views and strategies, the workers, and
//! the check of a tree.
#![tactic(auto)]

#[cfg(test)]
mod branch_search_tests;
#[cfg(test)]
mod branching_tests;
#[cfg(test)]
mod cube_machine_tests;
#[cfg(test)]
mod graphs;
