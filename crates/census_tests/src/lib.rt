//! Tests of `census`: of each log the numbers, counted by hand.
#![tactic(auto)]

#[cfg(test)]
mod counted;
