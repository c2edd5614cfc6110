//! Tests of public calls of `order_proposals`: what is proposed of small sessions.
#![tactic(auto)]

#[cfg(test)]
mod order_proposals_tests;
