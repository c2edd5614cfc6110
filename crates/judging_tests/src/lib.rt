//! Tests of public calls: orders and parts of small sessions, and how logs are judged.
#![tactic(auto)]

#[cfg(test)]
mod judged_logs;
#[cfg(test)]
mod orders_and_parts;
