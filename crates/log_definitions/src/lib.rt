//! What a log of client sessions means: when it is well-formed, which of the transactions whose
//! outcome the client never learnt count as committed, the nodes and their numbers, replay and
//! serial orders, and the formula of its sessions.
//!
//! Cited wherever a contract speaks of sessions. It knows no bytes but keys, no node's table and no
//! solver.
//!
//! The definitions stand in `specs/`, over the sessions as the log has them. The laws that join
//! them are contracts of functions that do nothing.
#![tactic(auto)]

pub mod laws;
