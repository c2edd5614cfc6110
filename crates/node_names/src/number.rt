//! The names of nodes, by session and then by place.

ghost use Rattle.std.specs.Prelude.{◌≡◌, ◌++◌, ℕ, map, IfOk, OnOk};
ghost use Rattle.session_log.specs.Text.{view, view_txn};
ghost use Rattle.log_definitions.specs.Serial.{committed_in};
ghost use Rattle.log_laws.specs.Logs.{IsLearntLog};
ghost use Rattle.node_names.specs.Names.{nodes_from, names_of, nodes_of};

use session_log::{Session, Txn};
use std::alloc::{AllocError, Global};

/// Adds a pair for each node: this number and its place.
fn add_places(places: &mut Vec<(u16, usize)>, of: u16, txns: &[Txn]) -> Result<(), AllocError>
    ensures { OnOk result ((number : ℕ) → places.new.items ≡ places.old.items
        ++ map (λ node. (of, node.place)) (nodes_from number 0 (map view_txn txns.now))) }
{
    for (i, txn) in txns.iter().enumerate() {
        if txn.is_committed() {
            places.push((of, i + 1))?;
        }
    }
    Ok(())
}

/// The name of each committed transaction, by its number less 1: its session's number and its place
/// in the session from 1, where aborted transactions count. Outcomes are known.
pub fn names_of(alloc: Global, sessions: &[Session]) -> Result<Vec<(u16, usize)>, AllocError>
    ensures nodes { IfOk result (λ names.
        names.items ≡ names_of (nodes_of (map view sessions.now))) }
    ensures learnt { IfOk result (λ names. IsLearntLog (map view sessions.now) →
        names.items ≡ names_of (committed_in (map view sessions.now))) }
{
    let mut names = Vec::new(alloc);
    for session in sessions {
        add_places(&mut names, session.number, &session.txns)?;
    }
    Ok(names)
}
