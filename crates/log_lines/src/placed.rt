//! A history, and where its transactions stand in a log.

ghost use Rattle.std.specs.Prelude.{◌≡◌, ◌++◌, map, length, OnOk, IfOk};
ghost use Rattle.session_log.specs.Text.{view, view_txn};
ghost use Rattle.log_definitions.specs.Unknown.{taken};
ghost use Rattle.log_lines.specs.Rows.{Fits, view_place, rows_of};
ghost use Rattle.log_lines.specs.NodeRows.{node_row, node_rows, node_table};

use crate::places::{LogPlaces, TxnPlace};
use session_history::{History, is_node};
use session_log::{Session, Txn};
use std::alloc::{AllocError, Global};

/// A history, and where its transactions stand in a log: in its own, or in one of which it is a
/// part.
#[derive(Drop)]
pub struct PlacedHistory<'a> {
    pub history: &'a History,
    pub places: &'a LogPlaces,
    /// Element `v - 1` is where node `v` stands.
    pub nodes: Vec<&'a TxnPlace>,
    pub ghost fits: { Fits history.now (rows_of places.now) },
    pub ghost rows: { map (λ p. view_place p.now) nodes.items
        ≡ node_table (taken history.now) history.now (rows_of places.now) },
}

/// Appends where a transaction stands, where it is a node.
fn add_node<'a>(
    nodes: &mut Vec<&'a TxnPlace>,
    txn: &Txn,
    is_taken: bool,
    place: &'a TxnPlace,
) -> Result<(), AllocError>
    ensures { OnOk result (map (λ p. view_place p.now) nodes.new.items
        ≡ map (λ p. view_place p.now) nodes.old.items
        ++ node_row is_taken (view_txn txn.now) (view_place place.now)) }
{
    if is_node(txn, is_taken) {
        nodes.push(place)?;
    }
    Ok(())
}

/// Appends where the nodes of a session stand.
fn add_nodes<'a>(
    nodes: &mut Vec<&'a TxnPlace>,
    txns: &[Txn],
    is_taken: bool,
    places: &'a [TxnPlace],
) -> Result<(), AllocError>
    requires fits { length places.now ≡ length txns.now }
    ensures { OnOk result (map (λ p. view_place p.now) nodes.new.items
        ≡ map (λ p. view_place p.now) nodes.old.items
        ++ node_rows is_taken (map view_txn txns.now) (map view_place places.now)) }
{
    for (at, txn) in txns.iter().enumerate() {
        add_node(nodes, txn, is_taken, &places[at])?;
    }
    Ok(())
}

impl<'a> PlacedHistory<'a> {
    /// A history, and where its transactions stand.
    pub fn of(
        alloc: Global,
        history: &'a History,
        places: &'a LogPlaces,
    ) -> Result<PlacedHistory<'a>, AllocError>
        requires fits { Fits history.now (rows_of places.now) }
        ensures history { IfOk result (λ log. log.history.now ≡ history.now) }
        ensures places { IfOk result (λ log. rows_of log.places.now
            ≡ rows_of places.now) }
    {
        let mut nodes = Vec::with_capacity(alloc, history.committed())?;
        let sessions = history.sessions();
        for (at, session) in sessions.iter().enumerate() {
            let is_taken = history.taken(usize::from(session.number));
            add_nodes(&mut nodes, &session.txns, is_taken, &places.sessions[at])?;
        }
        Ok(PlacedHistory {
            history,
            places,
            nodes,
        })
    }
}
