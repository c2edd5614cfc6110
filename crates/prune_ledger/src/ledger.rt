//! Ledgers of refuted sides.

use crate::messages::Refutation;
use desk::seat_no::SeatNo;
use serializability::NodeIx;

/// A post that was entered, and the seat that sent it.
#[derive(Drop)]
pub struct LedgerEntry {
    pub seat: SeatNo,
    pub post: Refutation,
}

/// The posts that were entered, the oldest first, and, where the polygraph is dead, a cycle in its
/// known edges and the sides that they keep, with its first node repeated last.
#[derive(Drop)]
pub struct Ledger {
    pub entries: Vec<LedgerEntry>,
    pub cycle: Option<Vec<NodeIx>>,
}
