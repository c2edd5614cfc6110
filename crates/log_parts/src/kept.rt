//! Transactions without some of their reads.

ghost use Rattle.std.specs.Prelude.{◌≡◌, map, IfOk};
ghost use Rattle.std.specs.List.{filter};
ghost use Rattle.session_log.specs.Text.{view_txn};
ghost use Rattle.part_laws.specs.Chosen.{flagged, stays, thin_txn};
ghost use Rattle.log_parts.specs.Picked.{flag_of, known_in};

use crate::copies::copy_op;
use crate::sources::is_flagged;
use session_log::{Op, Txn};
use std::alloc::{AllocError, Global};
use std::collections::BTreeSet;

/// Whether the operation stays: a write does, and a read of 0 or of one of these identities.
fn stays(wids: &BTreeSet<u64>, op: &Op) -> bool
    ensures { result ≡ stays (known_in wids.now) op.now }
{
    match op {
        Op::Read { wid, .. } => *wid == 0 || wids.contains(wid),
        Op::Write { .. } => true,
    }
}

fn kept_ops(alloc: Global, ops: &[Op], wids: &BTreeSet<u64>) -> Result<Vec<Op>, AllocError>
    ensures { IfOk result (λ new. new.items ≡ filter (stays (known_in wids.now)) ops.now) }
{
    let mut new = Vec::new(alloc);
    for op in ops {
        if stays(wids, op) {
            new.push(copy_op(alloc, op)?)?;
        }
    }
    Ok(new)
}

fn kept_txn(alloc: Global, txn: &Txn, wids: &BTreeSet<u64>) -> Result<Txn, AllocError>
    ensures { IfOk result (λ new. view_txn new ≡ thin_txn (known_in wids.now) (view_txn txn.now)) }
{
    let ops = kept_ops(alloc, &txn.ops, wids)?;
    Ok(Txn {
        ops,
        outcome: txn.outcome,
        begun: txn.begun,
        ended: txn.ended,
    })
}

/// The flagged transactions of a session.
pub fn kept_txns(
    alloc: Global,
    txns: &[Txn],
    flags: &[bool],
    wids: &BTreeSet<u64>,
) -> Result<Vec<Txn>, AllocError>
    ensures { IfOk result (λ new. map view_txn new.items ≡ map (thin_txn (known_in wids.now))
        (flagged (flag_of flags.now) 1 (map view_txn txns.now))) }
{
    let mut new = Vec::new(alloc);
    for (place, txn) in txns.iter().enumerate() {
        if is_flagged(flags, place) {
            new.push(kept_txn(alloc, txn, wids)?)?;
        }
    }
    Ok(new)
}
