//! Where a transaction of a part, and its operations, stand in the whole log.

ghost use Rattle.std.specs.Prelude.{◌≡◌, ℕ, Bool, ◌+◌, ◌<◌, ◌^◌, length, drop, IfOk};
ghost use Rattle.std.specs.List.{filter};
ghost use Rattle.session_log.specs.Text.{view_txn, txn_lines};
ghost use Rattle.part_laws.specs.Chosen.{stays, thin_txn};
ghost use Rattle.log_lines.specs.Rows.{view_place};
ghost use Rattle.part_places.specs.PartRows.{is_kept, staying, part_row};

use log_lines::TxnPlace;
use session_log::{Op, Txn};
use std::alloc::{AllocError, Global};

/// Whether the next operation that stays is this one: a write stays, and a read does where the next
/// one reads the same.
fn is_next(op: &Op, kept: &[Op], next: usize) -> bool
    ensures { result ≡ is_kept op.now (drop next kept.now) }
{
    match op {
        Op::Write { .. } => true,
        Op::Read { wid, .. } => {
            next < kept.len()
                && match &kept[next] {
                    Op::Read { wid: other, .. } => wid == other,
                    Op::Write { .. } => false,
                }
        }
    }
}

/// The lines of the operations that stay of these, of which the first stands in line `first`.
fn lines_of(alloc: Global, ops: &[Op], kept: &[Op], first: usize) -> Result<Vec<usize>, AllocError>
    requires room { first + length ops.now < 2 ^ 64 }
    ensures lines { IfOk result (λ lines. (known : ℕ → Bool)
        → kept.now ≡ filter (stays known) ops.now → lines.items ≡ staying known first ops.now) }
{
    let mut lines = Vec::with_capacity(alloc, kept.len())?;
    for (at, op) in ops.iter().enumerate() {
        if is_next(op, kept, lines.len()) {
            lines.push(first + at)?;
        }
    }
    Ok(lines)
}

/// Where a transaction stands that is at this place in its session and begins at this line, and of
/// which this is left.
pub fn txn_place(
    alloc: Global,
    txn: &Txn,
    left: &Txn,
    place: usize,
    begin: usize,
) -> Result<TxnPlace, AllocError>
    requires room { begin + length (txn_lines (view_txn txn.now)) < 2 ^ 64 }
    ensures row { IfOk result (λ row. (known : ℕ → Bool)
        → view_txn left.now ≡ thin_txn known (view_txn txn.now)
        → view_place row ≡ part_row known place begin (view_txn txn.now)) }
{
    let ops = lines_of(alloc, &txn.ops, &left.ops, begin + 1)?;
    Ok(TxnPlace {
        place,
        begin,
        ops,
        end: begin + 1 + txn.ops.len(),
    })
}
