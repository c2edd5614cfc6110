//! The replay of an order on a history.

ghost use Rattle.std.specs.Prelude.{◌≡◌, None, IfOk, OnOk, IfErr};
ghost use Rattle.serializability.specs.Replay.{IsSerial};
ghost use Rattle.log_definitions.specs.Numbers.{log_of};
ghost use Rattle.decode_order.specs.Replaying.{replay_fault, IsReplayFault};

use crate::fault::ReplayFault;
use crate::listing::lists_once;
use crate::moments::first_before_ended;
use crate::reads::first_mismatch;
use crate::sessions::first_early;
use serializability::NodeIx;
use session_history::{History, NodeLine};
use std::alloc::{AllocError, Global};

/// Whether an order of a history's nodes is serial: it lists nodes 1 to n once each, keeps the
/// order of each session and that of the stated moments, and its replay on a plain map gives every
/// read the identity that it names.
///
/// The time is linear in the number of nodes, keys and operations.
pub fn replay(alloc: Global, history: &History, order: &NodeLine) -> Result<(), ReplayFault>
    ensures serial { OnOk result (IsSerial (log_of history.now) order.now) }
    ensures accepted { OnOk result (replay_fault (log_of history.now) order.now ≡ None) }
    ensures fault { IfErr result
        (λ fault. IsReplayFault fault (replay_fault (log_of history.now) order.now)) }
{
    match first_fault(alloc, history, order.nodes())? {
        None => Ok(()),
        Some(fault) => Err(fault),
    }
}

/// What is wrong with an order.
#[tactic(auto, using(crate::proofs::Whole::fault_once, crate::proofs::Whole::fault_not_once))]
fn first_fault(
    alloc: Global,
    history: &History,
    order: &[NodeIx],
) -> Result<Option<ReplayFault>, AllocError>
    ensures fault { IfOk result (λ found. found ≡ replay_fault (log_of history.now) order.now) }
{
    if !lists_once(alloc, history, order)? {
        return Ok(Some(ReplayFault::NotAPermutation));
    }
    if let Some(node) = first_early(alloc, history, order)? {
        return Ok(Some(ReplayFault::SessionOrder { node }));
    }
    if let Some(node) = first_before_ended(history, order) {
        return Ok(Some(ReplayFault::MomentOrder { node }));
    }
    let mismatch = first_mismatch(alloc, history, order)?;
    Ok(mismatch.map(|(node, op)| ReplayFault::ReadMismatch { node, op }))
}
