//! The chains of a history, or one that closes on itself.

ghost use Rattle.std.specs.Prelude.{◌≡◌, ◌<◌, ℕ, IfOk, IfErr};
ghost use Rattle.serializability.specs.Reads.{IsClean};
ghost use Rattle.serializability.specs.Polygraph.{arcs};
ghost use Rattle.reach_laws.specs.Reach.{IsCycle};
ghost use Rattle.chain_laws.specs.Chains.{IsClosedChain, NoneCloses};
ghost use Rattle.log_definitions.specs.Numbers.{log_of};

use crate::all::Chains;
use crate::closed::closed_chain;
use crate::readings::readings_of;
use serializability::NodeIx;
use session_history::History;
use std::alloc::{AllocError, Global};

/// The chains of a clean history, or a chain that closes on itself, where there is one: its nodes,
/// each of which reads the key externally from the one before, with the first once more at the end.
///
/// Where a chain closes on itself, the history has no serial order.
pub fn chains<'a>(
    alloc: Global,
    history: &'a History,
) -> Result<Result<Chains<'a>, Vec<NodeIx>>, AllocError>
    requires clean { IsClean (log_of history.now) }
    ensures chains { IfOk result (λ found. IfOk found (λ c. c ≡ history.now)) }
    ensures none_closes { IfOk result (λ found. IfOk found
        (λ _. (x : ℕ) → NoneCloses (log_of history.now) x)) }
    ensures closed { IfOk result (λ found. IfErr found (λ line. (x : ℕ) ×
        ((x < (log_of history.now).keys) × IsClosedChain (log_of history.now) x line.items))) }
    ensures cycle { IfOk result (λ found. IfErr found
        (λ line. IsCycle (arcs (log_of history.now)) line.items)) }
{
    if let Some(line) = closed_chain(alloc, history)? {
        return Ok(Err(line));
    }
    let readings = readings_of(alloc, history)?;
    Ok(Ok(Chains::of(alloc, history, &readings)?))
}
