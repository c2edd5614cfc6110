//! Orders that are to keep the order of each session.

ghost use Rattle.std.specs.Prelude.{◌≡◌, ◌↔◌, ◌-◌, ◌<◌, false, IsTrue, IfOk, length};
ghost use Rattle.std.specs.Prelude.{slice_index_or};
ghost use Rattle.serializability.specs.Replay.{ListsOnce};
ghost use Rattle.log_definitions.specs.Numbers.{log_of};
ghost use Rattle.decode_order.specs.Replaying as spec;

use serializability::NodeIx;
use serializability::numbers::node as node_of;
use session_history::History;
use std::alloc::{AllocError, Global};

/// The first listed node that stands before an earlier one of its session. The nodes of a session
/// lie together, so that it stands before the node before it, and no node listed before it does so.
pub fn first_early(
    alloc: Global,
    history: &History,
    order: &[NodeIx],
) -> Result<Option<NodeIx>, AllocError>
    requires once { ListsOnce (log_of history.now).nodes order.now }
    ensures first { IfOk result
        (λ found. found ≡ spec.first_early (log_of history.now).session order.now) }
{
    let mut listed = vec![in alloc; false; history.committed() + 1]?;
    for node in order {
        if precedes_previous(history, &listed, *node) {
            return Ok(Some(*node));
        }
        listed[node.get()] = true;
    }
    Ok(None)
}

/// Whether the node before this one is of its session and not listed yet.
fn precedes_previous(history: &History, listed: &[bool], node: NodeIx) -> bool
    requires within { node < length listed.now }
    ensures answer { IsTrue result ↔ ((1 < node)
        × ((log_of history.now).session (node - 1) ≡ (log_of history.now).session node)
        × (slice_index_or listed.now (node - 1) false ≡ false)) }
{
    let number = node.get();
    number > 1
        && !listed[number - 1]
        && history.session_of(node_of(number - 1)) == history.session_of(node)
}
