//! Lists that are to have each node once.

ghost use Rattle.std.specs.Prelude.{◌↔◌, IsTrue, IfOk};
ghost use Rattle.serializability.specs.Replay.{ListsOnce};
ghost use Rattle.log_definitions.specs.Numbers.{log_of};

use serializability::NodeIx;
use session_history::History;
use std::alloc::{AllocError, Global};

/// Whether the order lists nodes 1 to n once each.
pub fn lists_once(alloc: Global, history: &History, order: &[NodeIx]) -> Result<bool, AllocError>
    ensures answer { IfOk result
        (λ answer. IsTrue answer ↔ ListsOnce (log_of history.now).nodes order.now) }
{
    let n = history.committed();
    if order.len() != n {
        return Ok(false);
    }
    let mut listed = vec![in alloc; false; n + 1]?;
    for node in order {
        let number = node.get();
        if number == 0 || number > n || listed[number] {
            return Ok(false);
        }
        listed[number] = true;
    }
    Ok(true)
}
