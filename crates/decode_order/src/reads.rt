//! Reads that are to name what the map holds when they come.

ghost use Rattle.std.specs.Prelude.{◌≡◌, ◌<◌, ℕ, [], ◌∷◌, None, Some, IfOk, IfNone, MatchOption};
ghost use Rattle.std.specs.Prelude.{length};
ghost use Rattle.std.specs.List.{AllByRecursion};
ghost use Rattle.serializability.specs.Replay.{empty, after};
ghost use Rattle.log_definitions.specs.Numbers.{log_of};
ghost use Rattle.decode_order.specs.Replaying as spec;
ghost use Rattle.serializability.specs.Events.{event_key};
ghost use Rattle.decode_order.specs.Replaying.{held, meets, placed_from, in_replay};

use serializability::NodeIx;
use session_history::{Event, History};
use std::alloc::{AllocError, Global};

/// The first read in replay that does not name what the map holds, by its node and its number among
/// that node's operations, from 1.
pub fn first_mismatch(
    alloc: Global,
    history: &History,
    order: &[NodeIx],
) -> Result<Option<(NodeIx, usize)>, AllocError>
    ensures first { IfOk result (λ found.
        found ≡ spec.first_mismatch empty (in_replay (log_of history.now).ops order.now)) }
{
    let mut table = vec![in alloc; 0; history.keys()]?;
    let store = table.as_mut_slice();
    for node in order {
        if let Some(op) = replay_node(store, history.events_of(*node)) {
            return Ok(Some((*node, op)));
        }
    }
    Ok(None)
}

/// Replays the operations of a node, up to the first read that does not name what the map holds.
/// The answer is its number, from 1.
fn replay_node(store: &mut [u64], events: &[Event]) -> Option<usize>
    requires keys { AllByRecursion (λ event. event_key event < length store.old) events.now }
    ensures first { MatchOption result
        ((v : ℕ) → spec.first_mismatch (held store.old) (placed_from v 1 events.now) ≡ None)
        (λ op. (v : ℕ) →
        spec.first_mismatch (held store.old) (placed_from v 1 events.now) ≡ Some (v, op)) }
    ensures after { IfNone result (held store.new ≡ after (held store.old) events.now) }
{
    for (index, event) in events.iter().enumerate() {
        if !replay_op(store, *event) {
            return Some(index + 1);
        }
    }
    None
}

/// Replays an operation. The answer is false for a read that does not name what the map holds.
fn replay_op(store: &mut [u64], event: Event) -> bool
    requires key { event_key event < length store.old }
    ensures met { result ≡ meets (held store.old) event }
    ensures after { held store.new ≡ after (held store.old) (event ∷ []) }
{
    match event {
        Event::Read { key, wid } => store[key] == wid,
        Event::Write { key, wid } => {
            store[key] = wid;
            true
        }
    }
}
