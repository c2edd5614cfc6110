//! Orders that are to keep the order of stated moments.

ghost use Rattle.std.specs.Prelude.{◌≡◌, ◌||◌, ℕ, Option};
ghost use Rattle.session_log.specs.Moments.{is_earlier};
ghost use Rattle.log_definitions.specs.Numbers.{log_of};
ghost use Rattle.decode_order.specs.Replaying as spec;

use serializability::NodeIx;
use session_history::History;
use session_log::is_earlier;

/// The first listed node that stands before one that ended before it began. Such a node began after
/// the least end of those behind it, and so the order is gone through once, from its last node on.
pub fn first_before_ended(history: &History, order: &[NodeIx]) -> Option<NodeIx>
    ensures first { result ≡ spec.first_before_ended (log_of history.now).earlier order.now }
{
    let mut found = None;
    let mut least_end = None;
    for node in order.iter().rev() {
        if is_earlier(least_end, history.begun_of(*node)) {
            found = Some(*node);
        }
        least_end = lesser(history.ended_of(*node), least_end);
    }
    found
}

/// The lesser of two moments, or the one that is stated.
fn lesser(one: Option<u64>, other: Option<u64>) -> Option<u64>
    ensures lesser { (later : Option ℕ) →
        is_earlier result later ≡ (is_earlier one later || is_earlier other later) }
{
    match (one, other) {
        (Some(a), Some(b)) => Some(a.min(b)),
        (None, _) => other,
        (_, None) => one,
    }
}
