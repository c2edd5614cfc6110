//! Reads of a node that do not see a write of another.

ghost use Rattle.std.specs.Prelude.{◌≢◌, ◌<◌, ◌↔◌, IsTrue, length, IfSome, IfNone};
ghost use Rattle.serializability.specs.Reads.{IsClean};
ghost use Rattle.log_definitions.specs.Numbers.{log_of};
ghost use Rattle.serializability.specs.Events.{event_key};
ghost use Rattle.reason_laws.specs.Reasons.{IsNode, IsOverwrittenBy};
ghost use Rattle.reasons.specs.Given.{IsLeastOverwrite, NoneOverwritten};
ghost use Rattle.reasons.specs.Overwrites.{IsLess, IsLeastWrite};

use crate::operations::{KeyWrite, Operations};
use crate::read::read_of;
use serializability::{Event, NodeIx};
use session_history::History;

/// Whether an operation of `b` writes a key that both nodes read alike, and a lesser one than this.
fn writes_less(
    history: &History,
    a: NodeIx,
    b: NodeIx,
    least: Option<KeyWrite>,
    event: Event,
) -> bool
    requires key { event_key event < (log_of history.now).keys }
    ensures { IsTrue result ↔ IsLess (log_of history.now) a b least event }
{
    let Event::Write { key, .. } = event else {
        return false;
    };
    if least.is_some_and(|write| write.key <= key) {
        return false;
    }
    match history.source_of(a, key) {
        Some(source) => history.source_of(b, key) == Some(source),
        None => false,
    }
}

/// The least key that both nodes read alike and `b` writes, with its first write of it.
#[tactic(auto, using(crate::proofs::Ops::key_below_at, crate::proofs::Overwrites::least_more, crate::proofs::Overwrites::least_same, crate::proofs::Ops::item_at))]
fn least_write(history: &History, a: NodeIx, b: NodeIx) -> Option<KeyWrite>
    ensures { let log = log_of history.now in IsLeastWrite log a b (length (log.ops b)) result }
{
    let mut least = None;
    for (place, event) in history.events_of(b).iter().enumerate() {
        if writes_less(history, a, b, least, *event) {
            let key = event.key();
            least = Some(KeyWrite { key, place });
        }
    }
    least
}

/// The first read in `a` of the least key that both nodes read alike and `b` writes, and the first
/// write of it in `b`.
#[tactic(auto, using(crate::proofs::Overwrites::overwritten, crate::proofs::Overwrites::least_overwrite))]
pub fn overwritten_by(history: &History, a: NodeIx, b: NodeIx) -> Option<Operations>
    requires clean { IsClean (log_of history.now) }
    requires first { IsNode history.now a }
    requires second { IsNode history.now b }
    requires apart { a ≢ b }
    ensures is { IfSome result (λ o. IsOverwrittenBy history.now a o.first b o.second) }
    ensures least { IfSome result (λ o. IsLeastOverwrite history.now a o.first b o.second) }
    ensures none { IfNone result (NoneOverwritten history.now a b) }
{
    let Some(write) = least_write(history, a, b) else {
        return None;
    };
    Some(Operations {
        first: read_of(history, a, write.key),
        second: write.place,
    })
}
