//! Writes of a node that begin a chain behind that of a key's initial value.

ghost use Rattle.std.specs.Prelude.{◌<◌, ◌↔◌, IsTrue, length, IfSome, IfNone, IfOk};
ghost use Rattle.serializability.specs.Reads.{IsClean};
ghost use Rattle.log_definitions.specs.Numbers.{log_of};
ghost use Rattle.serializability.specs.Events.{event_key};
ghost use Rattle.reason_laws.specs.Reasons.{IsNode, IsOfInitialBefore};
ghost use Rattle.reasons.specs.Firsts.{NoneBefore};
ghost use Rattle.reasons.specs.Initials.{FollowsInitial, IsBeginning};
ghost use Rattle.reasons.specs.Initials.{BeginsAt, ArePlain};
ghost use Rattle.reasons.specs.Given.{IsLeastInitial, NoneInitial};

use crate::operations::{KeyWrite, Operations};
use crate::read::read_of;
use serializability::{Event, NodeIx};
use session_history::History;
use std::alloc::{AllocError, Global};

/// Whether a node reads the key from the chain of its initial value. The walk back to it comes to
/// no node twice.
#[tactic(auto, using(crate::proofs::Initials::walk_on, crate::proofs::Initials::ended, crate::proofs::Initials::zero_unread))]
fn follows_initial(history: &History, key: usize, node: NodeIx) -> bool
    requires clean { IsClean (log_of history.now) }
    requires key { key < (log_of history.now).keys }
    requires node { IsNode history.now node }
    ensures { IsTrue result ↔ FollowsInitial (log_of history.now) key node }
{
    let mut first = node;
    for step in 0..history.committed() + 2 {
        match history.source_of(first, key) {
            Some(source) => first = source,
            None => return first == NodeIx::INITIAL,
        }
    }
    false
}

/// Whether an operation of `b` begins a chain behind that of the initial value of its key, which
/// `a` reads from. Keys of which it is known not to be so are marked: it is asked of each of these
/// once.
fn is_beginning(plain: &mut [bool], history: &History, a: NodeIx, b: NodeIx, event: Event) -> bool
    requires clean { IsClean (log_of history.now) }
    requires first { IsNode history.now a }
    requires key { event_key event < (log_of history.now).keys }
    requires plain { ArePlain (log_of history.now) a b plain.old }
    ensures plain { ArePlain (log_of history.now) a b plain.new }
    ensures begins { IsTrue result ↔ IsBeginning (log_of history.now) a b event }
{
    let Event::Write { key, .. } = event else {
        return false;
    };
    let unread = !plain[key] && history.source_of(b, key).is_none();
    let begun = unread && follows_initial(history, key, a);
    plain[key] = !begun;
    begun
}

/// The first operation of `b` that begins a chain behind that of the initial value of its key,
/// which `a` reads from. The chain of each key is walked once, however often `b` writes the key.
/// The one error is that memory runs out for a byte of each key.
#[tactic(auto, using(crate::proofs::Ops::key_below_at))]
fn begins_behind_initial(
    alloc: Global,
    history: &History,
    a: NodeIx,
    b: NodeIx,
) -> Result<Option<KeyWrite>, AllocError>
    requires clean { IsClean (log_of history.now) }
    requires first { IsNode history.now a }
    ensures begins { IfOk result (λ found. IfSome found (BeginsAt (log_of history.now) a b)) }
    ensures none { let log = log_of history.now in
        IfOk result (λ found. IfNone found
        (NoneBefore (IsBeginning log a b) (log.ops b) (length (log.ops b)))) }
{
    let mut table = vec![in alloc; false; history.keys()]?;
    let plain = table.as_mut_slice();
    for (place, event) in history.events_of(b).iter().enumerate() {
        if is_beginning(plain, history, a, b, *event) {
            let key = event.key();
            return Ok(Some(KeyWrite { key, place }));
        }
    }
    Ok(None)
}

/// The first operation of `b` that begins a chain behind that of the initial value of its key, and
/// the first read of `a` from that one. The one error is that memory runs out for a byte of each
/// key.
#[tactic(auto, using(crate::proofs::Initials::initial_is, crate::proofs::Initials::initial_least))]
pub fn before_by_initial(
    alloc: Global,
    history: &History,
    a: NodeIx,
    b: NodeIx,
) -> Result<Option<Operations>, AllocError>
    requires clean { IsClean (log_of history.now) }
    requires first { IsNode history.now a }
    requires second { IsNode history.now b }
    ensures is { IfOk result (λ found. IfSome found
        (λ o. IsOfInitialBefore history.now a o.first b o.second)) }
    ensures least { IfOk result (λ found. IfSome found
        (λ o. IsLeastInitial history.now a o.first b o.second)) }
    ensures none { IfOk result (λ found. IfNone found (NoneInitial history.now a b)) }
{
    match begins_behind_initial(alloc, history, a, b)? {
        Some(begins) => Ok(Some(Operations {
            first: read_of(history, a, begins.key),
            second: begins.place,
        })),
        None => Ok(None),
    }
}
