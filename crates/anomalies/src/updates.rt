//! The least lost update of a history.

ghost use Rattle.std.specs.Prelude.{◌≡◌, ◌<◌, ◌+◌, ◌++◌, ◌∷◌, [], ℕ, List, Some, IfOk, length, map};
ghost use Rattle.std.specs.Option.{option_map};
ghost use Rattle.serializability.specs.Polygraph.{source};
ghost use Rattle.serializability.specs.Anomalies.{lost_updates, first_some};
ghost use Rattle.log_definitions.specs.Numbers.{log_of};
ghost use Rattle.anomalies.specs.Updates.{AreOfKeysBelow, AreFirst, lost_updates_of, lost_by};
ghost use Rattle.anomalies.specs.Updates.{clash_with, lesser, updater_of};

use session_history::{Anomaly, History, NodeIx};
use std::alloc::{AllocError, Global};

/// The first node that updates a key from a node.
#[derive(Clone, Copy)]
struct Updater {
    key: usize,
    node: NodeIx,
}

/// The first two nodes that update a key from one node.
#[derive(Clone, Copy)]
struct Clash {
    source: NodeIx,
    first: NodeIx,
    second: NodeIx,
}

/// The lost update of the least key, then the least node read from, then the two least nodes.
pub(crate) fn first_lost(alloc: Global, history: &History) -> Result<Option<Anomaly>, AllocError>
    ensures anomaly { IfOk result (λ a.
        a ≡ first_some (map (λ b. Some b) (lost_updates (log_of history.now)))) }
{
    let mut updaters = vec![in alloc; None; history.committed() + 1]?;
    for key in 0..history.keys() {
        if let Some(clash) = least_clash(history, key, &mut updaters) {
            return Ok(Some(Anomaly::LostUpdate {
                key,
                source: clash.source,
                first: clash.first,
                second: clash.second,
            }));
        }
    }
    Ok(None)
}

/// The first two nodes that update the key from one node, the least that two nodes update it from.
fn least_clash(history: &History, key: usize, updaters: &mut [Option<Updater>]) -> Option<Clash>
    requires key { key < (log_of history.now).keys }
    requires nodes { length updaters.old ≡ (log_of history.now).nodes + 1 }
    requires earlier { AreOfKeysBelow key updaters.old }
    ensures clash { first_some (map (λ a. Some a) (lost_updates_of (log_of history.now) key))
        ≡ option_map (lost_by key) result }
    ensures updaters { AreOfKeysBelow (key + 1) updaters.new }
{
    let mut least = None;
    for node in history.writers_of(key) {
        let clash = clash_of(history, key, *node, updaters);
        least = lesser(least, clash);
    }
    least
}

/// The clash of a further writer of the key with the first one that reads it from the same node.
/// Where there is none, the further writer becomes that first one.
fn clash_of(
    history: &History,
    key: usize,
    node: NodeIx,
    updaters: &mut [Option<Updater>],
) -> Option<Clash>
    requires key { key < (log_of history.now).keys }
    requires nodes { length updaters.old ≡ (log_of history.now).nodes + 1 }
    ensures clash { let log = log_of history.now in (earlier : List ℕ) →
        AreFirst log key earlier updaters.old → result ≡ clash_with log key earlier node }
    ensures updaters { let log = log_of history.now in (earlier : List ℕ) →
        AreFirst log key earlier updaters.old →
        AreFirst log key (earlier ++ node ∷ []) updaters.new }
    ensures keys { AreOfKeysBelow (key + 1) updaters.old → AreOfKeysBelow (key + 1) updaters.new }
{
    let source = history.source_of(node, key)?;
    let updater = &mut updaters[source.get()];
    match updater_of(key, *updater) {
        Some(first) => Some(Clash {
            source,
            first,
            second: node,
        }),
        None => {
            *updater = Some(Updater { key, node });
            None
        }
    }
}

/// The node of an entry that speaks of the key.
fn updater_of(key: usize, updater: Option<Updater>) -> Option<NodeIx>
    ensures node { result ≡ updater_of key updater }
{
    updater
        .filter(|updater| updater.key == key)
        .map(|updater| updater.node)
}

/// The clash with the lesser source: the first, where they have one source.
fn lesser(least: Option<Clash>, clash: Option<Clash>) -> Option<Clash>
    ensures clash { result ≡ lesser least clash }
{
    match least {
        None => clash,
        Some(old) => match clash {
            None => Some(old),
            Some(new) => Some(if new.source.get() < old.source.get() {
                new
            } else {
                old
            }),
        },
    }
}
