//! The first read of a history that is an anomaly, in log order.

ghost use Rattle.std.specs.Prelude.{◌≡◌, ◌<◌, ◌≤◌, ◌+◌, List, [], Some, IfOk, length, map};
ghost use Rattle.std.specs.Option.{option_or};
ghost use Rattle.serializability.specs.declared.event.Event.{Event};
ghost use Rattle.serializability.specs.declared.event.Event.TheVariants as event;
ghost use Rattle.serializability.specs.Reads.{last_write};
ghost use Rattle.serializability.specs.Anomalies.{external_anomaly, read_anomaly, event_anomaly};
ghost use Rattle.serializability.specs.Anomalies.{places_from, places, anomaly_at, first_some};
ghost use Rattle.log_definitions.specs.Numbers.{log_of, IsWellFormedList};
ghost use Rattle.serializability.specs.Events.{event_key};
ghost use Rattle.anomalies.specs.Usage.{StandsAt, IsUsage, AreBelow, used_by, used_after};
ghost use Rattle.anomalies.specs.Usage.{split_anomaly};

use session_history::{Anomaly, Event, History, NodeIx, ReadAnomaly};
use std::alloc::{AllocError, Global};

/// What a transaction did to a key so far, where none of its reads is an anomaly.
#[derive(Clone, Copy)]
enum Usage {
    /// It has read the key externally, each time with this identity.
    Read(u64),
    /// It has written the key, the last time with this identity.
    Wrote(u64),
}

/// The latest node that has used a key, and how.
#[derive(Clone, Copy)]
struct LastUse {
    node: NodeIx,
    used: Usage,
}

/// The first read that is an anomaly.
pub(crate) fn first_anomaly(alloc: Global, history: &History) -> Result<Option<Anomaly>, AllocError>
    ensures anomaly { let log = log_of history.now in
        IfOk result (λ a. a ≡ first_some (map (anomaly_at log) (places log))) }
{
    let nodes = history.committed();
    let mut marks = vec![in alloc; None; history.keys()]?;
    for number in 1..nodes + 1 {
        let node = NodeIx::new(number).unwrap();
        if let Some(anomaly) = node_anomaly(history, node, &mut marks) {
            return Ok(Some(anomaly));
        }
    }
    Ok(None)
}

/// The first read of the node that is an anomaly.
fn node_anomaly(history: &History, node: NodeIx, marks: &mut [Option<LastUse>]) -> Option<Anomaly>
    requires well_formed { IsWellFormedList history.now }
    requires low { 0 < node }
    requires high { node ≤ (log_of history.now).nodes }
    requires keys { length marks.old ≡ (log_of history.now).keys }
    requires earlier { AreBelow node marks.old }
    ensures anomaly { let log = log_of history.now in
        result ≡ first_some (map (anomaly_at log) (places_from node [] (log.ops node))) }
    ensures marks { AreBelow (node + 1) marks.new }
{
    for (place, event) in history.events_of(node).iter().enumerate() {
        let mark = &mut marks[event.key()];
        let used = used_by(node, *mark);
        if let Some(kind) = event_anomaly(history, node, used, *event) {
            return Some(Anomaly::Read {
                kind,
                node,
                op: place + 1,
            });
        }
        *mark = Some(LastUse {
            node,
            used: used_after(used, *event),
        });
    }
    None
}

/// What the node did to the key so far, by the key's mark.
fn used_by(node: NodeIx, mark: Option<LastUse>) -> Option<Usage>
    ensures used { result ≡ used_by node mark }
{
    mark.filter(|mark| mark.node == node).map(|mark| mark.used)
}

/// What a transaction did to the key of an operation, once that is done too.
fn used_after(used: Option<Usage>, event: Event) -> Usage
    ensures used { result ≡ used_after used event }
{
    match event {
        Event::Write { wid, .. } => Usage::Wrote(wid),
        Event::Read { wid, .. } => match used {
            Some(Usage::Wrote(own)) => Usage::Wrote(own),
            Some(Usage::Read(_)) | None => Usage::Read(wid),
        },
    }
}

/// The anomaly of an operation of the node, by what the node did to the key before it.
fn event_anomaly(
    history: &History,
    node: NodeIx,
    used: Option<Usage>,
    event: Event,
) -> Option<ReadAnomaly>
    requires well_formed { IsWellFormedList history.now }
    ensures anomaly { let log = log_of history.now in (before behind : List Event) →
        StandsAt log node before event behind → IsUsage (event_key event) before used →
        result ≡ event_anomaly log node before event behind }
{
    match event {
        Event::Write { .. } => None,
        Event::Read { key, wid } => read_anomaly(history, node, used, key, wid),
    }
}

/// The anomaly of a read of the node, by what the node did to the key before it.
fn read_anomaly(
    history: &History,
    node: NodeIx,
    used: Option<Usage>,
    key: usize,
    wid: u64,
) -> Option<ReadAnomaly>
    requires well_formed { IsWellFormedList history.now }
    ensures anomaly { let log = log_of history.now in (before behind : List Event) →
        StandsAt log node before (event.Read key wid) behind → IsUsage key before used →
        result ≡ read_anomaly log node before key wid behind (last_write key before) }
{
    match used {
        None => write_anomaly(history, node, key, wid),
        Some(usage) => match usage {
            Usage::Wrote(own) => (own != wid).then_some(ReadAnomaly::OwnWriteMissed),
            Usage::Read(first) => write_anomaly(history, node, key, wid).or(
                (first != wid).then_some(ReadAnomaly::Split),
            ),
        },
    }
}

/// The anomaly of an external read of the node by the write that it names.
fn write_anomaly(history: &History, node: NodeIx, key: usize, wid: u64) -> Option<ReadAnomaly>
    requires well_formed { IsWellFormedList history.now }
    ensures anomaly { let log = log_of history.now in (before behind : List Event) →
        StandsAt log node before (event.Read key wid) behind → last_write key before ≡ None →
        external_anomaly log node before key wid behind
        ≡ option_or result (split_anomaly key wid before) }
{
    if wid == 0 {
        return None;
    }
    match history.written(wid) {
        None => Some(ReadAnomaly::Unknown),
        Some(write) => {
            if write.key != key {
                Some(ReadAnomaly::Unknown)
            } else if write.node == NodeIx::INITIAL {
                Some(ReadAnomaly::Aborted)
            } else if write.node == node {
                Some(ReadAnomaly::Future)
            } else if write.last {
                None
            } else {
                Some(ReadAnomaly::Intermediate)
            }
        }
    }
}
