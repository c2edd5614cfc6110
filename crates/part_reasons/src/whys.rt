//! Why a part has no order of the level at which it was judged.

ghost use Rattle.std.specs.Prelude.{◌≡◌, map, IfOk};
ghost use Rattle.std.specs.Option.{option_copied};
ghost use Rattle.std.specs.List.{AllByRecursion};
ghost use Rattle.session_log.specs.Text.{IsLegal, view};
ghost use Rattle.session_log.specs.Version.{first_line};
ghost use Rattle.judging.specs.Made.{IsMadeOf};
ghost use Rattle.part_reasons.specs.Said.{IsSaidAt, IsSaid};
ghost use Rattle.part_reasons.specs.Why.{IsWhyOf, IsNamedBy};
ghost use Rattle.part_reasons.specs.Why.{read_name, session_in, update_name, anomaly_name, name_of_anomaly};

use crate::explaining::{Explained, explain_serial, owned, searched};
use crate::overlooked::explain_below;
use crate::snapshots::explain_snapshot;
use crate::weaker::{renamed, tell_weaker};
use deciding::Means;
use judging::{Finding, JudgeMeans, Level, RefutedPart};
use node_names::names_of;
use serializability::NodeIx;
use session_history::{Anomaly, ReadAnomaly};
use session_log::{Session, Version};
use std::alloc::{AllocError, Global};
use std::sync::Wait;
use std::thread::Threads;
use std::time::Clock;
use tell_reasons::names::{MISSED, NO_EDGES, SESSION, cycle_name, followed};

/// What the field calls a read that is an anomaly, where it has a name.
fn read_name(kind: ReadAnomaly) -> Option<&'static str>
    ensures name { option_copied result ≡ read_name kind }
{
    match kind {
        ReadAnomaly::Unknown => None,
        ReadAnomaly::Aborted => Some("aborted read (G1a)"),
        ReadAnomaly::Intermediate => Some("intermediate read (G1b)"),
        ReadAnomaly::OwnWriteMissed => Some("own write missed (internal)"),
        ReadAnomaly::Future => Some("future read (internal)"),
        ReadAnomaly::Split => Some("non-repeatable read (internal)"),
    }
}

/// The number of a node's session, by the names of nodes; 0 of none.
fn session_in(names: &[(u16, usize)], node: NodeIx) -> u16
    ensures { result ≡ session_in names.now node }
{
    names
        .get(node.get().saturating_sub(1))
        .map_or(0, |name| name.0)
}

/// What the field calls it that two nodes read one version and overwrite it. Of one session, the
/// later one misses what its session wrote, which weaker levels forbid too.
fn update_name(names: &[(u16, usize)], first: NodeIx, second: NodeIx) -> &'static str
    ensures { result.now ≡ update_name names.now first second }
{
    if session_in(names, first) == session_in(names, second) {
        cycle_name(followed(followed(NO_EDGES, SESSION), MISSED))
    } else {
        "lost update (G-single)"
    }
}

/// What the field calls an anomaly of nodes with these names, where it has a name.
fn anomaly_name(names: &[(u16, usize)], anomaly: Anomaly) -> Option<&'static str>
    ensures { option_copied result ≡ anomaly_name names.now anomaly }
{
    match anomaly {
        Anomaly::Read { kind, .. } => read_name(kind),
        Anomaly::LostUpdate { first, second, .. } => Some(update_name(names, first, second)),
    }
}

/// What the field calls an anomaly of these sessions, where it has a name.
pub fn name_of_anomaly(
    alloc: Global,
    sessions: &[Session],
    anomaly: Anomaly,
) -> Result<Option<&'static str>, AllocError>
    ensures name { IfOk result (λ name. option_copied name
        ≡ name_of_anomaly (map view sessions.now) anomaly) }
{
    let names = names_of(alloc, sessions)?;
    Ok(anomaly_name(&names, anomaly))
}

/// Why a part has no serial order.
fn explain_order<R: Threads + Wait + Clock + Sync>(
    rt: &R,
    alloc: Global,
    version: Version,
    sessions: &[Session],
    refuted: &RefutedPart,
    means: &Means,
) -> Result<Explained, AllocError>
    requires legal { AllByRecursion IsLegal (map view refuted.now.part.items) }
    requires made { IsMadeOf (map view sessions.now) refuted.now }
    ensures why { IfOk result (λ told. IsWhyOf refuted.now.finding means.now.budget
        (first_line version) (map view sessions.now) refuted.now told.text.items) }
    ensures named { IfOk result (λ told. IsNamedBy (map view refuted.now.part.items)
        refuted.now.finding told.known_as told.text.items) }
{
    match refuted.finding {
        Finding::Formula | Finding::Overlooked => searched(alloc),
        Finding::Anomaly(anomaly) => {
            let explained = explain_serial(rt, alloc, version, sessions, refuted, means)?;
            Ok(Explained {
                text: explained.text,
                known_as: owned(alloc, name_of_anomaly(alloc, &refuted.part, anomaly)?)?,
            })
        }
        Finding::Cycle | Finding::Dead | Finding::Refuted => {
            explain_serial(rt, alloc, version, sessions, refuted, means)
        }
    }
}

/// Why a part of these sessions, which are those of a log of this version with their outcomes
/// known, has no order of the level at which it was judged, by that level itself.
pub fn explain_at<R: Threads + Wait + Clock + Sync>(
    rt: &R,
    alloc: Global,
    version: Version,
    sessions: &[Session],
    refuted: &RefutedPart,
    means: &JudgeMeans,
) -> Result<Explained, AllocError>
    requires legal { AllByRecursion IsLegal (map view refuted.now.part.items) }
    requires made { IsMadeOf (map view sessions.now) refuted.now }
    ensures said { IfOk result (λ told. IsSaidAt means.now.level means.now.deciding.budget
        (first_line version) (map view sessions.now) refuted.now told.known_as told.text.items) }
{
    let deciding = &means.deciding;
    match means.level {
        Level::Serializable => explain_order(rt, alloc, version, sessions, refuted, deciding),
        Level::Snapshot => {
            explain_snapshot(rt, alloc, version, sessions, refuted, true, deciding)
        }
        Level::Prefix => explain_snapshot(rt, alloc, version, sessions, refuted, false, deciding),
        Level::Below(below) => explain_below(alloc, version, sessions, refuted, below),
    }
}

/// Why a part of these sessions, which are those of a log of this version with their outcomes
/// known, has no order of the level at which it was judged. Where it breaks a weaker level too, and
/// that has another name for it, this says so: a fault has one name at each level that forbids it.
pub fn explain_part<R: Threads + Wait + Clock + Sync>(
    rt: &R,
    alloc: Global,
    version: Version,
    sessions: &[Session],
    refuted: &RefutedPart,
    means: &JudgeMeans,
) -> Result<Explained, AllocError>
    requires legal { AllByRecursion IsLegal (map view refuted.now.part.items) }
    requires made { IsMadeOf (map view sessions.now) refuted.now }
    ensures said { IfOk result (λ told. IsSaid means.now (first_line version)
        (map view sessions.now) refuted.now told.known_as told.text.items) }
{
    let own = explain_at(rt, alloc, version, sessions, refuted, means)?;
    if let Some(weaker) = renamed(alloc, refuted, means.level, &own.known_as)?
        && let Some(told) = tell_weaker(alloc, version, sessions, refuted, &weaker)?
    {
        return Ok(told);
    }
    Ok(own)
}
