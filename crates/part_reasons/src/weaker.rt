//! A weaker level that a part breaks too: what shows that, and what the weaker level calls it.

ghost use Rattle.std.specs.Prelude.{◌≡◌, false, map, IfOk, IfSome};
ghost use Rattle.std.specs.Option.{option_copied};
ghost use Rattle.session_log.specs.Text.{view};
ghost use Rattle.session_log.specs.Version.{first_line};
ghost use Rattle.log_lines.specs.Rows.{rows_of};
ghost use Rattle.judging.specs.Made.{IsMadeOf};
ghost use Rattle.part_reasons.specs.Weaker as spec;

use crate::explaining::{Explained, MANY_LINES, owned, places_of};
use crate::shown::{evidence_of, refutation_of};
use crate::timed::is_timed;
use isolation::Isolation;
use judging::{Level, RefutedPart};
use level_laws::Level as Below;
use level_refutations::Evidence;
use log_lines::LogPlaces;
use part_graphs::{evidence_graph, refutation_graph};
use point_refutations::Refutation;
use session_log::{Session, Version, line_count};
use std::alloc::{AllocError, Global};
use tell_evidence::{evidence_name, evidence_text};
use tell_points::{refutation_name, refutation_text};

/// Of a part with more lines nothing weaker is sought.
const FEW_LINES: usize = 2_000;

/// What is right against a level of points, where keys are locked or not, or one below prefix.
#[derive(Drop)]
pub enum Against {
    Points {
        is_locked: bool,
        refutation: Refutation,
    },
    Evidence {
        below: Below,
        evidence: Evidence,
    },
}

/// A level, with moments or without, and what is right against it.
#[derive(Drop)]
pub struct Weaker {
    pub level: Level,
    pub is_strict: bool,
    pub against: Against,
}

/// A level by its name in the field, with moments or without.
fn isolation_of(level: Level, is_strict: bool) -> Isolation
    ensures { result ≡ spec.isolation_of level is_strict }
{
    match level {
        Level::Serializable => Isolation::Serializable,
        Level::Snapshot if is_strict => Isolation::StrictSnapshot,
        Level::Snapshot => Isolation::Snapshot,
        Level::Prefix => Isolation::Prefix,
        Level::Below(Below::Causal) => Isolation::Causal,
        Level::Below(Below::ReadAtomic) => Isolation::ReadAtomic,
        Level::Below(Below::MonotonicAtomicView) => Isolation::MonotonicAtomicView,
        Level::Below(Below::ReadCommitted) => Isolation::ReadCommitted,
    }
}

/// How many levels are weaker.
fn rank_of(level: Level) -> usize
    ensures { result ≡ spec.rank_of level }
{
    match level {
        Level::Below(Below::ReadCommitted) => 0,
        Level::Below(Below::MonotonicAtomicView) => 1,
        Level::Below(Below::ReadAtomic) => 2,
        Level::Below(Below::Causal) => 3,
        Level::Prefix => 4,
        Level::Snapshot => 5,
        Level::Serializable => 6,
    }
}

/// The level than which so many are weaker.
fn level_at(rank: usize) -> Level {
    match rank {
        0 => Level::Below(Below::ReadCommitted),
        1 => Level::Below(Below::MonotonicAtomicView),
        2 => Level::Below(Below::ReadAtomic),
        3 => Level::Below(Below::Causal),
        4 => Level::Prefix,
        5 => Level::Snapshot,
        _ => Level::Serializable,
    }
}

/// A refutation by points that is right and rests on moments or on none, where such a one is found.
fn against_points(
    alloc: Global,
    refuted: &RefutedPart,
    is_locked: bool,
    is_strict: bool,
) -> Result<Option<Against>, AllocError>
    ensures right { IfOk result (λ some. IfSome some (λ it.
        spec.IsRightOfPoints is_locked is_strict refuted.now it)) }
{
    match refutation_of(alloc, refuted, is_locked)? {
        Some(refutation) if is_timed(&refutation) == is_strict => Ok(Some(Against::Points {
            is_locked,
            refutation,
        })),
        _ => Ok(None),
    }
}

/// What is right against a level without moments, where something is found.
fn found_against(
    alloc: Global,
    refuted: &RefutedPart,
    level: Level,
) -> Result<Option<Against>, AllocError>
    ensures right { IfOk result (λ some. IfSome some (λ it.
        spec.IsRight level false refuted.now it)) }
{
    match level {
        Level::Serializable => Ok(None),
        Level::Snapshot => against_points(alloc, refuted, true, false),
        Level::Prefix => against_points(alloc, refuted, false, false),
        Level::Below(below) => match evidence_of(alloc, refuted, below)? {
            Some(evidence) => Ok(Some(Against::Evidence { below, evidence })),
            None => Ok(None),
        },
    }
}

/// The weakest level below this one against which something is found.
fn weakest(alloc: Global, refuted: &RefutedPart, level: Level) -> Result<Option<Weaker>, AllocError>
    ensures weaker { IfOk result (λ some. IfSome some (λ weaker.
        spec.IsWeaker level refuted.now weaker)) }
{
    for rank in 0..rank_of(level) {
        let weaker = level_at(rank);
        if rank_of(weaker) < rank_of(level)
            && let Some(against) = found_against(alloc, refuted, weaker)?
        {
            return Ok(Some(Weaker {
                level: weaker,
                is_strict: false,
                against,
            }));
        }
    }
    Ok(None)
}

/// Strict snapshot isolation, if it is weaker than this level, and moments are what shows that a part
/// breaks it.
fn strict_snapshot(
    alloc: Global,
    refuted: &RefutedPart,
    level: Level,
) -> Result<Option<Weaker>, AllocError>
    ensures weaker { IfOk result (λ some. IfSome some (λ weaker.
        spec.IsWeaker level refuted.now weaker)) }
{
    if rank_of(Level::Snapshot) < rank_of(level)
        && let Some(against) = against_points(alloc, refuted, true, true)?
    {
        return Ok(Some(Weaker {
            level: Level::Snapshot,
            is_strict: true,
            against,
        }));
    }
    Ok(None)
}

/// Whether a name is one of moments.
fn is_of_moments(name: &Option<String>) -> bool {
    match name {
        None => false,
        Some(name) => name.as_bytes().ends_with(b"-realtime)"),
    }
}

/// The weakest level below this one against which something is found. What rests on moments counts
/// only where the level's own name for it does.
fn weakest_named(
    alloc: Global,
    refuted: &RefutedPart,
    level: Level,
    name: &Option<String>,
) -> Result<Option<Weaker>, AllocError>
    ensures weaker { IfOk result (λ some. IfSome some (λ weaker.
        spec.IsWeaker level refuted.now weaker)) }
{
    match weakest(alloc, refuted, level)? {
        None if is_of_moments(name) => strict_snapshot(alloc, refuted, level),
        found => Ok(found),
    }
}

/// What the field calls it.
fn name_against(sessions: &[Session], against: &Against) -> Option<&'static str>
    ensures name { option_copied result ≡ spec.name_against (map view sessions.now) against.now }
{
    match against {
        Against::Points { refutation, .. } => refutation_name(sessions, refutation),
        Against::Evidence { below, evidence } => evidence_name(*below, evidence),
    }
}

/// Whether a fault has a name here, and another one than there.
fn is_other(name: Option<&'static str>, there: &Option<String>) -> bool {
    match (name, there) {
        (None, _) => false,
        (Some(_), None) => true,
        (Some(name), Some(there)) => name.as_bytes() != there.as_bytes(),
    }
}

/// The weakest level below this one that a part breaks too, where its name for that is another one
/// than this.
pub fn renamed(
    alloc: Global,
    refuted: &RefutedPart,
    level: Level,
    name: &Option<String>,
) -> Result<Option<Weaker>, AllocError>
    ensures weaker { IfOk result (λ some. IfSome some (λ weaker.
        spec.IsWeaker level refuted.now weaker)) }
{
    if line_count(&refuted.part) > FEW_LINES {
        return Ok(None);
    }
    match weakest_named(alloc, refuted, level, name)? {
        Some(weaker) if is_other(name_against(&refuted.part, &weaker.against), name) => {
            Ok(Some(weaker))
        }
        _ => Ok(None),
    }
}

/// That a part breaks a level too, and what that asks for.
fn too_line(alloc: Global, level: Isolation) -> Result<Vec<u8>, AllocError>
    ensures text { IfOk result (λ text. text.items ≡ spec.too_line level) }
{
    let mut text = Vec::from_slice(alloc, b"they break ")?;
    text.extend_from_slice(level.title().as_bytes())?;
    text.extend_from_slice(b" too:\n")?;
    text.extend_from_slice(level.asks().as_bytes())?;
    Ok(text)
}

/// The lines of what is right against a level.
fn text_against(
    alloc: Global,
    sessions: &[Session],
    places: &LogPlaces,
    against: &Against,
) -> Result<Vec<u8>, AllocError>
    ensures text { IfOk result (λ text. text.items
        ≡ spec.text_against (rows_of places.now) (map view sessions.now) against.now) }
{
    match against {
        Against::Points { refutation, .. } => refutation_text(alloc, sessions, places, refutation),
        Against::Evidence { evidence, .. } => evidence_text(alloc, sessions, places, evidence),
    }
}

/// The same as a graph.
fn graph_against(
    alloc: Global,
    sessions: &[Session],
    places: &LogPlaces,
    against: &Against,
) -> Result<Vec<u8>, AllocError>
    ensures graph { IfOk result (λ graph. graph.items
        ≡ spec.graph_against (rows_of places.now) (map view sessions.now) against.now) }
{
    match against {
        Against::Points { refutation, .. } => {
            refutation_graph(alloc, sessions, places, refutation)
        }
        Against::Evidence { evidence, .. } => evidence_graph(alloc, sessions, places, evidence),
    }
}

/// That a part breaks a weaker level too, and why; nothing where the log has too many lines.
pub fn tell_weaker(
    alloc: Global,
    version: Version,
    sessions: &[Session],
    refuted: &RefutedPart,
    weaker: &Weaker,
) -> Result<Option<Explained>, AllocError>
    requires made { IsMadeOf (map view sessions.now) refuted.now }
    ensures text { IfOk result (λ some. IfSome some (λ told. told.text.items
        ≡ spec.text_of_weaker (first_line version) (map view sessions.now) refuted.now weaker.now)) }
    ensures name { IfOk result (λ some. IfSome some (λ told. spec.IsNameOfWeaker refuted.now
        weaker.now told.known_as)) }
{
    if line_count(sessions) > MANY_LINES {
        return Ok(None);
    }
    let places = places_of(alloc, version, sessions, refuted)?;
    let mut text = too_line(alloc, isolation_of(weaker.level, weaker.is_strict))?;
    text.extend_from_slice(&text_against(alloc, &refuted.part, &places, &weaker.against)?)?;
    let known_as = owned(alloc, name_against(&refuted.part, &weaker.against))?;
    Ok(Some(Explained { text, known_as }))
}

/// Why a part breaks a weaker level, as a graph; nothing where the log has too many lines.
pub fn draw_weaker(
    alloc: Global,
    version: Version,
    sessions: &[Session],
    refuted: &RefutedPart,
    weaker: &Weaker,
) -> Result<Option<Vec<u8>>, AllocError>
    requires made { IsMadeOf (map view sessions.now) refuted.now }
    ensures drawn { IfOk result (λ some. IfSome some (λ graph. graph.items
        ≡ spec.graph_of_weaker (first_line version) (map view sessions.now) refuted.now weaker.now)) }
{
    if line_count(sessions) > MANY_LINES {
        return Ok(None);
    }
    let places = places_of(alloc, version, sessions, refuted)?;
    let graph = graph_against(alloc, &refuted.part, &places, &weaker.against)?;
    Ok(Some(graph))
}
