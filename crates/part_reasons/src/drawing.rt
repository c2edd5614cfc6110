//! Why a part has no order of the level at which it was judged, as a graph.

ghost use Rattle.std.specs.Prelude.{◌≡◌, true, map, IfOk, IfSome, MatchOption};
ghost use Rattle.std.specs.List.{AllByRecursion};
ghost use Rattle.session_log.specs.Text.{IsLegal, view};
ghost use Rattle.session_log.specs.Version.{first_line};
ghost use Rattle.judging.specs.Made.{IsMadeOf};
ghost use Rattle.level_refutations.specs.Refuted.{is_refuted};
ghost use Rattle.point_refutations.specs.Refuted as by_points;
ghost use Rattle.part_reasons.specs.Why.{table_of, IsOwn};
ghost use Rattle.part_graphs.specs.Graphs.{search_graph};
ghost use Rattle.part_reasons.specs.Drawn as spec;

use crate::explaining::{MANY_LINES, SEARCH_SHOWS, places_of};
use crate::serial::tell_serial;
use crate::shown::{Shown, evidence_of, shown_of};
use crate::snapshots::NO_POINTS_LEFT;
use crate::weaker::{draw_weaker, renamed};
use crate::whys::explain_at;
use call_options::Format;
use deciding::Means;
use judging::{Finding, JudgeMeans, Level, RefutedPart};
use level_laws::Level as Weaker;
use level_refutations::Evidence;
use part_graphs::{empty_graph, evidence_graph, refutation_graph, search_graph};
use point_refutations::Refutation;
use session_log::{Session, Version, line_count};
use std::alloc::{AllocError, Global};
use std::sync::Wait;
use std::thread::Threads;
use std::time::Clock;

/// The transactions of a part as boxes, behind a line that says that a search shows it; `None` where the
/// log has more lines than any log.
fn boxes_of_part(
    alloc: Global,
    version: Version,
    sessions: &[Session],
    refuted: &RefutedPart,
    words: &[u8],
) -> Result<Option<Vec<u8>>, AllocError>
    requires made { IsMadeOf (map view sessions.now) refuted.now }
    ensures drawn { IfOk result (λ drawn. MatchOption drawn
        (spec.IsTooLong (map view sessions.now)) (λ graph. graph.items
        ≡ search_graph (table_of (first_line version) (map view sessions.now) refuted.now.flags)
        (map view refuted.now.part.items) words.now)) }
{
    if line_count(sessions) > MANY_LINES {
        return Ok(None);
    }
    let places = places_of(alloc, version, sessions, refuted)?;
    let graph = search_graph(alloc, &refuted.part, &places, words)?;
    Ok(Some(graph))
}

/// The same; without boxes, where there are none.
fn draw_search(
    alloc: Global,
    version: Version,
    sessions: &[Session],
    refuted: &RefutedPart,
    words: &[u8],
) -> Result<Vec<u8>, AllocError>
    requires made { IsMadeOf (map view sessions.now) refuted.now }
    ensures drawn { IfOk result (λ graph. spec.IsSearchDrawn words.now (first_line version)
        (map view sessions.now) refuted.now graph.items) }
{
    match boxes_of_part(alloc, version, sessions, refuted, words)? {
        Some(graph) => Ok(graph),
        None => Ok(empty_graph(alloc)?),
    }
}

/// Why a part has no serial order.
fn draw_order<R: Threads + Wait + Clock + Sync>(
    rt: &R,
    alloc: Global,
    version: Version,
    sessions: &[Session],
    refuted: &RefutedPart,
    means: &Means,
) -> Result<Vec<u8>, AllocError>
    requires legal { AllByRecursion IsLegal (map view refuted.now.part.items) }
    requires made { IsMadeOf (map view sessions.now) refuted.now }
    ensures drawn { IfOk result (λ graph. spec.IsOrderDrawn refuted.now.finding means.now.budget
        (first_line version) (map view sessions.now) refuted.now graph.items) }
{
    match refuted.finding {
        Finding::Formula | Finding::Overlooked => {
            draw_search(alloc, version, sessions, refuted, SEARCH_SHOWS)
        }
        Finding::Anomaly(_) | Finding::Cycle | Finding::Dead | Finding::Refuted => {
            tell_serial(rt, alloc, version, sessions, refuted, Format::Dot, means)
        }
    }
}

/// Evidence that is right against a level below prefix.
fn draw_evidence(
    alloc: Global,
    version: Version,
    sessions: &[Session],
    refuted: &RefutedPart,
    below: Weaker,
    evidence: &Evidence,
) -> Result<Option<Vec<u8>>, AllocError>
    requires made { IsMadeOf (map view sessions.now) refuted.now }
    requires right { is_refuted below (map view refuted.now.part.items) evidence.now ≡ true }
    ensures drawn { IfOk result (λ some. IfSome some (λ graph. spec.IsEvidenceDrawn below
        (first_line version) (map view sessions.now) refuted.now graph.items)) }
{
    if line_count(sessions) > MANY_LINES {
        return Ok(None);
    }
    let places = places_of(alloc, version, sessions, refuted)?;
    let graph = evidence_graph(alloc, &refuted.part, &places, evidence)?;
    Ok(Some(graph))
}

/// Why a part has no order of a level below prefix.
fn draw_below(
    alloc: Global,
    version: Version,
    sessions: &[Session],
    refuted: &RefutedPart,
    below: Weaker,
) -> Result<Vec<u8>, AllocError>
    requires made { IsMadeOf (map view sessions.now) refuted.now }
    ensures drawn { IfOk result (λ graph. spec.IsBelowDrawn below (first_line version)
        (map view sessions.now) refuted.now graph.items) }
{
    if let Some(evidence) = evidence_of(alloc, refuted, below)?
        && let Some(graph) = draw_evidence(alloc, version, sessions, refuted, below, &evidence)?
    {
        return Ok(graph);
    }
    draw_search(alloc, version, sessions, refuted, SEARCH_SHOWS)
}

/// A refutation by points that is right.
fn draw_refutation(
    alloc: Global,
    version: Version,
    sessions: &[Session],
    refuted: &RefutedPart,
    is_locked: bool,
    refutation: &Refutation,
) -> Result<Option<Vec<u8>>, AllocError>
    requires made { IsMadeOf (map view sessions.now) refuted.now }
    requires right { by_points.is_refuted is_locked (map view refuted.now.part.items) refutation.now
        ≡ true }
    ensures drawn { IfOk result (λ some. IfSome some (λ graph. spec.IsRefutationDrawn is_locked
        (first_line version) (map view sessions.now) refuted.now graph.items)) }
{
    if line_count(sessions) > MANY_LINES {
        return Ok(None);
    }
    let places = places_of(alloc, version, sessions, refuted)?;
    let graph = refutation_graph(alloc, &refuted.part, &places, refutation)?;
    Ok(Some(graph))
}

/// Why a part has no serial order, where the anomaly that was found is its own.
fn draw_anomaly<R: Threads + Wait + Clock + Sync>(
    rt: &R,
    alloc: Global,
    version: Version,
    sessions: &[Session],
    refuted: &RefutedPart,
    means: &Means,
) -> Result<Vec<u8>, AllocError>
    requires legal { AllByRecursion IsLegal (map view refuted.now.part.items) }
    requires made { IsMadeOf (map view sessions.now) refuted.now }
    requires own { IsOwn refuted.now }
    ensures drawn { IfOk result (λ graph. spec.IsAnomalyDrawn means.now.budget
        (first_line version) (map view sessions.now) refuted.now graph.items) }
{
    let graph = tell_serial(rt, alloc, version, sessions, refuted, Format::Dot, means)?;
    Ok(graph)
}

/// What shows that a part has no order of its snapshots and commits; nothing where a search alone does, or
/// the log has too many lines.
fn draw_shown<R: Threads + Wait + Clock + Sync>(
    rt: &R,
    alloc: Global,
    version: Version,
    sessions: &[Session],
    refuted: &RefutedPart,
    is_locked: bool,
    means: &Means,
) -> Result<Option<Vec<u8>>, AllocError>
    requires legal { AllByRecursion IsLegal (map view refuted.now.part.items) }
    requires made { IsMadeOf (map view sessions.now) refuted.now }
    ensures drawn { IfOk result (λ some. IfSome some (λ graph. spec.IsPointsDrawn is_locked
        means.now.budget (first_line version) (map view sessions.now) refuted.now graph.items)) }
{
    match shown_of(alloc, refuted, is_locked)? {
        Shown::Anomaly(_) => {
            let graph = draw_anomaly(rt, alloc, version, sessions, refuted, means)?;
            Ok(Some(graph))
        }
        Shown::Points(refutation) => {
            draw_refutation(alloc, version, sessions, refuted, is_locked, &refutation)
        }
        Shown::Evidence(evidence) => {
            draw_evidence(alloc, version, sessions, refuted, Weaker::Causal, &evidence)
        }
        Shown::Search => Ok(None),
    }
}

/// Why a part has no snapshot order, or no prefix order where keys are not locked.
fn draw_points<R: Threads + Wait + Clock + Sync>(
    rt: &R,
    alloc: Global,
    version: Version,
    sessions: &[Session],
    refuted: &RefutedPart,
    is_locked: bool,
    means: &Means,
) -> Result<Vec<u8>, AllocError>
    requires legal { AllByRecursion IsLegal (map view refuted.now.part.items) }
    requires made { IsMadeOf (map view sessions.now) refuted.now }
    ensures drawn { IfOk result (λ graph. spec.IsPointsDrawn is_locked means.now.budget
        (first_line version) (map view sessions.now) refuted.now graph.items) }
{
    match draw_shown(rt, alloc, version, sessions, refuted, is_locked, means)? {
        Some(graph) => Ok(graph),
        None => draw_search(alloc, version, sessions, refuted, NO_POINTS_LEFT),
    }
}

/// Why a part of these sessions, which are those of a log of this version with their outcomes
/// known, has no order of the level at which it was judged, by that level itself.
fn draw_at<R: Threads + Wait + Clock + Sync>(
    rt: &R,
    alloc: Global,
    version: Version,
    sessions: &[Session],
    refuted: &RefutedPart,
    means: &JudgeMeans,
) -> Result<Vec<u8>, AllocError>
    requires legal { AllByRecursion IsLegal (map view refuted.now.part.items) }
    requires made { IsMadeOf (map view sessions.now) refuted.now }
    ensures drawn { IfOk result (λ graph. spec.IsDrawnAt means.now.level means.now.deciding.budget
        (first_line version) (map view sessions.now) refuted.now graph.items) }
{
    let deciding = &means.deciding;
    match means.level {
        Level::Serializable => draw_order(rt, alloc, version, sessions, refuted, deciding),
        Level::Snapshot => draw_points(rt, alloc, version, sessions, refuted, true, deciding),
        Level::Prefix => draw_points(rt, alloc, version, sessions, refuted, false, deciding),
        Level::Below(below) => draw_below(alloc, version, sessions, refuted, below),
    }
}

/// Why it has none; where it breaks a weaker level too, and that has another name for it, why it
/// breaks that.
fn draw_part<R: Threads + Wait + Clock + Sync>(
    rt: &R,
    alloc: Global,
    version: Version,
    sessions: &[Session],
    refuted: &RefutedPart,
    means: &JudgeMeans,
) -> Result<Vec<u8>, AllocError>
    requires legal { AllByRecursion IsLegal (map view refuted.now.part.items) }
    requires made { IsMadeOf (map view sessions.now) refuted.now }
    ensures drawn { IfOk result (λ graph. spec.IsDrawn means.now (first_line version)
        (map view sessions.now) refuted.now graph.items) }
{
    let own = explain_at(rt, alloc, version, sessions, refuted, means)?;
    if let Some(weaker) = renamed(alloc, refuted, means.level, &own.known_as)?
        && let Some(graph) = draw_weaker(alloc, version, sessions, refuted, &weaker)?
    {
        return Ok(graph);
    }
    draw_at(rt, alloc, version, sessions, refuted, means)
}

/// The same, where a graph is asked for.
pub fn draw_where<R: Threads + Wait + Clock + Sync>(
    rt: &R,
    alloc: Global,
    version: Version,
    sessions: &[Session],
    refuted: &RefutedPart,
    format: Format,
    means: &JudgeMeans,
) -> Result<Vec<u8>, AllocError>
    requires legal { AllByRecursion IsLegal (map view refuted.now.part.items) }
    requires made { IsMadeOf (map view sessions.now) refuted.now }
    ensures drawn { IfOk result (λ graph. spec.IsDrawnWhere format means.now (first_line version)
        (map view sessions.now) refuted.now graph.items) }
{
    match format {
        Format::Text => Ok(Vec::new(alloc)),
        Format::Dot => draw_part(rt, alloc, version, sessions, refuted, means),
    }
}
