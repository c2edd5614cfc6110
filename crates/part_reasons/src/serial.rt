//! Why a part has no serial order, as text or as a graph, in the names and the lines of the whole log.

ghost use Rattle.std.specs.Prelude.{◌≡◌, map, IfOk, MatchOption};
ghost use Rattle.std.specs.List.{AllByRecursion};
ghost use Rattle.session_log.specs.Text.{IsLegal, view};
ghost use Rattle.session_log.specs.Version.{first_line};
ghost use Rattle.log_lines.specs.Rows.{Fits, rows_of};
ghost use Rattle.polygraph.specs.declared.fault.PolyFault.TheVariants.{TooManyChoices};
ghost use Rattle.reduction.specs.Outcome.{IsReduceFault};
ghost use Rattle.deciding.specs.Decides.{Decides};
ghost use Rattle.tell_decision.specs.Explained.{IsExplained};
ghost use Rattle.judging.specs.Made.{IsMadeOf};
ghost use Rattle.part_reasons.specs.Why as spec;
ghost use Rattle.part_reasons.specs.Why.{table_of, Tells, IsTooLarge, IsReasonTold};

use crate::explaining::{MANY_LINES, SEARCH_SHOWS, places_of};
use call_options::Format;
use deciding::{Decision, Means, decide};
use desk::gate::OpenGate;
use judging::RefutedPart;
use log_lines::{LogPlaces, PlacedHistory};
use log_parts::copy_log;
use part_graphs::{empty_graph, search_graph};
use polygraph::PolyFault;
use session_history::History;
use session_log::{LogFault, Session, Version, line_count};
use std::alloc::{AllocError, Global};
use std::sync::Wait;
use std::thread::Threads;
use std::time::Clock;
use tell_decision::explain_placed;

/// Whether something is told of a decision.
fn is_told(decision: &Decision) -> bool
    ensures { result ≡ spec.is_told decision.now }
{
    match decision {
        Decision::Anomalous(_)
        | Decision::Cyclic(_)
        | Decision::Dead(_)
        | Decision::Refuted { .. } => true,
        Decision::Serial(_) | Decision::Spent { .. } => false,
    }
}

/// What is told of a decision about a history, by where its transactions stand.
fn text_of_told(
    alloc: Global,
    history: &History,
    places: &LogPlaces,
    format: Format,
    decision: &Decision,
    means: &Means,
) -> Result<Vec<u8>, AllocError>
    requires fits { Fits history.now (rows_of places.now) }
    requires decided { Decides means.now.budget history.now decision.now }
    ensures told { IfOk result (λ text. IsExplained format (rows_of places.now) history.now
        decision.now text.items) }
{
    let log = PlacedHistory::of(alloc, history, places)?;
    explain_placed(alloc, &log, format, decision)
}

/// That a search shows it.
fn text_of_search(
    alloc: Global,
    history: &History,
    places: &LogPlaces,
    format: Format,
) -> Result<Vec<u8>, AllocError>
    ensures told { IfOk result (λ text. text.items
        ≡ spec.searched format (rows_of places.now) history.now) }
{
    match format {
        Format::Text => Vec::from_slice(alloc, SEARCH_SHOWS),
        Format::Dot => search_graph(alloc, history.sessions(), places, SEARCH_SHOWS),
    }
}

/// Why a decision about a history within a budget stands; that a search shows it, where nothing is
/// told of the decision.
fn text_of_decision(
    alloc: Global,
    history: &History,
    places: &LogPlaces,
    format: Format,
    decision: &Decision,
    means: &Means,
) -> Result<Vec<u8>, AllocError>
    requires fits { Fits history.now (rows_of places.now) }
    requires decided { Decides means.now.budget history.now decision.now }
    ensures told { IfOk result (λ text. Tells format means.now.budget history.now
        (rows_of places.now) text.items) }
{
    if is_told(decision) {
        text_of_told(alloc, history, places, format, decision, means)
    } else {
        text_of_search(alloc, history, places, format)
    }
}

/// Why a history has no order; `None` where it has too many choices.
fn text_of_history<R: Threads + Wait + Clock + Sync>(
    rt: &R,
    alloc: Global,
    history: &History,
    places: &LogPlaces,
    format: Format,
    means: &Means,
) -> Result<Option<Vec<u8>>, AllocError>
    requires fits { Fits history.now (rows_of places.now) }
    ensures told { IfOk result (λ told. MatchOption told
        (IsReduceFault history.now TooManyChoices)
        (λ text. Tells format means.now.budget history.now (rows_of places.now) text.items)) }
{
    match decide(rt, alloc, history, means, &OpenGate) {
        Ok(decision) => Ok(Some(text_of_decision(
            alloc, history, places, format, &decision, means,
        )?)),
        Err(PolyFault::TooManyChoices) => Ok(None),
        Err(PolyFault::Memory) => Err(AllocError),
    }
}

/// Why a part has no serial order; `None` where it, or the log, has more lines than any log, or the
/// part more than `check` takes.
fn text_of_part<R: Threads + Wait + Clock + Sync>(
    rt: &R,
    alloc: Global,
    version: Version,
    sessions: &[Session],
    refuted: &RefutedPart,
    format: Format,
    means: &Means,
) -> Result<Option<Vec<u8>>, AllocError>
    requires legal { AllByRecursion IsLegal (map view refuted.now.part.items) }
    requires made { IsMadeOf (map view sessions.now) refuted.now }
    ensures told { IfOk result (λ told. MatchOption told
        (IsTooLarge (map view sessions.now) (map view refuted.now.part.items))
        (λ text. Tells format means.now.budget (map view refuted.now.part.items)
        (table_of (first_line version) (map view sessions.now) refuted.now.flags) text.items)) }
{
    if line_count(sessions) > MANY_LINES || line_count(&refuted.part) > MANY_LINES {
        return Ok(None);
    }
    let places = places_of(alloc, version, sessions, refuted)?;
    match History::build(alloc, Version::One, copy_log(alloc, &refuted.part)?) {
        Ok(history) => text_of_history(rt, alloc, &history, &places, format, means),
        Err(fault) => match fault {
            LogFault::Memory => Err(AllocError),
            _ => Ok(None),
        },
    }
}

/// No text, or no box.
fn untold(alloc: Global, format: Format) -> Result<Vec<u8>, AllocError>
    ensures told { IfOk result (λ text. text.items ≡ spec.untold format) }
{
    match format {
        Format::Text => Ok(Vec::new(alloc)),
        Format::Dot => empty_graph(alloc),
    }
}

/// Why a part of these sessions, which are those of a log of this version with their outcomes known,
/// has no serial order; nothing, where it is too large to be told.
pub fn tell_serial<R: Threads + Wait + Clock + Sync>(
    rt: &R,
    alloc: Global,
    version: Version,
    sessions: &[Session],
    refuted: &RefutedPart,
    format: Format,
    means: &Means,
) -> Result<Vec<u8>, AllocError>
    requires legal { AllByRecursion IsLegal (map view refuted.now.part.items) }
    requires made { IsMadeOf (map view sessions.now) refuted.now }
    ensures told { IfOk result (λ text. IsReasonTold format means.now.budget (first_line version)
        (map view sessions.now) refuted.now text.items) }
{
    match text_of_part(rt, alloc, version, sessions, refuted, format, means)? {
        Some(text) => Ok(text),
        None => untold(alloc, format),
    }
}
