//! Crossed reads of a part: four transactions that see two keys change in both orders, which no order
//! of commits allows, whether keys are locked or not.

ghost use Rattle.std.specs.Prelude.{◌≡◌, map, IfOk, IfSome};
ghost use Rattle.std.specs.List.{AllByRecursion};
ghost use Rattle.std.specs.Option.{option_copied};
ghost use Rattle.session_log.specs.Text.{IsLegal, view};
ghost use Rattle.session_log.specs.Version.{first_line};
ghost use Rattle.serializability.specs.Reads.{IsClean};
ghost use Rattle.log_definitions.specs.Numbers.{log_of};
ghost use Rattle.log_lines.specs.Rows.{Fits, rows_of};
ghost use Rattle.reason_laws.specs.Crossed.{AreCrossed};
ghost use Rattle.judging.specs.Made.{IsMadeOf};
ghost use Rattle.part_reasons.specs.Why.{table_of};
ghost use Rattle.part_reasons.specs.Points.{IsCrossingTold, crossing_name};

use crate::explaining::{MANY_LINES, places_of};
use anomalies::classify;
use judging::RefutedPart;
use log_lines::{LogPlaces, PlacedHistory};
use log_parts::copy_log;
use reason_laws::Crossing;
use reasons::crossed_reads;
use session_history::History;
use session_log::{LogFault, Session, Version, line_count};
use std::alloc::{AllocError, Global};
use tell_reasons::put_crossing;

/// What the field calls them.
pub fn crossing_name() -> Option<&'static str>
    ensures name { option_copied result ≡ crossing_name }
{
    Some("long fork (G-nonadjacent-item)")
}

/// What is told of crossed reads of a history.
fn text_of_crossing(
    alloc: Global,
    history: &History,
    places: &LogPlaces,
    crossing: Crossing,
) -> Result<Vec<u8>, AllocError>
    requires fits { Fits history.now (rows_of places.now) }
    requires crossed { AreCrossed history.now crossing }
    ensures told { IfOk result (λ text. IsCrossingTold history.now (rows_of places.now) text.items) }
{
    let log = PlacedHistory::of(alloc, history, places)?;
    let mut text = Vec::new(alloc);
    put_crossing(&mut text, &log, crossing)?;
    Ok(text)
}

/// The same of a history without an anomaly, where it has such reads and they are sought.
fn crossing_of_clean(
    alloc: Global,
    history: &History,
    places: &LogPlaces,
) -> Result<Option<Vec<u8>>, AllocError>
    requires fits { Fits history.now (rows_of places.now) }
    requires clean { IsClean (log_of history.now) }
    ensures told { IfOk result (λ some. IfSome some (λ text.
        IsCrossingTold history.now (rows_of places.now) text.items)) }
{
    match crossed_reads(alloc, history)? {
        Some(crossing) => Ok(Some(text_of_crossing(alloc, history, places, crossing)?)),
        None => Ok(None),
    }
}

/// The same of a history; nothing of one with an anomaly.
fn crossing_of_history(
    alloc: Global,
    history: &History,
    places: &LogPlaces,
) -> Result<Option<Vec<u8>>, AllocError>
    requires fits { Fits history.now (rows_of places.now) }
    ensures told { IfOk result (λ some. IfSome some (λ text.
        IsCrossingTold history.now (rows_of places.now) text.items)) }
{
    let _invariant = history.committed();
    match classify(alloc, history)? {
        Some(_) => Ok(None),
        None => crossing_of_clean(alloc, history, places),
    }
}

/// What is told of crossed reads of a part, in the names and the lines of the whole log, where it has
/// such; not where it, or the log, has more lines than any log, or the part more than `check` takes.
pub fn crossing_of_part(
    alloc: Global,
    version: Version,
    sessions: &[Session],
    refuted: &RefutedPart,
) -> Result<Option<Vec<u8>>, AllocError>
    requires legal { AllByRecursion IsLegal (map view refuted.now.part.items) }
    requires made { IsMadeOf (map view sessions.now) refuted.now }
    ensures told { IfOk result (λ some. IfSome some (λ text.
        IsCrossingTold (map view refuted.now.part.items)
        (table_of (first_line version) (map view sessions.now) refuted.now.flags) text.items)) }
{
    if line_count(sessions) > MANY_LINES || line_count(&refuted.part) > MANY_LINES {
        return Ok(None);
    }
    let places = places_of(alloc, version, sessions, refuted)?;
    match History::build(alloc, Version::One, copy_log(alloc, &refuted.part)?) {
        Ok(history) => crossing_of_history(alloc, &history, &places),
        Err(fault) => match fault {
            LogFault::Memory => Err(AllocError),
            _ => Ok(None),
        },
    }
}
