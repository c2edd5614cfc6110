//! Why a part has no order, in lines, in the names and the lines of the whole log.

ghost use Rattle.std.specs.Prelude.{◌≡◌, ◌+◌, ◌<◌, ◌^◌, length, map, IfOk, IfSome, None};
ghost use Rattle.std.specs.Option.{option_map, option_copied};
ghost use Rattle.std.specs.List.{AllByRecursion};
ghost use Rattle.session_log.specs.Text.{IsLegal, view};
ghost use Rattle.log_definitions.specs.WellFormed.{log_lines};
ghost use Rattle.log_lines.specs.Rows.{Fits, rows_of};
ghost use Rattle.session_log.specs.Version.{first_line};
ghost use Rattle.judging.specs.Made.{IsMadeOf};
ghost use Rattle.call_options.specs.declared.format.Format.TheVariants.{Text};
ghost use Rattle.part_reasons.specs.Why.{table_of, search_line, IsReasonTold, IsKnownAs};
ghost use Rattle.std.specs.String.{string_bytes};

use crate::serial::tell_serial;
use call_options::Format;
use deciding::Means;
use judging::RefutedPart;
use log_lines::LogPlaces;
use part_places::part_places;
use session_log::{Session, Version, next_line};
use std::alloc::{AllocError, Global};
use std::sync::Wait;
use std::thread::Threads;
use std::time::Clock;

/// More lines than any log has.
pub const MANY_LINES: usize = 1_000_000_000;

/// What is said where a search shows that no order is left, and nothing else does.
pub const SEARCH_SHOWS: &[u8] = b"no order of them is left: a search shows it\n";

/// What stands before the name that the field has for a fault.
const KNOWN_AS: &[u8] = b"known as: ";

/// Why a part has no order.
#[derive(Drop)]
pub struct Explained {
    /// In lines; nothing where it is too large to be told.
    pub text: Vec<u8>,
    /// What the field calls such a fault, where it has a name.
    pub known_as: Option<String>,
}

/// That a search shows it, which has no name.
pub fn searched(alloc: Global) -> Result<Explained, AllocError>
    ensures text { IfOk result (λ told. told.text.items ≡ search_line) }
    ensures name { IfOk result (λ told. told.known_as ≡ None) }
{
    Ok(Explained {
        text: Vec::from_slice(alloc, SEARCH_SHOWS)?,
        known_as: None,
    })
}

/// A name, where there is one.
pub fn owned(alloc: Global, name: Option<&'static str>) -> Result<Option<String>, AllocError>
    ensures text { IfOk result (λ text. option_map string_bytes text ≡ option_copied name.entry) }
{
    match name {
        Some(name) => Ok(Some(String::from_str(alloc, name)?)),
        None => Ok(None),
    }
}

/// Where the transactions of a part stand in the log of these sessions, which is of this version.
pub fn places_of(
    alloc: Global,
    version: Version,
    sessions: &[Session],
    refuted: &RefutedPart,
) -> Result<LogPlaces, AllocError>
    requires room { length (log_lines (map view sessions.now)) + 2 < 2 ^ 63 }
    requires made { IsMadeOf (map view sessions.now) refuted.now }
    ensures fits { IfOk result (λ places. Fits (map view refuted.now.part.items)
        (rows_of places)) }
    ensures rows { IfOk result (λ places. rows_of places
        ≡ table_of (first_line version) (map view sessions.now) refuted.now.flags) }
{
    match &refuted.flags {
        Some(flags) => part_places(alloc, version, sessions, flags, &refuted.part),
        None => LogPlaces::own(alloc, version, sessions),
    }
}

/// These bytes, where they are a text.
fn owned_text(alloc: Global, bytes: &[u8]) -> Result<Option<String>, AllocError>
    ensures text { IfOk result (λ told. IfSome told (λ text. string_bytes text ≡ bytes.now)) }
{
    match std::str::from_utf8(bytes) {
        Ok(text) => Ok(Some(String::from_str(alloc, text)?)),
        Err(_) => Ok(None),
    }
}

/// The name that the field has for a fault, where a line of a text tells it.
fn name_in(alloc: Global, text: &[u8]) -> Result<Option<String>, AllocError>
    ensures named { IfOk result (λ told. IfSome told (λ name.
        IsKnownAs (string_bytes name) text.now)) }
{
    let mut rest = text;
    while !rest.is_empty() {
        let (line, _, after) = next_line(rest);
        if let Some(name) = line.strip_prefix(KNOWN_AS) {
            return owned_text(alloc, name);
        }
        rest = after;
    }
    Ok(None)
}

/// Why a part of these sessions, which are those of a log of this version with their outcomes
/// known, has no serial order.
pub fn explain_serial<R: Threads + Wait + Clock + Sync>(
    rt: &R,
    alloc: Global,
    version: Version,
    sessions: &[Session],
    refuted: &RefutedPart,
    means: &Means,
) -> Result<Explained, AllocError>
    requires legal { AllByRecursion IsLegal (map view refuted.now.part.items) }
    requires made { IsMadeOf (map view sessions.now) refuted.now }
    ensures why { IfOk result (λ told.
        IsReasonTold Text means.now.budget (first_line version) (map view sessions.now) refuted.now
        told.text.items) }
    ensures named { IfOk result (λ told. IfSome told.known_as (λ name.
        IsKnownAs (string_bytes name) told.text.items)) }
{
    let text = tell_serial(rt, alloc, version, sessions, refuted, Format::Text, means)?;
    let known_as = name_in(alloc, &text)?;
    Ok(Explained { text, known_as })
}
