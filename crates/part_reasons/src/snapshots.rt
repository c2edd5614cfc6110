//! Why a part has no order of its snapshots and commits: by an anomaly, by a refutation by points, by
//! evidence against a weaker level, or since a search shows it.

ghost use Rattle.std.specs.Prelude.{◌≡◌, ◌++◌, true, false, map, IfOk, IfSome, OnOk};
ghost use Rattle.std.specs.List.{AllByRecursion};
ghost use Rattle.std.specs.Option.{option_copied};
ghost use Rattle.std.specs.String.{string_bytes};
ghost use Rattle.session_log.specs.Lines.{lines};
ghost use Rattle.session_log.specs.Text.{IsLegal, view};
ghost use Rattle.session_log.specs.Version.{first_line};
ghost use Rattle.judging.specs.Made.{IsMadeOf};
ghost use Rattle.judging.specs.declared.judged.Finding.TheVariants as finding;
ghost use Rattle.part_reasons.specs.Why.{name_of_anomaly, IsOwn};
ghost use Rattle.point_refutations.specs.Refuted.{is_refuted};
ghost use Rattle.tell_points.specs.Told.{name_line};
ghost use Rattle.part_reasons.specs.Points as spec;

use crate::crossed::{crossing_name, crossing_of_part};
use crate::explaining::{Explained, MANY_LINES, explain_serial, owned, places_of};
use crate::overlooked::tell_evidence;
use crate::shown::{Shown, shown_of};
use crate::whys::name_of_anomaly;
use deciding::Means;
use judging::RefutedPart;
use level_laws::Level as Weaker;
use point_refutations::Refutation;
use session_history::Anomaly;
use session_log::{Session, Version, line_count, next_line};
use std::alloc::{AllocError, Global};
use std::sync::Wait;
use std::thread::Threads;
use std::time::Clock;
use tell_points::{refutation_name, refutation_text};

/// What is said where a search alone shows that no order of points is left.
pub const NO_POINTS_LEFT: &[u8] =
    b"no order of their snapshots and commits is left: a search shows it\n";

/// What stands before the lines that say why a part has no serial order either.
const NO_SERIAL_ORDER: &[u8] = b"why they have no serial order either:\n";

/// What stands before the name of a fault.
const KNOWN_AS: &[u8] = b"known as: ";

/// What stands in the names of faults that snapshot isolation allows.
const ALLOWED: &[u8] = b"(G2-";

/// Appends the line of a name, where there is one.
fn put_name(text: &mut Vec<u8>, name: Option<&'static str>) -> Result<(), AllocError>
    ensures put { OnOk result (text.new.items
        ≡ text.old.items ++ name_line (option_copied name.entry)) }
{
    match name {
        None => Ok(()),
        Some(name) => {
            text.extend_from_slice(KNOWN_AS)?;
            text.extend_from_slice(name.as_bytes())?;
            text.extend_from_slice(b"\n")
        }
    }
}

/// Why a part with an anomaly of its own has no order, which is why it has no serial order.
fn tell_anomaly<R: Threads + Wait + Clock + Sync>(
    rt: &R,
    alloc: Global,
    version: Version,
    sessions: &[Session],
    refuted: &RefutedPart,
    anomaly: Anomaly,
    means: &Means,
) -> Result<Explained, AllocError>
    requires legal { AllByRecursion IsLegal (map view refuted.now.part.items) }
    requires made { IsMadeOf (map view sessions.now) refuted.now }
    requires found { refuted.now.finding ≡ finding.Anomaly anomaly }
    requires own { IsOwn refuted.now }
    ensures told { IfOk result (λ told. spec.IsAnomalyTold means.now.budget (first_line version)
        (map view sessions.now) refuted.now told.known_as told.text.items) }
{
    let explained = explain_serial(rt, alloc, version, sessions, refuted, means)?;
    let name = name_of_anomaly(alloc, &refuted.part, anomaly)?;
    let mut text = explained.text;
    put_name(&mut text, name)?;
    Ok(Explained {
        text,
        known_as: owned(alloc, name)?,
    })
}

/// What a refutation by points that is right says of a part.
fn tell_refutation(
    alloc: Global,
    version: Version,
    sessions: &[Session],
    refuted: &RefutedPart,
    is_locked: bool,
    refutation: &Refutation,
) -> Result<Option<Explained>, AllocError>
    requires made { IsMadeOf (map view sessions.now) refuted.now }
    requires right { is_refuted is_locked (map view refuted.now.part.items) refutation.now ≡ true }
    ensures told { IfOk result (λ some. IfSome some (λ told. spec.IsRefutationTold is_locked
        (first_line version) (map view sessions.now) refuted.now told.known_as told.text.items)) }
{
    if line_count(sessions) > MANY_LINES {
        return Ok(None);
    }
    let places = places_of(alloc, version, sessions, refuted)?;
    let text = refutation_text(alloc, &refuted.part, &places, refutation)?;
    let known_as = owned(alloc, refutation_name(&refuted.part, refutation))?;
    Ok(Some(Explained { text, known_as }))
}

/// Whether a name that snapshot isolation allows stands in a line.
fn is_allowed(line: &[u8]) -> bool
    ensures { result ≡ spec.is_allowed line.now }
{
    for i in 0..line.len() {
        if line[i..].starts_with(ALLOWED) {
            return true;
        }
    }
    false
}

/// Appends the lines of a text without the names of faults that snapshot isolation allows.
fn put_forbidden(out: &mut Vec<u8>, text: &[u8]) -> Result<(), AllocError>
    ensures put { OnOk result (out.new.items ≡ out.old.items ++ spec.forbidden_in (lines text.now)) }
{
    let mut rest = text;
    while !rest.is_empty() {
        let (line, _, after) = next_line(rest);
        if !is_allowed(line) {
            out.extend_from_slice(line)?;
            out.extend_from_slice(b"\n")?;
        }
        rest = after;
    }
    Ok(())
}

/// What a search shows, and why the part has no serial order either, where this says so.
fn text_of_search(alloc: Global, serial: &[u8]) -> Result<Vec<u8>, AllocError>
    ensures text { IfOk result (λ text. text.items ≡ spec.search_text serial.now) }
{
    let mut text = Vec::from_slice(alloc, NO_POINTS_LEFT)?;
    if !serial.is_empty() {
        text.extend_from_slice(NO_SERIAL_ORDER)?;
        put_forbidden(&mut text, serial)?;
    }
    Ok(text)
}

/// A name, unless snapshot isolation allows such faults.
fn unless_allowed(name: Option<String>) -> Option<String>
    ensures name { IfSome result (λ kept. spec.is_allowed (string_bytes kept) ≡ false) }
    ensures same { IfSome result (λ kept. name ≡ Some kept) }
{
    match name {
        Some(name) if !is_allowed(name.as_bytes()) => Some(name),
        _ => None,
    }
}

/// What is said where a search alone shows that a part has no prefix order: crossed reads rule that
/// out too, where it has such.
fn explain_unlocked(
    alloc: Global,
    version: Version,
    sessions: &[Session],
    refuted: &RefutedPart,
) -> Result<Explained, AllocError>
    requires legal { AllByRecursion IsLegal (map view refuted.now.part.items) }
    requires made { IsMadeOf (map view sessions.now) refuted.now }
    ensures said { IfOk result (λ told. spec.IsUnlockedTold (first_line version)
        (map view sessions.now) refuted.now told.known_as told.text.items) }
{
    match crossing_of_part(alloc, version, sessions, refuted)? {
        Some(crossing) => Ok(Explained {
            text: text_of_search(alloc, &crossing)?,
            known_as: owned(alloc, crossing_name())?,
        }),
        None => Ok(Explained {
            text: text_of_search(alloc, b"")?,
            known_as: None,
        }),
    }
}

/// What is said where a search alone shows that a part has no order of snapshots and commits.
fn explain_search<R: Threads + Wait + Clock + Sync>(
    rt: &R,
    alloc: Global,
    version: Version,
    sessions: &[Session],
    refuted: &RefutedPart,
    is_locked: bool,
    means: &Means,
) -> Result<Explained, AllocError>
    requires legal { AllByRecursion IsLegal (map view refuted.now.part.items) }
    requires made { IsMadeOf (map view sessions.now) refuted.now }
    ensures said { IfOk result (λ told. spec.IsSearchTold is_locked means.now.budget
        (first_line version) (map view sessions.now) refuted.now told.known_as told.text.items) }
{
    if !is_locked {
        return explain_unlocked(alloc, version, sessions, refuted);
    }
    let serial = explain_serial(rt, alloc, version, sessions, refuted, means)?;
    Ok(Explained {
        text: text_of_search(alloc, &serial.text)?,
        known_as: unless_allowed(serial.known_as),
    })
}

/// What shows it, in lines; nothing where a search alone does, or the log has too many lines.
fn tell_shown<R: Threads + Wait + Clock + Sync>(
    rt: &R,
    alloc: Global,
    version: Version,
    sessions: &[Session],
    refuted: &RefutedPart,
    is_locked: bool,
    means: &Means,
) -> Result<Option<Explained>, AllocError>
    requires legal { AllByRecursion IsLegal (map view refuted.now.part.items) }
    requires made { IsMadeOf (map view sessions.now) refuted.now }
    ensures said { IfOk result (λ some. IfSome some (λ told. spec.IsSaidOfPoints is_locked
        means.now.budget (first_line version) (map view sessions.now) refuted.now told.known_as
        told.text.items)) }
{
    match shown_of(alloc, refuted, is_locked)? {
        Shown::Anomaly(anomaly) => {
            let told = tell_anomaly(rt, alloc, version, sessions, refuted, anomaly, means)?;
            Ok(Some(told))
        }
        Shown::Points(refutation) => {
            tell_refutation(alloc, version, sessions, refuted, is_locked, &refutation)
        }
        Shown::Evidence(evidence) => {
            tell_evidence(alloc, version, sessions, refuted, Weaker::Causal, &evidence)
        }
        Shown::Search => Ok(None),
    }
}

/// Why a part has no snapshot order, or no prefix order where keys are not locked.
pub fn explain_snapshot<R: Threads + Wait + Clock + Sync>(
    rt: &R,
    alloc: Global,
    version: Version,
    sessions: &[Session],
    refuted: &RefutedPart,
    is_locked: bool,
    means: &Means,
) -> Result<Explained, AllocError>
    requires legal { AllByRecursion IsLegal (map view refuted.now.part.items) }
    requires made { IsMadeOf (map view sessions.now) refuted.now }
    ensures said { IfOk result (λ told. spec.IsSaidOfPoints is_locked means.now.budget
        (first_line version) (map view sessions.now) refuted.now told.known_as told.text.items) }
{
    match tell_shown(rt, alloc, version, sessions, refuted, is_locked, means)? {
        Some(told) => Ok(told),
        None => explain_search(rt, alloc, version, sessions, refuted, is_locked, means),
    }
}
