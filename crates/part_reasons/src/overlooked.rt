//! Why a part has no order of a level below prefix: by evidence, each place of which stands in a line.

ghost use Rattle.std.specs.Prelude.{◌≡◌, true, map, IfOk, IfSome};
ghost use Rattle.session_log.specs.Text.{view};
ghost use Rattle.session_log.specs.Version.{first_line};
ghost use Rattle.judging.specs.Made.{IsMadeOf};
ghost use Rattle.level_refutations.specs.Refuted.{is_refuted};
ghost use Rattle.part_reasons.specs.Why.{IsEvidenceTold, IsSaidBelow};

use crate::explaining::{Explained, MANY_LINES, owned, places_of, searched};
use crate::shown::evidence_of;
use judging::RefutedPart;
use level_laws::Level;
use level_refutations::Evidence;
use session_log::{Session, Version, line_count};
use std::alloc::{AllocError, Global};
use tell_evidence::{evidence_name, evidence_text};

/// What evidence that is right says of a part of these sessions, which are those of a log of this
/// version; nothing where they have too many lines.
pub fn tell_evidence(
    alloc: Global,
    version: Version,
    sessions: &[Session],
    refuted: &RefutedPart,
    below: Level,
    evidence: &Evidence,
) -> Result<Option<Explained>, AllocError>
    requires made { IsMadeOf (map view sessions.now) refuted.now }
    requires right { is_refuted below (map view refuted.now.part.items) evidence.now ≡ true }
    ensures told { IfOk result (λ some. IfSome some (λ told. IsEvidenceTold below
        (first_line version) (map view sessions.now) refuted.now told.known_as told.text.items)) }
{
    if line_count(sessions) > MANY_LINES {
        return Ok(None);
    }
    let places = places_of(alloc, version, sessions, refuted)?;
    let text = evidence_text(alloc, &refuted.part, &places, evidence)?;
    let known_as = owned(alloc, evidence_name(below, evidence))?;
    Ok(Some(Explained { text, known_as }))
}

/// Why a part of these sessions has no order of a level below prefix.
pub fn explain_below(
    alloc: Global,
    version: Version,
    sessions: &[Session],
    refuted: &RefutedPart,
    below: Level,
) -> Result<Explained, AllocError>
    requires made { IsMadeOf (map view sessions.now) refuted.now }
    ensures said { IfOk result (λ told. IsSaidBelow below (first_line version)
        (map view sessions.now) refuted.now told.known_as told.text.items) }
{
    if let Some(evidence) = evidence_of(alloc, refuted, below)?
        && let Some(told) = tell_evidence(alloc, version, sessions, refuted, below, &evidence)?
    {
        return Ok(told);
    }
    searched(alloc)
}
