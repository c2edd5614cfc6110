//! Evidence as text.

ghost use Rattle.std.specs.Prelude.{◌≡◌, map, IfOk};
ghost use Rattle.session_log.specs.Text.{view};
ghost use Rattle.log_lines.specs.Rows.{rows_of};
ghost use Rattle.tell_evidence.specs.Evidence as spec;

use crate::edges::{put_circle, put_initial};
use crate::faults::put_fault;
use crate::phrases::Log;
use level_refutations::Evidence;
use log_lines::LogPlaces;
use session_log::Session;
use std::alloc::{AllocError, Global};

/// Evidence against a level of these sessions, in lines: it is told in short, and then each of its
/// edges with its lines by these places. It is not asked whether the evidence is right.
pub fn evidence_text(
    alloc: Global,
    sessions: &[Session],
    places: &LogPlaces,
    evidence: &Evidence,
) -> Result<Vec<u8>, AllocError>
    ensures text { IfOk result (λ text. text.items ≡ spec.evidence_text (rows_of places.now)
        (map view sessions.now) evidence.now) }
{
    let mut out = Vec::new(alloc);
    let log = Log { sessions, places };
    match evidence {
        Evidence::Fault(fault) => put_fault(&mut out, &log, fault)?,
        Evidence::Circle(edges) => put_circle(&mut out, &log, edges)?,
        Evidence::Initial(overlooked) => put_initial(&mut out, &log, overlooked)?,
    }
    Ok(out)
}
