//! What shows that a part has no order of its snapshots and commits: an anomaly of its own, a
//! refutation by points, or evidence against a weaker level. Each is checked here, before a text or a
//! graph is made of it.

ghost use Rattle.std.specs.Prelude.{◌≡◌, true, map, IfOk, IfSome};
ghost use Rattle.std.specs.List.{AllByRecursion};
ghost use Rattle.session_log.specs.Text.{IsLegal, view};
ghost use Rattle.judging.specs.declared.judged.Finding.TheVariants as finding;
ghost use Rattle.level_refutations.specs.Refuted.{is_refuted};
ghost use Rattle.point_refutations.specs.Refuted as by_points;
ghost use Rattle.part_reasons.specs.Why.{IsOwn};
ghost use Rattle.part_reasons.specs.Shown.{IsShown};

use crate::own::is_own;
use judging::{Finding, RefutedPart};
use level_laws::Level as Weaker;
use level_proposals::{Proposal, find_break};
use level_refutations::Evidence;
use point_proposals::propose;
use point_refutations::Refutation;
use session_history::Anomaly;
use std::alloc::{AllocError, Global};

/// What shows that a part has no order of its snapshots and commits.
#[derive(Drop)]
pub enum Shown {
    /// An anomaly of its own.
    Anomaly(Anomaly),
    /// A refutation by points.
    Points(Refutation),
    /// Evidence that it has no causal order either.
    Evidence(Evidence),
    /// A search alone.
    Search,
}

/// Evidence against a level below prefix that is right, where some is found.
pub fn evidence_of(
    alloc: Global,
    refuted: &RefutedPart,
    below: Weaker,
) -> Result<Option<Evidence>, AllocError>
    ensures right { IfOk result (λ some. IfSome some (λ evidence.
        is_refuted below (map view refuted.now.part.items) evidence ≡ true)) }
{
    if let Proposal::Evidence(evidence) = find_break(alloc, below, &refuted.part)?
        && level_refutations::refutes(below, &refuted.part, &evidence)
    {
        return Ok(Some(evidence));
    }
    Ok(None)
}

/// A refutation by points that is right, where one is found.
pub fn refutation_of(
    alloc: Global,
    refuted: &RefutedPart,
    is_locked: bool,
) -> Result<Option<Refutation>, AllocError>
    ensures right { IfOk result (λ some. IfSome some (λ refutation.
        by_points.is_refuted is_locked (map view refuted.now.part.items) refutation ≡ true)) }
{
    if let Some(refutation) = propose(alloc, &refuted.part, is_locked)?
        && point_refutations::refutes(is_locked, &refuted.part, &refutation)
    {
        return Ok(Some(refutation));
    }
    Ok(None)
}

/// The anomaly that was found, where it is the part's own.
fn own_anomaly(alloc: Global, refuted: &RefutedPart) -> Result<Option<Anomaly>, AllocError>
    requires legal { AllByRecursion IsLegal (map view refuted.now.part.items) }
    ensures own { IfOk result (λ some. IfSome some (λ anomaly. IsOwn refuted.now)) }
    ensures found { IfOk result (λ some. IfSome some (λ anomaly.
        refuted.now.finding ≡ finding.Anomaly anomaly)) }
{
    if let Finding::Anomaly(anomaly) = refuted.finding
        && is_own(alloc, refuted)?
    {
        return Ok(Some(anomaly));
    }
    Ok(None)
}

/// Evidence that a part has no causal order, where some is found; else what else shows it.
fn evidence_or(
    alloc: Global,
    refuted: &RefutedPart,
    is_locked: bool,
    shown: Shown,
) -> Result<Shown, AllocError>
    requires shown { IsShown is_locked refuted.now shown }
    ensures shown { IfOk result (IsShown is_locked refuted.now) }
{
    match evidence_of(alloc, refuted, Weaker::Causal)? {
        Some(evidence) => Ok(Shown::Evidence(evidence)),
        None => Ok(shown),
    }
}

/// What shows it, where keys are locked (a snapshot order), or not (a prefix order). There evidence comes
/// before a refutation that takes steps, so that a fault has the name that it has at weaker levels.
pub fn shown_of(alloc: Global, refuted: &RefutedPart, is_locked: bool) -> Result<Shown, AllocError>
    requires legal { AllByRecursion IsLegal (map view refuted.now.part.items) }
    ensures shown { IfOk result (IsShown is_locked refuted.now) }
{
    if let Some(anomaly) = own_anomaly(alloc, refuted)? {
        return Ok(Shown::Anomaly(anomaly));
    }
    match refutation_of(alloc, refuted, is_locked)? {
        None => evidence_or(alloc, refuted, is_locked, Shown::Search),
        Some(refutation) => {
            let is_first = is_locked || refutation.steps.is_empty();
            let shown = Shown::Points(refutation);
            if is_first {
                Ok(shown)
            } else {
                evidence_or(alloc, refuted, is_locked, shown)
            }
        }
    }
}
