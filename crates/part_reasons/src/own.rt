//! Whether the anomaly that was found of a part is told of the part itself.

ghost use Rattle.std.specs.Prelude.{◌≡◌, true, map, IfOk};
ghost use Rattle.std.specs.List.{AllByRecursion};
ghost use Rattle.session_log.specs.Text.{IsLegal, view};
ghost use Rattle.serializability.specs.Anomalies.{anomaly_of};
ghost use Rattle.log_definitions.specs.Numbers.{log_of};
ghost use Rattle.part_reasons.specs.Why.{has_number, number_found, IsOwn};

use crate::explaining::MANY_LINES;
use anomalies::classify;
use judging::{Finding, RefutedPart};
use log_parts::copy_log;
use session_history::{Anomaly, History};
use session_log::{LogFault, Version, line_count};
use std::alloc::{AllocError, Global};

/// Whether there is an anomaly, and it has this number.
fn has_number(anomaly: Option<Anomaly>, number: u8) -> bool
    ensures { result ≡ has_number number anomaly }
{
    match anomaly {
        Some(anomaly) => anomaly.number() == number,
        None => false,
    }
}

/// Whether the anomaly of a history has this number.
fn is_numbered(alloc: Global, history: &History, number: u8) -> Result<bool, AllocError>
    ensures numbered { IfOk result (λ is. is ≡ has_number number (anomaly_of (log_of history.now))) }
{
    let found = classify(alloc, history)?;
    Ok(has_number(found, number))
}

/// The number of the anomaly that was found; 0 where none was.
fn number_found(finding: &Finding) -> u8
    ensures { result ≡ number_found finding.now }
{
    match finding {
        Finding::Anomaly(anomaly) => anomaly.number(),
        Finding::Cycle
        | Finding::Dead
        | Finding::Refuted
        | Finding::Formula
        | Finding::Overlooked => 0,
    }
}

/// Whether the anomaly of a part itself has the number of the one that was found; not where `check`
/// takes no log of the part.
pub fn is_own(alloc: Global, refuted: &RefutedPart) -> Result<bool, AllocError>
    requires legal { AllByRecursion IsLegal (map view refuted.now.part.items) }
    ensures own { IfOk result (λ own. own ≡ true → IsOwn refuted.now) }
{
    let number = number_found(&refuted.finding);
    if number == 0 || line_count(&refuted.part) > MANY_LINES {
        return Ok(false);
    }
    match History::build(alloc, Version::One, copy_log(alloc, &refuted.part)?) {
        Ok(history) => is_numbered(alloc, &history, number),
        Err(fault) => match fault {
            LogFault::Memory => Err(AllocError),
            _ => Ok(false),
        },
    }
}
