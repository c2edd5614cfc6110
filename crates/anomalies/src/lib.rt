//! The anomaly that rules out every serial order of a history, where there is one.
//!
//! Called by `reduction`, `cobra_formulas`, `judging` and `part_reasons`. It knows no graph and no text.
//!
//! Reads are looked at in log order, each once, beside what its transaction did to the key before
//! it. Where no read is an anomaly, the writers of each key are looked at once, with the node that
//! each reads the key from.
#![tactic(auto)]

mod reads;
mod updates;

ghost use Rattle.std.specs.Prelude.{◌≡◌, IfOk};
ghost use Rattle.serializability.specs.Anomalies.{anomaly_of};
ghost use Rattle.log_definitions.specs.Numbers.{log_of};

use session_history::{Anomaly, History};
use std::alloc::{AllocError, Global};

/// The anomaly of the history, where there is one: the first read in log order that is an anomaly,
/// else the lost update of the least key, then the least node read from, then the two least nodes.
///
/// It takes memory for one entry a key and one a node, and fails only where that is not to be had.
#[tactic(auto, unfolding(serializability::specs::Anomalies::anomaly_of))]
pub fn classify(alloc: Global, history: &History) -> Result<Option<Anomaly>, AllocError>
    ensures anomaly { IfOk result (λ a. a ≡ anomaly_of (log_of history.now)) }
{
    match reads::first_anomaly(alloc, history)? {
        Some(anomaly) => Ok(Some(anomaly)),
        None => updates::first_lost(alloc, history),
    }
}
