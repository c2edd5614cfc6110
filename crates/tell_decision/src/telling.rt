//! Why a decision stands.

ghost use Rattle.std.specs.Prelude.{◌≡◌, ◌+◌, ◌<◌, ◌^◌, length, IfOk};
ghost use Rattle.session_log.specs.Version.{first_line};
ghost use Rattle.log_definitions.specs.WellFormed.{log_lines};
ghost use Rattle.log_lines.specs.Rows.{own_places};
ghost use Rattle.deciding.specs.Decides.{IsDecided};
ghost use Rattle.tell_decision.specs.Explained.{empty_text, IsWhy, IsExplained};

use crate::explained::{explain_anomaly, explain_cycle, explain_dead, explain_tree};
use call_options::Format;
use deciding::Decision;
use log_lines::{LogPlaces, PlacedHistory};
use session_history::History;
use session_log::Version;
use std::alloc::{AllocError, Global};

/// What stands where there is nothing to explain: no line, or a graph without boxes.
fn empty(format: Format) -> &'static [u8]
    ensures text { result.now ≡ empty_text format }
{
    match format {
        Format::Text => b"",
        Format::Dot => b"strict digraph explanation {\nnode [shape=box];\n}\n",
    }
}

/// Why a decision about a history stands, in the places and lines that its transactions have: the
/// operations that show an anomaly; of each edge of a cycle the reason; the forced steps that
/// pruning's cycle needs, and the cycle; the steps that a tree needs, and the tree; before steps or a
/// tree, reads that rule out every order, where such are sought and found. Nothing, or a graph
/// without boxes, of an order and of a spent budget.
pub fn explain_placed(
    alloc: Global,
    log: &PlacedHistory<'_>,
    format: Format,
    decision: &Decision,
) -> Result<Vec<u8>, AllocError>
    requires decided { IsDecided log.now.history.now decision.now }
    ensures why { IfOk result (λ text. IsWhy format log.now decision.now text.items) }
{
    let _invariant = log.history.committed();
    match decision {
        Decision::Anomalous(anomaly) => explain_anomaly(alloc, log, format, *anomaly),
        Decision::Cyclic(line) => explain_cycle(alloc, log, format, line),
        Decision::Dead(ledger) => explain_dead(alloc, log, format, ledger),
        Decision::Refuted { reduced, tree } => explain_tree(alloc, log, format, reduced, tree),
        Decision::Serial(_) | Decision::Spent { .. } => Vec::from_slice(alloc, empty(format)),
    }
}

/// Why a decision about a history stands, in the lines of its log, which is of this version.
pub fn explain(
    alloc: Global,
    version: Version,
    history: &History,
    format: Format,
    decision: &Decision,
) -> Result<Vec<u8>, AllocError>
    requires room { length (log_lines history.now) + 2 < 2 ^ 63 }
    requires decided { IsDecided history.now decision.now }
    ensures explained { IfOk result (λ text. IsExplained format
        (own_places (first_line version) history.now) history.now decision.now text.items) }
{
    let places = LogPlaces::own(alloc, version, history.sessions())?;
    let log = PlacedHistory::of(alloc, history, &places)?;
    explain_placed(alloc, &log, format, decision)
}
