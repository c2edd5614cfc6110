//! Anomalies, cycles, dead ledgers and refutation trees.

ghost use Rattle.std.specs.Prelude.{◌≡◌, IfOk};
ghost use Rattle.serializability.specs.Reads.{IsClean};
ghost use Rattle.log_definitions.specs.Numbers.{log_of};
ghost use Rattle.reduction.specs.Outcome.{IsCyclicHistory, IsDeadHistory, IsOpenHistory};
ghost use Rattle.cube_laws.specs.Trees.{IsRefutationTree};
ghost use Rattle.tell_reasons.specs.Anomalies.{anomaly_text};
ghost use Rattle.tell_decision.specs.Explained.{lines_text, IsCycleWritten};
ghost use Rattle.tell_decision.specs.Explained.{IsDeadWritten, IsTreeWritten};

use crate::cycles::{cycle_items, dead_items, tree_items};
use crate::written::{Told, written, written_lines};
use call_options::Format;
use cube_laws::Tree;
use log_lines::PlacedHistory;
use prune_ledger::{Ledger, Reduced};
use reasons::crossed_reads;
use serializability::{Anomaly, NodeIx};
use session_history::History;
use std::alloc::{AllocError, Global};
use tell_reasons::put_anomaly;

/// The operations that show an anomaly.
pub fn explain_anomaly(
    alloc: Global,
    log: &PlacedHistory<'_>,
    format: Format,
    anomaly: Anomaly,
) -> Result<Vec<u8>, AllocError>
    ensures text { IfOk result (λ text.
        text.items ≡ lines_text format (anomaly_text log.now anomaly)) }
{
    let mut lines = Vec::new(alloc);
    put_anomaly(&mut lines, log, anomaly)?;
    written_lines(alloc, format, lines)
}

/// The edges of a cycle that is known of a history without an anomaly, each with its reason and
/// each run of edges of one session as one edge, and the cycle's name.
pub fn explain_cycle(
    alloc: Global,
    log: &PlacedHistory<'_>,
    format: Format,
    line: &[NodeIx],
) -> Result<Vec<u8>, AllocError>
    requires clean { IsClean (log_of log.now.history.now) }
    requires cyclic { IsCyclicHistory log.now.history.now line.now }
    ensures written { IfOk result (λ text. IsCycleWritten line.now format log.now text.items) }
{
    let items = cycle_items(alloc, log.history, line)?;
    let text = written(alloc, log, format, Told::Cycle, &items)?;
    Ok(text)
}

/// Reads that rule out every order, where there are such and they are sought; the forced steps that
/// the cycle of a dead ledger needs, the cycle, and its name.
pub fn explain_dead(
    alloc: Global,
    log: &PlacedHistory<'_>,
    format: Format,
    ledger: &Ledger,
) -> Result<Vec<u8>, AllocError>
    requires clean { IsClean (log_of log.now.history.now) }
    requires dead { IsDeadHistory log.now.history.now ledger.now }
    ensures written { IfOk result (λ text. IsDeadWritten format log.now text.items) }
{
    let items = dead_items(alloc, log.history, ledger)?;
    let found = crossed_reads(alloc, log.history)?;
    let text = written(alloc, log, format, Told::Dead(found), &items)?;
    Ok(text)
}

/// Reads that rule out every order, where there are such and they are sought; the forced steps that
/// the cycles of a refutation tree need, and the tree.
pub fn explain_tree(
    alloc: Global,
    log: &PlacedHistory<'_>,
    format: Format,
    reduced: &Reduced,
    tree: &Tree,
) -> Result<Vec<u8>, AllocError>
    requires clean { IsClean (log_of log.now.history.now) }
    requires left { IsOpenHistory log.now.history.now reduced.now }
    requires refutes { IsRefutationTree reduced.now.poly tree.now }
    ensures written { IfOk result (λ text.
        IsTreeWritten reduced.now.poly.choices tree.now format log.now text.items) }
{
    let items = tree_items(alloc, log.history, reduced, tree)?;
    let found = crossed_reads(alloc, log.history)?;
    let text = written(alloc, log, format, Told::Tree(found), &items)?;
    Ok(text)
}
