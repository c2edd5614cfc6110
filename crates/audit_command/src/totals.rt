//! How much a log holds.

ghost use Rattle.std.specs.Prelude.{◌≡◌, List, map, count_by, IfOk};
ghost use Rattle.session_log.specs.Text.{ClientSession, view, view_txn};
ghost use Rattle.log_definitions.specs.Unknown.{is_committed, resolved};
ghost use Rattle.audit_report.specs.Counts.{AreCounts};
ghost use Rattle.audit_command.specs.Audited.{nodes_in, AreTotals};

use audit_report::{LogCounts, Totals};
use session_log::{Session, Txn};
use std::alloc::AllocError;

/// How many of the transactions are committed.
fn nodes_among(txns: &[Txn]) -> usize
    ensures { result ≡ count_by is_committed (map view_txn txns.now) }
{
    let mut nodes = 0;
    for txn in txns {
        if txn.is_committed() {
            nodes += 1;
        }
    }
    nodes
}

/// How many transactions of the sessions are committed. A number that memory has no room for is
/// told as want of it.
fn nodes_in(sessions: &[Session]) -> Result<usize, AllocError>
    ensures { IfOk result (λ n. n ≡ nodes_in (map view sessions.now)) }
{
    let mut nodes: usize = 0;
    for session in sessions {
        nodes = nodes
            .checked_add(nodes_among(&session.txns))
            .ok_or(AllocError)?;
    }
    Ok(nodes)
}

/// How much a log holds that has these counts, and these sessions once outcomes are known.
pub fn totals_of(counts: LogCounts, known: &[Session]) -> Result<Totals, AllocError>
    ensures totals { IfOk result (λ t. (ss : List ClientSession) → AreCounts ss counts
        → map view known.now ≡ resolved ss → AreTotals ss t) }
{
    let nodes = nodes_in(known)?;
    Ok(Totals {
        counts,
        taken: nodes.saturating_sub(counts.committed),
    })
}
