//! How much a log of any length holds.

ghost use Rattle.std.specs.Prelude.{◌≡◌, ◌-◌, ◌^◌, ◌<◌, List, length, IfOk, IsTrue};
ghost use Rattle.session_log.specs.Text.{ClientSession};
ghost use Rattle.log_definitions.specs.Unknown.{txns_in};
ghost use Rattle.log_definitions.specs.WellFormed.{keys_in};
ghost use Rattle.session_history.specs.Counted.{IsTally};
ghost use Rattle.audit_report.specs.Counts.{AreCounts};

use session_history::Tally;
use std::alloc::AllocError;

/// How much a log holds.
#[derive(Clone, Copy, Debug, PartialEq, Eq)]
pub struct LogCounts {
    pub sessions: usize,
    /// The transactions that the log says are committed.
    pub committed: usize,
    pub aborted: usize,
    /// Those whose outcome the client was not told.
    pub unknown: usize,
    pub keys: usize,
    pub operations: usize,
}

/// Whether each number is below `usize::MAX`, as it is of all that memory holds.
fn is_exact(tally: Tally) -> bool
    ensures { IsTrue result → ((tally.committed < 2 ^ 64 - 1) × (tally.aborted < 2 ^ 64 - 1)
        × (tally.unknown < 2 ^ 64 - 1) × (tally.operations < 2 ^ 64 - 1)) }
{
    tally.committed < usize::MAX
        && tally.aborted < usize::MAX
        && tally.unknown < usize::MAX
        && tally.operations < usize::MAX
}

/// How much a log holds that has so many sessions, so many keys, and transactions and operations as
/// these.
///
/// # Errors
/// Where a number is `usize::MAX`, of which no memory holds as many.
pub fn counts_of(tally: Tally, sessions: usize, keys: usize) -> Result<LogCounts, AllocError>
    ensures counts { (ss : List ClientSession) → IsTally (txns_in ss) tally → sessions ≡ length ss
        → keys ≡ length (keys_in ss) → IfOk result (AreCounts ss) }
{
    if !is_exact(tally) {
        return Err(AllocError);
    }
    Ok(LogCounts {
        sessions,
        committed: tally.committed,
        aborted: tally.aborted,
        unknown: tally.unknown,
        keys,
        operations: tally.operations,
    })
}
