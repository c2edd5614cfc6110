//! Whether a log is within the limits that are no part of its sessions' rules.

ghost use Rattle.std.specs.Prelude.{◌^◌, ◌<◌, length, map, MatchOption};
ghost use Rattle.session_log.specs.Text.{view};
ghost use Rattle.log_definitions.specs.WellFormed.{log_lines};
ghost use Rattle.judging.specs.Limits.{IsOver};

use serializability::MAX_NODES;
use session_history::Tally;
use session_log::{Limit, MAX_LOG_BYTES, MAX_OPERATIONS, Session, line_count};

/// Of what the log of these sessions has too much to be judged by itself, but for keys. Sessions may
/// be as many as there are. What passes has few enough lines to be copied.
pub fn size_limit(sessions: &[Session]) -> Option<Limit>
    ensures { MatchOption result (length (log_lines (map view sessions.now)) < 2 ^ 63)
        (IsOver (map view sessions.now)) }
{
    let tally = Tally::of(sessions);
    if tally.operations > MAX_OPERATIONS {
        return Some(Limit::Operations);
    }
    if tally.committed.saturating_add(tally.unknown) > MAX_NODES {
        return Some(Limit::Committed);
    }
    if line_count(sessions) > MAX_LOG_BYTES {
        return Some(Limit::LogBytes);
    }
    None
}
