//! Session numbers that stand twice.

ghost use Rattle.std.specs.Prelude.{◌≡◌, ◌<◌, ◌≤◌, ◌^◌, length, map, IfOk};
ghost use Rattle.session_log.specs.Text.{view};
ghost use Rattle.log_definitions.specs.WellFormed.{log_lines, session_twice};

use session_log::Session;
use std::alloc::{AllocError, Global};
use std::collections::BTreeSet;

/// The line of the first session whose number stood before, where the first session stands in line
/// `first`.
pub fn session_twice(
    alloc: Global,
    first: usize,
    sessions: &[Session],
) -> Result<Option<usize>, AllocError>
    requires low { first ≤ 2 }
    requires room { length (log_lines (map view sessions.now)) < 2 ^ 63 }
    ensures { IfOk result (λ found. found
        ≡ session_twice first (log_lines (map view sessions.now))) }
{
    let mut seen = BTreeSet::new(alloc);
    let mut line = first;
    for session in sessions {
        if !seen.insert(session.number)? {
            return Ok(Some(line));
        }
        line += session.line_count();
    }
    Ok(None)
}
