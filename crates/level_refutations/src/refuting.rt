//! Whether evidence shows that a log breaks a level.

ghost use Rattle.std.specs.Prelude.{◌≡◌, map, IsTrue};
ghost use Rattle.session_log.specs.Text.{view};
ghost use Rattle.log_laws.specs.Logs.{IsSoundLog, IsLearntLog};
ghost use Rattle.level_laws.specs.Seen.{HasLevelOrder};
ghost use Rattle.level_refutations.specs.Refuted.{is_refuted};

use crate::edges::{is_circle, is_initial};
use crate::evidence::Evidence;
use crate::whys::is_right_fault;
use level_laws::Level;
use session_log::Session;

/// Whether the evidence is right.
fn is_right(level: Level, sessions: &[Session], evidence: &Evidence) -> bool
    ensures { result ≡ is_refuted level (map view sessions.now) evidence.now }
{
    match evidence {
        Evidence::Fault(fault) => is_right_fault(sessions, *fault),
        Evidence::Circle(edges) => is_circle(level, sessions, edges),
        Evidence::Initial(overlooked) => is_initial(level, sessions, overlooked),
    }
}

/// Whether the evidence is right: then these sessions, whose outcomes are known, have no order of
/// the level.
pub fn refutes(level: Level, sessions: &[Session], evidence: &Evidence) -> bool
    ensures exact { result ≡ is_refuted level (map view sessions.now) evidence.now }
    ensures none { IsTrue result → IsSoundLog (map view sessions.now)
        → IsLearntLog (map view sessions.now) → HasLevelOrder level (map view sessions.now) → ⊥ }
{
    is_right(level, sessions, evidence)
}
