//! Sessions whose outcomes are known: a transaction whose client was not told counts as committed
//! where it must have been, and else as aborted.
//!
//! Called by `judging`, `split_command` and `census_command`. It knows no node and no order.
#![tactic(auto)]

mod count;
mod settling;

ghost use Rattle.std.specs.Prelude.{◌≡◌, nat_eq, map, IfOk};
ghost use Rattle.std.specs.List.{IsDistinct, AllByRecursion};
ghost use Rattle.session_log.specs.Text.{view, IsLegal};
ghost use Rattle.log_definitions.specs.Unknown.{resolved, ops_in};
ghost use Rattle.log_definitions.specs.WellFormed.{written};

use crate::count::unknown_in;
use crate::settling::settle_all;
use session_history::taken_among;
use session_log::Session;
use std::alloc::{AllocError, Global};

/// The sessions with their outcomes known.
pub fn resolve(alloc: Global, sessions: Vec<Session>) -> Result<Vec<Session>, AllocError>
    requires legal { AllByRecursion IsLegal (map view sessions.items) }
    requires numbers { IsDistinct nat_eq (map (λ s. s.number) (map view sessions.items)) }
    requires writes { IsDistinct nat_eq (written (ops_in (map view sessions.items))) }
    ensures resolved { IfOk result (λ ss. map view ss.items ≡ resolved (map view sessions.items)) }
{
    let mut sessions = sessions;
    let unknown = unknown_in(&sessions);
    let taken = taken_among(alloc, &sessions, unknown)?;
    settle_all(&mut sessions, &taken);
    Ok(sessions)
}
