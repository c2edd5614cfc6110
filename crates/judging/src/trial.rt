//! What a part says of a log.

ghost use Rattle.std.specs.Prelude.{◌≡◌, List, map, IfOk};
ghost use Rattle.session_log.specs.Text.{ClientSession, view};
ghost use Rattle.log_laws.specs.Logs.{IsLog};
ghost use Rattle.log_parts.specs.Picked.{flags_view, chosen};
ghost use Rattle.judging.specs.Finds.{IsFound, IsAttempt};
ghost use Rattle.judging.specs.declared.means.JudgeMeans.{JudgeMeans};

use crate::found::{Found, see_log};
use crate::judged::{RefutedPart, Tried};
use crate::means::JudgeMeans;
use log_parts::part_of;
use order_proposals::Flags;
use session_history::NodeIx;
use session_log::Session;
use std::alloc::{AllocError, Global};
use std::sync::Wait;
use std::thread::Threads;
use std::time::Clock;

/// What a part says of a log.
#[derive(Drop)]
pub enum Attempt {
    /// It has no order, and so the log has none.
    Refuted(RefutedPart),
    /// It says nothing, and this became of it.
    Open(Tried),
}

/// What a part says of a log, and which of its nodes show it, where some few do.
#[derive(Drop)]
pub struct Trial {
    pub attempt: Attempt,
    pub nodes: Vec<NodeIx>,
}

/// What is said where this is found of the part of these flags.
fn told(part: Vec<Session>, flags: Flags, found: Found) -> Attempt
    ensures { (m : JudgeMeans) (ss : List ClientSession) → IsLog ss
        → map view part.items ≡ chosen (flags_view flags.items) ss
        → IsFound m (map view part.items) found
        → IsAttempt m ss (flags_view flags.items) result }
{
    match found {
        Found::Refuted(finding) => Attempt::Refuted(RefutedPart {
            part,
            flags: Some(flags),
            finding,
        }),
        Found::Serial(_) => Attempt::Open(Tried::PartSerial),
        Found::Undecided(why) => Attempt::Open(Tried::PartOpen(why)),
    }
}

/// What the part of these flags says of a log whose outcomes are known.
pub fn try_part<R: Threads + Wait + Clock + Sync>(
    rt: &R,
    alloc: Global,
    sessions: &[Session],
    flags: Flags,
    means: &JudgeMeans,
) -> Result<Trial, AllocError>
    requires log { IsLog (map view sessions.now) }
    ensures { IfOk result (λ trial.
        IsAttempt means.now (map view sessions.now) (flags_view flags.items) trial.attempt) }
{
    let part = part_of(alloc, sessions, &flags)?;
    let seen = see_log(rt, alloc, &part, means)?;
    Ok(Trial {
        attempt: told(part, flags, seen.found),
        nodes: seen.nodes,
    })
}
