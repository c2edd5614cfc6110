//! Levels below prefix, whose orders and evidence are found with no search, and checked.

ghost use Rattle.std.specs.Prelude.{◌≡◌, map, IfOk, IfSome};
ghost use Rattle.session_log.specs.Text.{view};
ghost use Rattle.log_laws.specs.Logs.{IsLog};
ghost use Rattle.level_laws.specs.Seen.{IsLevelOrder};
ghost use Rattle.judging.specs.Finds.{IsFound};
ghost use Rattle.judging.specs.declared.level.Level.TheVariants as level;

use crate::flags::{flags_in_whole, other_flags};
use crate::found::{Found, Seen};
use crate::judged::{Finding, Why};
use crate::means::JudgeMeans;
use level_checks::keeps_level;
use level_laws::Level;
use level_proposals::find_break;
use level_refutations::{named_transactions, refutes};
use log_parts::part_of;
use order_proposals::{NotTried, Proposal};
use session_log::Session;
use std::alloc::{AllocError, Global};
use std::time::Clock;

/// What is proposed of these sessions: an order of the level, or the part that evidence names.
fn propose_in(alloc: Global, below: Level, sessions: &[Session]) -> Result<Proposal, AllocError> {
    match find_break(alloc, below, sessions)? {
        level_proposals::Proposal::Order(order) => Ok(Proposal::Order(order)),
        level_proposals::Proposal::Evidence(evidence) => {
            Ok(Proposal::Part(named_transactions(alloc, sessions, &evidence)?))
        }
        level_proposals::Proposal::TooMany => Ok(Proposal::NotTried(NotTried::TimeIsUp)),
    }
}

/// The same where some transactions are left out: then a part of the others.
pub fn propose_below(
    alloc: Global,
    below: Level,
    sessions: &[Session],
    left_out: &[Vec<bool>],
) -> Result<Proposal, AllocError> {
    if left_out.is_empty() {
        return propose_in(alloc, below, sessions);
    }
    let others = other_flags(alloc, left_out)?;
    let part = part_of(alloc, sessions, &others)?;
    match propose_in(alloc, below, &part)? {
        Proposal::Part(few) => {
            let flags = flags_in_whole(alloc, sessions, &others, &few)?;
            Ok(Proposal::Part(flags))
        }
        other => Ok(other),
    }
}

/// The proposed order, where it is one of the level.
pub fn judge_level_order(
    alloc: Global,
    below: Level,
    sessions: &[Session],
    order: &[usize],
) -> Result<Option<Vec<usize>>, AllocError>
    requires log { IsLog (map view sessions.now) }
    ensures order { IfOk result (λ found. IfSome found (λ order.
        IsLevelOrder below (map view sessions.now) order.items)) }
{
    let mut copy = Vec::new(alloc);
    copy.extend_from_slice(order)?;
    if keeps_level(alloc, below, sessions, &copy)? {
        return Ok(Some(copy));
    }
    Ok(None)
}

/// What is found of a log where this is proposed: that it has no order, where it is evidence that is
/// right.
fn found_by(
    below: Level,
    log: &[Session],
    proposal: &level_proposals::Proposal,
    means: &JudgeMeans,
) -> Found
    requires log { IsLog (map view log.now) }
    requires level { means.now.level ≡ level.Below below }
    ensures found { IsFound means.now (map view log.now) result }
{
    match proposal {
        level_proposals::Proposal::Evidence(evidence) => {
            if refutes(below, log, evidence) {
                Found::Refuted(Finding::Overlooked)
            } else {
                Found::Undecided(Why::NotShown)
            }
        }
        level_proposals::Proposal::Order(_) | level_proposals::Proposal::TooMany => {
            Found::Undecided(Why::NotShown)
        }
    }
}

/// What is found of a log at a level below prefix.
pub fn see_below<R: Clock>(
    rt: &R,
    alloc: Global,
    below: Level,
    log: &[Session],
    means: &JudgeMeans,
) -> Result<Seen, AllocError>
    requires log { IsLog (map view log.now) }
    requires level { means.now.level ≡ level.Below below }
    ensures found { IfOk result (λ seen. IsFound means.now (map view log.now) seen.found) }
{
    let nodes = Vec::new(alloc);
    if means.is_over(rt) {
        let found = Found::Undecided(Why::NotBegun);
        return Ok(Seen { found, nodes });
    }
    let proposal = find_break(alloc, below, log)?;
    let found = found_by(below, log, &proposal, means);
    Ok(Seen { found, nodes })
}
