//! Whether a part has a serial order without that of sessions.

ghost use Rattle.std.specs.Prelude.{◌≡◌, ◌+◌, ◌∷◌, [], ◌≤◌, ◌<◌, length, map, IfOk, IfSome, MatchOption, None, Some};
ghost use Rattle.std.specs.List.{AllByRecursion};
ghost use Rattle.session_log.specs.Text.{IsLegal, view, view_txn};
ghost use Rattle.log_definitions.specs.Unknown.{txns_in};
ghost use Rattle.part_reasons.specs.Apart as spec;
ghost use Rattle.part_reasons.specs.Apart.{IsFound, IsSerialApart, IsSerialApartAt};

use crate::explaining::MANY_LINES;
use deciding::{Decision, Means, decide};
use desk::gate::OpenGate;
use judging::{JudgeMeans, Level};
use log_parts::copy_log;
use polygraph::PolyFault;
use session_history::History;
use session_log::{LogFault, MAX_SESSIONS, Session, Txn, Version, line_count};
use std::alloc::{AllocError, Global};
use std::sync::Wait;
use std::thread::Threads;
use std::time::Clock;

/// The transactions of all sessions.
fn all_txns(alloc: Global, sessions: Vec<Session>) -> Result<Vec<Txn>, AllocError>
    ensures txns { IfOk result (λ all.
        map view_txn all.items ≡ txns_in (map view sessions.items)) }
{
    let mut all = Vec::new(alloc);
    for session in sessions {
        let mut txns = session.txns;
        all.append(&mut txns)?;
    }
    Ok(all)
}

/// A session of one transaction, of which the number is one more than this.
fn single(alloc: Global, before: usize, txn: Txn) -> Result<Session, AllocError>
    requires few { before < MAX_SESSIONS }
    ensures single { IfOk result (λ s. map view (s ∷ []) ≡ spec.singles (before + 1) (view_txn txn ∷ [])) }
{
    let mut txns = Vec::new(alloc);
    txns.push(txn)?;
    Ok(Session {
        number: before as u16 + 1,
        txns,
    })
}

/// Each of these in a session of its own.
fn singles(alloc: Global, txns: Vec<Txn>) -> Result<Vec<Session>, AllocError>
    requires few { length txns.items ≤ MAX_SESSIONS }
    ensures singles { IfOk result (λ all.
        map view all.items ≡ spec.singles 1 (map view_txn txns.items)) }
{
    let mut all = Vec::new(alloc);
    for txn in txns {
        let session = single(alloc, all.len(), txn)?;
        all.push(session)?;
    }
    Ok(all)
}

/// A log without the order of its sessions; `None` where it has more transactions than `check` takes
/// sessions.
fn without_sessions(alloc: Global, part: &[Session]) -> Result<Option<Vec<Session>>, AllocError>
    requires legal { AllByRecursion IsLegal (map view part.now) }
    ensures apart { IfOk result (λ all. MatchOption all
        (MAX_SESSIONS < length (txns_in (map view part.now)))
        (λ all. map view all.items ≡ spec.apart (map view part.now))) }
    ensures legal { IfOk result (λ all.
        IfSome all (λ all. AllByRecursion IsLegal (map view all.items))) }
{
    let txns = all_txns(alloc, copy_log(alloc, part)?)?;
    if txns.len() > MAX_SESSIONS {
        return Ok(None);
    }
    Ok(Some(singles(alloc, txns)?))
}

/// Whether a decision is an order.
fn is_order(decision: &Decision) -> bool
    ensures order { result ≡ spec.is_order decision.now }
{
    matches!(decision, Decision::Serial(_))
}

/// Whether a search within the budget finds a serial order of a history.
#[tactic(auto, using(crate::proofs::Decided::found))]
fn is_found<R: Threads + Wait + Clock + Sync>(
    rt: &R,
    alloc: Global,
    history: &History,
    means: &Means,
) -> Result<bool, AllocError>
    ensures found { IfOk result (IsFound means.now.budget history.now) }
{
    match decide(rt, alloc, history, means, &OpenGate) {
        Ok(decision) => Ok(is_order(&decision)),
        Err(PolyFault::TooManyChoices) => Ok(false),
        Err(PolyFault::Memory) => Err(AllocError),
    }
}

/// Whether these sessions, which are a part without the order of its own, have a serial order.
fn is_found_apart<R: Threads + Wait + Clock + Sync>(
    rt: &R,
    alloc: Global,
    _part: &[Session],
    apart: Vec<Session>,
    means: &Means,
) -> Result<bool, AllocError>
    requires legal { AllByRecursion IsLegal (map view apart.items) }
    requires apart { map view apart.items ≡ spec.apart (map view _part.now) }
    ensures found { IfOk result (IsSerialApart means.now.budget (map view _part.now)) }
{
    if line_count(&apart) > MANY_LINES {
        return Ok(false);
    }
    match History::build(alloc, Version::One, apart) {
        Ok(history) => {
            let found = is_found(rt, alloc, &history, means)?;
            Ok(found)
        }
        Err(fault) => match fault {
            LogFault::Memory => Err(AllocError),
            _ => Ok(false),
        },
    }
}

/// Whether it is known of a part, which has no serial order, that it has one without the order of
/// sessions.
pub fn is_serial_apart<R: Threads + Wait + Clock + Sync>(
    rt: &R,
    alloc: Global,
    part: &[Session],
    means: &JudgeMeans,
) -> Result<bool, AllocError>
    requires legal { AllByRecursion IsLegal (map view part.now) }
    ensures told { IfOk result (IsSerialApartAt means.now.level means.now.deciding.budget
        (map view part.now)) }
{
    match means.level {
        Level::Snapshot | Level::Prefix | Level::Below(_) => Ok(false),
        Level::Serializable => match without_sessions(alloc, part)? {
            None => Ok(false),
            Some(apart) => is_found_apart(rt, alloc, part, apart, &means.deciding),
        },
    }
}
