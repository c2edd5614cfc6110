//! What is found of a log that is judged by itself.

ghost use Rattle.std.specs.Prelude.{◌≡◌, true, List, Some, IfOk, IfSome, map};
ghost use Rattle.session_log.specs.Text.{ClientSession, view};
ghost use Rattle.session_log.specs.declared.fault.LogFault.TheVariants.{OverLimit};
ghost use Rattle.serializability.specs.Anomalies.{anomaly_of};
ghost use Rattle.log_definitions.specs.Numbers.{log_of};
ghost use Rattle.log_laws.specs.Logs.{IsLog};
ghost use Rattle.deciding.specs.Decides.{Decides};
ghost use Rattle.judging.specs.Judges.{IsLeftOpen};
ghost use Rattle.judging.specs.Finds.{IsFound, IsLimitOrMemory, is_spent, of_serial};
ghost use Rattle.judging.specs.Levels.{is_split};
ghost use Rattle.judging.specs.declared.judged.Finding.TheVariants as finding;
ghost use Rattle.judging.specs.declared.means.JudgeMeans.{JudgeMeans};

use crate::below::see_below;
use crate::halves::joined_nodes;
use crate::judged::{Finding, Why};
use crate::level::{Level, LevelLog, log_at};
use crate::limits::size_limit;
use crate::means::JudgeMeans;
use anomalies::classify;
use deciding::{Decision, decide};
use desk::gate::OpenGate;
use log_parts::copy_log;
use order_cnf::CnfFault;
use polygraph::PolyFault;
use session_history::{Anomaly, History, NodeIx, NodeLine};
use session_log::{Limit, LogFault, Session, Version};
use solving::{Solution, solve_nodes};
use std::alloc::{AllocError, Global};
use std::sync::Wait;
use std::thread::Threads;
use std::time::Clock;
use tell_decision::nodes_of;

/// What is found of a log.
#[derive(Drop)]
pub enum Found {
    /// The log that is judged for it has this serial order.
    Serial(NodeLine),
    /// It has none.
    Refuted(Finding),
    /// It is not decided.
    Undecided(Why),
}

/// What a decision says of a log.
fn found_by(decision: Decision) -> Found
    ensures { (m : JudgeMeans) (ss : List ClientSession) → Decides m.deciding.budget ss decision
        → IsFound (of_serial m) ss result }
{
    match decision {
        Decision::Serial(order) => Found::Serial(order),
        Decision::Anomalous(anomaly) => Found::Refuted(Finding::Anomaly(anomaly)),
        Decision::Cyclic(_) => Found::Refuted(Finding::Cycle),
        Decision::Dead(_) => Found::Refuted(Finding::Dead),
        Decision::Refuted { .. } => Found::Refuted(Finding::Refuted),
        Decision::Spent { closed } => Found::Undecided(Why::Spent { closed }),
    }
}

/// What is found of a log.
#[derive(Drop)]
pub struct Seen {
    pub found: Found,
    /// Nodes that show that it has no order, where some few do. No contract speaks of them.
    pub nodes: Vec<NodeIx>,
}

/// What is decided of a history.
fn decided<R: Threads + Wait + Clock + Sync>(
    rt: &R,
    alloc: Global,
    history: &History,
    means: &JudgeMeans,
) -> Result<Seen, AllocError>
    ensures { IfOk result (λ seen. IsFound (of_serial means.now) history.now seen.found) }
{
    match decide(rt, alloc, history, &means.deciding, &OpenGate) {
        Ok(decision) => {
            let nodes = nodes_of(alloc, history, &decision)?;
            let found = found_by(decision);
            Ok(Seen { found, nodes })
        }
        Err(PolyFault::TooManyChoices) => Ok(undecided(alloc, Why::TooManyChoices)),
        Err(PolyFault::Memory) => Err(AllocError),
    }
}

/// Whether a search closed as many cubes as it may.
fn is_spent(found: &Found) -> bool
    ensures spent { result ≡ is_spent found.now }
{
    matches!(found, Found::Undecided(Why::Spent { .. }))
}

/// What a search that learns finds of a history, where it finds something, and nodes that show it.
fn learnt<R: Threads + Wait + Clock + Sync>(
    rt: &R,
    alloc: Global,
    history: &History,
    means: &JudgeMeans,
    nodes: &mut Vec<NodeIx>,
) -> Result<Option<Found>, AllocError>
    requires left { IsLeftOpen history.now }
    ensures found { IfOk result (λ found. IfSome found (IsFound (of_serial means.now) history.now)) }
{
    let conflicts = means.deciding.budget.get() as u32;
    let workers = means.deciding.workers;
    match solve_nodes(
        rt, alloc, history, false, conflicts, workers, &OpenGate, nodes,
    ) {
        Ok(Solution::Serial(order)) => Ok(Some(Found::Serial(order))),
        Ok(Solution::Refuted) => Ok(Some(Found::Refuted(Finding::Formula))),
        Ok(Solution::Spent) => Ok(None),
        Err(CnfFault::Memory) => Err(AllocError),
        Err(_) => Ok(None),
    }
}

/// What is found of a history for which few cubes are not enough: by a search that learns, and by
/// all cubes of the budget where that finds nothing.
fn seen_further<R: Threads + Wait + Clock + Sync>(
    rt: &R,
    alloc: Global,
    history: &History,
    means: &JudgeMeans,
) -> Result<Seen, AllocError>
    requires left { IsLeftOpen history.now }
    ensures { IfOk result (λ seen. IsFound (of_serial means.now) history.now seen.found) }
{
    if means.is_over(rt) {
        return Ok(undecided(alloc, Why::NotBegun));
    }
    let mut nodes = Vec::new(alloc);
    if let Some(found) = learnt(rt, alloc, history, means, &mut nodes)? {
        return Ok(Seen { found, nodes });
    }
    if means.is_over(rt) {
        return Ok(undecided(alloc, Why::NotBegun));
    }
    decided(rt, alloc, history, means)
}

/// What is found of a history.
fn seen_of<R: Threads + Wait + Clock + Sync>(
    rt: &R,
    alloc: Global,
    history: &History,
    means: &JudgeMeans,
) -> Result<Seen, AllocError>
    ensures { IfOk result (λ seen. IsFound (of_serial means.now) history.now seen.found) }
{
    let seen = decided(rt, alloc, history, &means.for_few_cubes())?;
    if is_spent(&seen.found) {
        seen_further(rt, alloc, history, means)
    } else {
        Ok(seen)
    }
}

/// That it is not decided.
fn undecided(alloc: Global, why: Why) -> Seen
    ensures { result.found ≡ Found.Undecided why }
{
    Seen {
        found: Found::Undecided(why),
        nodes: Vec::new(alloc),
    }
}

/// The limit that a log passes that has this fault, or that memory was refused.
fn passed_limit(fault: LogFault) -> Result<Limit, AllocError>
    requires { IsLimitOrMemory fault }
    ensures { IfOk result (λ which. fault ≡ OverLimit which) }
{
    match fault {
        LogFault::OverLimit { which } => Ok(which),
        LogFault::Memory => Err(AllocError),
        _ => unreachable!(),
    }
}

/// What is found of the serial orders of a log that can be judged by itself, and the nodes that show
/// it.
fn see_serial<R: Threads + Wait + Clock + Sync>(
    rt: &R,
    alloc: Global,
    log: &[Session],
    means: &JudgeMeans,
) -> Result<Seen, AllocError>
    requires log { IsLog (map view log.now) }
    ensures { IfOk result (λ seen. IsFound (of_serial means.now) (map view log.now) seen.found) }
{
    if means.is_over(rt) {
        return Ok(undecided(alloc, Why::NotBegun));
    }
    if let Some(which) = size_limit(log) {
        return Ok(undecided(alloc, Why::TooLarge { which }));
    }
    match History::build(alloc, Version::One, copy_log(alloc, log)?) {
        Ok(history) => seen_of(rt, alloc, &history, means),
        Err(fault) => Ok(undecided(
            alloc,
            Why::TooLarge {
                which: passed_limit(fault)?,
            },
        )),
    }
}

/// What is found of a log by its split log.
fn see_split<R: Threads + Wait + Clock + Sync>(
    rt: &R,
    alloc: Global,
    log: &[Session],
    split: &[Session],
    means: &JudgeMeans,
) -> Result<Seen, AllocError>
    requires log { IsLog (map view split.now) }
    ensures { IfOk result (λ seen. IsFound (of_serial means.now) (map view split.now) seen.found) }
{
    let seen = see_serial(rt, alloc, split, means)?;
    let nodes = joined_nodes(alloc, log, &seen.nodes)?;
    Ok(Seen {
        found: seen.found,
        nodes,
    })
}

/// What is found of a log at a level of points, by its split log.
fn see_points<R: Threads + Wait + Clock + Sync>(
    rt: &R,
    alloc: Global,
    log: &[Session],
    means: &JudgeMeans,
) -> Result<Seen, AllocError>
    requires log { IsLog (map view log.now) }
    requires level { is_split means.now.level ≡ true }
    ensures { IfOk result (λ seen. IsFound means.now (map view log.now) seen.found) }
{
    if means.is_over(rt) {
        return Ok(undecided(alloc, Why::NotBegun));
    }
    match log_at(alloc, means.level, log)? {
        LevelLog::Itself => unreachable!(),
        LevelLog::Split(split) => see_split(rt, alloc, log, &split, means),
        LevelLog::NoRoom(why) => Ok(undecided(alloc, Why::NoRoom(why))),
    }
}

/// The anomaly that is found, where one is.
fn anomaly_in(found: &Found) -> Option<Anomaly>
    ensures found { IfSome result (λ a. found.now ≡ Found.Refuted (finding.Anomaly a)) }
{
    match found {
        Found::Refuted(Finding::Anomaly(anomaly)) => Some(*anomaly),
        _ => None,
    }
}

/// The anomaly of a log itself, where it has one, and can be judged by itself.
fn own_anomaly(alloc: Global, log: &[Session]) -> Result<Option<Anomaly>, AllocError>
    requires log { IsLog (map view log.now) }
    ensures own { IfOk result (λ own. IfSome own (λ a.
        anomaly_of (log_of (map view log.now)) ≡ Some a)) }
{
    if size_limit(log).is_some() {
        return Ok(None);
    }
    match History::build(alloc, Version::One, copy_log(alloc, log)?) {
        Ok(history) => classify(alloc, &history),
        Err(fault) => match fault {
            LogFault::Memory => Err(AllocError),
            _ => Ok(None),
        },
    }
}

/// What is found of a log at a level of points; of an anomaly of its split log its own, which is what
/// is told.
fn with_own(alloc: Global, log: &[Session], found: Found) -> Result<Found, AllocError>
    requires log { IsLog (map view log.now) }
    ensures own { IfOk result (λ own. (m : JudgeMeans) → is_split m.level ≡ true
        → IsFound m (map view log.now) found → IsFound m (map view log.now) own) }
{
    let Some(_anomaly) = anomaly_in(&found) else {
        return Ok(found);
    };
    let own = own_anomaly(alloc, log)?;
    match own {
        Some(own) => Ok(Found::Refuted(Finding::Anomaly(own))),
        None => Ok(found),
    }
}

/// What is found of a log at a level of points, by its split log and by itself.
fn see_both<R: Threads + Wait + Clock + Sync>(
    rt: &R,
    alloc: Global,
    log: &[Session],
    means: &JudgeMeans,
) -> Result<Seen, AllocError>
    requires log { IsLog (map view log.now) }
    requires level { is_split means.now.level ≡ true }
    ensures { IfOk result (λ seen. IsFound means.now (map view log.now) seen.found) }
{
    let Seen { found, nodes } = see_points(rt, alloc, log, means)?;
    let found = with_own(alloc, log, found)?;
    Ok(Seen { found, nodes })
}

/// What is found of a log that can be judged by itself, and the nodes that show it.
pub fn see_log<R: Threads + Wait + Clock + Sync>(
    rt: &R,
    alloc: Global,
    log: &[Session],
    means: &JudgeMeans,
) -> Result<Seen, AllocError>
    requires log { IsLog (map view log.now) }
    ensures { IfOk result (λ seen. IsFound means.now (map view log.now) seen.found) }
{
    match means.level {
        Level::Serializable => see_serial(rt, alloc, log, means),
        Level::Snapshot | Level::Prefix => see_both(rt, alloc, log, means),
        Level::Below(below) => see_below(rt, alloc, below, log, means),
    }
}

/// What is found of a log that can be judged by itself.
pub fn judge_log<R: Threads + Wait + Clock + Sync>(
    rt: &R,
    alloc: Global,
    log: &[Session],
    means: &JudgeMeans,
) -> Result<Found, AllocError>
    requires log { IsLog (map view log.now) }
    ensures { IfOk result (IsFound means.now (map view log.now)) }
{
    Ok(see_log(rt, alloc, log, means)?.found)
}
