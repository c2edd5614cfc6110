//! A part that has no order, made smaller. What is left out is tried, and no contract speaks of it;
//! what is told in the end is decided once more.

ghost use Rattle.std.specs.Prelude.{map, IfOk};
ghost use Rattle.session_log.specs.Text.{view};
ghost use Rattle.log_laws.specs.Logs.{IsLog};
ghost use Rattle.judging.specs.Made.{IsToldPart};

use crate::flags::{
    all_flags, copy_flags, count_flags, flags_in_whole, flags_of_nodes, places_of, set_flag,
    with_writers,
};
use crate::judged::RefutedPart;
use crate::means::JudgeMeans;
use crate::trial::{Attempt, Trial, try_part};
use order_proposals::Flags;
use session_history::NodeIx;
use session_log::Session;
use std::alloc::{AllocError, Global};
use std::sync::Wait;
use std::thread::Threads;
use std::time::Clock;

/// So much work is done to go on to what decided it, and so much to leave out transactions: a
/// decision of so many transactions is so much and `DECISION` more.
const WORK: usize = 40_000;

const DECISION: usize = 100;
/// So often the way goes on to what decided it, and so often chunks are halved.
const ROUNDS: usize = 10;

/// Decides the part of these flags. The answer is its nodes that show that it has no order, as far
/// as they are known, or `None` where it has one or is not decided.
fn nodes_against<R: Threads + Wait + Clock + Sync>(
    rt: &R,
    alloc: Global,
    log: &[Session],
    flags: &[Vec<bool>],
    means: &JudgeMeans,
    work: &mut usize,
) -> Result<Option<Vec<NodeIx>>, AllocError>
    requires log { IsLog (map view log.now) }
{
    let cost = count_flags(flags).saturating_add(DECISION);
    if *work < cost {
        return Ok(None);
    }
    *work -= cost;
    let Trial { attempt, nodes } = try_part(rt, alloc, log, copy_flags(alloc, flags)?, means)?;
    match attempt {
        Attempt::Refuted(_) => Ok(Some(nodes)),
        Attempt::Open(_) => Ok(None),
    }
}

/// These transactions, where they are fewer than so many and have no order, and their nodes that
/// show it.
fn fewer_against<R: Threads + Wait + Clock + Sync>(
    rt: &R,
    alloc: Global,
    log: &[Session],
    few: Flags,
    count: usize,
    means: &JudgeMeans,
    work: &mut usize,
) -> Result<Option<(Flags, Vec<NodeIx>)>, AllocError>
    requires log { IsLog (map view log.now) }
{
    if count_flags(&few) >= count {
        return Ok(None);
    }
    let found = nodes_against(rt, alloc, log, &few, means, work)?;
    Ok(found.map(|found| (few, found)))
}

/// The transactions of these nodes, or these and whom they read from, where they are fewer and have
/// no order.
fn narrowed<R: Threads + Wait + Clock + Sync>(
    rt: &R,
    alloc: Global,
    log: &[Session],
    flags: &[Vec<bool>],
    nodes: &[NodeIx],
    means: &JudgeMeans,
    work: &mut usize,
) -> Result<Option<(Flags, Vec<NodeIx>)>, AllocError>
    requires log { IsLog (map view log.now) }
{
    let count = count_flags(flags);
    let few = flags_of_nodes(alloc, log, flags, nodes)?;
    let more = with_writers(alloc, log, &few)?;
    if let Some(found) = fewer_against(rt, alloc, log, few, count, means, work)? {
        return Ok(Some(found));
    }
    fewer_against(rt, alloc, log, more, count, means, work)
}

/// Goes on to the transactions that decided it, as long as they are fewer.
fn narrow<R: Threads + Wait + Clock + Sync>(
    rt: &R,
    alloc: Global,
    log: &[Session],
    flags: &mut Flags,
    nodes: &[NodeIx],
    means: &JudgeMeans,
    work: &mut usize,
) -> Result<(), AllocError>
    requires log { IsLog (map view log.now) }
{
    let mut nodes = nodes.to_vec(alloc)?;
    for _ in 0..ROUNDS {
        if nodes.is_empty() {
            break;
        }
        let Some((few, next)) = narrowed(rt, alloc, log, flags, &nodes, means, work)? else {
            break;
        };
        *flags = few;
        nodes = next;
    }
    Ok(())
}

/// These flags without those of some transactions, where they are more.
fn without(
    alloc: Global,
    flags: &[Vec<bool>],
    places: &[(usize, usize)],
) -> Result<Option<Flags>, AllocError> {
    let mut less = copy_flags(alloc, flags)?;
    for place in places {
        set_flag(&mut less, *place, false);
    }
    let is_less = count_flags(&less) < count_flags(flags);
    Ok(is_less.then_some(less))
}

/// Leaves out these transactions, where the others have no order, and all but those that show it.
fn leave_out_some<R: Threads + Wait + Clock + Sync>(
    rt: &R,
    alloc: Global,
    log: &[Session],
    flags: &mut Flags,
    places: &[(usize, usize)],
    means: &JudgeMeans,
    work: &mut usize,
) -> Result<(), AllocError>
    requires log { IsLog (map view log.now) }
{
    let Some(less) = without(alloc, flags, places)? else {
        return Ok(());
    };
    if let Some(nodes) = nodes_against(rt, alloc, log, &less, means, work)? {
        *flags = less;
        narrow(rt, alloc, log, flags, &nodes, means, work)?;
    }
    Ok(())
}

/// Leaves out so many transactions at once, where the others have no order.
fn leave_out_chunks<R: Threads + Wait + Clock + Sync>(
    rt: &R,
    alloc: Global,
    log: &[Session],
    flags: &mut Flags,
    size: usize,
    means: &JudgeMeans,
    work: &mut usize,
) -> Result<(), AllocError>
    requires log { IsLog (map view log.now) }
{
    let places = places_of(alloc, flags)?;
    for i in 0..places.len() {
        let start = i.saturating_mul(size);
        let end = start.saturating_add(size).min(places.len());
        let Some(chunk) = places.as_slice().get(start..end) else {
            break;
        };
        if chunk.is_empty() {
            break;
        }
        leave_out_some(rt, alloc, log, flags, chunk, means, work)?;
    }
    Ok(())
}

/// Leaves out halves, quarters and so on, and in the end each transaction in turn.
fn leave_out<R: Threads + Wait + Clock + Sync>(
    rt: &R,
    alloc: Global,
    log: &[Session],
    flags: &mut Flags,
    means: &JudgeMeans,
    work: &mut usize,
) -> Result<(), AllocError>
    requires log { IsLog (map view log.now) }
{
    let mut size = count_flags(flags) / 2;
    for _ in 0..ROUNDS {
        if size == 0 {
            break;
        }
        leave_out_chunks(rt, alloc, log, flags, size, means, work)?;
        size /= 2;
    }
    Ok(())
}

/// Some transactions of a log that have no order, where these nodes show that it has none.
fn shrink<R: Threads + Wait + Clock + Sync>(
    rt: &R,
    alloc: Global,
    log: &[Session],
    nodes: &[NodeIx],
    means: &JudgeMeans,
) -> Result<Flags, AllocError>
    requires log { IsLog (map view log.now) }
{
    let means = means.for_few_cubes();
    let mut work = WORK;
    let mut flags = all_flags(alloc, log, true)?;
    narrow(rt, alloc, log, &mut flags, nodes, &means, &mut work)?;
    work = WORK;
    leave_out(rt, alloc, log, &mut flags, &means, &mut work)?;
    Ok(flags)
}

/// Fewer transactions of a part that is told, by the whole log.
fn fewer<R: Threads + Wait + Clock + Sync>(
    rt: &R,
    alloc: Global,
    sessions: &[Session],
    told: &RefutedPart,
    nodes: &[NodeIx],
    means: &JudgeMeans,
) -> Result<Flags, AllocError>
    requires log { IsLog (map view sessions.now) }
    requires told { IsToldPart means.now.level (map view sessions.now) told.now }
{
    let few = shrink(rt, alloc, &told.part, nodes, means)?;
    match &told.flags {
        Some(flags) => flags_in_whole(alloc, sessions, flags, &few),
        None => Ok(few),
    }
}

/// A part that is told of a log whose outcomes are known, or a smaller one of its transactions that
/// has no order either.
pub fn smaller<R: Threads + Wait + Clock + Sync>(
    rt: &R,
    alloc: Global,
    sessions: &[Session],
    told: RefutedPart,
    nodes: &[NodeIx],
    means: &JudgeMeans,
) -> Result<RefutedPart, AllocError>
    requires log { IsLog (map view sessions.now) }
    requires told { IsToldPart means.now.level (map view sessions.now) told }
    ensures { IfOk result (IsToldPart means.now.level (map view sessions.now)) }
{
    let flags = fewer(rt, alloc, sessions, &told, nodes, means)?;
    let Trial { attempt, .. } = try_part(rt, alloc, sessions, flags, means)?;
    match attempt {
        Attempt::Refuted(less) => Ok(less),
        Attempt::Open(_) => Ok(told),
    }
}
