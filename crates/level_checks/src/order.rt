//! Whether an order of numbered nodes keeps a level.

ghost use Rattle.std.specs.Prelude.{◌≡◌, ◌+◌, ◌<◌, ℕ, List, map, slice_index, IsTrue, IfOk, IfSome};
ghost use Rattle.session_log.specs.Text.{view};
ghost use Rattle.log_laws.specs.Logs.{IsLearntLog, IsSoundLog};
ghost use Rattle.level_laws.specs.Seen.{IsLevelOrder};
ghost use Rattle.level_checks.specs.Chains.{links_of};
ghost use Rattle.level_checks.specs.Nodes.{brief_of};
ghost use Rattle.level_checks.specs.Spots.{AreKept};
ghost use Rattle.level_checks.specs.Walk.{IsFollowed, Walked, IsWalk};

use crate::node::{Node, indices_of, nodes_of};
use crate::noted::Noted;
use crate::seen::{Row, judge};
use crate::trace::trace;
use crate::trail::Passed;
use key_tables::KeyTable;
use level_laws::Level;
use session_log::Session;
use std::alloc::{AllocError, Global};

/// How many numbers the rows may have in all.
const MOST_REACHES: usize = 0x1000_0000;

/// The last node of a session that was taken: its number and its position, or 0.
#[derive(Clone, Copy)]
pub struct Last {
    pub number: usize,
    pub position: usize,
}

/// What was passed on the way: where the look back for each key begins, the writes, what is noted of
/// them, how far each node sees, marks, a row of zeros, and the last node of each session.
#[derive(Drop)]
struct Way<'a> {
    table: KeyTable<'a>,
    entries: Vec<Passed>,
    noted: Noted,
    rows: Vec<Row>,
    marks: Vec<usize>,
    own: Vec<usize>,
    last: Vec<Last>,
}

/// The position of the last node of the session, where this one comes behind it there.
fn follow(last: &mut [Last], session: usize, number: usize, position: usize) -> Option<usize>
    ensures { IfSome result (IsFollowed last.old last.new session number position) }
{
    if session >= last.len() {
        return None;
    }
    let before = last[session];
    if number <= before.number {
        return None;
    }
    last[session] = Last { number, position };
    Some(before.position)
}

/// Takes the node with this number at this position.
fn take<'a>(
    alloc: Global,
    level: Level,
    nodes: &[Node<'a>],
    indices: &[usize],
    way: &mut Way<'a>,
    position: usize,
    number: usize,
) -> Result<bool, AllocError>
    ensures noted { IfOk result (λ is. IsTrue is → AreKept way.old.entries.items way.old.noted
        → AreKept way.new.entries.items way.new.noted) }
    ensures walked { IfOk result (λ is. IsTrue is → AreKept way.old.entries.items way.old.noted
        → (order : List ℕ) (i : ℕ) → position ≡ i + 1 → number ≡ slice_index order i
        → Walked level indices.now (map brief_of nodes.now) order i (links_of way.old.table)
        way.old.entries.items way.old.rows.items way.old.last.items
        → Walked level indices.now (map brief_of nodes.now) order (i + 1) (links_of way.new.table)
        way.new.entries.items way.new.rows.items way.new.last.items) }
{
    if number == 0 || number > nodes.len() {
        return Ok(false);
    }
    let node = nodes[number - 1];
    let index = usize::from(node.session);
    if index >= indices.len() {
        return Ok(false);
    }
    let session = indices[index];
    let Some(before) = follow(way.last.as_mut_slice(), session, number, position) else {
        return Ok(false);
    };
    let traced = trace(
        alloc,
        &mut way.table,
        &mut way.entries,
        &mut way.noted,
        position,
        session,
        node.ops,
    )?;
    let Some(looks) = traced else {
        return Ok(false);
    };
    let kept = judge(
        alloc,
        level,
        &way.entries,
        &way.noted,
        &looks,
        &mut way.rows,
        way.marks.as_mut_slice(),
        way.own.as_mut_slice(),
        before,
        session,
        position,
    )?;
    Ok(kept)
}

/// Whether the rows of so many nodes, for so many sessions, have few enough numbers.
fn is_room(level: Level, nodes: usize, width: usize) -> bool {
    match level {
        Level::ReadCommitted | Level::MonotonicAtomicView | Level::ReadAtomic => true,
        Level::Causal => width == 0 || nodes <= MOST_REACHES / width,
    }
}

/// Whether the order keeps the level. Where nothing is noted of writes, a long look back fails.
fn walk(
    alloc: Global,
    level: Level,
    is_kept: bool,
    nodes: &[Node],
    indices: &[usize],
    width: usize,
    order: &[usize],
) -> Result<bool, AllocError>
    ensures { IfOk result (λ is. IsTrue is
        → IsWalk level indices.now (map brief_of nodes.now) order.now) }
{
    if order.len() != nodes.len() || !is_room(level, order.len(), width) {
        return Ok(false);
    }
    let mut way = Way {
        table: KeyTable::new(alloc, order.len())?,
        entries: Vec::new(alloc),
        noted: Noted::new(alloc, is_kept),
        rows: Vec::new(alloc),
        marks: vec![in alloc; 0; order.len() + 1]?,
        own: vec![in alloc; 0; width]?,
        last: vec![in alloc; Last {
            number: 0,
            position: 0
        }; width]?,
    };
    for (i, number) in order.iter().enumerate() {
        if !take(alloc, level, nodes, indices, &mut way, i + 1, *number)? {
            return Ok(false);
        }
    }
    Ok(true)
}

/// The same, also where a look back is long: then the way is gone once more.
fn walk_either(
    alloc: Global,
    level: Level,
    nodes: &[Node],
    indices: &[usize],
    width: usize,
    order: &[usize],
) -> Result<bool, AllocError>
    ensures { IfOk result (λ is. IsTrue is
        → IsWalk level indices.now (map brief_of nodes.now) order.now) }
{
    if walk(alloc, level, false, nodes, indices, width, order)? {
        return Ok(true);
    }
    walk(alloc, level, true, nodes, indices, width, order)
}

/// Whether this order of these sessions, whose outcomes are known, keeps the level: by the numbers
/// of their committed transactions, from 1, by session and then by place.
pub fn keeps_level(
    alloc: Global,
    level: Level,
    sessions: &[Session],
    order: &[usize],
) -> Result<bool, AllocError>
    ensures yes { IfOk result (λ keeps. IsTrue keeps → IsLearntLog (map view sessions.now)
        → IsSoundLog (map view sessions.now)
        → IsLevelOrder level (map view sessions.now) order.now) }
{
    let nodes = nodes_of(alloc, sessions)?;
    let indices = indices_of(alloc, sessions)?;
    walk_either(alloc, level, &nodes, &indices, sessions.len(), order)
}
