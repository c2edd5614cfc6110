//! The transactions of a log that are in a lost update, and of which keys.

ghost use Rattle.std.specs.Prelude.{◌≡◌, ◌++◌, ◌∷◌, [], ◌+◌, ◌&&◌, ℕ, List, map, if◌then◌else◌};
ghost use Rattle.std.specs.Prelude.{count_by, IfOk, OnOk};
ghost use Rattle.std.specs.Str.{bytes_eq};
ghost use Rattle.std.specs.List.{filter, list_any};
ghost use Rattle.session_log.specs.Text.{Transaction, view_txn};
ghost use Rattle.log_definitions.specs.Unknown.{is_committed};
ghost use Rattle.census.specs.Counts.{count_in, is_lost_with};
ghost use Rattle.census.specs.Updates.{is_lost};
ghost use Rattle.census.specs.Worst.{loses_at};
ghost use Rattle.census.specs.Tables.{view_ref, loses_among, KnowsUpdates};

use crate::key_counts::KeyCounts;
use crate::states::{KeyState, States, states_of};
use crate::updates::{Updates, is_updated};
use session_log::{Key, Op, Txn};
use std::alloc::{AllocError, Global};

/// Whether the operation is a read by which a transaction is in a lost update, where these states
/// are behind its operations.
fn is_lost_by<'a>(updates: &Updates<'a>, states: &States<'a>, op: &'a Op) -> bool
    ensures { result ≡ loses_among updates.now states.now op.now }
{
    match op {
        Op::Read { key, wid } => is_updated(states, key, *wid) && updates.again.has(key, *wid),
        Op::Write { .. } => false,
    }
}

/// Whether one of the operations is.
fn is_any_lost<'a>(updates: &Updates<'a>, states: &States<'a>, ops: &'a [Op]) -> bool
    ensures { result ≡ list_any (loses_among updates.now states.now) ops.now }
{
    for op in ops {
        if is_lost_by(updates, states, op) {
            return true;
        }
    }
    false
}

/// Adds a transaction, if it is committed and in a lost update.
fn add_lost<'a>(
    alloc: Global,
    lost: &mut Vec<&'a Txn>,
    updates: &Updates<'a>,
    txn: &'a Txn,
) -> Result<(), AllocError>
    ensures { (committed : List Transaction) → KnowsUpdates committed updates.now
        → OnOk result (map view_ref lost.new.items ≡ map view_ref lost.old.items
        ++ filter (is_lost committed) (filter is_committed (view_txn txn.now ∷ []))) }
{
    if !txn.is_committed() {
        return Ok(());
    }
    let ops = txn.ops.as_slice();
    let states = states_of(alloc, ops)?;
    if !is_any_lost(updates, &states, ops) {
        return Ok(());
    }
    lost.push(txn)?;
    Ok(())
}

/// The committed transactions that are in a lost update.
pub fn lost_of<'a>(
    alloc: Global,
    updates: &Updates<'a>,
    txns: &[&'a Txn],
) -> Result<Vec<&'a Txn>, AllocError>
    ensures { IfOk result (λ lost. (ts : List Transaction) → map view_ref txns.now ≡ ts
        → KnowsUpdates (filter is_committed ts) updates.now → map view_ref lost.items
        ≡ filter (is_lost (filter is_committed ts)) (filter is_committed ts)) }
{
    let mut lost = Vec::new(alloc);
    for txn in txns {
        add_lost(alloc, &mut lost, updates, *txn)?;
    }
    Ok(lost)
}

/// Whether a transaction that did this with a key is in a lost update of it.
fn is_lost_with<'a>(updates: &Updates<'a>, key: &'a Key, state: KeyState) -> bool
    ensures { result ≡ is_lost_with updates.now key.now state }
{
    match state.read {
        Some(wid) => state.written.is_some() && updates.again.has(key, wid),
        None => false,
    }
}

/// Adds a fault of the key, if a transaction that did this with it is in a lost update of it.
fn add_lost_key<'a>(
    counts: &mut KeyCounts<'a>,
    updates: &Updates<'a>,
    key: &'a Key,
    state: KeyState,
) -> Result<(), AllocError>
    ensures { OnOk result ((k : List ℕ) → count_in counts.new.table k
        ≡ count_in counts.old.table k
        + (if bytes_eq k key.now && is_lost_with updates.now key.now state then 1 else 0)) }
{
    if is_lost_with(updates, key, state) {
        counts.add(key)?;
    }
    Ok(())
}

/// Adds a fault of each key of which a transaction is in a lost update.
fn add_lost_keys<'a>(
    alloc: Global,
    counts: &mut KeyCounts<'a>,
    updates: &Updates<'a>,
    txn: &'a Txn,
) -> Result<(), AllocError>
    ensures { (ts : List Transaction) → KnowsUpdates ts updates.now
        → OnOk result ((k : List ℕ) → count_in counts.new.table k
        ≡ count_in counts.old.table k + (if loses_at ts k (view_txn txn.now) then 1 else 0)) }
{
    let states = states_of(alloc, txn.ops.as_slice())?;
    for (key, state) in &states.table {
        add_lost_key(counts, updates, *key, *state)?;
    }
    Ok(())
}

/// Adds a fault of each key of which one of these transactions is in a lost update, for each of
/// them.
pub fn add_all_lost_keys<'a>(
    alloc: Global,
    counts: &mut KeyCounts<'a>,
    updates: &Updates<'a>,
    lost: &[&'a Txn],
) -> Result<(), AllocError>
    ensures { (ts : List Transaction) → KnowsUpdates ts updates.now
        → OnOk result ((k : List ℕ) → count_in counts.new.table k
        ≡ count_in counts.old.table k + count_by (loses_at ts k) (map view_ref lost.now)) }
{
    for txn in lost {
        add_lost_keys(alloc, counts, updates, *txn)?;
    }
    Ok(())
}
