//! The versions that transactions update: they read them and write the key.

ghost use Rattle.std.specs.Prelude.{◌≡◌, ◌++◌, ◌∷◌, [], ◌||◌, ◌&&◌, ℕ, List, IfOk, OnOk};
ghost use Rattle.std.specs.List.{filter, list_any};
ghost use Rattle.session_log.specs.Text.{Transaction};
ghost use Rattle.log_definitions.specs.Unknown.{is_committed as is_committed_txn};
ghost use Rattle.census.specs.Tables.{at_read, updates_by, updates_in, AreBehind, KnowsUpdates};
ghost use Rattle.census.specs.Versions.{has_version};

use crate::states::States;
use crate::versions::Versions;
use session_log::{Key, Op};
use std::alloc::{AllocError, Global};

/// Whether a transaction updates the key from this version, where these states are behind its
/// operations.
pub fn is_updated<'a>(states: &States<'a>, key: &'a Key, wid: u64) -> bool
    ensures { result ≡ updates_by states.now key.now wid }
{
    let state = states.of(key);
    state.read_first(wid) && state.written.is_some()
}

/// Adds the version that an operation reads, if the transaction updates it.
fn add_update<'a>(
    versions: &mut Versions<'a>,
    states: &States<'a>,
    op: &'a Op,
) -> Result<(), AllocError>
    ensures { OnOk result ((k : List ℕ) (w : ℕ) → has_version versions.new k w
        ≡ (has_version versions.old k w || at_read (updates_by states.now) k w op.now)) }
{
    let Op::Read { key, wid } = op else {
        return Ok(());
    };
    if !is_updated(states, key, *wid) {
        return Ok(());
    }
    versions.add(key, *wid)?;
    Ok(())
}

/// Adds the versions that operations read, if the transaction updates them.
fn add_updates<'a>(
    versions: &mut Versions<'a>,
    states: &States<'a>,
    ops: &'a [Op],
) -> Result<(), AllocError>
    ensures { OnOk result ((k : List ℕ) (w : ℕ) → has_version versions.new k w
        ≡ (has_version versions.old k w || list_any (at_read (updates_by states.now) k w) ops.now)) }
{
    for op in ops {
        add_update(versions, states, op)?;
    }
    Ok(())
}

/// Adds the version that an operation reads, if the transaction updates it and another one did.
fn add_repeat<'a>(
    versions: &mut Versions<'a>,
    before: &Versions<'a>,
    states: &States<'a>,
    op: &'a Op,
) -> Result<(), AllocError>
    ensures { OnOk result ((k : List ℕ) (w : ℕ) → has_version versions.new k w
        ≡ (has_version versions.old k w
        || at_read (updates_in before.now states.now) k w op.now)) }
{
    let Op::Read { key, wid } = op else {
        return Ok(());
    };
    if !is_updated(states, key, *wid) || !before.has(key, *wid) {
        return Ok(());
    }
    versions.add(key, *wid)?;
    Ok(())
}

/// Adds the versions that operations read, if the transaction updates them and another one did.
fn add_repeats<'a>(
    versions: &mut Versions<'a>,
    before: &Versions<'a>,
    states: &States<'a>,
    ops: &'a [Op],
) -> Result<(), AllocError>
    ensures { OnOk result ((k : List ℕ) (w : ℕ) → has_version versions.new k w
        ≡ (has_version versions.old k w
        || list_any (at_read (updates_in before.now states.now) k w) ops.now)) }
{
    for op in ops {
        add_repeat(versions, before, states, op)?;
    }
    Ok(())
}

/// The versions that transactions update.
#[derive(Drop)]
pub struct Updates<'a> {
    once: Versions<'a>,
    /// Those that more than one updates.
    pub again: Versions<'a>,
}

impl<'a> Updates<'a> {
    /// None, where about so many are to come.
    pub fn new(alloc: Global, versions: usize) -> Result<Updates<'a>, AllocError>
        ensures { IfOk result (KnowsUpdates []) }
    {
        Ok(Updates {
            once: Versions::new(alloc, versions)?,
            again: Versions::new(alloc, versions)?,
        })
    }

    /// Adds those of a transaction, if it is committed, where these states are behind its operations.
    pub fn add(
        &mut self,
        is_committed: bool,
        ops: &'a [Op],
        states: &States<'a>,
    ) -> Result<(), AllocError>
        ensures { AreBehind ops.now states.now → (before : List Transaction) (t : Transaction)
            → ops.now ≡ t.ops → is_committed ≡ is_committed_txn t
            → KnowsUpdates (filter is_committed_txn before) self.old
            → OnOk result (KnowsUpdates (filter is_committed_txn (before ++ t ∷ [])) self.new) }
    {
        if !is_committed {
            return Ok(());
        }
        add_repeats(&mut self.again, &self.once, states, ops)?;
        add_updates(&mut self.once, states, ops)?;
        Ok(())
    }
}
