//! The versions that the transactions of a log wrote.

ghost use Rattle.std.specs.Prelude.{◌≡◌, ◌++◌, ◌∷◌, [], ◌||◌, ◌&&◌, not, ℕ, List, IfOk, OnOk};
ghost use Rattle.std.specs.List.{list_any};
ghost use Rattle.session_log.specs.Text.{Transaction};
ghost use Rattle.session_log.specs.declared.session.Op.TheVariants.{Read};
ghost use Rattle.log_definitions.specs.Unknown.{is_committed as is_committed_txn, reads_write};
ghost use Rattle.census.specs.Reads.{passes_over, writes_as};
ghost use Rattle.census.specs.Tables.{at_write, is_passed, fault_among, AreBehind, KnowsWrites};
ghost use Rattle.census.specs.Versions.{has_version};

use crate::states::{KeyState, States};
use crate::versions::Versions;
use serializability::ReadAnomaly;
use session_log::{Key, Op};
use std::alloc::{AllocError, Global};

/// Adds the version that an operation writes.
fn add_write<'a>(versions: &mut Versions<'a>, op: &'a Op) -> Result<(), AllocError>
    ensures { OnOk result ((k : List ℕ) (w : ℕ) → has_version versions.new k w
        ≡ (has_version versions.old k w || reads_write (Read k w) op.now)) }
{
    let Op::Write { key, wid } = op else {
        return Ok(());
    };
    versions.add(key, *wid)?;
    Ok(())
}

/// Adds the versions that operations write.
pub fn add_writes<'a>(versions: &mut Versions<'a>, ops: &'a [Op]) -> Result<(), AllocError>
    ensures { OnOk result ((k : List ℕ) (w : ℕ) → has_version versions.new k w
        ≡ (has_version versions.old k w || writes_as k w ops.now)) }
{
    for op in ops {
        add_write(versions, op)?;
    }
    Ok(())
}

/// Adds those of a transaction that is not committed.
fn add_aborted<'a>(
    versions: &mut Versions<'a>,
    is_committed: bool,
    ops: &'a [Op],
) -> Result<(), AllocError>
    ensures { OnOk result ((k : List ℕ) (w : ℕ) → has_version versions.new k w
        ≡ (has_version versions.old k w || (not is_committed && writes_as k w ops.now))) }
{
    if is_committed {
        return Ok(());
    }
    add_writes(versions, ops)?;
    Ok(())
}

/// Adds the version that an operation writes, if the transaction writes the key again.
fn add_pass<'a>(
    versions: &mut Versions<'a>,
    states: &States<'a>,
    op: &'a Op,
) -> Result<(), AllocError>
    ensures { OnOk result ((k : List ℕ) (w : ℕ) → has_version versions.new k w
        ≡ (has_version versions.old k w || at_write (is_passed states.now) k w op.now)) }
{
    let Op::Write { key, wid } = op else {
        return Ok(());
    };
    if states.of(key).wrote_last(*wid) {
        return Ok(());
    }
    versions.add(key, *wid)?;
    Ok(())
}

/// Adds the versions that operations write and then write again.
fn add_passes<'a>(
    versions: &mut Versions<'a>,
    states: &States<'a>,
    ops: &'a [Op],
) -> Result<(), AllocError>
    ensures { OnOk result ((k : List ℕ) (w : ℕ) → has_version versions.new k w
        ≡ (has_version versions.old k w || list_any (at_write (is_passed states.now) k w) ops.now)) }
{
    for op in ops {
        add_pass(versions, states, op)?;
    }
    Ok(())
}

/// Adds those of a committed transaction, where these states are behind its operations.
fn add_passed<'a>(
    versions: &mut Versions<'a>,
    is_committed: bool,
    states: &States<'a>,
    ops: &'a [Op],
) -> Result<(), AllocError>
    ensures { AreBehind ops.now states.now → OnOk result ((k : List ℕ) (w : ℕ)
        → has_version versions.new k w
        ≡ (has_version versions.old k w || (is_committed && passes_over k w ops.now))) }
{
    if !is_committed {
        return Ok(());
    }
    add_passes(versions, states, ops)?;
    Ok(())
}

/// The versions that transactions wrote.
#[derive(Drop)]
pub struct Writes<'a> {
    written: Versions<'a>,
    /// Those of aborted transactions.
    aborted: Versions<'a>,
    /// Those of committed transactions that wrote the key again.
    passed: Versions<'a>,
}

impl<'a> Writes<'a> {
    /// None, where about so many are to come.
    pub fn new(alloc: Global, versions: usize) -> Result<Writes<'a>, AllocError>
        ensures { IfOk result (KnowsWrites []) }
    {
        Ok(Writes {
            written: Versions::new(alloc, versions)?,
            aborted: Versions::new(alloc, versions)?,
            passed: Versions::new(alloc, versions)?,
        })
    }

    /// Adds those of a transaction, where these states are behind its operations.
    pub fn add(
        &mut self,
        is_committed: bool,
        ops: &'a [Op],
        states: &States<'a>,
    ) -> Result<(), AllocError>
        ensures { AreBehind ops.now states.now → (before : List Transaction) (t : Transaction)
            → ops.now ≡ t.ops → is_committed ≡ is_committed_txn t → KnowsWrites before self.old
            → OnOk result (KnowsWrites (before ++ t ∷ []) self.new) }
    {
        add_writes(&mut self.written, ops)?;
        add_aborted(&mut self.aborted, is_committed, ops)?;
        add_passed(&mut self.passed, is_committed, states, ops)?;
        Ok(())
    }

    /// What is wrong with a read of a version in a transaction that writes these versions and whose
    /// operations before the read did this with the key.
    pub fn fault_of(
        &self,
        own: &Versions<'a>,
        state: KeyState,
        key: &'a Key,
        wid: u64,
    ) -> Option<ReadAnomaly>
        ensures { result ≡ fault_among self.now own.now state key.now wid state.written }
    {
        if let Some(before) = state.written {
            return (before != wid).then_some(ReadAnomaly::OwnWriteMissed);
        }
        if wid != 0 && !self.written.has(key, wid) {
            Some(ReadAnomaly::Unknown)
        } else if self.aborted.has(key, wid) {
            Some(ReadAnomaly::Aborted)
        } else if own.has(key, wid) {
            Some(ReadAnomaly::Future)
        } else if self.passed.has(key, wid) {
            Some(ReadAnomaly::Intermediate)
        } else if state.differs(wid) {
            Some(ReadAnomaly::Split)
        } else {
            None
        }
    }
}
