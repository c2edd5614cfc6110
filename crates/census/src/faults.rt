//! The reads of a log that break serializability by themselves.

ghost use Rattle.std.specs.Prelude.{◌≡◌, ◌++◌, ◌∷◌, [], List, map, IfOk, OnOk};
ghost use Rattle.std.specs.List.{filter};
ghost use Rattle.session_log.specs.Text.{ClientSession, key_of, view_txn};
ghost use Rattle.log_definitions.specs.Unknown.{is_committed, txns_in};
ghost use Rattle.census.specs.Reads.{faults_behind, faults_in, faults_of_txns, with_key};
ghost use Rattle.census.specs.Tables.{op_fault, view_ref, view_fault, KnowsWrites};

use crate::states::States;
use crate::versions::Versions;
use crate::writes::{Writes, add_writes};
use serializability::ReadAnomaly;
use session_log::{Key, Op, Txn};
use std::alloc::{AllocError, Global};

/// Adds what is wrong with an operation behind others with these states.
fn add_fault<'a>(
    faults: &mut Vec<(ReadAnomaly, &'a Key)>,
    writes: &Writes<'a>,
    own: &Versions<'a>,
    states: &States<'a>,
    op: &'a Op,
) -> Result<(), AllocError>
    ensures { OnOk result (map view_fault faults.new.items ≡ map view_fault faults.old.items
        ++ with_key (op_fault writes.now own.now states.now op.now) (key_of op.now)) }
{
    let Op::Read { key, wid } = op else {
        return Ok(());
    };
    let Some(fault) = writes.fault_of(own, states.of(key), key, *wid) else {
        return Ok(());
    };
    faults.push((fault, key))?;
    Ok(())
}

/// Adds what is wrong with the reads of a transaction.
fn add_faults<'a>(
    alloc: Global,
    faults: &mut Vec<(ReadAnomaly, &'a Key)>,
    writes: &Writes<'a>,
    ops: &'a [Op],
) -> Result<(), AllocError>
    ensures { (ss : List ClientSession) → KnowsWrites (txns_in ss) writes.now
        → OnOk result (map view_fault faults.new.items
        ≡ map view_fault faults.old.items ++ faults_behind ss [] ops.now) }
{
    let mut own = Versions::new(alloc, 1)?;
    add_writes(&mut own, ops)?;
    let mut states = States::new(alloc);
    for op in ops {
        add_fault(faults, writes, &own, &states, op)?;
        states.take(op)?;
    }
    Ok(())
}

/// Adds what is wrong with the reads of a transaction, if it is committed.
fn add_faults_of<'a>(
    alloc: Global,
    faults: &mut Vec<(ReadAnomaly, &'a Key)>,
    writes: &Writes<'a>,
    txn: &'a Txn,
) -> Result<(), AllocError>
    ensures { (ss : List ClientSession) → KnowsWrites (txns_in ss) writes.now
        → OnOk result (map view_fault faults.new.items ≡ map view_fault faults.old.items
        ++ faults_of_txns ss (filter is_committed (view_txn txn.now ∷ []))) }
{
    if !txn.is_committed() {
        return Ok(());
    }
    add_faults(alloc, faults, writes, txn.ops.as_slice())?;
    Ok(())
}

/// What is wrong with the reads of committed transactions.
pub fn faults_of<'a>(
    alloc: Global,
    writes: &Writes<'a>,
    txns: &[&'a Txn],
) -> Result<Vec<(ReadAnomaly, &'a Key)>, AllocError>
    ensures { IfOk result (λ faults. (ss : List ClientSession)
        → map view_ref txns.now ≡ txns_in ss → KnowsWrites (txns_in ss) writes.now
        → map view_fault faults.items ≡ faults_in ss) }
{
    let mut faults = Vec::new(alloc);
    for txn in txns {
        add_faults_of(alloc, &mut faults, writes, *txn)?;
    }
    Ok(faults)
}
