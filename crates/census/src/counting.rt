//! The census of a log.

ghost use Rattle.std.specs.Prelude.{◌≡◌, ◌++◌, ◌==◌, map, count_by, IfOk, OnOk};
ghost use Rattle.session_log.specs.Text.{view, view_txn};
ghost use Rattle.serializability.specs.Anomalies.{read_number};
ghost use Rattle.log_definitions.specs.Unknown.{txns_in};
ghost use Rattle.census.specs.Tables.{view_ref};
ghost use Rattle.census.specs.Census.{IsCensus};

use crate::faults::faults_of;
use crate::key_counts::KeyCounts;
use crate::lost::{add_all_lost_keys, lost_of};
use crate::numbers::Census;
use crate::tables::Tables;
use crate::worst::worst_of;
use serializability::ReadAnomaly;
use session_log::{Key, Session, Txn};
use std::alloc::{AllocError, Global};

/// Adds transactions.
fn add_txns<'a>(all: &mut Vec<&'a Txn>, txns: &'a [Txn]) -> Result<(), AllocError>
    ensures { OnOk result (map view_ref all.new.items
        ≡ map view_ref all.old.items ++ map view_txn txns.now) }
{
    for txn in txns {
        all.push(txn)?;
    }
    Ok(())
}

/// The transactions of these sessions.
fn txns_of<'a>(alloc: Global, sessions: &'a [Session]) -> Result<Vec<&'a Txn>, AllocError>
    ensures { IfOk result (λ all. map view_ref all.items ≡ txns_in (map view sessions.now)) }
{
    let mut all = Vec::new(alloc);
    for session in sessions {
        add_txns(&mut all, session.txns.as_slice())?;
    }
    Ok(all)
}

/// The number in the code of an anomaly.
fn number_of(kind: ReadAnomaly) -> u8
    ensures number { result ≡ read_number kind }
{
    match kind {
        ReadAnomaly::Unknown => 1,
        ReadAnomaly::Aborted => 2,
        ReadAnomaly::Intermediate => 3,
        ReadAnomaly::OwnWriteMissed => 4,
        ReadAnomaly::Future => 5,
        ReadAnomaly::Split => 6,
    }
}

/// How many of these are of this kind.
fn count_of(faults: &[(ReadAnomaly, &Key)], kind: ReadAnomaly) -> usize
    ensures { result ≡ count_by (λ f. read_number f.0 == read_number kind) faults.now }
{
    let number = number_of(kind);
    faults
        .iter()
        .filter(|fault| number_of(fault.0) == number)
        .count()
}

/// How many reads and transactions of these sessions, whose outcomes are known, break
/// serializability by themselves.
pub fn census(alloc: Global, sessions: &[Session]) -> Result<Census, AllocError>
    ensures census { IfOk result (IsCensus (map view sessions.now)) }
{
    let all = txns_of(alloc, sessions)?;
    let txns = all.as_slice();
    let tables = Tables::of(alloc, txns)?;
    let found = faults_of(alloc, &tables.writes, txns)?;
    let faults = found.as_slice();
    let lost = lost_of(alloc, &tables.updates, txns)?;
    let kept = lost.as_slice();
    let mut counts = KeyCounts::new(alloc);
    counts.add_reads(faults)?;
    add_all_lost_keys(alloc, &mut counts, &tables.updates, kept)?;
    Ok(Census {
        unknown_reads: count_of(faults, ReadAnomaly::Unknown),
        aborted_reads: count_of(faults, ReadAnomaly::Aborted),
        intermediate_reads: count_of(faults, ReadAnomaly::Intermediate),
        own_writes_missed: count_of(faults, ReadAnomaly::OwnWriteMissed),
        future_reads: count_of(faults, ReadAnomaly::Future),
        split_reads: count_of(faults, ReadAnomaly::Split),
        lost_updates: kept.len(),
        worst_keys: worst_of(alloc, &counts)?,
    })
}
