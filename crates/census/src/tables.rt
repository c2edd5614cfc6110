//! What is known of the versions of a log.

ghost use Rattle.std.specs.Prelude.{◌++◌, ◌∷◌, [], List, map, IfOk, OnOk};
ghost use Rattle.session_log.specs.Text.{Transaction, view_txn};
ghost use Rattle.census.specs.Tables.{view_ref, KnowsLog};

use crate::states::states_of;
use crate::updates::Updates;
use crate::writes::Writes;
use session_log::Txn;
use std::alloc::{AllocError, Global};

/// The versions that transactions write, and those that they update.
#[derive(Drop)]
pub struct Tables<'a> {
    pub writes: Writes<'a>,
    pub updates: Updates<'a>,
}

impl<'a> Tables<'a> {
    /// None, where about so many are to come.
    fn new(alloc: Global, versions: usize) -> Result<Tables<'a>, AllocError>
        ensures { IfOk result (KnowsLog []) }
    {
        Ok(Tables {
            writes: Writes::new(alloc, versions)?,
            updates: Updates::new(alloc, versions)?,
        })
    }

    /// Adds those of a transaction.
    fn add(&mut self, alloc: Global, txn: &'a Txn) -> Result<(), AllocError>
        ensures { (before : List Transaction) → KnowsLog before self.old
            → OnOk result (KnowsLog (before ++ view_txn txn.now ∷ []) self.new) }
    {
        let is_committed = txn.is_committed();
        let ops = txn.ops.as_slice();
        let states = states_of(alloc, ops)?;
        self.writes.add(is_committed, ops, &states)?;
        self.updates.add(is_committed, ops, &states)?;
        Ok(())
    }

    /// Those of these transactions.
    pub fn of(alloc: Global, txns: &[&'a Txn]) -> Result<Tables<'a>, AllocError>
        ensures { IfOk result (KnowsLog (map view_ref txns.now)) }
    {
        let mut tables = Tables::new(alloc, txns.len())?;
        for txn in txns {
            tables.add(alloc, *txn)?;
        }
        Ok(tables)
    }
}
