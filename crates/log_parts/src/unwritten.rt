//! What nobody in a log wrote.

ghost use Rattle.std.specs.Prelude.{◌≡◌, ◌&&◌, ℕ, not, map};
ghost use Rattle.std.specs.BTreeSet.{contains};
ghost use Rattle.std.specs.Ordering.{nat_cmp};
ghost use Rattle.session_log.specs.Text.{view, view_txn};
ghost use Rattle.log_definitions.specs.Unknown.{ops_in};
ghost use Rattle.log_parts.specs.Picked.{ops_by, wrote};

use crate::sources::{Kind, identity};
use session_log::{Op, Session, Txn};
use std::collections::BTreeSet;

fn take_out_of_ops(wids: &mut BTreeSet<u64>, ops: &[Op])
    ensures { (wid : ℕ) → contains nat_cmp wids.new wid
        ≡ (contains nat_cmp wids.old wid && not (wrote ops.now wid)) }
{
    for op in ops {
        if let Some(wid) = identity(Kind::Writes, op) {
            wids.remove(&wid);
        }
    }
}

fn take_out_of_txns(wids: &mut BTreeSet<u64>, txns: &[Txn])
    ensures { (wid : ℕ) → contains nat_cmp wids.new wid
        ≡ (contains nat_cmp wids.old wid && not (wrote (ops_by (map view_txn txns.now)) wid)) }
{
    for txn in txns {
        take_out_of_ops(wids, &txn.ops);
    }
}

/// Takes out what some transaction of these sessions wrote.
pub fn take_out(wids: &mut BTreeSet<u64>, sessions: &[Session])
    ensures { (wid : ℕ) → contains nat_cmp wids.new wid
        ≡ (contains nat_cmp wids.old wid && not (wrote (ops_in (map view sessions.now)) wid)) }
{
    for session in sessions {
        take_out_of_txns(wids, &session.txns);
    }
}
