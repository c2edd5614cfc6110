//! Unknown outcomes become known.

ghost use Rattle.std.specs.Prelude.{◌≡◌, map};
ghost use Rattle.std.specs.BTreeSet.{contains};
ghost use Rattle.std.specs.Ordering.{nat_cmp};
ghost use Rattle.session_log.specs.Text.{view, view_txn};
ghost use Rattle.log_definitions.specs.Unknown.{settle, settled};

use session_log::{Outcome, Session, Txn};
use std::collections::BTreeSet;

/// An unknown outcome becomes that of a transaction that is taken, or is not.
fn settle(txn: &mut Txn, is_taken: bool)
    ensures { view_txn txn.new ≡ settle is_taken (view_txn txn.old) }
{
    if txn.outcome.is_unknown() {
        txn.outcome = if is_taken {
            Outcome::Commit
        } else {
            Outcome::Abort
        };
    }
}

fn settle_txns(txns: &mut [Txn], is_taken: bool)
    ensures { map view_txn txns.new ≡ map (settle is_taken) (map view_txn txns.old) }
{
    for txn in txns.iter_mut() {
        settle(txn, is_taken);
    }
}

fn settle_session(session: &mut Session, is_taken: bool)
    ensures number { session.new.number ≡ session.old.number }
    ensures txns { (view session.new).txns ≡ map (settle is_taken) (view session.old).txns }
{
    settle_txns(session.txns.as_mut_slice(), is_taken);
}

fn settle_each(sessions: &mut [Session], taken: &BTreeSet<usize>)
    ensures { map view sessions.new ≡ settled (contains nat_cmp taken.now) (map view sessions.old) }
{
    for session in sessions.iter_mut() {
        let is_taken = taken.contains(&usize::from(session.number));
        settle_session(session, is_taken);
    }
}

/// The unknown outcomes become those of transactions that are taken, where their session's number
/// is one of these, or are not.
pub fn settle_all(sessions: &mut Vec<Session>, taken: &BTreeSet<usize>)
    ensures { map view sessions.new.items ≡ settled (contains nat_cmp taken.now)
        (map view sessions.old.items) }
{
    settle_each(sessions.as_mut_slice(), taken);
}
