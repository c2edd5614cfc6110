//! A log as if it stated no moments.

ghost use Rattle.std.specs.Prelude.{◌≡◌, map};
ghost use Rattle.session_log.specs.Text.{view, view_txn};
ghost use Rattle.point_laws.specs.Without.{without, without_moments};

use session_log::{Session, Txn};

fn leave_out(txn: &mut Txn)
    ensures { view_txn txn.new ≡ without (view_txn txn.old) }
{
    txn.begun = None;
    txn.ended = None;
}

fn leave_out_of_txns(txns: &mut [Txn])
    ensures { map view_txn txns.new ≡ map without (map view_txn txns.old) }
{
    for txn in txns.iter_mut() {
        leave_out(txn);
    }
}

fn leave_out_of_session(session: &mut Session)
    ensures number { session.new.number ≡ session.old.number }
    ensures txns { (view session.new).txns ≡ map without (view session.old).txns }
{
    leave_out_of_txns(session.txns.as_mut_slice());
}

fn leave_out_of_each(sessions: &mut [Session])
    ensures { map view sessions.new ≡ without_moments (map view sessions.old) }
{
    for session in sessions.iter_mut() {
        leave_out_of_session(session);
    }
}

/// Leaves the moments of these sessions out.
pub fn leave_out_moments(sessions: &mut Vec<Session>)
    ensures { map view sessions.new.items ≡ without_moments (map view sessions.old.items) }
{
    leave_out_of_each(sessions.as_mut_slice());
}
