//! How many outcomes are unknown.

ghost use Rattle.std.specs.Prelude.{◌≡◌, map, count_by, if◌then◌else◌};
ghost use Rattle.std.specs.List.{AllByRecursion};
ghost use Rattle.session_log.specs.Text.{view, IsLegal, IsKnownBeforeLast};
ghost use Rattle.log_definitions.specs.Unknown.{is_unknown, txns_in};

use session_log::Session;

/// Whether the last transaction has an unknown outcome, as no other has.
fn ends_unknown(session: &Session) -> bool
    requires { IsKnownBeforeLast (view session.now).txns }
    ensures { count_by is_unknown (view session.now).txns ≡ (if result then 1 else 0) }
{
    match session.txns.last() {
        Some(txn) => txn.outcome.is_unknown(),
        None => false,
    }
}

/// How many transactions of these sessions have an unknown outcome.
pub fn unknown_in(sessions: &[Session]) -> usize
    requires { AllByRecursion IsLegal (map view sessions.now) }
    ensures { result ≡ count_by is_unknown (txns_in (map view sessions.now)) }
{
    let mut count = 0;
    for session in sessions {
        if ends_unknown(session) {
            count += 1;
        }
    }
    count
}
