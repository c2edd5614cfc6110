//! Why a node stands before another in each serial order.

ghost use Rattle.std.specs.Prelude.{◌<◌, ◌≤◌, ◌≢◌, ◌↔◌, IsTrue, IfSome, IfNone, IfOk};
ghost use Rattle.serializability.specs.Reads.{IsClean};
ghost use Rattle.log_definitions.specs.Numbers.{log_of};
ghost use Rattle.reason_laws.specs.Reasons.{IsNode, EndsBefore};
ghost use Rattle.reasons.specs.Given.{IsReason, IsOfFirstKind, IsLeast, HaveNone};

use crate::initial::before_by_initial;
use crate::overwritten::overwritten_by;
use crate::read::read_by;
use crate::runs::is_behind;
use serializability::NodeIx;
use session_history::History;
use std::alloc::{AllocError, Global};

/// Why a node stands before another in each serial order. Operations count from 0.
#[derive(Clone, Copy)]
pub enum Reason {
    /// Operation `read` of the second names the write that is operation `written` of the first.
    Read { written: usize, read: usize },
    /// Both are of one session.
    Session,
    /// Both read the same write of a key, by operation `read` of the first, and operation
    /// `overwrites` of the second writes the key.
    Overwritten { read: usize, overwrites: usize },
    /// Operation `read` of the first names a key's initial value, or a write of the chain that
    /// begins with it; operation `begins` of the second, which reads the key from nobody, writes
    /// it.
    Initial { read: usize, begins: usize },
    /// The first ended before the second began.
    Moments,
}

/// Whether the first ended before the second began.
fn ended_before(history: &History, a: NodeIx, b: NodeIx) -> bool
    requires first { IsNode history.now a }
    requires second { IsNode history.now b }
    requires apart { a ≢ b }
    ensures { IsTrue result ↔ EndsBefore history.now a b }
{
    let (Some(end), Some(begin)) = (history.ended_of(a), history.begun_of(b)) else {
        return false;
    };
    end < begin
}

/// Why `a` stands before `b` in each serial order, where the log shows it. The one error is that
/// memory runs out.
#[tactic(auto, unfolding(log_definitions::specs::Numbers::log_of))]
pub fn reason_of(
    alloc: Global,
    history: &History,
    a: NodeIx,
    b: NodeIx,
) -> Result<Option<Reason>, AllocError>
    requires clean { IsClean (log_of history.now) }
    requires first { (0 < a) × (a ≤ (log_of history.now).nodes) }
    requires second { (0 < b) × (b ≤ (log_of history.now).nodes) }
    ensures holds { IfOk result (λ found. IfSome found (IsReason history.now a b)) }
    ensures first { IfOk result (λ found. IfSome found (IsOfFirstKind history.now a b)) }
    ensures least { IfOk result (λ found. IfSome found (IsLeast history.now a b)) }
    ensures none { IfOk result (λ found. IfNone found (HaveNone history.now a b)) }
{
    if a == b {
        return Ok(None);
    }
    let nodes = history.committed();
    prove!(a.get() <= nodes);
    if let Some(found) = read_by(history, a, b) {
        return Ok(Some(Reason::Read {
            written: found.first,
            read: found.second,
        }));
    }
    if is_behind(history, a, b) {
        return Ok(Some(Reason::Session));
    }
    if let Some(found) = overwritten_by(history, a, b) {
        return Ok(Some(Reason::Overwritten {
            read: found.first,
            overwrites: found.second,
        }));
    }
    if let Some(found) = before_by_initial(alloc, history, a, b)? {
        return Ok(Some(Reason::Initial {
            read: found.first,
            begins: found.second,
        }));
    }
    if ended_before(history, a, b) {
        return Ok(Some(Reason::Moments));
    }
    Ok(None)
}
