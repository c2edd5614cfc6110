//! The transactions that evidence names.

ghost use Rattle.std.specs.Prelude.{◌≡◌, length, IfOk};

use crate::evidence::{Edge, Evidence, Fault, Overlooked, TxnAt};
use crate::places::op_at;
use session_log::{Op, Session};
use std::alloc::{AllocError, Global};

/// A flag for each transaction, in a row for each session.
fn no_flags(alloc: Global, sessions: &[Session]) -> Result<Vec<Vec<bool>>, AllocError>
    ensures { IfOk result (λ rows. length rows.items ≡ length sessions.now) }
{
    let mut rows = Vec::new(alloc);
    for session in sessions {
        rows.push(vec![in alloc; false; session.txns.len()]?)?;
    }
    Ok(rows)
}

/// Names the transaction at this place.
fn name(rows: &mut [Vec<bool>], at: TxnAt) {
    if let Some(row) = rows.get_mut(at.session)
        && let Some(flag) = row.get_mut(at.txn)
    {
        *flag = true;
    }
}

/// Names each transaction that writes under this identity, committed or not, by an operation of any
/// key.
fn name_writers(rows: &mut [Vec<bool>], sessions: &[Session], wid: u64) {
    for (session, s) in sessions.iter().enumerate() {
        for (txn, t) in s.txns.iter().enumerate() {
            if t.ops
                .iter()
                .any(|op| matches!(op, Op::Write { wid: w, .. } if *w == wid))
            {
                name(rows, TxnAt { session, txn });
            }
        }
    }
}

/// Names the transaction of a read that no level allows, and the writer of what it reads, so that
/// the read stays.
fn name_fault(rows: &mut [Vec<bool>], sessions: &[Session], fault: Fault) {
    name(rows, fault.read.txn);
    if let Some(Op::Read { wid, .. }) = op_at(sessions, fault.read) {
        name_writers(rows, sessions, *wid);
    }
}

fn name_overlooked(rows: &mut [Vec<bool>], overlooked: &Overlooked) {
    name(rows, overlooked.read.txn);
    name(rows, overlooked.write.txn);
    for hop in &overlooked.path {
        name(rows, hop.from);
        name(rows, hop.to);
    }
}

fn name_edge(rows: &mut [Vec<bool>], edge: &Edge) {
    name(rows, edge.from());
    name(rows, edge.to());
    if let Edge::Forced { overlooked, .. } = edge {
        name_overlooked(rows, overlooked);
    }
}

fn name_all(rows: &mut [Vec<bool>], sessions: &[Session], evidence: &Evidence) {
    match evidence {
        Evidence::Fault(fault) => name_fault(rows, sessions, *fault),
        Evidence::Initial(overlooked) => name_overlooked(rows, overlooked),
        Evidence::Circle(edges) => {
            for edge in edges {
                name_edge(rows, edge);
            }
        }
    }
}

/// A row for each session, with a flag for each of its transactions: whether the evidence names it,
/// or it wrote what the read of a fault names. With these alone the log has the same edges and
/// faults, if those reads stay that name 0, what they write, or what nobody wrote.
pub fn named_transactions(
    alloc: Global,
    sessions: &[Session],
    evidence: &Evidence,
) -> Result<Vec<Vec<bool>>, AllocError>
    ensures { IfOk result (λ rows. length rows.items ≡ length sessions.now) }
{
    let mut rows = no_flags(alloc, sessions)?;
    name_all(rows.as_mut_slice(), sessions, evidence);
    Ok(rows)
}
