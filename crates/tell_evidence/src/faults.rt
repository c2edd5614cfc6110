//! Reads that no level allows.

ghost use Rattle.std.specs.Prelude.{◌≡◌, ◌++◌, map, OnOk};
ghost use Rattle.session_log.specs.Text.{view};
ghost use Rattle.log_lines.specs.Rows.{rows_of};
ghost use Rattle.tell_evidence.specs.Evidence as spec;

use crate::paths::op_of;
use crate::phrases::{Log, put};
use crate::places::outcome_at;
use crate::tell;
use level_refutations::{Fault, OpAt, TxnAt, Why};
use session_log::Outcome;
use std::alloc::AllocError;

/// Appends what is wrong with a read, in short.
#[tactic(auto, unfolding(crate::specs::Evidence::short_aborted))]
fn put_short_why(out: &mut Vec<u8>, log: &Log<'_>, why: Why) -> Result<(), AllocError>
    ensures put { OnOk result (out.new.items ≡ out.old.items
        ++ spec.short_why (rows_of log.now.places.now) (map view log.now.sessions.now) why) }
{
    match why {
        Why::MissesOwn { .. } => put(out, b" does not read its own last write\n"),
        Why::Unwritten => put(out, b" reads what nobody wrote\n"),
        Why::Aborted { write } => tell!(out, log;
            Text(b" reads what "), Name(write.txn), Text(b" wrote, which did not commit\n")),
        Why::Overwritten { .. } => put(
            out,
            b" reads a version that its writer overwrote before committing\n",
        ),
        Why::OwnLater { .. } => put(out, b" reads what it writes itself only later\n"),
    }
}

/// Appends how a transaction ended, where it did not commit.
#[tactic(auto, unfolding(crate::specs::Evidence::outcome_text))]
fn put_outcome(
    out: &mut Vec<u8>,
    log: &Log<'_>,
    at: TxnAt,
    outcome: Outcome,
) -> Result<(), AllocError>
    ensures put { OnOk result (out.new.items ≡ out.old.items ++ spec.outcome_text
        (rows_of log.now.places.now) (map view log.now.sessions.now) at outcome) }
{
    match outcome {
        Outcome::Commit => Ok(()),
        Outcome::Abort => {
            tell!(out, log; Text(b", and "), Name(at), Text(b" was aborted"), AtEnd(at))
        }
        Outcome::Unknown => tell!(out, log;
            Text(b", and the outcome of "), Name(at), Text(b" is unknown"), AtEnd(at)),
    }
}

/// Appends what is wrong with a read.
#[tactic(auto, unfolding(crate::specs::Evidence::why_text))]
fn put_why(out: &mut Vec<u8>, log: &Log<'_>, read: OpAt, why: Why) -> Result<(), AllocError>
    ensures put { OnOk result (out.new.items ≡ out.old.items
        ++ spec.why_text (rows_of log.now.places.now) (map view log.now.sessions.now) read why) }
{
    match why {
        Why::MissesOwn { write } => {
            let write = OpAt {
                txn: read.txn,
                op: write,
            };
            tell!(out, log;
                Text(b", but wrote "), Key(write), Text(b" "), Wid(write), Text(b" before"),
                AtLine(write))
        }
        Why::Unwritten => put(out, b", which nobody wrote"),
        Why::Aborted { write } => {
            tell!(out, log; Wrote(write))?;
            put_outcome(out, log, write.txn, outcome_at(log.sessions, write.txn))
        }
        Why::Overwritten { write, later } => {
            let later = op_of(write.txn, later);
            tell!(out, log;
                Wrote(write), Text(b" and overwrote with "), Wid(later), AtLine(later))
        }
        Why::OwnLater { write } => {
            let write = op_of(read.txn, write);
            tell!(out, log; Text(b", which it writes itself only later"), AtLine(write))
        }
    }
}

/// Appends a read that no level allows: in a sentence, what it names, and what is wrong with it.
#[tactic(auto, unfolding(crate::specs::Evidence::short_fault))]
pub fn put_fault(out: &mut Vec<u8>, log: &Log<'_>, fault: &Fault) -> Result<(), AllocError>
    ensures put { OnOk result (out.new.items ≡ out.old.items
        ++ spec.fault_text (rows_of log.now.places.now) (map view log.now.sessions.now) fault.now) }
{
    let Fault { read, why } = *fault;
    tell!(out, log; Text(b"in short: "), Name(read.txn))?;
    put_short_why(out, log, why)?;
    tell!(out, log; Does(b" reads ", read))?;
    put_why(out, log, read, why)?;
    put(out, b"\n")
}
