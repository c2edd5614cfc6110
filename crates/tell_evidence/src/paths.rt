//! By which path a read sees a write.

ghost use Rattle.std.specs.Prelude.{◌≡◌, ◌++◌, map, OnOk};
ghost use Rattle.session_log.specs.Text.{view};
ghost use Rattle.log_lines.specs.Rows.{rows_of};
ghost use Rattle.level_refutations.specs.Edges.{op_of};
ghost use Rattle.tell_evidence.specs.Sentences as spec;

use crate::phrases::{Log, put, put_does, put_name, put_number, put_wrote};
use crate::places::number_at;
use level_refutations::{Hop, OpAt, Step, TxnAt};
use std::alloc::AllocError;

/// An operation of a transaction.
pub fn op_of(txn: TxnAt, op: usize) -> OpAt
    ensures { result ≡ op_of txn op }
{
    OpAt { txn, op }
}

/// Appends a step between two transactions.
#[tactic(auto, unfolding(crate::specs::Sentences::step_text))]
fn put_step(
    out: &mut Vec<u8>,
    log: &Log<'_>,
    from: TxnAt,
    to: TxnAt,
    step: Step,
) -> Result<(), AllocError>
    ensures put { OnOk result (out.new.items ≡ out.old.items ++ spec.step_text
        (rows_of log.now.places.now) (map view log.now.sessions.now) from to step) }
{
    match step {
        Step::Session => {
            put_name(out, log, to)?;
            put(out, b" comes after ")?;
            put_name(out, log, from)?;
            put(out, b" in session ")?;
            put_number(out, number_at(log.sessions, from.session) as u64)
        }
        Step::Read { write, read } => {
            put_does(out, log, b" reads ", op_of(to, read))?;
            put_wrote(out, log, op_of(from, write))
        }
    }
}

/// Appends a hop on a line.
pub fn put_hop(out: &mut Vec<u8>, log: &Log<'_>, hop: &Hop) -> Result<(), AllocError>
    ensures put { OnOk result (out.new.items ≡ out.old.items ++ spec.hop_line
        (rows_of log.now.places.now) (map view log.now.sessions.now) hop.now) }
{
    put_step(out, log, hop.from, hop.to, hop.step)?;
    put(out, b"\n")
}

/// Appends hops, each on a line.
fn put_hops(out: &mut Vec<u8>, log: &Log<'_>, hops: &[Hop]) -> Result<(), AllocError>
    ensures put { OnOk result (out.new.items ≡ out.old.items ++ spec.hop_lines
        (rows_of log.now.places.now) (map view log.now.sessions.now) hops.now) }
{
    for hop in hops {
        put_hop(out, log, hop)?;
    }
    Ok(())
}

/// Whether the first of these hops is a read of the very write.
pub fn reads_it(write: OpAt, path: &[Hop]) -> bool
    ensures { result ≡ spec.reads_it write path.now }
{
    match path {
        [] => false,
        [first, ..] => match first.step {
            Step::Session => false,
            Step::Read { write: named, .. } => named == write.op,
        },
    }
}

/// Appends that a write is there, where its path does not tell it.
#[tactic(auto, unfolding(crate::specs::Sentences::write_line))]
fn put_write(out: &mut Vec<u8>, log: &Log<'_>, write: OpAt, path: &[Hop]) -> Result<(), AllocError>
    ensures put { OnOk result (out.new.items ≡ out.old.items ++ spec.write_line
        (rows_of log.now.places.now) (map view log.now.sessions.now) write path.now) }
{
    if reads_it(write, path) {
        return Ok(());
    }
    put_does(out, log, b" wrote ", write)?;
    put(out, b"\n")
}

/// Appends the lines of a path from a write to the transaction that overlooks it.
pub fn put_path(
    out: &mut Vec<u8>,
    log: &Log<'_>,
    write: OpAt,
    path: &[Hop],
) -> Result<(), AllocError>
    ensures put { OnOk result (out.new.items ≡ out.old.items ++ spec.path_lines
        (rows_of log.now.places.now) (map view log.now.sessions.now) write path.now) }
{
    put_write(out, log, write, path)?;
    put_hops(out, log, path)
}

/// How a transaction stands to the first one of a path to it.
pub fn stands_behind(path: &[Hop]) -> &'static [u8]
    ensures { result.now ≡ spec.stands_behind path.now }
{
    match path {
        [only] => match only.step {
            Step::Session => b" comes after ",
            Step::Read { .. } => b" sees ",
        },
        _ => b" comes after ",
    }
}
