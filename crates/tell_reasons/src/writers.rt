//! Who wrote what a read names, in the log's own lines.

ghost use Rattle.std.specs.Prelude.{◌≡◌, ◌++◌, OnOk};
ghost use Rattle.log_lines.specs.Rows.{view_place};
ghost use Rattle.tell_reasons.specs.Writes.{view_write};
ghost use Rattle.tell_reasons.specs.Anomalies as spec;

use crate::phrases::{line_among, op_among, wid_in};
use crate::places::next_write;
use crate::say;
use crate::words::{Said, put_op};
use crate::writes::{WriteAt, write_at};
use log_lines::{PlacedHistory as Log, TxnPlace};
use session_log::{Op, Outcome};

/// Appends how a transaction ended, where it is not committed.
fn put_outcome(out: &mut Vec<u8>, log: &Log<'_>, outcome: Outcome, line: usize) -> Said
    ensures text { OnOk result (out.new.items ≡ out.old.items ++ spec.outcome_text outcome line) }
{
    match outcome {
        Outcome::Commit => Ok(()),
        Outcome::Abort => say!(out, log; Text(b" and aborted"), Line(line)),
        Outcome::Unknown => say!(out, log; Text(b", whose outcome is unknown"), Line(line)),
    }
}

/// That a transaction, which begins at line `begin`, wrote in line `written`, or where the read in
/// line `read` stands in front of its own write, that it does so only later.
fn verb(read: usize, begin: usize, written: usize) -> &'static [u8]
    ensures { result.now ≡ spec.verb_text read begin written }
{
    if begin < read && read < written {
        b" writes itself only later"
    } else {
        b" wrote"
    }
}

/// Appends that a transaction that stands here wrote the key again, where it did.
#[tactic(auto, unfolding(crate::specs::Anomalies::overwrote_text))]
fn put_overwrote(
    out: &mut Vec<u8>,
    log: &Log<'_>,
    ops: &[Op],
    place: &TxnPlace,
    again: Option<usize>,
) -> Said
    ensures text { OnOk result (out.new.items ≡ out.old.items
        ++ spec.overwrote_text ops.now (view_place place.now) again) }
{
    match again {
        Some(again) => say!(out, log; Text(b" and overwrote with "),
            Number(wid_in(op_among(ops, again))), Line(line_among(place, again))),
        None => Ok(()),
    }
}

/// Appends which transaction wrote what is read in line `read`, whether it wrote the key again, and
/// how it ended, where it is not committed.
fn put_written(
    out: &mut Vec<u8>,
    log: &Log<'_>,
    read: usize,
    key: &[u8],
    write: &WriteAt<'_>,
) -> Said
    ensures text { OnOk result (out.new.items ≡ out.old.items
        ++ spec.wrote_text read key.now (view_write write.now)) }
{
    let (ops, place) = (&write.txn.ops, write.place);
    let line = line_among(place, write.op);
    say!(out, log; Text(b", which "), Name(write.session, place.place),
        Text(verb(read, place.begin, line)), Line(line))?;
    put_overwrote(out, log, ops, place, next_write(ops, key, write.op))?;
    put_outcome(out, log, write.txn.outcome, place.end)
}

/// Appends that no transaction wrote what was read to this key, and which operation of a
/// transaction wrote the identity to another key.
#[tactic(auto, using(std::proofs::Common::append_assoc))]
fn put_elsewhere(out: &mut Vec<u8>, log: &Log<'_>, key: &[u8], write: &WriteAt<'_>) -> Said
    ensures text { OnOk result (out.new.items ≡ out.old.items
        ++ spec.elsewhere_text key.now (view_write write.now)) }
{
    say!(out, log; Text(b", which no transaction wrote to "), Text(key), Text(b"; "),
        Name(write.session, write.place.place), Text(b" wrote "))?;
    put_op(out, op_among(&write.txn.ops, write.op))?;
    say!(out, log; Line(line_among(write.place, write.op)))
}

/// Appends who wrote what a read in line `read` names.
#[tactic(auto, unfolding(crate::specs::Anomalies::writer_text))]
pub fn put_writer(out: &mut Vec<u8>, log: &Log<'_>, read: usize, key: &[u8], wid: u64) -> Said
    ensures text { OnOk result (out.new.items
        ≡ out.old.items ++ spec.writer_text log.now read key.now wid) }
{
    if wid == 0 {
        say!(out, log; Text(b", the initial value"))
    } else if let Some(write) = write_at(log, Some(key), wid) {
        put_written(out, log, read, key, &write)
    } else if let Some(write) = write_at(log, None, wid) {
        put_elsewhere(out, log, key, &write)
    } else {
        say!(out, log; Text(b", which no transaction wrote"))
    }
}
