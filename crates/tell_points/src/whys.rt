//! Why one point stands before another, in words.

ghost use Rattle.std.specs.Prelude.{◌≡◌, ◌++◌, map, OnOk};
ghost use Rattle.session_log.specs.Text.{view};
ghost use Rattle.log_lines.specs.Rows.{rows_of};
ghost use Rattle.tell_points.specs.Lines as spec;

use level_refutations::{OpAt, TxnAt, is_same, txn_at};
use point_refutations::{Since, Why, op_of};
use session_log::Session;
use std::alloc::AllocError;
use tell_evidence::{Log, begin_at, number_at, tell};

/// The number under which a step is told.
pub fn number_of(index: usize) -> u64
    ensures { result ≡ spec.number_of index }
{
    (index as u64).saturating_add(1)
}

/// Appends whose version is read, or that it is the initial value.
fn put_found(out: &mut Vec<u8>, log: &Log<'_>, found: Option<OpAt>) -> Result<(), AllocError>
    ensures put { OnOk result (out.new.items ≡ out.old.items
        ++ spec.found_text (rows_of log.now.places.now) (map view log.now.sessions.now) found) }
{
    match found {
        None => tell!(out, log; Text(b", the initial value")),
        Some(write) => tell!(out, log; Text(b" of "), Name(write.txn)),
    }
}

/// Appends why what is read is older than a write.
#[tactic(auto, unfolding(crate::specs::Lines::since_text))]
fn put_since(out: &mut Vec<u8>, log: &Log<'_>, write: OpAt, since: Since) -> Result<(), AllocError>
    ensures put { OnOk result (out.new.items ≡ out.old.items ++ spec.since_text
        (rows_of log.now.places.now) (map view log.now.sessions.now) write since) }
{
    match since {
        Since::Initial => tell!(out, log; Text(b", and "), Does(b" wrote ", write)),
        Since::ReadToo(_) => tell!(out, log;
            Text(b", and "), Name(write.txn), Text(b", which reads it too, overwrites it with "),
            Wid(write), AtLine(write)),
        Since::Step(step) => tell!(out, log;
            Text(b", which by ["), Number(number_of(step)), Text(b"] comes before "), Wid(write),
            Wrote(write)),
    }
}

/// The moment at which a transaction ended, and 0 where it states none.
fn ended_at(sessions: &[Session], at: TxnAt) -> u64
    ensures { result ≡ spec.ended_at (map view sessions.now) at }
{
    match txn_at(sessions, at) {
        Some(txn) => txn.ended.unwrap_or(0),
        None => 0,
    }
}

/// The moment at which it began, and 0 where it states none.
fn begun_at(sessions: &[Session], at: TxnAt) -> u64
    ensures { result ≡ spec.begun_at (map view sessions.now) at }
{
    match txn_at(sessions, at) {
        Some(txn) => txn.begun.unwrap_or(0),
        None => 0,
    }
}

/// What is said of who wrote what is read.
fn does_words(from: TxnAt, to: TxnAt) -> &'static [u8]
    ensures { result.now ≡ spec.does_words from to }
{
    if is_same(from, to) {
        b" writes itself only later"
    } else {
        b" wrote"
    }
}

/// Appends why a point of one transaction stands before one of another.
#[tactic(auto, unfolding(crate::specs::Lines::reason_text))]
pub fn put_reason(
    out: &mut Vec<u8>,
    log: &Log<'_>,
    from: TxnAt,
    to: TxnAt,
    why: Why,
) -> Result<(), AllocError>
    ensures put { OnOk result (out.new.items ≡ out.old.items ++ spec.reason_text
        (rows_of log.now.places.now) (map view log.now.sessions.now) from to why) }
{
    match why {
        Why::Session => {
            let number = number_at(log.sessions, from.session) as u64;
            tell!(out, log; Text(b"session "), Number(number))
        }
        Why::Moments => {
            let (ended, begun) = (ended_at(log.sessions, from), begun_at(log.sessions, to));
            let line = begin_at(log.places, to) as u64;
            tell!(out, log;
                Name(from), Text(b" ended at "), Number(ended), AtEnd(from), Text(b", "), Name(to),
                Text(b" began at "), Number(begun), Text(b" (line "), Number(line), Text(b")"))
        }
        Why::Read { write, read } => {
            let words = does_words(from, to);
            tell!(out, log;
                Does(b" reads ", op_of(to, read)), Text(b", which "), Name(from), Text(words),
                AtLine(op_of(from, write)))
        }
        Why::Step(step) | Why::Later(step) =>
            tell!(out, log; Text(b"by ["), Number(number_of(step)), Text(b"]")),
        Why::Missed(missed) => {
            tell!(out, log; Does(b" reads ", op_of(from, missed.read)))?;
            put_found(out, log, missed.found)?;
            put_since(out, log, op_of(to, missed.write), missed.since)
        }
    }
}
