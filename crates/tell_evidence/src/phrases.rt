//! Pieces of sentences: what evidence names.

ghost use Rattle.std.specs.Prelude.{◌≡◌, ◌++◌, map, decimal, OnOk};
ghost use Rattle.session_log.specs.Text.{view};
ghost use Rattle.log_lines.specs.Rows.{rows_of};
ghost use Rattle.tell_evidence.specs.Sentences.{name_text, in_line, version_text, does_text, wrote_text};

use crate::places::{key_at, line_of, number_at, place_at, wid_at};
use itoa::Buffer;
use level_refutations::{OpAt, TxnAt};
use log_lines::LogPlaces;
use session_log::Session;
use std::alloc::AllocError;

/// The sessions of a log, or of a part of it, and where their transactions stand in the log.
#[derive(Clone, Copy)]
pub struct Log<'a> {
    pub sessions: &'a [Session],
    pub places: &'a LogPlaces,
}

/// Appends bytes.
pub fn put(out: &mut Vec<u8>, bytes: &[u8]) -> Result<(), AllocError>
    ensures put { OnOk result (out.new.items ≡ out.old.items ++ bytes.now) }
{
    out.extend_from_slice(bytes)
}

/// Appends a number.
pub fn put_number(out: &mut Vec<u8>, number: u64) -> Result<(), AllocError>
    ensures put { OnOk result (out.new.items ≡ out.old.items ++ decimal number) }
{
    let mut digits = Buffer::new();
    out.extend_from_slice(digits.format(number).as_bytes())
}

/// Appends the name of a transaction.
#[tactic(auto, unfolding(crate::specs::Sentences::name_text))]
pub fn put_name(out: &mut Vec<u8>, log: &Log<'_>, at: TxnAt) -> Result<(), AllocError>
    ensures put { OnOk result (out.new.items ≡ out.old.items
        ++ name_text (rows_of log.now.places.now) (map view log.now.sessions.now) at) }
{
    put_number(out, number_at(log.sessions, at.session) as u64)?;
    put(out, b".")?;
    put_number(out, place_at(log.places, at) as u64)
}

/// Appends a line of the log.
#[tactic(auto, unfolding(crate::specs::Sentences::in_line))]
pub fn put_in_line(out: &mut Vec<u8>, line: usize) -> Result<(), AllocError>
    ensures put { OnOk result (out.new.items ≡ out.old.items ++ in_line line) }
{
    put(out, b" (line ")?;
    put_number(out, line as u64)?;
    put(out, b")")
}

/// Appends what a transaction wrote of a key.
#[tactic(auto, unfolding(crate::specs::Sentences::version_text))]
pub fn put_version(out: &mut Vec<u8>, log: &Log<'_>, write: OpAt) -> Result<(), AllocError>
    ensures put { OnOk result (out.new.items ≡ out.old.items
        ++ version_text (rows_of log.now.places.now) (map view log.now.sessions.now) write) }
{
    put(out, b"the ")?;
    put(out, key_at(log.sessions, write))?;
    put(out, b" of ")?;
    put_name(out, log, write.txn)
}

/// Appends an operation, with these words for what it does.
#[tactic(auto, unfolding(crate::specs::Sentences::does_text))]
pub fn put_does(out: &mut Vec<u8>, log: &Log<'_>, words: &[u8], at: OpAt) -> Result<(), AllocError>
    ensures put { OnOk result (out.new.items ≡ out.old.items
        ++ does_text (rows_of log.now.places.now) (map view log.now.sessions.now) words.now at) }
{
    put_name(out, log, at.txn)?;
    put(out, words)?;
    put(out, key_at(log.sessions, at))?;
    put(out, b" ")?;
    put_number(out, wid_at(log.sessions, at))?;
    put_in_line(out, line_of(log.places, at))
}

/// Appends who wrote it, behind what a read names.
#[tactic(auto, unfolding(crate::specs::Sentences::wrote_text))]
pub fn put_wrote(out: &mut Vec<u8>, log: &Log<'_>, write: OpAt) -> Result<(), AllocError>
    ensures put { OnOk result (out.new.items ≡ out.old.items
        ++ wrote_text (rows_of log.now.places.now) (map view log.now.sessions.now) write) }
{
    put(out, b", which ")?;
    put_name(out, log, write.txn)?;
    put(out, b" wrote")?;
    put_in_line(out, line_of(log.places, write))
}
