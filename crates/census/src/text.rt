//! The census as text.

ghost use Rattle.std.specs.Prelude.{◌≡◌, ◌++◌, IfOk, OnOk};
ghost use Rattle.std.specs.List.{flat_map};
ghost use Rattle.census.specs.Text.{census_text, count_line, first_line, key_line};
ghost use Rattle.census.specs.Text.{faults_word, reads_word, total_of, transactions_word};

use crate::numbers::{Census, KeyFaults};
use itoa::Buffer;
use std::alloc::{AllocError, Global};

/// The word for so many reads.
fn reads_word(count: usize) -> &'static [u8]
    ensures word { result.now ≡ reads_word count }
{
    if count == 1 { b" read\n" } else { b" reads\n" }
}

/// The word for so many transactions.
fn transactions_word(count: usize) -> &'static [u8]
    ensures word { result.now ≡ transactions_word count }
{
    if count == 1 {
        b" transaction\n"
    } else {
        b" transactions\n"
    }
}

/// The word for so many faults.
fn faults_word(count: u128) -> &'static [u8]
    ensures word { result.now ≡ faults_word count }
{
    if count == 1 {
        b" fault\n"
    } else {
        b" faults\n"
    }
}

/// How many faults there are.
pub fn total_of(census: &Census) -> u128
    ensures total { result ≡ total_of census.now }
{
    census.unknown_reads as u128
        + census.aborted_reads as u128
        + census.intermediate_reads as u128
        + census.own_writes_missed as u128
        + census.future_reads as u128
        + census.split_reads as u128
        + census.lost_updates as u128
}

/// Appends how many faults there are.
#[tactic(auto, unfolding(crate::specs::Text::first_line))]
fn put_total(out: &mut Vec<u8>, total: u128) -> Result<(), AllocError>
    ensures put { OnOk result (out.new.items ≡ out.old.items ++ first_line total) }
{
    if total == 0 {
        return out.extend_from_slice(b"census: no fault of A1 to A7\n");
    }
    let mut digits = Buffer::new();
    out.extend_from_slice(b"census: ")?;
    out.extend_from_slice(digits.format(total).as_bytes())?;
    out.extend_from_slice(faults_word(total))
}

/// Appends a line: a name, a number and a word.
#[tactic(auto, unfolding(crate::specs::Text::count_line))]
fn put_count(out: &mut Vec<u8>, name: &[u8], count: usize, word: &[u8]) -> Result<(), AllocError>
    ensures put { OnOk result (out.new.items
        ≡ out.old.items ++ count_line name.now count word.now) }
{
    let mut digits = Buffer::new();
    out.extend_from_slice(name)?;
    out.extend_from_slice(digits.format(count).as_bytes())?;
    out.extend_from_slice(word)
}

/// Appends a line of so many reads.
fn put_reads(out: &mut Vec<u8>, name: &[u8], count: usize) -> Result<(), AllocError>
    ensures put { OnOk result (out.new.items
        ≡ out.old.items ++ count_line name.now count (reads_word count)) }
{
    put_count(out, name, count, reads_word(count))
}

/// Appends a line of so many transactions.
fn put_transactions(out: &mut Vec<u8>, name: &[u8], count: usize) -> Result<(), AllocError>
    ensures put { OnOk result (out.new.items
        ≡ out.old.items ++ count_line name.now count (transactions_word count)) }
{
    put_count(out, name, count, transactions_word(count))
}

/// Appends a line of so many faults of a key.
#[tactic(auto, unfolding(crate::specs::Text::key_line))]
fn put_key(out: &mut Vec<u8>, line: &KeyFaults) -> Result<(), AllocError>
    ensures put { OnOk result (out.new.items ≡ out.old.items ++ key_line line.now) }
{
    out.extend_from_slice(b"key ")?;
    out.extend_from_slice(line.key.as_bytes())?;
    put_count(out, b": ", line.faults, faults_word(line.faults as u128))
}

/// Appends a line for each of these keys.
fn put_keys(out: &mut Vec<u8>, lines: &[KeyFaults]) -> Result<(), AllocError>
    ensures put { OnOk result (out.new.items ≡ out.old.items ++ flat_map key_line lines.now) }
{
    for line in lines {
        put_key(out, line)?;
    }
    Ok(())
}

/// A line of how many faults there are, one for each anomaly, and one for each of the worst keys.
#[tactic(auto, unfolding(crate::specs::Text::census_text))]
pub fn census_text(alloc: Global, census: &Census) -> Result<Vec<u8>, AllocError>
    ensures text { IfOk result (λ text. text.items ≡ census_text census.now) }
{
    let mut out = Vec::new(alloc);
    put_total(&mut out, total_of(census))?;
    put_reads(&mut out, b"A1 unknown read: ", census.unknown_reads)?;
    put_reads(&mut out, b"A2 aborted read: ", census.aborted_reads)?;
    put_reads(
        &mut out,
        b"A3 intermediate read: ",
        census.intermediate_reads,
    )?;
    put_reads(&mut out, b"A4 own write missed: ", census.own_writes_missed)?;
    put_reads(&mut out, b"A5 future read: ", census.future_reads)?;
    put_reads(&mut out, b"A6 split read: ", census.split_reads)?;
    put_transactions(&mut out, b"A7 lost update: ", census.lost_updates)?;
    put_keys(&mut out, census.worst_keys.as_slice())?;
    Ok(out)
}
