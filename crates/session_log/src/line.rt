//! One line of a log.

ghost use Rattle.std.specs.Prelude.{◌≡◌, ◌^◌, ◌==◌, ◌&&◌, true, false, nat_lt, nat_eq, position};
ghost use Rattle.std.specs.Prelude.{drop, codes, Some, None, IfOk, if◌then◌else◌, option_and_then};
ghost use Rattle.session_log.specs.declared.line.Line.TheVariants as line;
ghost use Rattle.std.specs.List.{list_all, starts_with};
ghost use Rattle.std.specs.Str.{bytes_eq};
ghost use Rattle.std.specs.Char.{is_ascii_digit};
ghost use Rattle.std.specs.Str.Parse.{digits_value};
ghost use Rattle.session_log.specs.Lines.{is_numeral, number_of, session_of, keyed_of, form_of};
ghost use Rattle.session_log.specs.Version.{has_unknown_line, has_moments};

use crate::key::Key;
use crate::version::Version;
use crate::words::{index_of, number_of};
use std::alloc::{AllocError, Global};

/// A line of a log, by its form: the words of the contracts on its text.
#[derive(Debug, Drop)]
pub enum Line {
    /// `session N`.
    Session(u16),
    /// `begin`, or `begin M` with the moment.
    Begin(Option<u64>),
    /// `r KEY WID`.
    Read(Key, u64),
    /// `w KEY WID`.
    Write(Key, u64),
    /// `commit`, or `commit M`.
    Commit(Option<u64>),
    Abort,
    /// `unknown`.
    Unknown,
}

#[tactic(auto, unfolding(crate::specs::Lines::session_of))]
fn session_of(word: &[u8]) -> Option<Line>
    ensures { result ≡ session_of word.now }
{
    let n = number_of(word)?;
    if 1 <= n && n <= 65535 {
        Some(Line::Session(n as u16))
    } else {
        None
    }
}

/// The line of a `begin` with the moment that a word writes.
fn begin_of(word: &[u8]) -> Option<Line>
    ensures { result ≡ option_and_then (λ m. Some (line.Begin (Some m))) (number_of word.now) }
{
    let moment = number_of(word)?;
    Some(Line::Begin(Some(moment)))
}

/// The same of a `commit`.
fn commit_of(word: &[u8]) -> Option<Line>
    ensures { result ≡ option_and_then (λ m. Some (line.Commit (Some m))) (number_of word.now) }
{
    let moment = number_of(word)?;
    Some(Line::Commit(Some(moment)))
}

/// A key, a space and a number.
#[tactic(auto, unfolding(crate::specs::Lines::keyed_of))]
fn keyed_of(alloc: Global, words: &[u8]) -> Result<Option<(Key, u64)>, AllocError>
    ensures { IfOk result (λ o. o ≡ keyed_of words.now) }
{
    let Some(i) = index_of(words, b' ') else {
        return Ok(None);
    };
    let Some(wid) = number_of(&words[i + 1..]) else {
        return Ok(None);
    };
    match Key::new(alloc, &words[..i])? {
        Some(key) => Ok(Some((key, wid))),
        None => Ok(None),
    }
}

/// The line of a read.
fn read_of(alloc: Global, words: &[u8]) -> Result<Option<Line>, AllocError>
    ensures { IfOk result (λ o. o ≡ option_and_then (λ k. Some (line.Read k.0 k.1))
        (keyed_of words.now)) }
{
    match keyed_of(alloc, words)? {
        Some((key, wid)) => Ok(Some(Line::Read(key, wid))),
        None => Ok(None),
    }
}

/// The same of a write.
fn write_of(alloc: Global, words: &[u8]) -> Result<Option<Line>, AllocError>
    ensures { IfOk result (λ o. o ≡ option_and_then (λ k. Some (line.Write k.0 k.1))
        (keyed_of words.now)) }
{
    match keyed_of(alloc, words)? {
        Some((key, wid)) => Ok(Some(Line::Write(key, wid))),
        None => Ok(None),
    }
}

/// The forms that only some versions have.
fn later_form(version: Version, body: &[u8]) -> Option<Line>
    ensures { result ≡
        (if has_unknown_line version && bytes_eq body.now (codes "unknown") then Some line.Unknown else
        (if has_moments version && starts_with nat_eq body.now (codes "begin ") then option_and_then (λ m. Some (line.Begin (Some m))) (number_of (drop 6 body.now)) else
        (if has_moments version && starts_with nat_eq body.now (codes "commit ") then option_and_then (λ m. Some (line.Commit (Some m))) (number_of (drop 7 body.now)) else None))) }
{
    if version.has_unknown_line() && body == b"unknown".as_slice() {
        Some(Line::Unknown)
    } else if version.has_moments() && body.starts_with(b"begin ") {
        begin_of(&body[6..])
    } else if version.has_moments() && body.starts_with(b"commit ") {
        commit_of(&body[7..])
    } else {
        None
    }
}

/// The form of a line that is no single word of every version.
#[tactic(auto, unfolding(crate::specs::Lines::form_of))]
fn longer_form(alloc: Global, version: Version, body: &[u8]) -> Result<Option<Line>, AllocError>
    requires begin { bytes_eq body.now (codes "begin") ≡ false }
    requires commit { bytes_eq body.now (codes "commit") ≡ false }
    requires abort { bytes_eq body.now (codes "abort") ≡ false }
    ensures { IfOk result (λ o. o ≡ form_of version body.now) }
{
    if body.starts_with(b"session ") {
        Ok(session_of(&body[8..]))
    } else if body.starts_with(b"r ") {
        read_of(alloc, &body[2..])
    } else if body.starts_with(b"w ") {
        write_of(alloc, &body[2..])
    } else {
        Ok(later_form(version, body))
    }
}

/// The form of a line without its LF, and `None` where this version has none for it.
#[tactic(auto, unfolding(crate::specs::Lines::form_of))]
pub fn form_of(alloc: Global, version: Version, body: &[u8]) -> Result<Option<Line>, AllocError>
    ensures { IfOk result (λ o. o ≡ form_of version body.now) }
{
    if body == b"begin".as_slice() {
        Ok(Some(Line::Begin(None)))
    } else if body == b"commit".as_slice() {
        Ok(Some(Line::Commit(None)))
    } else if body == b"abort".as_slice() {
        Ok(Some(Line::Abort))
    } else {
        longer_form(alloc, version, body)
    }
}
