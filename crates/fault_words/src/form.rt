//! What is wrong with a line that has none of the forms.

use crate::lines::LogLine;
use crate::numbers::{NumberFault, number_fault};
use session_log::{Version, index_of, number_of};

/// What is wrong with a line, where that can be seen.
#[derive(Clone, Copy, Debug, PartialEq, Eq)]
pub enum Wrong {
    ByteOrderMark,
    WideCharacters,
    /// The log is compressed by this program; this call writes it as it was.
    Compressed {
        program: &'static str,
        back: &'static str,
    },
    CarriageReturn,
    Empty,
    NoLineFeed,
    NoVersion,
    LateHeader,
    Comment,
    Tab,
    BlankFirst,
    BlankLast,
    TwoBlanks,
    /// The word stands alone in each version.
    Alone(&'static str),
    /// The word stands alone but in version 3.
    Moment(&'static str),
    /// The word is none of this version.
    UnknownInVersionOne,
    NoKey,
    NoIdentity,
    LongKey,
    KeyByte(u8),
    TooManyWords,
    Number(Number, NumberFault),
    SessionNumber,
    CapitalLetters,
    NoSuchWord,
}

/// What a number says.
#[derive(Clone, Copy, Debug, PartialEq, Eq)]
pub enum Number {
    Session,
    Identity,
    Moment,
}

/// The most bytes of a key.
const LONGEST_KEY: usize = 64;

/// The bytes before the first blank, and those behind it, where there is one.
pub fn first_word(bytes: &[u8]) -> (&[u8], Option<&[u8]>) {
    match index_of(bytes, b' ') {
        Some(i) => (&bytes[..i], Some(&bytes[i + 1..])),
        None => (bytes, None),
    }
}

fn has_two_blanks(bytes: &[u8]) -> bool {
    bytes.windows(2).any(|pair| pair == b"  ".as_slice())
}

fn is_key_byte(byte: u8) -> bool {
    byte.is_ascii_alphanumeric() || matches!(byte, b'_' | b'.' | b':' | b'/' | b'-')
}

/// That a file of these first bytes is compressed.
fn compressed_by(bytes: &[u8]) -> Option<Wrong> {
    let (program, back) = if bytes.starts_with(b"\xfd7zXZ") {
        ("xz", "xz -dc")
    } else if bytes.starts_with(b"\x1f\x8b") {
        ("gzip", "gzip -dc")
    } else if bytes.starts_with(b"\x28\xb5\x2f\xfd") {
        ("zstd", "zstd -dc")
    } else if bytes.starts_with(b"BZh") {
        ("bzip2", "bzip2 -dc")
    } else if bytes.starts_with(b"PK\x03\x04") {
        ("zip", "unzip -p")
    } else {
        return None;
    };
    Some(Wrong::Compressed { program, back })
}

/// What the whole file looks like by its first line.
fn wrong_as_a_file(bytes: &[u8]) -> Option<Wrong> {
    if bytes.starts_with(b"\xef\xbb\xbf") {
        return Some(Wrong::ByteOrderMark);
    }
    if bytes.starts_with(b"\xff\xfe") || bytes.starts_with(b"\xfe\xff") {
        return Some(Wrong::WideCharacters);
    }
    compressed_by(bytes)
}

/// What the whole line looks like, whatever its words.
fn wrong_as_a_whole(line: LogLine<'_>, number: usize) -> Option<Wrong> {
    let bytes = line.bytes;
    if number == 1
        && let Some(wrong) = wrong_as_a_file(bytes)
    {
        return Some(wrong);
    }
    if bytes.ends_with(b"\r") {
        return Some(Wrong::CarriageReturn);
    }
    if bytes.is_empty() {
        return Some(Wrong::Empty);
    }
    if !line.ended {
        return Some(Wrong::NoLineFeed);
    }
    if bytes.starts_with(b"#")
        || bytes.starts_with(b"//")
        || bytes.starts_with(b"--")
        || bytes.starts_with(b";")
    {
        return Some(Wrong::Comment);
    }
    if index_of(bytes, b'\t').is_some() {
        return Some(Wrong::Tab);
    }
    if bytes.starts_with(b" ") {
        return Some(Wrong::BlankFirst);
    }
    if bytes.ends_with(b" ") {
        return Some(Wrong::BlankLast);
    }
    if has_two_blanks(bytes) {
        return Some(Wrong::TwoBlanks);
    }
    None
}

/// What is wrong with the rest of a line, which should be one number.
fn wrong_number(number: Number, rest: &[u8]) -> Option<Wrong> {
    if index_of(rest, b' ').is_some() {
        return Some(Wrong::TooManyWords);
    }
    Some(Wrong::Number(number, number_fault(rest)?))
}

fn wrong_session(rest: &[u8]) -> Option<Wrong> {
    match number_of(rest) {
        Some(1..=65535) => None,
        Some(_) => Some(Wrong::SessionNumber),
        None => wrong_number(Number::Session, rest),
    }
}

fn wrong_key(key: &[u8]) -> Option<Wrong> {
    if key.is_empty() {
        return Some(Wrong::NoKey);
    }
    if key.len() > LONGEST_KEY {
        return Some(Wrong::LongKey);
    }
    let byte = key.iter().find(|byte| !is_key_byte(**byte))?;
    Some(Wrong::KeyByte(*byte))
}

fn wrong_operation(rest: &[u8]) -> Option<Wrong> {
    let (key, behind) = first_word(rest);
    if let Some(wrong) = wrong_key(key) {
        return Some(wrong);
    }
    match behind {
        Some(identity) => wrong_number(Number::Identity, identity),
        None => Some(Wrong::NoIdentity),
    }
}

/// A word that stands alone, and may state a moment in version 3.
fn wrong_moment(version: Version, word: &'static str, behind: Option<&[u8]>) -> Option<Wrong> {
    let moment = behind?;
    if !version.has_moments() {
        return Some(Wrong::Moment(word));
    }
    wrong_number(Number::Moment, moment)
}

/// A word that stands alone.
fn wrong_alone(word: &'static str, behind: Option<&[u8]>) -> Option<Wrong> {
    behind?;
    Some(Wrong::Alone(word))
}

fn wrong_unknown(version: Version, behind: Option<&[u8]>) -> Option<Wrong> {
    if !version.has_unknown_line() {
        return Some(Wrong::UnknownInVersionOne);
    }
    wrong_alone("unknown", behind)
}

fn wrong_header(number: usize) -> Wrong {
    if number == 1 {
        Wrong::NoVersion
    } else {
        Wrong::LateHeader
    }
}

fn wrong_word(word: &[u8]) -> Wrong {
    if word.iter().any(|byte| byte.is_ascii_uppercase()) {
        Wrong::CapitalLetters
    } else {
        Wrong::NoSuchWord
    }
}

/// What is wrong by the words of the line.
fn wrong_in_words(version: Version, bytes: &[u8], number: usize) -> Option<Wrong> {
    let (word, behind) = first_word(bytes);
    match word {
        b"session" => wrong_session(behind.unwrap_or(&[])),
        b"r" | b"w" => wrong_operation(behind.unwrap_or(&[])),
        b"begin" => wrong_moment(version, "begin", behind),
        b"commit" => wrong_moment(version, "commit", behind),
        b"abort" => wrong_alone("abort", behind),
        b"unknown" => wrong_unknown(version, behind),
        b"log" => Some(wrong_header(number)),
        _ => Some(wrong_word(word)),
    }
}

/// What is wrong with a line of a log of this version, of this number from 1, where that can be
/// seen.
pub fn wrong_form(version: Version, line: LogLine<'_>, number: usize) -> Option<Wrong> {
    wrong_as_a_whole(line, number).or_else(|| wrong_in_words(version, line.bytes, number))
}
