//! A fault in words.

ghost use Rattle.std.specs.Prelude.{◌≡◌, ◌++◌, IfOk, codes};
ghost use Rattle.std.specs.String.{string_bytes};
ghost use Rattle.fault_words.specs.Codes.{place_of, joined, IsRefusalLine};
ghost use Rattle.fault_words.specs.Words.{Says, SaysOfSome, IsLimitSaid, IsOutsideSaid, IsSaidOf};

use crate::form::{Number, Wrong, first_word, wrong_form};
use crate::lines::{LogLine, earlier_line, line_at};
use crate::numbers::NumberFault;
use crate::quoted::quoted;
use serializability::MAX_NODES;
use session_log::{Limit, LogFault, MAX_KEYS, MAX_OPERATIONS, MAX_SESSIONS, Version, index_of};
use std::alloc::{AllocError, Global};

fn number_words(number: Number) -> &'static str {
    match number {
        Number::Session => "the number of the session",
        Number::Identity => "the identity",
        Number::Moment => "the moment",
    }
}

fn number_fault_words(fault: NumberFault) -> &'static str {
    match fault {
        NumberFault::Missing => "is missing",
        NumberFault::Sign => "has a sign, which numbers have not",
        NumberFault::LeadingZero => "has a leading zero",
        NumberFault::NotDigits => "is no decimal number",
        NumberFault::TooLarge => "is more than 18446744073709551615",
    }
}

fn form_words(alloc: Global, wrong: Wrong, line: LogLine<'_>) -> Result<String, AllocError> {
    let words = match wrong {
        Wrong::ByteOrderMark => "the log begins with a byte order mark, which it may not have",
        Wrong::WideCharacters => "the log is in UTF-16: it has to be in ASCII",
        Wrong::Compressed { program, back } => {
            return format!(in alloc;
                "the log is compressed by {program}: {back} FILE | cobra_poly audit - with the same options"
            );
        }
        Wrong::CarriageReturn => "the line ends in CR LF: lines end in LF alone",
        Wrong::Empty => "an empty line: a log has none",
        Wrong::NoLineFeed => "the last line has no line feed: the log may have been cut off",
        Wrong::NoVersion => {
            "no version of a log: it begins with `log 2`, with `log 3`, or with its first session"
        }
        Wrong::LateHeader => "a header can only be the first line of a log",
        Wrong::Comment => "a comment: a log has none",
        Wrong::Tab => "a tab: words are separated by one blank",
        Wrong::BlankFirst => "the line begins with a blank",
        Wrong::BlankLast => "the line ends with a blank",
        Wrong::TwoBlanks => "two blanks in a row: words are separated by one",
        Wrong::Alone(word) => {
            return format!(in alloc; "something stands behind `{word}`, which stands alone");
        }
        Wrong::Moment(word) => {
            return format!(in alloc; "`{word}` states a moment: that needs the header `log 3`");
        }
        Wrong::UnknownInVersionOne => "`unknown` needs the header `log 2` or `log 3`",
        Wrong::NoKey => "the key is missing",
        Wrong::NoIdentity => "the identity is missing",
        Wrong::LongKey => "the key has more than 64 bytes",
        Wrong::KeyByte(byte) => {
            let shown = quoted(alloc, &[byte])?;
            return format!(in alloc;
                "the key has the byte {shown}: keys have A-Z a-z 0-9 _ . : / - alone"
            );
        }
        Wrong::TooManyWords => "the line has too many words",
        Wrong::Number(number, fault) => {
            let what = number_words(number);
            let why = number_fault_words(fault);
            return format!(in alloc; "{what} {why}");
        }
        Wrong::SessionNumber => "the number of the session is not 1 to 65535",
        Wrong::CapitalLetters => "words are written in small letters",
        Wrong::NoSuchWord => {
            let shown = quoted(alloc, first_word(line.bytes).0)?;
            return format!(in alloc; "no line of a log begins with {shown}");
        }
    };
    String::from_str(alloc, words)
}

fn bad_line_words(alloc: Global, log: &[u8], number: usize) -> Result<String, AllocError> {
    if let Some(line) = line_at(log, number) {
        if let Some(wrong) = wrong_form(Version::of(log), line, number) {
            return form_words(alloc, wrong, line);
        }
    }
    String::from_str(alloc, "the line has none of the forms of a log")
}

/// The last word of a line that begins with `w `, which is a write's identity.
fn identity_of(line: &[u8]) -> Option<&[u8]> {
    let words = line.strip_prefix(b"w ")?;
    let blank = index_of(words, b' ')?;
    Some(&words[blank + 1..])
}

/// What is said of a thing, and more.
#[tactic(auto, using(std::proofs::Common::append_assoc))]
fn said_of(alloc: Global, what: &str, said: &str, more: &str) -> Result<String, AllocError>
    ensures words { IfOk result (λ text. string_bytes text ≡ what.now ++ said.now ++ more.now) }
{
    let mut words = String::from_str(alloc, what)?;
    words.push_str(said)?;
    words.push_str(more)?;
    Ok(words)
}

/// What is said of a thing, and the earlier line, as far as that is found.
fn twice_words(
    alloc: Global,
    what: &str,
    said: &str,
    earlier: Option<usize>,
) -> Result<String, AllocError>
    ensures says { IfOk result (λ text. Says what.now said.now (string_bytes text)) }
    ensures some { IfOk result (λ text. SaysOfSome said.now (string_bytes text)) }
{
    match earlier {
        Some(line) => said_of(alloc, what, said, &format!(in alloc; ", in line {line}")?),
        None => said_of(alloc, what, said, ""),
    }
}

fn session_twice_words(alloc: Global, log: &[u8], number: usize) -> Result<String, AllocError>
    ensures says { IfOk result (λ text. Says (codes "this session") (codes " began before")
        (string_bytes text)) }
{
    let Some(line) = line_at(log, number) else {
        return twice_words(alloc, "this session", " began before", None);
    };
    let earlier = earlier_line(log, number, |bytes| bytes == line.bytes);
    twice_words(alloc, "this session", " began before", earlier)
}

fn write_twice_words(alloc: Global, log: &[u8], number: usize) -> Result<String, AllocError>
    ensures says { IfOk result (λ text. SaysOfSome (codes " was written before")
        (string_bytes text)) }
{
    let line = line_at(log, number);
    let Some(identity) = line.and_then(|line| identity_of(line.bytes)) else {
        return twice_words(alloc, "this identity", " was written before", None);
    };
    let earlier = earlier_line(log, number, |bytes| identity_of(bytes) == Some(identity));
    let shown = quoted(alloc, identity)?;
    let what = format!(in alloc; "identity {shown}")?;
    twice_words(alloc, &what, " was written before", earlier)
}

fn outside_words(alloc: Global, log: &[u8], number: usize) -> Result<String, AllocError>
    ensures said { IfOk result (λ text. IsOutsideSaid (string_bytes text)) }
{
    match earlier_line(log, number, |bytes| bytes.starts_with(b"session")) {
        Some(_) => String::from_str(alloc, "no transaction is open here: a `begin` is missing"),
        None => String::from_str(alloc, "the line stands before the first session"),
    }
}

fn limit_words(alloc: Global, which: Limit, most_bytes: usize) -> Result<String, AllocError>
    ensures said { IfOk result (λ text. IsLimitSaid most_bytes which (string_bytes text)) }
{
    match which {
        Limit::LogBytes => format!(in alloc; "the log has more than {most_bytes} bytes"),
        Limit::Sessions => format!(in alloc; "the log has more than {MAX_SESSIONS} sessions"),
        Limit::Operations => {
            format!(in alloc; "the log has more than {MAX_OPERATIONS} reads and writes")
        }
        Limit::Committed => {
            format!(in alloc;
                "the log has more than {MAX_NODES} transactions that are committed or unknown"
            )
        }
        Limit::Keys => format!(in alloc; "the log has more than {MAX_KEYS} keys"),
    }
}

/// What is wrong with a log that has this fault, where a log may have so many bytes, as a sentence
/// without its end.
pub fn words_of(
    alloc: Global,
    log: &[u8],
    fault: LogFault,
    most_bytes: usize,
) -> Result<String, AllocError>
    ensures said { IfOk result (λ text. IsSaidOf most_bytes fault (string_bytes text)) }
{
    match fault {
        LogFault::BadLine { line } => bad_line_words(alloc, log, line),
        LogFault::SessionTwice { line } => session_twice_words(alloc, log, line),
        LogFault::OutsideTransaction { line } => outside_words(alloc, log, line),
        LogFault::WriteTwice { line } => write_twice_words(alloc, log, line),
        LogFault::OverLimit { which } => limit_words(alloc, which, most_bytes),
        LogFault::OpenTransaction { .. } => String::from_str(
            alloc,
            "the transaction that begins here has no `commit`, `abort` or `unknown`",
        ),
        LogFault::WriteZero { .. } => String::from_str(
            alloc,
            "identity 0 is that of the initial value, and no write can have it",
        ),
        LogFault::UnknownNotLast { .. } => String::from_str(
            alloc,
            "the transaction stands behind one whose outcome is unknown: it needs a session of its own",
        ),
        LogFault::EndsBeforeBegin { .. } => String::from_str(
            alloc,
            "the transaction ends at an earlier moment than it begins",
        ),
        LogFault::Memory => String::from_str(alloc, "out of memory"),
    }
}

/// The name of a log, with the line behind it where there is one.
fn place_of(alloc: Global, name: &str, line: Option<usize>) -> Result<String, AllocError>
    ensures place { IfOk result (λ text. string_bytes text ≡ place_of name.now line) }
{
    match line {
        Some(line) => format!(in alloc; "{name}:{line}"),
        None => String::from_str(alloc, name),
    }
}

fn joined(alloc: Global, place: &str, words: &str, code: &str) -> Result<String, AllocError>
    ensures line { IfOk result (λ text. string_bytes text ≡ joined place.now words.now code.now) }
{
    let mut line = format!(in alloc; "{place}: {words}")?;
    line.push_str(" (")?;
    line.push_str(code)?;
    line.push_str(")")?;
    Ok(line)
}

/// The line that a compiler would print of a log of this name that has this fault: `FILE:LINE:
/// WORDS (CODE)`, without a line feed, and without the line where the fault has none. Such a log may
/// have so many bytes.
pub fn refusal(
    alloc: Global,
    name: &str,
    log: &[u8],
    fault: LogFault,
    most_bytes: usize,
) -> Result<String, AllocError>
    ensures refusal { IfOk result (λ text.
        IsRefusalLine most_bytes name.now fault (string_bytes text)) }
{
    let words = words_of(alloc, log, fault, most_bytes)?;
    let code = fault.code();
    let place = place_of(alloc, name, fault.line())?;
    joined(alloc, &place, &words, code)
}
