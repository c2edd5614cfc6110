//! The report as one object of JSON.

ghost use Rattle.std.specs.Prelude.{◌≡◌, ◌++◌, ◌<◌, OnOk, IfOk};
ghost use Rattle.std.specs.List.{flat_map};
ghost use Rattle.audit_report.specs.Objects.{hex_digit, escaped_byte, escaped, quoted};
ghost use Rattle.audit_report.specs.Objects.{quoted_or_null, word_or_null, code_value};
ghost use Rattle.audit_report.specs.Objects.{behind_comma, joined, txn_object};
ghost use Rattle.audit_report.specs.Objects.{line_byte, lines_value, part_values, why_values, part_object};
ghost use Rattle.audit_report.specs.Objects.{first_values, reason_value, count_values};
ghost use Rattle.audit_report.specs.Objects.{version_value, verdict_value, report_object};
ghost use Rattle.audit_report.specs.Objects.{parts_of, rest_of_object, explanation_value, sessions_value, without_value};
ghost use Rattle.audit_report.specs.Objects.{faults_value, why_unknown, behind_verdict, level_value};
ghost use Rattle.audit_report.specs.Objects.{kept_or_null, strict_value, snapshot_value};
ghost use Rattle.audit_report.specs.Objects.{head_values, weaker_values, part_or_null, shown_value};
ghost use Rattle.audit_report.specs.Objects.{lower_values, lowest_value};

use crate::codes::{code_number, kept_text, verdict_text, word_of, word_text};
use crate::lines::{put, put_number};
use crate::report::put_too_few;
use crate::told::{Answer, Lower, Told, ToldPart, ToldTxn, Totals, Word};
use isolation::Isolation;
use std::alloc::{AllocError, Global};

/// A digit of base 16.
fn hex_digit(value: u8) -> u8
    requires { value < 16 }
    ensures digit { result ≡ hex_digit value }
{
    if value < 10 {
        b'0' + value
    } else {
        b'a' - 10 + value
    }
}

/// Appends a byte as it stands between quotes.
fn put_escaped(out: &mut Vec<u8>, byte: u8) -> Result<(), AllocError>
    ensures put { OnOk result (out.new.items ≡ out.old.items ++ escaped_byte byte) }
{
    if byte == b'"' {
        return put(out, b"\\\"");
    }
    if byte == b'\\' {
        return put(out, b"\\\\");
    }
    if byte < 32 {
        put(out, b"\\u00")?;
        return put(out, &[hex_digit(byte / 16), hex_digit(byte % 16)]);
    }
    put(out, &[byte])
}

/// Appends a text between quotes.
pub fn put_quoted(out: &mut Vec<u8>, text: &[u8]) -> Result<(), AllocError>
    ensures put { OnOk result (out.new.items ≡ out.old.items ++ quoted text.now) }
{
    put(out, b"\"")?;
    put_all_escaped(out, text)?;
    put(out, b"\"")
}

fn put_all_escaped(out: &mut Vec<u8>, text: &[u8]) -> Result<(), AllocError>
    ensures put { OnOk result (out.new.items ≡ out.old.items ++ escaped text.now) }
{
    for byte in text {
        put_escaped(out, *byte)?;
    }
    Ok(())
}

fn put_quoted_or_null(out: &mut Vec<u8>, text: &Option<String>) -> Result<(), AllocError>
    ensures put { OnOk result (out.new.items ≡ out.old.items ++ quoted_or_null text.now) }
{
    match text {
        None => put(out, b"null"),
        Some(text) => put_quoted(out, text.as_bytes()),
    }
}

fn put_word_or_null(out: &mut Vec<u8>, word: Option<Word>) -> Result<(), AllocError>
    ensures put { OnOk result (out.new.items ≡ out.old.items ++ word_or_null word) }
{
    match word {
        None => put(out, b"null"),
        Some(word) => {
            put(out, b"\"")?;
            put(out, word_text(word).as_bytes())?;
            put(out, b"\"")
        }
    }
}

/// Appends the code of this number, or null.
fn put_code(out: &mut Vec<u8>, number: usize) -> Result<(), AllocError>
    ensures put { OnOk result (out.new.items ≡ out.old.items ++ code_value number) }
{
    if number == 0 {
        return put(out, b"null");
    }
    put_number(out, b"\"A", number)?;
    put(out, b"\"")
}

fn put_txn(out: &mut Vec<u8>, txn: ToldTxn) -> Result<(), AllocError>
    ensures put { OnOk result (out.new.items ≡ out.old.items ++ txn_object txn) }
{
    put_number(out, b"{\"transaction\":\"", txn.session)?;
    put_number(out, b".", txn.place)?;
    put_number(out, b"\",\"lines\":[", txn.first)?;
    put_number(out, b",", txn.last)?;
    put(out, b"]}")?;
    Ok(())
}

/// Appends transactions, each behind a comma.
fn put_more_txns(out: &mut Vec<u8>, txns: &[ToldTxn]) -> Result<(), AllocError>
    ensures put { OnOk result (out.new.items ≡ out.old.items ++ behind_comma txn_object txns.now) }
{
    for txn in txns {
        put(out, b",")?;
        put_txn(out, *txn)?;
    }
    Ok(())
}

fn put_txns(out: &mut Vec<u8>, txns: &[ToldTxn]) -> Result<(), AllocError>
    ensures put { OnOk result (out.new.items ≡ out.old.items ++ joined txn_object txns.now) }
{
    match txns {
        [] => Ok(()),
        [first, behind @ ..] => {
            put_txn(out, *first)?;
            put_more_txns(out, behind)
        }
    }
}

/// Appends a byte of lines: a line feed ends a value, and begins the next.
fn put_line_byte(out: &mut Vec<u8>, byte: u8) -> Result<(), AllocError>
    ensures put { OnOk result (out.new.items ≡ out.old.items ++ line_byte byte) }
{
    if byte == b'\n' {
        put(out, b"\",\"")
    } else {
        put_escaped(out, byte)
    }
}

fn put_line_bytes(out: &mut Vec<u8>, bytes: &[u8]) -> Result<(), AllocError>
    ensures put { OnOk result (out.new.items ≡ out.old.items ++ flat_map line_byte bytes.now) }
{
    for byte in bytes {
        put_line_byte(out, *byte)?;
    }
    Ok(())
}

/// Appends the lines of a text, each between quotes.
fn put_lines(out: &mut Vec<u8>, text: &[u8]) -> Result<(), AllocError>
    ensures put { OnOk result (out.new.items ≡ out.old.items ++ lines_value text.now) }
{
    match text {
        [] => Ok(()),
        [lines @ .., _] => {
            put(out, b"\"")?;
            put_line_bytes(out, lines)?;
            put(out, b"\"")
        }
    }
}

/// Appends what was found of a part, and its transactions.
#[tactic(auto, unfolding(crate::specs::Objects::part_values))]
fn put_part_values(out: &mut Vec<u8>, part: &ToldPart) -> Result<(), AllocError>
    ensures put { OnOk result (out.new.items ≡ out.old.items ++ part_values part.now) }
{
    put(out, b"\"code\":")?;
    put_code(out, code_number(part.refuted.finding))?;
    put(out, b",\"known_as\":")?;
    put_quoted_or_null(out, &part.known_as)?;
    put(out, b",\"part\":[")?;
    put_txns(out, &part.txns)?;
    put(out, b"]")
}

#[tactic(auto, unfolding(crate::specs::Objects::explanation_value))]
fn put_explanation(out: &mut Vec<u8>, text: &[u8]) -> Result<(), AllocError>
    ensures put { OnOk result (out.new.items ≡ out.old.items ++ explanation_value text.now) }
{
    put(out, b",\"explanation\":[")?;
    put_lines(out, text)?;
    put(out, b"]")
}

/// Appends whether a part has a serial order without the order of sessions.
#[tactic(auto, unfolding(crate::specs::Objects::sessions_value))]
fn put_sessions(out: &mut Vec<u8>, is_serial_apart: bool) -> Result<(), AllocError>
    ensures put { OnOk result (out.new.items ≡ out.old.items ++ sessions_value is_serial_apart) }
{
    put(out, b",\"without_sessions\":")?;
    if is_serial_apart {
        put(out, b"\"serializable\"")
    } else {
        put(out, b"null")
    }
}

/// Appends why a part has no order, where that is asked for.
#[tactic(auto, unfolding(crate::specs::Objects::why_values))]
fn put_why(out: &mut Vec<u8>, explain: bool, part: &ToldPart) -> Result<(), AllocError>
    ensures put { OnOk result (out.new.items ≡ out.old.items ++ why_values explain part.now) }
{
    if explain {
        put_explanation(out, &part.why)?;
        put_sessions(out, part.is_serial_apart)
    } else {
        Ok(())
    }
}

fn put_part(out: &mut Vec<u8>, explain: bool, part: &ToldPart) -> Result<(), AllocError>
    ensures put { OnOk result (out.new.items ≡ out.old.items ++ part_object explain part.now) }
{
    put(out, b"{")?;
    put_part_values(out, part)?;
    put_why(out, explain, part)?;
    put(out, b"}")
}

fn put_more_parts(out: &mut Vec<u8>, explain: bool, parts: &[ToldPart]) -> Result<(), AllocError>
    ensures put { OnOk result (out.new.items ≡ out.old.items
        ++ behind_comma (part_object explain) parts.now) }
{
    for part in parts {
        put(out, b",")?;
        put_part(out, explain, part)?;
    }
    Ok(())
}

fn put_parts(out: &mut Vec<u8>, explain: bool, parts: &[ToldPart]) -> Result<(), AllocError>
    ensures put { OnOk result (out.new.items ≡ out.old.items
        ++ joined (part_object explain) parts.now) }
{
    match parts {
        [] => Ok(()),
        [first, behind @ ..] => {
            put_part(out, explain, first)?;
            put_more_parts(out, explain, behind)
        }
    }
}

/// Appends what was found of the first part; nulls where there is none.
#[tactic(auto, unfolding(crate::specs::Objects::first_values))]
fn put_first(out: &mut Vec<u8>, explain: bool, parts: &[ToldPart]) -> Result<(), AllocError>
    ensures put { OnOk result (out.new.items ≡ out.old.items ++ first_values explain parts.now) }
{
    match parts {
        [] => put(out, b"\"code\":null,\"known_as\":null,\"part\":[]"),
        [first, ..] => {
            put_part_values(out, first)?;
            put_why(out, explain, first)
        }
    }
}

/// The parts of an answer.
pub fn parts_of(answer: &Answer) -> &[ToldPart]
    ensures parts { result.now ≡ parts_of answer.now }
{
    match answer {
        Answer::NotSerializable(parts) => parts,
        Answer::Serializable
        | Answer::NoMoments
        | Answer::TooFew { .. }
        | Answer::Undecided { .. } => &[],
    }
}

fn put_reason(out: &mut Vec<u8>, answer: &Answer) -> Result<(), AllocError>
    ensures put { OnOk result (out.new.items ≡ out.old.items ++ reason_value answer.now) }
{
    match answer {
        Answer::TooFew { committed, asked } => {
            put(out, b"\"")?;
            put_too_few(out, *committed, *asked)?;
            put(out, b"\"")
        }
        Answer::Undecided { reason, .. } => put_quoted(out, reason.as_bytes()),
        Answer::NoMoments => put(out, b"\"the log states no moments\""),
        Answer::Serializable | Answer::NotSerializable(_) => put(out, b"null"),
    }
}

#[tactic(auto, unfolding(crate::specs::Objects::count_values))]
fn put_counts(out: &mut Vec<u8>, totals: &Totals) -> Result<(), AllocError>
    ensures put { OnOk result (out.new.items ≡ out.old.items ++ count_values totals.now) }
{
    let counts = totals.counts;
    put_number(out, b",\"sessions\":", counts.sessions)?;
    put_number(out, b",\"committed\":", counts.committed)?;
    put_number(out, b",\"aborted\":", counts.aborted)?;
    put_number(out, b",\"unknown\":", counts.unknown)?;
    put_number(out, b",\"taken\":", totals.taken)?;
    put_number(out, b",\"keys\":", counts.keys)?;
    put_number(out, b",\"operations\":", counts.operations)?;
    Ok(())
}

/// Appends the program's version, and ends the object.
#[tactic(auto, unfolding(crate::specs::Objects::version_value))]
pub fn put_version(out: &mut Vec<u8>, version: &str) -> Result<(), AllocError>
    ensures put { OnOk result (out.new.items ≡ out.old.items ++ version_value version.now) }
{
    put(out, b",\"version\":")?;
    put_quoted(out, version.as_bytes())?;
    put(out, b"}\n")
}

#[tactic(auto, unfolding(crate::specs::Objects::verdict_value))]
fn put_verdict(out: &mut Vec<u8>, level: Option<Isolation>, word: Word) -> Result<(), AllocError>
    ensures put { OnOk result (out.new.items ≡ out.old.items ++ verdict_value level word) }
{
    put(out, b"{\"verdict\":\"")?;
    put(out, verdict_text(level, word).as_bytes())?;
    put(out, b"\"")?;
    Ok(())
}

/// Appends the level, where it is asked for by name.
#[tactic(auto, unfolding(crate::specs::Objects::level_value))]
fn put_level(out: &mut Vec<u8>, level: Option<Isolation>) -> Result<(), AllocError>
    ensures put { OnOk result (out.new.items ≡ out.old.items ++ level_value level) }
{
    match level {
        None => Ok(()),
        Some(level) => {
            put(out, b",\"level\":\"")?;
            put(out, level.title().as_bytes())?;
            put(out, b"\"")
        }
    }
}

#[tactic(auto, unfolding(crate::specs::Objects::without_value))]
fn put_without(out: &mut Vec<u8>, word: Option<Word>) -> Result<(), AllocError>
    ensures put { OnOk result (out.new.items ≡ out.old.items ++ without_value word) }
{
    put(out, b",\"without_moments\":")?;
    put_word_or_null(out, word)
}

fn put_kept_or_null(out: &mut Vec<u8>, word: Option<Word>) -> Result<(), AllocError>
    ensures put { OnOk result (out.new.items ≡ out.old.items ++ kept_or_null word) }
{
    match word {
        None => put(out, b"null"),
        Some(word) => {
            put(out, b"\"")?;
            put(out, kept_text(word).as_bytes())?;
            put(out, b"\"")
        }
    }
}

#[tactic(auto, unfolding(crate::specs::Objects::strict_value))]
fn put_strict(out: &mut Vec<u8>, word: Option<Word>) -> Result<(), AllocError>
    ensures put { OnOk result (out.new.items ≡ out.old.items ++ strict_value word) }
{
    put(out, b",\"strict_snapshot\":")?;
    put_kept_or_null(out, word)
}

#[tactic(auto, unfolding(crate::specs::Objects::snapshot_value))]
fn put_snapshot(out: &mut Vec<u8>, word: Option<Word>) -> Result<(), AllocError>
    ensures put { OnOk result (out.new.items ≡ out.old.items ++ snapshot_value word) }
{
    put(out, b",\"snapshot\":")?;
    put_kept_or_null(out, word)
}

#[tactic(auto, unfolding(crate::specs::Objects::faults_value))]
fn put_faults(out: &mut Vec<u8>, explain: bool, parts: &[ToldPart]) -> Result<(), AllocError>
    ensures put { OnOk result (out.new.items ≡ out.old.items ++ faults_value explain parts.now) }
{
    put(out, b",\"faults\":[")?;
    put_parts(out, explain, parts)?;
    put(out, b"]")
}

#[tactic(auto, unfolding(crate::specs::Objects::why_unknown))]
fn put_why_unknown(out: &mut Vec<u8>, answer: &Answer) -> Result<(), AllocError>
    ensures put { OnOk result (out.new.items ≡ out.old.items ++ why_unknown answer.now) }
{
    put(out, b",\"reason\":")?;
    put_reason(out, answer)
}

/// Appends the level, where it is named, and the first part.
#[tactic(auto, unfolding(crate::specs::Objects::head_values))]
fn put_head(out: &mut Vec<u8>, explain: bool, told: &Told) -> Result<(), AllocError>
    ensures put { OnOk result (out.new.items ≡ out.old.items ++ head_values explain told.now) }
{
    put_level(out, told.level)?;
    put(out, b",")?;
    put_first(out, explain, parts_of(&told.answer))
}

fn put_part_or_null(
    out: &mut Vec<u8>,
    explain: bool,
    part: &Option<ToldPart>,
) -> Result<(), AllocError>
    ensures put { OnOk result (out.new.items ≡ out.old.items ++ part_or_null explain part.now) }
{
    match part {
        None => put(out, b"null"),
        Some(part) => put_part(out, explain, part),
    }
}

#[tactic(auto, unfolding(crate::specs::Objects::shown_value))]
fn put_shown(out: &mut Vec<u8>, explain: bool, shown: &Option<ToldPart>) -> Result<(), AllocError>
    ensures put { OnOk result (out.new.items ≡ out.old.items ++ shown_value explain shown.now) }
{
    put(out, b",\"snapshot_fault\":")?;
    put_part_or_null(out, explain, shown)
}

/// Appends whether levels below snapshot isolation were kept.
fn put_lower(out: &mut Vec<u8>, lower: &Lower) -> Result<(), AllocError>
    ensures put { OnOk result (out.new.items ≡ out.old.items ++ lower_values lower.now) }
{
    put(out, b",\"prefix\":")?;
    put_kept_or_null(out, lower.prefix)?;
    put(out, b",\"causal\":")?;
    put_kept_or_null(out, lower.causal)?;
    put(out, b",\"read_atomic\":")?;
    put_kept_or_null(out, lower.read_atomic)?;
    put(out, b",\"monotonic_atomic_view\":")?;
    put_kept_or_null(out, lower.monotonic_atomic_view)?;
    put(out, b",\"read_committed\":")?;
    put_kept_or_null(out, lower.read_committed)
}

#[tactic(auto, unfolding(crate::specs::Objects::lowest_value))]
fn put_lowest(out: &mut Vec<u8>, explain: bool, lowest: &Option<ToldPart>) -> Result<(), AllocError>
    ensures put { OnOk result (out.new.items ≡ out.old.items ++ lowest_value explain lowest.now) }
{
    put(out, b",\"weakest_fault\":")?;
    put_part_or_null(out, explain, lowest)
}

/// Appends what holds without moments and at weaker levels.
#[tactic(auto, unfolding(crate::specs::Objects::weaker_values))]
fn put_weaker(out: &mut Vec<u8>, explain: bool, told: &Told) -> Result<(), AllocError>
    ensures put { OnOk result (out.new.items ≡ out.old.items ++ weaker_values explain told.now) }
{
    put_without(out, told.without_moments)?;
    put_strict(out, told.strict_snapshot)?;
    put_snapshot(out, told.snapshot)?;
    put_shown(out, explain, &told.shown)?;
    put_lower(out, &told.lower)?;
    put_lowest(out, explain, &told.lowest)
}

/// Appends what stands behind the verdict.
fn put_rest(out: &mut Vec<u8>, explain: bool, version: &str, told: &Told) -> Result<(), AllocError>
    ensures put { OnOk result (out.new.items ≡ out.old.items
        ++ rest_of_object explain version.now told.now) }
{
    put_head(out, explain, told)?;
    put_weaker(out, explain, told)?;
    put_faults(out, explain, parts_of(&told.answer))?;
    put_why_unknown(out, &told.answer)?;
    put_counts(out, &told.totals)?;
    put_version(out, version)
}

/// Appends the end of an object that has the verdict alone, or what stands behind it.
fn put_behind_verdict(
    out: &mut Vec<u8>,
    explain: bool,
    quiet: bool,
    version: &str,
    told: &Told,
) -> Result<(), AllocError>
    ensures put { OnOk result (out.new.items ≡ out.old.items
        ++ behind_verdict explain quiet version.now told.now) }
{
    if quiet {
        put(out, b"}\n")
    } else {
        put_rest(out, explain, version, told)
    }
}

/// The object; the verdict alone, where it is to be quiet.
pub fn report_object(
    alloc: Global,
    explain: bool,
    quiet: bool,
    version: &str,
    told: &Told,
) -> Result<Vec<u8>, AllocError>
    ensures report { IfOk result (λ text. text.items
        ≡ report_object explain quiet version.now told.now) }
{
    let mut out = Vec::new(alloc);
    put_verdict(&mut out, told.level, word_of(&told.answer))?;
    put_behind_verdict(&mut out, explain, quiet, version, told)?;
    Ok(out)
}
