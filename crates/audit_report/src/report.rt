//! The report as text.

ghost use Rattle.std.specs.List.{list_any};
ghost use Rattle.std.specs.Prelude.{◌≡◌, ◌++◌, ◌<◌, OnOk, IfOk};
ghost use Rattle.audit_report.specs.Report.{first_line, txn_text, txns_text, noun_of, part_text};
ghost use Rattle.audit_report.specs.Report.{behind_comma, code_count, code_line, uncoded_line, codes_text};
ghost use Rattle.audit_report.specs.Report.{middle_text, without_text, without_row, part_size, counts_text};
ghost use Rattle.audit_report.specs.Report.{without_line, time_text, sessions_line, why_text};
ghost use Rattle.audit_report.specs.Report.{parts_text, first_size, report_text, too_few, heading_of};
ghost use Rattle.audit_report.specs.Report.{listed, codes_where, behind_first, level_text, reason_line};
ghost use Rattle.audit_report.specs.Report.{level_row, weaker_text, short_title, behind_name};
ghost use Rattle.audit_report.specs.Report.{found_text, rule_text, rule_above, first_rule};
ghost use Rattle.audit_report.specs.Report.{kept_line, shown_by, snapshot_row, broken_text, last_part};
ghost use Rattle.audit_report.specs.Report.{lower_text, title_of, why_lowest, lowest_part};
ghost use Rattle.audit_report.specs.Report.{weaker_words, is_some_kept, is_open, is_order_refuted, is_some_open};
ghost use Rattle.audit_report.specs.Report.{promise_text, blame_text};
ghost use Rattle.audit_report.specs.Lower.{or_above, weakest_of};
ghost use Rattle.audit_report.specs.Words as spec;

use crate::codes::{
    code_number, finding_title, hint_text, is_kept, kept_text, verdict_text, word_of, word_text,
};
use crate::lines::{put, put_count, put_line, put_lines, put_name, put_number};
use crate::told::{Answer, Lower, Told, ToldPart, ToldTxn, Totals, Word};
use isolation::Isolation;
use judging::Finding;
use std::alloc::{AllocError, Global};

/// Appends how many committed transactions there are, and how many must be.
#[tactic(auto, unfolding(crate::specs::Report::too_few))]
pub fn put_too_few(out: &mut Vec<u8>, committed: usize, asked: usize) -> Result<(), AllocError>
    ensures put { OnOk result (out.new.items ≡ out.old.items ++ too_few committed asked) }
{
    put_number(out, b"", committed)?;
    put_number(out, b" committed, ", asked)?;
    put(out, b" asked for")?;
    Ok(())
}

/// Appends the name of the level that is asked for by name.
fn put_level(out: &mut Vec<u8>, level: Option<Isolation>) -> Result<(), AllocError>
    ensures put { OnOk result (out.new.items ≡ out.old.items ++ level_text level) }
{
    match level {
        None => Ok(()),
        Some(level) => {
            put(out, level.title().as_bytes())?;
            put(out, b": ")
        }
    }
}

/// Appends the end of the first line: why the verdict is unknown, where it is.
#[tactic(auto, unfolding(crate::specs::Report::reason_line))]
fn put_reason(out: &mut Vec<u8>, answer: &Answer) -> Result<(), AllocError>
    ensures put { OnOk result (out.new.items ≡ out.old.items ++ reason_line answer.now) }
{
    match answer {
        Answer::Serializable | Answer::NotSerializable(_) => put(out, b"\n"),
        Answer::NoMoments => put(out, b": the log states no moments\n"),
        Answer::TooFew { committed, asked } => {
            put(out, b": ")?;
            put_too_few(out, *committed, *asked)?;
            put(out, b"\n")
        }
        Answer::Undecided { reason, .. } => {
            put(out, b": ")?;
            put_line(out, reason)
        }
    }
}

/// Appends the first line.
pub fn put_first_line(
    out: &mut Vec<u8>,
    level: Option<Isolation>,
    answer: &Answer,
) -> Result<(), AllocError>
    ensures put { OnOk result (out.new.items ≡ out.old.items ++ first_line level answer.now) }
{
    put_level(out, level)?;
    put(out, verdict_text(level, word_of(answer)).as_bytes())?;
    put_reason(out, answer)
}

/// Appends the name and the lines of a transaction.
fn put_txn(out: &mut Vec<u8>, txn: ToldTxn) -> Result<(), AllocError>
    ensures put { OnOk result (out.new.items ≡ out.old.items ++ txn_text txn) }
{
    put_name(out, txn)?;
    put_number(out, b" (lines ", txn.first)?;
    put_number(out, b" to ", txn.last)?;
    put(out, b")")
}

/// Appends transactions, each behind a comma.
fn put_behind_comma(out: &mut Vec<u8>, txns: &[ToldTxn]) -> Result<(), AllocError>
    ensures put { OnOk result (out.new.items ≡ out.old.items ++ behind_comma txns.now) }
{
    for txn in txns {
        put(out, b", ")?;
        put_txn(out, *txn)?;
    }
    Ok(())
}

fn put_txns(out: &mut Vec<u8>, txns: &[ToldTxn]) -> Result<(), AllocError>
    ensures put { OnOk result (out.new.items ≡ out.old.items ++ txns_text txns.now) }
{
    match txns {
        [] => Ok(()),
        [first, behind @ ..] => {
            put_txn(out, *first)?;
            put_behind_comma(out, behind)
        }
    }
}

/// The word for so many transactions.
fn noun_of(count: usize) -> &'static [u8]
    ensures noun { result.now ≡ noun_of count }
{
    if count == 1 {
        b" transaction: "
    } else {
        b" transactions: "
    }
}

/// Appends the code of what was found of a part, or its name where it has none.
#[tactic(auto, unfolding(crate::specs::Report::short_title))]
fn put_short_title(out: &mut Vec<u8>, part: &ToldPart) -> Result<(), AllocError>
    ensures put { OnOk result (out.new.items
        ≡ out.old.items ++ short_title part.now.refuted.finding) }
{
    let number = code_number(part.refuted.finding);
    if number == 0 {
        put(out, finding_title(part.refuted.finding).as_bytes())
    } else {
        put_number(out, b"A", number)
    }
}

/// Appends what stands behind what the field calls a part.
#[tactic(auto, unfolding(crate::specs::Report::behind_name))]
fn put_behind_name(out: &mut Vec<u8>, part: &ToldPart) -> Result<(), AllocError>
    ensures put { OnOk result (out.new.items
        ≡ out.old.items ++ behind_name part.now.refuted.finding) }
{
    match &part.refuted.finding {
        Finding::Overlooked => Ok(()),
        _ => {
            put(out, b", ")?;
            put_short_title(out, part)
        }
    }
}

/// Appends what was found of a part: what the field calls it and the code, or the code and its name.
#[tactic(auto, unfolding(crate::specs::Report::found_text))]
fn put_found(out: &mut Vec<u8>, part: &ToldPart) -> Result<(), AllocError>
    ensures put { OnOk result (out.new.items
        ≡ out.old.items ++ found_text part.now.known_as part.now.refuted.finding) }
{
    match &part.known_as {
        None => put(out, finding_title(part.refuted.finding).as_bytes()),
        Some(name) => {
            put(out, name.as_bytes())?;
            put_behind_name(out, part)
        }
    }
}

/// Appends how many transactions a part has, and what was found of it.
pub fn put_heading(out: &mut Vec<u8>, part: &ToldPart) -> Result<(), AllocError>
    ensures put { OnOk result (out.new.items ≡ out.old.items ++ heading_of part.now) }
{
    put_number(out, b"shown by ", part.txns.len())?;
    put(out, noun_of(part.txns.len()))?;
    put_found(out, part)?;
    put(out, b"\n")
}

/// Appends the line of a part's transactions.
pub fn put_listed(out: &mut Vec<u8>, txns: &[ToldTxn]) -> Result<(), AllocError>
    ensures put { OnOk result (out.new.items ≡ out.old.items ++ listed txns.now) }
{
    put(out, b"transactions ")?;
    put_txns(out, txns)?;
    put(out, b"\n")
}

/// Appends that a part has a serial order without the order of sessions, where it has.
fn put_sessions(out: &mut Vec<u8>, is_serial_apart: bool) -> Result<(), AllocError>
    ensures put { OnOk result (out.new.items ≡ out.old.items ++ sessions_line is_serial_apart) }
{
    if is_serial_apart {
        put(
            out,
            b"this level keeps the order of each session, and that is what these transactions break: without it they have a serial order (whether the whole log has one is not known)\n",
        )
    } else {
        Ok(())
    }
}

/// Appends why a part has no order, and what to check first.
#[tactic(auto, unfolding(crate::specs::Report::why_text))]
fn put_why(out: &mut Vec<u8>, part: &ToldPart) -> Result<(), AllocError>
    ensures put { OnOk result (out.new.items ≡ out.old.items ++ why_text part.now) }
{
    put_sessions(out, part.is_serial_apart)?;
    put(out, &part.why)?;
    put(out, hint_text(part.refuted.finding).as_bytes())
}

#[tactic(auto, unfolding(crate::specs::Report::part_text))]
fn put_part(out: &mut Vec<u8>, part: &ToldPart) -> Result<(), AllocError>
    ensures put { OnOk result (out.new.items ≡ out.old.items ++ part_text part.now) }
{
    put_heading(out, part)?;
    put_listed(out, &part.txns)?;
    put_why(out, part)
}

/// The same of the level that is asked for by name; where none is, that is serializability in the
/// order of stated moments.
#[tactic(auto, unfolding(crate::specs::Report::rule_text))]
fn rule_text(level: Option<Isolation>) -> &'static str
    ensures rule { result.now ≡ rule_text level }
{
    match level {
        None =>
            "serializability asks for an order in which each transaction reads what was written last before it; sessions and stated moments keep their order\n",
        Some(level) => level.asks(),
    }
}

/// Appends what a level asks for, above a part of which it is told why it has no order.
fn put_rule(out: &mut Vec<u8>, level: Option<Isolation>, part: &ToldPart) -> Result<(), AllocError>
    ensures put { OnOk result (out.new.items ≡ out.old.items ++ rule_above level part.now) }
{
    if part.why.len() == 0 {
        Ok(())
    } else {
        put(out, rule_text(level).as_bytes())
    }
}

/// The same above the first of these parts.
fn put_first_rule(
    out: &mut Vec<u8>,
    level: Option<Isolation>,
    parts: &[ToldPart],
) -> Result<(), AllocError>
    ensures put { OnOk result (out.new.items ≡ out.old.items ++ first_rule level parts.now) }
{
    match parts {
        [] => Ok(()),
        [first, ..] => put_rule(out, level, first),
    }
}

/// How many of the parts have the code of this number.
fn code_count(parts: &[ToldPart], number: usize) -> usize
    ensures count { result ≡ code_count parts.now number }
{
    let of_code = |part: &&ToldPart| code_number(part.refuted.finding) == number;
    parts.iter().filter(of_code).count()
}

/// Appends a line that says how many parts have the code of this number, where one has.
#[tactic(auto, unfolding(crate::specs::Report::code_line))]
fn put_code(out: &mut Vec<u8>, parts: &[ToldPart], number: usize) -> Result<(), AllocError>
    ensures put { OnOk result (out.new.items ≡ out.old.items ++ code_line parts.now number) }
{
    let count = code_count(parts, number);
    if count == 0 {
        return Ok(());
    }
    put_number(out, b"A", number)?;
    put_count(out, b"", count)
}

/// Appends a line that says how many parts have no code, where one has none.
#[tactic(auto, unfolding(crate::specs::Report::uncoded_line))]
fn put_uncoded(out: &mut Vec<u8>, parts: &[ToldPart]) -> Result<(), AllocError>
    ensures put { OnOk result (out.new.items ≡ out.old.items ++ uncoded_line parts.now) }
{
    let count = code_count(parts, 0);
    if count == 0 {
        return Ok(());
    }
    put_count(out, b"no code", count)
}

fn put_codes(out: &mut Vec<u8>, parts: &[ToldPart]) -> Result<(), AllocError>
    ensures put { OnOk result (out.new.items ≡ out.old.items ++ codes_text parts.now) }
{
    put_code(out, parts, 1)?;
    put_code(out, parts, 2)?;
    put_code(out, parts, 3)?;
    put_code(out, parts, 4)?;
    put_code(out, parts, 5)?;
    put_code(out, parts, 6)?;
    put_code(out, parts, 7)?;
    put_code(out, parts, 8)?;
    put_code(out, parts, 9)?;
    put_uncoded(out, parts)
}

/// Appends the lines of codes, where several parts were asked for.
fn put_codes_where(out: &mut Vec<u8>, faults: usize, parts: &[ToldPart]) -> Result<(), AllocError>
    ensures put { OnOk result (out.new.items ≡ out.old.items ++ codes_where faults parts.now) }
{
    if faults > 1 {
        put_codes(out, parts)
    } else {
        Ok(())
    }
}

fn put_parts(out: &mut Vec<u8>, parts: &[ToldPart]) -> Result<(), AllocError>
    ensures put { OnOk result (out.new.items ≡ out.old.items ++ parts_text parts.now) }
{
    for part in parts {
        put_part(out, part)?;
    }
    Ok(())
}

/// Appends the lines behind the first, where so many parts were asked for.
#[tactic(auto, unfolding(crate::specs::Report::middle_text))]
fn put_middle(
    out: &mut Vec<u8>,
    faults: usize,
    level: Option<Isolation>,
    answer: &Answer,
) -> Result<(), AllocError>
    ensures put { OnOk result (out.new.items
        ≡ out.old.items ++ middle_text faults level answer.now) }
{
    match answer {
        Answer::NotSerializable(parts) => {
            put_first_rule(out, level, parts)?;
            put_parts(out, parts)?;
            put_codes_where(out, faults, parts)
        }
        Answer::Undecided { advice, .. } => put_lines(out, advice),
        Answer::Serializable | Answer::NoMoments | Answer::TooFew { .. } => Ok(()),
    }
}

/// Appends a verdict.
fn put_word(out: &mut Vec<u8>, word: Word) -> Result<(), AllocError>
    ensures put { OnOk result (out.new.items ≡ out.old.items ++ spec.word_text word) }
{
    put(out, word_text(word).as_bytes())
}

/// Appends what holds of the log without moments.
fn put_without_line(out: &mut Vec<u8>, word: Word) -> Result<(), AllocError>
    ensures put { OnOk result (out.new.items ≡ out.old.items ++ without_line word) }
{
    put(out, b"without real time: ")?;
    put_word(out, word)?;
    put(out, b"\n")
}

/// The same of a log that has an order without them, where this holds with them.
#[tactic(auto, unfolding(crate::specs::Report::time_text))]
fn put_time(out: &mut Vec<u8>, with: Word) -> Result<(), AllocError>
    ensures put { OnOk result (out.new.items ≡ out.old.items ++ time_text with) }
{
    match with {
        Word::Serializable => put_without_line(out, Word::Serializable),
        Word::NotSerializable => {
            put(
                out,
                b"only real time was broken: the whole log has a serial order, but none in the order of its moments\n",
            )?;
            put(out, b"check first: do the clients share a clock?\n")
        }
        Word::Unknown => put_without_line(out, Word::Serializable),
    }
}

/// The same of each log.
fn put_without(out: &mut Vec<u8>, with: Word, without: Word) -> Result<(), AllocError>
    ensures put { OnOk result (out.new.items ≡ out.old.items ++ without_text with without) }
{
    match without {
        Word::Serializable => put_time(out, with),
        Word::NotSerializable => put_without_line(out, Word::NotSerializable),
        Word::Unknown => put_without_line(out, Word::Unknown),
    }
}

/// The same, where that is told.
fn put_without_row(out: &mut Vec<u8>, with: Word, without: Option<Word>) -> Result<(), AllocError>
    ensures put { OnOk result (out.new.items ≡ out.old.items ++ without_row with without) }
{
    match without {
        None => Ok(()),
        Some(without) => put_without(out, with, without),
    }
}

/// Appends the name of a level, and whether it was kept.
#[tactic(auto, unfolding(crate::specs::Report::kept_line))]
fn put_kept(out: &mut Vec<u8>, level: Isolation, word: Word) -> Result<(), AllocError>
    ensures put { OnOk result (out.new.items ≡ out.old.items ++ kept_line level word) }
{
    put(out, level.title().as_bytes())?;
    put(out, b": ")?;
    put(out, kept_text(word).as_bytes())
}

/// Appends a line with the name of a level, and whether it was kept, where that is told.
#[tactic(auto, unfolding(crate::specs::Report::level_row))]
fn put_level_row(out: &mut Vec<u8>, level: Isolation, word: Option<Word>) -> Result<(), AllocError>
    ensures put { OnOk result (out.new.items ≡ out.old.items ++ level_row level word) }
{
    match word {
        None => Ok(()),
        Some(word) => {
            put_kept(out, level, word)?;
            put(out, b"\n")
        }
    }
}

/// Ends the line of snapshot isolation by saying which part shows that it was not kept, where it was
/// not.
fn put_shown_by(out: &mut Vec<u8>, word: Word, shown: &Option<ToldPart>) -> Result<(), AllocError>
    ensures put { OnOk result (out.new.items ≡ out.old.items ++ shown_by word shown.now) }
{
    match word {
        Word::Serializable | Word::Unknown => put(out, b"\n"),
        Word::NotSerializable => match shown {
            None => put(out, b", as shown below\n"),
            Some(_) => put(out, b", as a part below shows\n"),
        },
    }
}

/// Appends whether snapshot isolation was kept, where that is told.
#[tactic(auto, unfolding(crate::specs::Report::snapshot_row))]
fn put_snapshot_row(
    out: &mut Vec<u8>,
    word: Option<Word>,
    shown: &Option<ToldPart>,
) -> Result<(), AllocError>
    ensures put { OnOk result (out.new.items ≡ out.old.items ++ snapshot_row word shown.now) }
{
    match word {
        None => Ok(()),
        Some(word) => {
            put_kept(out, Isolation::Snapshot, word)?;
            put_shown_by(out, word, shown)
        }
    }
}

/// Appends a part that shows that snapshot isolation was not kept.
fn put_broken(out: &mut Vec<u8>, part: &ToldPart) -> Result<(), AllocError>
    ensures put { OnOk result (out.new.items ≡ out.old.items ++ broken_text part.now) }
{
    put(out, b"why snapshot isolation was not kept:\n")?;
    put_rule(out, Some(Isolation::Snapshot), part)?;
    put_part(out, part)
}

/// The same, where there is one.
fn put_last(out: &mut Vec<u8>, shown: &Option<ToldPart>) -> Result<(), AllocError>
    ensures put { OnOk result (out.new.items ≡ out.old.items ++ last_part shown.now) }
{
    match shown {
        None => Ok(()),
        Some(part) => put_broken(out, part),
    }
}

/// Appends whether levels below snapshot isolation were kept, where that is told.
#[tactic(auto, unfolding(crate::specs::Report::lower_text))]
fn put_lower(out: &mut Vec<u8>, lower: &Lower) -> Result<(), AllocError>
    ensures put { OnOk result (out.new.items ≡ out.old.items ++ lower_text lower.now) }
{
    put_level_row(out, Isolation::Prefix, lower.prefix)?;
    put_level_row(out, Isolation::Causal, lower.causal)?;
    put_level_row(out, Isolation::ReadAtomic, lower.read_atomic)?;
    put_level_row(
        out,
        Isolation::MonotonicAtomicView,
        lower.monotonic_atomic_view,
    )?;
    put_level_row(out, Isolation::ReadCommitted, lower.read_committed)
}

/// The weaker of two levels that were not kept: this one, where it was not, or else the one above.
fn or_above(level: Isolation, word: Option<Word>, above: Option<Isolation>) -> Option<Isolation>
    ensures weakest { result ≡ or_above level word above }
{
    match word {
        Some(Word::NotSerializable) => Some(level),
        Some(Word::Serializable | Word::Unknown) | None => above,
    }
}

/// The weakest level below snapshot isolation that was not kept.
fn weakest_of(lower: &Lower) -> Option<Isolation>
    ensures weakest { result ≡ weakest_of lower.now }
{
    let prefix = or_above(Isolation::Prefix, lower.prefix, None);
    let causal = or_above(Isolation::Causal, lower.causal, prefix);
    let atomic = or_above(Isolation::ReadAtomic, lower.read_atomic, causal);
    let view = or_above(
        Isolation::MonotonicAtomicView,
        lower.monotonic_atomic_view,
        atomic,
    );
    or_above(Isolation::ReadCommitted, lower.read_committed, view)
}

fn put_title(out: &mut Vec<u8>, level: Option<Isolation>) -> Result<(), AllocError>
    ensures put { OnOk result (out.new.items ≡ out.old.items ++ title_of level) }
{
    match level {
        None => Ok(()),
        Some(level) => put(out, level.title().as_bytes()),
    }
}

/// Appends a part that shows that this level was not kept.
fn put_why_lowest(
    out: &mut Vec<u8>,
    level: Option<Isolation>,
    part: &ToldPart,
) -> Result<(), AllocError>
    ensures put { OnOk result (out.new.items ≡ out.old.items ++ why_lowest level part.now) }
{
    put(out, b"why ")?;
    put_title(out, level)?;
    put(out, b" was not kept:\n")?;
    put_rule(out, level, part)?;
    put_part(out, part)
}

/// The same, where there is one.
fn put_lowest(
    out: &mut Vec<u8>,
    level: Option<Isolation>,
    part: &Option<ToldPart>,
) -> Result<(), AllocError>
    ensures put { OnOk result (out.new.items ≡ out.old.items ++ lowest_part level part.now) }
{
    match part {
        None => Ok(()),
        Some(part) => put_why_lowest(out, level, part),
    }
}

/// What is told of the log without moments, and of weaker levels.
fn weaker_words(told: &Told) -> [Option<Word>; 8]
    ensures words { result ≡ weaker_words told.now }
{
    let lower = &told.lower;
    [
        told.without_moments,
        told.strict_snapshot,
        told.snapshot,
        lower.prefix,
        lower.causal,
        lower.read_atomic,
        lower.monotonic_atomic_view,
        lower.read_committed,
    ]
}

/// Whether something weaker was kept.
fn is_some_kept(told: &Told) -> bool
    ensures { result ≡ is_some_kept told.now }
{
    weaker_words(told).iter().any(|word| is_kept(*word))
}

/// Whether it is told that a level was not decided.
fn is_open(word: Option<Word>) -> bool
    ensures { result ≡ is_open word }
{
    matches!(word, Some(Word::Unknown))
}

/// Whether a word says that there is no order.
fn is_order_refuted(word: Word) -> bool
    ensures { result ≡ is_order_refuted word }
{
    matches!(word, Word::NotSerializable)
}

/// Whether something weaker was not decided.
fn is_one_open(told: &Told) -> bool
    ensures { result ≡ list_any is_open (weaker_words told.now) }
{
    weaker_words(told).iter().any(|word| is_open(*word))
}

/// Whether the log has no order, and something weaker was not decided.
fn is_some_open(told: &Told) -> bool
    ensures { result ≡ is_some_open told.now }
{
    is_order_refuted(word_of(&told.answer)) && is_one_open(told)
}

/// Appends which store promises no more than that.
fn put_promise(out: &mut Vec<u8>, without: Option<Word>) -> Result<(), AllocError>
    ensures put { OnOk result (out.new.items ≡ out.old.items ++ promise_text without) }
{
    if is_kept(without) {
        put(out, b"a store that promises no strict level")
    } else {
        put(out, b"a store that promises no more than that")
    }
}

/// Appends that a store did nothing wrong, or may have done nothing wrong, where no level was named
/// and a weaker one was kept, or was not decided.
#[tactic(auto, unfolding(crate::specs::Report::blame_text))]
fn put_blame(out: &mut Vec<u8>, told: &Told) -> Result<(), AllocError>
    ensures put { OnOk result (out.new.items ≡ out.old.items ++ blame_text told.now) }
{
    if told.level.is_some() {
        return Ok(());
    }
    if is_some_kept(told) {
        put_promise(out, told.without_moments)?;
        put(out, b" did nothing wrong: name its level by --level\n")
    } else if is_some_open(told) {
        put(
            out,
            b"a store that promises less may have done nothing wrong",
        )?;
        put(out, b": name its level by --level\n")
    } else {
        Ok(())
    }
}

/// Appends what holds without moments and at weaker levels.
#[tactic(auto, unfolding(crate::specs::Report::weaker_text))]
fn put_weaker(out: &mut Vec<u8>, told: &Told) -> Result<(), AllocError>
    ensures put { OnOk result (out.new.items ≡ out.old.items ++ weaker_text told.now) }
{
    put_without_row(out, word_of(&told.answer), told.without_moments)?;
    put_level_row(out, Isolation::StrictSnapshot, told.strict_snapshot)?;
    put_snapshot_row(out, told.snapshot, &told.shown)?;
    put_lower(out, &told.lower)?;
    put_blame(out, told)
}

/// How many transactions the first part has.
fn part_size(answer: &Answer) -> usize
    ensures size { result ≡ part_size answer.now }
{
    match answer {
        Answer::NotSerializable(parts) => first_size(parts),
        Answer::Serializable
        | Answer::NoMoments
        | Answer::TooFew { .. }
        | Answer::Undecided { .. } => 0,
    }
}

fn first_size(parts: &[ToldPart]) -> usize
    ensures size { result ≡ first_size parts.now }
{
    match parts {
        [] => 0,
        [first, ..] => first.txns.len(),
    }
}

#[tactic(auto, unfolding(crate::specs::Report::counts_text))]
fn put_counts(out: &mut Vec<u8>, totals: &Totals, part: usize) -> Result<(), AllocError>
    ensures put { OnOk result (out.new.items ≡ out.old.items ++ counts_text totals.now part) }
{
    let counts = totals.counts;
    put_count(out, b"sessions", counts.sessions)?;
    put_count(out, b"committed", counts.committed)?;
    put_count(out, b"aborted", counts.aborted)?;
    put_count(out, b"unknown", counts.unknown)?;
    put_count(out, b"taken", totals.taken)?;
    put_count(out, b"keys", counts.keys)?;
    put_count(out, b"operations", counts.operations)?;
    put_count(out, b"part", part)
}

/// Appends what stands behind the first line, where so many parts were asked for.
fn put_behind_first(out: &mut Vec<u8>, faults: usize, told: &Told) -> Result<(), AllocError>
    ensures put { OnOk result (out.new.items ≡ out.old.items ++ behind_first faults told.now) }
{
    put_weaker(out, told)?;
    put_middle(out, faults, told.level, &told.answer)?;
    put_last(out, &told.shown)?;
    put_lowest(out, weakest_of(&told.lower), &told.lowest)?;
    put_counts(out, &told.totals, part_size(&told.answer))?;
    Ok(())
}

/// The report, where so many parts were asked for; its first line alone, where it is to be quiet.
pub fn report_text(
    alloc: Global,
    faults: usize,
    quiet: bool,
    told: &Told,
) -> Result<Vec<u8>, AllocError>
    ensures report { IfOk result (λ text. text.items ≡ report_text faults quiet told.now) }
{
    let mut out = Vec::new(alloc);
    put_first_line(&mut out, told.level, &told.answer)?;
    if !quiet {
        put_behind_first(&mut out, faults, told)?;
    }
    Ok(out)
}
