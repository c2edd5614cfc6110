//! What is told of a judged log.

ghost use Rattle.std.specs.Prelude.{◌≡◌, ◌⊎◌, ◌+◌, ◌<◌, ◌≤◌, ℕ, List, length, map, IfOk, IfSome, OnOk};
ghost use Rattle.std.specs.List.{AllByRecursion};
ghost use Rattle.session_log.specs.Text.{ClientSession, IsLegal, view};
ghost use Rattle.session_log.specs.Version.{first_line};
ghost use Rattle.log_definitions.specs.Unknown.{resolved};
ghost use Rattle.log_laws.specs.Logs.{IsSoundLog, IsLog};
ghost use Rattle.judging.specs.Judges.{IsVerdict};
ghost use Rattle.judging.specs.Made.{IsMade, IsToldPart};
ghost use Rattle.judging.specs.Levels.{IsLogAt, IsOrderAt, HasOrderAt};
ghost use Rattle.audit_command.specs.declared.options.AuditOptions.{AuditOptions};
ghost use Rattle.audit_command.specs.Audited.{nodes_in, IsPartTold, AreToldParts, AreParts};
ghost use Rattle.audit_command.specs.Audited.{IsAnswered, IsOrderText, IsOrderFile, IsOpen};
ghost use Rattle.audit_command.specs.Distinct.{AreLeastFirst};
ghost use Rattle.audit_command.specs.Resolved.{IsResolved, IsPartOf, IsPartOfVerdict};

use crate::distinct::without_doubles;
use crate::levels::asks_moments;
use crate::options::AuditOptions;
use crate::places::told_txns;
use crate::printed::{only_line, only_lines};
use crate::undecided::{advice_lines, reason_text};
use crate::weaker::state_moments;
use audit_report::{Answer, ToldPart, order_file};
use judging::{LevelLog, RefutedPart, Tried, Verdict, Why, more_parts};
use order_proposals::Proposal;
use part_reasons::{Explained, draw_where, explain_part, is_serial_apart};
use point_orders::points_text;
use progress::Progress;
use session_log::{Session, Version};
use std::alloc::{AllocError, Global};
use std::io::Eprint;
use std::sync::Wait;
use std::thread::Threads;
use std::time::Clock;

/// Of so many further parts one is told in place of a part that only the order of sessions breaks.
const FURTHER_PARTS: usize = 2;

/// An answer, and the text of the order, where there is one and it is asked for.
#[derive(Drop)]
pub struct Answered {
    pub answer: Answer,
    pub order: Option<Vec<u8>>,
}

/// A judged log: its version, its sessions with their outcomes known, what is judged for them, and
/// what was proposed.
#[derive(Clone, Copy)]
pub struct JudgedLog<'a> {
    pub version: Version,
    pub sessions: &'a [Session],
    pub at: &'a LevelLog,
    pub proposal: &'a Proposal,
}

/// A part of these sessions, which are those of a log of this version with their outcomes known,
/// told.
pub fn told_part<R: Threads + Wait + Clock + Sync>(
    rt: &R,
    alloc: Global,
    version: Version,
    sessions: &[Session],
    refuted: RefutedPart,
    options: &AuditOptions<'_>,
) -> Result<ToldPart, AllocError>
    requires part { IsPartOf (map view sessions.now) refuted }
    ensures told { (ss : List ClientSession) → map view sessions.now ≡ resolved ss
        → IsToldPart options.now.means.level ss refuted
        → IfOk result (IsPartTold options.now (first_line version) ss) }
{
    let txns = told_txns(alloc, version, sessions, &refuted.flags)?;
    let explained = explain_part(rt, alloc, version, sessions, &refuted, &options.means)?;
    let Explained { text, known_as } = explained;
    let graph = draw_where(
        rt,
        alloc,
        version,
        sessions,
        &refuted,
        options.explanation,
        &options.means,
    )?;
    if !options.explain {
        return Ok(ToldPart {
            refuted,
            txns,
            known_as,
            why: Vec::new(alloc),
            graph,
            is_serial_apart: false,
        });
    }
    let is_serial = is_serial_apart(rt, alloc, &refuted.part, &options.means)?;
    Ok(ToldPart {
        refuted,
        txns,
        known_as,
        why: text,
        graph,
        is_serial_apart: is_serial,
    })
}

/// Appends parts, told.
fn add_parts<R: Threads + Wait + Clock + Sync>(
    rt: &R,
    alloc: Global,
    log: &JudgedLog<'_>,
    parts: Vec<RefutedPart>,
    options: &AuditOptions<'_>,
    told: &mut Vec<ToldPart>,
) -> Result<(), AllocError>
    requires parts { AllByRecursion (IsPartOf (map view log.now.sessions.now)) parts.items }
    ensures told { (ss : List ClientSession) → map view log.now.sessions.now ≡ resolved ss
        → AllByRecursion (IsToldPart options.now.means.level ss) parts.items
        → AreToldParts options.now (first_line log.now.version) ss told.old.items
        → OnOk result (AreToldParts options.now (first_line log.now.version) ss
        told.new.items) }
    ensures more { OnOk result (length told.old.items ≤ length told.new.items) }
    ensures at_most { OnOk result (length told.new.items
        ≤ length told.old.items + length parts.items) }
{
    let mut left = parts;
    'parts: for _ in 0..left.len() {
        let Some(part) = left.pop() else {
            break 'parts;
        };
        let part = told_part(rt, alloc, log.version, log.sessions, part, options)?;
        told.push(part)?;
    }
    Ok(())
}

/// Puts parts into the order of their sizes, the least one first.
fn put_least_first(told: &mut Vec<ToldPart>) -> Result<(), AllocError>
    ensures told { (o : AuditOptions) (n : ℕ) (ss : List ClientSession)
        → AreToldParts o n ss told.old.items → AreToldParts o n ss told.new.items }
    ensures as_many { length told.new.items ≡ length told.old.items }
    ensures least_first { OnOk result (AreLeastFirst told.new.items) }
{
    told.sort_by_key(|part| part.txns.len())
}

/// The last of these parts that has no order even without that of sessions, where there is one.
fn last_plain<R: Threads + Wait + Clock + Sync>(
    rt: &R,
    alloc: Global,
    _log: &JudgedLog<'_>,
    parts: Vec<RefutedPart>,
    options: &AuditOptions<'_>,
) -> Result<Option<RefutedPart>, AllocError>
    requires parts { AllByRecursion (IsPartOf (map view _log.now.sessions.now)) parts.items }
    ensures part { IfOk result (λ found.
        IfSome found (IsPartOf (map view _log.now.sessions.now))) }
    ensures told { (ss : List ClientSession)
        → AllByRecursion (IsToldPart options.now.means.level ss) parts.items
        → IfOk result (λ found. IfSome found (IsToldPart options.now.means.level ss)) }
{
    let mut left = parts;
    'parts: for _ in 0..left.len() {
        let Some(part) = left.pop() else {
            break 'parts;
        };
        if !is_serial_apart(rt, alloc, &part.part, &options.means)? {
            return Ok(Some(part));
        }
    }
    Ok(None)
}

/// The part that is told where one is asked for: this one, or, where it has an order without that of
/// sessions, a further one that has none.
fn plainest<R: Threads + Wait + Clock + Eprint + Sync, P: Progress>(
    rt: &R,
    alloc: Global,
    log: &JudgedLog<'_>,
    first: RefutedPart,
    options: &AuditOptions<'_>,
    progress: &mut P,
) -> Result<RefutedPart, AllocError>
    requires log { IsLog (map view log.now.sessions.now) }
    requires known { IsResolved (map view log.now.sessions.now) }
    requires first { IsPartOf (map view log.now.sessions.now) first }
    ensures part { IfOk result (IsPartOf (map view log.now.sessions.now)) }
    ensures told { (ss : List ClientSession) → AllByRecursion IsLegal ss → IsSoundLog ss
        → map view log.now.sessions.now ≡ resolved ss → IsToldPart options.now.means.level ss first
        → IfOk result (IsToldPart options.now.means.level ss) }
{
    if options.faults > 1 || !is_serial_apart(rt, alloc, &first.part, &options.means)? {
        return Ok(first);
    }
    let more = more_parts(
        rt,
        alloc,
        log.sessions,
        log.at,
        &first,
        FURTHER_PARTS,
        &options.means,
        progress,
    )?;
    match last_plain(rt, alloc, log, more, options)? {
        Some(part) => Ok(part),
        None => Ok(first),
    }
}

/// The parts that are told, the least one first and each once: this one, and further ones where
/// several are asked for.
fn told_parts<R: Threads + Wait + Clock + Eprint + Sync, P: Progress>(
    rt: &R,
    alloc: Global,
    log: &JudgedLog<'_>,
    first: RefutedPart,
    options: &AuditOptions<'_>,
    progress: &mut P,
) -> Result<Vec<ToldPart>, AllocError>
    requires log { IsLog (map view log.now.sessions.now) }
    requires known { IsResolved (map view log.now.sessions.now) }
    requires first { IsPartOf (map view log.now.sessions.now) first }
    ensures told { (ss : List ClientSession) → AllByRecursion IsLegal ss → IsSoundLog ss
        → map view log.now.sessions.now ≡ resolved ss → IsToldPart options.now.means.level ss first
        → IfOk result (λ told. AreParts options.now (first_line log.now.version) ss
        told.items) }
{
    let count = options.faults.saturating_sub(1);
    let plain = plainest(rt, alloc, log, first, options, progress)?;
    let more = more_parts(
        rt,
        alloc,
        log.sessions,
        log.at,
        &plain,
        count,
        &options.means,
        progress,
    )?;
    let mut told = Vec::new(alloc);
    let first = told_part(rt, alloc, log.version, log.sessions, plain, options)?;
    told.push(first)?;
    add_parts(rt, alloc, log, more, options, &mut told)?;
    put_least_first(&mut told)?;
    without_doubles(alloc, told)
}

/// The text of an order of the log, from one of the log that is judged for it.
fn judged_order(
    alloc: Global,
    log: &JudgedLog<'_>,
    order: &[usize],
    options: &AuditOptions<'_>,
) -> Result<Vec<u8>, AllocError>
    requires log { IsLog (map view log.now.sessions.now) }
    requires at { IsLogAt options.now.means.level (map view log.now.sessions.now) log.now.at.now }
    ensures text { (ss : List ClientSession) → map view log.now.sessions.now ≡ resolved ss
        → IsOrderAt options.now.means.level ss order.now
        → IfOk result (λ text. IsOrderText options.now.means.level ss text.items) }
{
    match log.at {
        LevelLog::Itself => order_file(alloc, log.sessions, order),
        LevelLog::Split(_) => points_text(alloc, log.sessions, order),
        LevelLog::NoRoom(_) => Ok(Vec::new(alloc)),
    }
}

/// The text of an order, where it is asked for.
fn asked_order(
    alloc: Global,
    log: &JudgedLog<'_>,
    order: &[usize],
    options: &AuditOptions<'_>,
) -> Result<Option<Vec<u8>>, AllocError>
    requires log { IsLog (map view log.now.sessions.now) }
    requires at { IsLogAt options.now.means.level (map view log.now.sessions.now) log.now.at.now }
    ensures order { (ss : List ClientSession) → map view log.now.sessions.now ≡ resolved ss
        → IsOrderAt options.now.means.level ss order.now
        → IfOk result (IsOrderFile options.now.means.level ss options.now.order) }
{
    if options.order {
        Ok(Some(judged_order(alloc, log, order, options)?))
    } else {
        Ok(None)
    }
}

/// That too few transactions are committed.
fn too_few(committed: usize, options: &AuditOptions<'_>) -> Answered
    requires few { committed < options.now.at_least }
    ensures answered { (n : ℕ) (ss : List ClientSession) → committed ≡ nodes_in ss
        → (HasOrderAt options.now.means.level ss ⊎ IsOpen options.now.means ss)
        → IsAnswered options.now n ss result }
{
    Answered {
        answer: Answer::TooFew {
            committed,
            asked: options.at_least,
        },
        order: None,
    }
}

/// The answer where this is an order of the log that is judged.
fn serial_answer(
    alloc: Global,
    log: &JudgedLog<'_>,
    order: &[usize],
    committed: usize,
    options: &AuditOptions<'_>,
) -> Result<Answered, AllocError>
    requires log { IsLog (map view log.now.sessions.now) }
    requires at { IsLogAt options.now.means.level (map view log.now.sessions.now) log.now.at.now }
    ensures answered { (ss : List ClientSession) → map view log.now.sessions.now ≡ resolved ss
        → IsOrderAt options.now.means.level ss order.now → committed ≡ nodes_in ss
        → IfOk result (IsAnswered options.now (first_line log.now.version) ss) }
{
    if committed < options.at_least {
        return Ok(too_few(committed, options));
    }
    if asks_moments(options.level) && !state_moments(log.sessions) {
        return Ok(Answered {
            answer: Answer::NoMoments,
            order: None,
        });
    }
    Ok(Answered {
        answer: Answer::Serializable,
        order: asked_order(alloc, log, order, options)?,
    })
}

/// The answer where the log is not decided.
fn open_answer(
    alloc: Global,
    log: &JudgedLog<'_>,
    why: Why,
    tried: Tried,
    committed: usize,
    options: &AuditOptions<'_>,
) -> Result<Answered, AllocError>
    ensures answered { (ss : List ClientSession)
        → IsVerdict options.now.means ss (Verdict.Undecided why tried) → committed ≡ nodes_in ss
        → IfOk result (IsAnswered options.now (first_line log.now.version) ss) }
{
    if committed < options.at_least {
        return Ok(too_few(committed, options));
    }
    Ok(Answered {
        answer: Answer::Undecided {
            reason: only_line(alloc, reason_text(alloc, log.proposal, why, tried)?),
            advice: only_lines(
                alloc,
                advice_lines(alloc, log.version, log.sessions, log.proposal, why)?,
            )?,
        },
        order: None,
    })
}

/// The answer where a part has no order.
fn refuted_answer<R: Threads + Wait + Clock + Eprint + Sync, P: Progress>(
    rt: &R,
    alloc: Global,
    log: &JudgedLog<'_>,
    first: RefutedPart,
    options: &AuditOptions<'_>,
    progress: &mut P,
) -> Result<Answered, AllocError>
    requires log { IsLog (map view log.now.sessions.now) }
    requires known { IsResolved (map view log.now.sessions.now) }
    requires first { IsPartOf (map view log.now.sessions.now) first }
    ensures answered { (ss : List ClientSession) → AllByRecursion IsLegal ss → IsSoundLog ss
        → map view log.now.sessions.now ≡ resolved ss → IsToldPart options.now.means.level ss first
        → IfOk result (IsAnswered options.now (first_line log.now.version) ss) }
{
    let parts = told_parts(rt, alloc, log, first, options, progress)?;
    Ok(Answered {
        answer: Answer::NotSerializable(parts),
        order: None,
    })
}

/// The answer to a judged log, of which so many transactions are committed.
pub fn answer_of<R: Threads + Wait + Clock + Eprint + Sync, P: Progress>(
    rt: &R,
    alloc: Global,
    log: &JudgedLog<'_>,
    verdict: Verdict,
    committed: usize,
    options: &AuditOptions<'_>,
    progress: &mut P,
) -> Result<Answered, AllocError>
    requires log { IsLog (map view log.now.sessions.now) }
    requires known { IsResolved (map view log.now.sessions.now) }
    requires told { IsPartOfVerdict (map view log.now.sessions.now) verdict }
    requires at { IsLogAt options.now.means.level (map view log.now.sessions.now) log.now.at.now }
    ensures answered { (ss : List ClientSession) → AllByRecursion IsLegal ss → IsSoundLog ss
        → map view log.now.sessions.now ≡ resolved ss → IsVerdict options.now.means ss verdict
        → IsMade (resolved ss) verdict → committed ≡ nodes_in ss
        → IfOk result (IsAnswered options.now (first_line log.now.version) ss) }
{
    match verdict {
        Verdict::NotSerializable(first) => {
            refuted_answer(rt, alloc, log, first, options, progress)
        }
        Verdict::Serializable(order) => { serial_answer(alloc, log, &order, committed, options) }
        Verdict::Undecided { why, tried } => {
            open_answer(alloc, log, why, tried, committed, options)
        }
    }
}
