//! What holds of levels below snapshot isolation, where it was not kept.

ghost use Rattle.std.specs.Prelude.{◌≡◌, ◌||◌, ◌&&◌, true, false, List, Option, map, IfOk, IfSome};
ghost use Rattle.std.specs.List.{AllByRecursion};
ghost use Rattle.session_log.specs.Text.{ClientSession, IsLegal, view};
ghost use Rattle.session_log.specs.Version.{first_line};
ghost use Rattle.log_definitions.specs.Unknown.{resolved};
ghost use Rattle.log_laws.specs.Logs.{IsSoundLog, IsLog};
ghost use Rattle.isolation.specs.declared.level.Isolation.{Isolation as IsolationValue};
ghost use Rattle.audit_command.specs.Levels.{judged_of};
ghost use Rattle.audit_command.specs.Audited.{IsWordWhere, at_level, asked_at, asks_lower, asks_at};
ghost use Rattle.audit_report.specs.Words.{is_kept};
ghost use Rattle.audit_command.specs.Audited.{is_shown, unless_shown};
ghost use Rattle.audit_report.specs.Lower.{or_above};
ghost use Rattle.audit_command.specs.Audited.{IsRefutedWhere, IsWeakest, refuted_of, IsLowest, IsLower};
ghost use Rattle.audit_command.specs.Resolved.{IsPartOf};

use crate::distinct::{adds_nothing, is_told_by};
use crate::levels::{is_above, judged_of};
use crate::options::AuditOptions;
use crate::telling::told_part;
use crate::weaker::{asks_levels, first_flags, is_one_kept, word_of};
use audit_report::{Answer, Lower, ToldPart, Word, is_kept, parts_of};
use isolation::Isolation;
use judging::{JudgeMeans, RefutedPart, Verdict, judge_known_log};
use order_proposals::Flags;
use progress::Progress;
use session_log::{Session, Version};
use std::alloc::{AllocError, Global};
use std::io::Eprint;
use std::sync::Wait;
use std::thread::Threads;
use std::time::Clock;

/// The verdict at a level, in a word, and the part that shows that it was not kept.
#[derive(Drop)]
struct AtLevel {
    word: Option<Word>,
    refuted: Option<RefutedPart>,
}

/// The means of judging, at this level.
fn at_level(level: Isolation, means: &JudgeMeans) -> JudgeMeans
    ensures at { result ≡ at_level level means.now }
{
    JudgeMeans {
        level: judged_of(level),
        ..*means
    }
}

/// What is asked, at this level.
fn asked_at<'a>(level: Isolation, options: &AuditOptions<'a>) -> AuditOptions<'a>
    ensures at { result ≡ asked_at level options.now }
{
    AuditOptions {
        means: at_level(level, &options.means),
        ..*options
    }
}

/// Whether levels below snapshot isolation are asked for, of which this is known.
fn asks_lower(options: &AuditOptions<'_>, answer: &Answer, snapshot: Option<Word>) -> bool
    ensures asks { result ≡ asks_lower options.now answer.now snapshot }
{
    asks_levels(options, answer) && !is_kept(snapshot)
}

/// Whether this level is asked for, where some are, and one above it was kept or none.
fn asks_at(options: &AuditOptions<'_>, asked: bool, kept: bool, level: Isolation) -> bool
    ensures asks { result ≡ asks_at options.now asked kept level }
{
    asked && (!kept && is_above(options.means.level, judged_of(level)))
}

/// Whether a level was kept, or this one.
fn is_kept_or(kept: bool, word: Option<Word>) -> bool
    ensures kept { result ≡ (kept || is_kept word) }
{
    kept || is_kept(word)
}

/// The part that a verdict names.
fn refuted_of(verdict: Verdict) -> Option<RefutedPart>
    ensures refuted { result ≡ refuted_of verdict }
{
    match verdict {
        Verdict::NotSerializable(told) => Some(told),
        Verdict::Serializable(_) | Verdict::Undecided { .. } => None,
    }
}

/// The verdict at a level on these sessions, whose outcomes are known; the part of these flags is
/// looked at first.
fn judge_level<R: Threads + Wait + Clock + Eprint + Sync, P: Progress>(
    rt: &R,
    alloc: Global,
    sessions: &[Session],
    first: Option<&Flags>,
    level: Isolation,
    options: &AuditOptions<'_>,
    progress: &mut P,
) -> Result<AtLevel, AllocError>
    requires log { IsLog (map view sessions.now) }
    ensures word { IfOk result (λ at. (ss : List ClientSession) → AllByRecursion IsLegal ss
        → IsSoundLog ss → map view sessions.now ≡ resolved ss
        → IsWordWhere (at_level level options.now.means) ss true at.word) }
    ensures refuted { IfOk result (λ at. (ss : List ClientSession) → AllByRecursion IsLegal ss
        → IsSoundLog ss → map view sessions.now ≡ resolved ss
        → IsRefutedWhere (judged_of level) ss at.word at.refuted) }
    ensures part { IfOk result (λ at. IfSome at.refuted (IsPartOf (map view sessions.now))) }
{
    let means = at_level(level, &options.means);
    let verdict = judge_known_log(rt, alloc, sessions, first, &means, progress)?;
    let word = Some(word_of(&verdict));
    let refuted = refuted_of(verdict);
    Ok(AtLevel { word, refuted })
}

/// The same where it is asked for.
fn judge_where<R: Threads + Wait + Clock + Eprint + Sync, P: Progress>(
    rt: &R,
    alloc: Global,
    sessions: &[Session],
    first: Option<&Flags>,
    level: Isolation,
    is_asked: bool,
    options: &AuditOptions<'_>,
    progress: &mut P,
) -> Result<AtLevel, AllocError>
    requires log { IsLog (map view sessions.now) }
    ensures word { IfOk result (λ at. (ss : List ClientSession) → AllByRecursion IsLegal ss
        → IsSoundLog ss → map view sessions.now ≡ resolved ss
        → IsWordWhere (at_level level options.now.means) ss is_asked at.word) }
    ensures refuted { IfOk result (λ at. (ss : List ClientSession) → AllByRecursion IsLegal ss
        → IsSoundLog ss → map view sessions.now ≡ resolved ss
        → IsRefutedWhere (judged_of level) ss at.word at.refuted) }
    ensures part { IfOk result (λ at. IfSome at.refuted (IsPartOf (map view sessions.now))) }
{
    if is_asked {
        judge_level(rt, alloc, sessions, first, level, options, progress)
    } else {
        Ok(AtLevel {
            word: None,
            refuted: None,
        })
    }
}

/// The part that is refuted at the weakest level: at this one, or else at one above it.
fn or_above(
    level: Isolation,
    at: AtLevel,
    above: Option<(Isolation, RefutedPart)>,
) -> Option<(Isolation, RefutedPart)>
    ensures weakest { (ss : List ClientSession) (weakest : Option IsolationValue)
        → IsWeakest ss weakest above → IsRefutedWhere (judged_of level) ss at.word at.refuted
        → IsWeakest ss (or_above level at.word weakest) result }
    ensures part { (known : List ClientSession) → IfSome above (λ found. IsPartOf known found.1)
        → IfSome at.refuted (IsPartOf known) → IfSome result (λ found. IsPartOf known found.1) }
{
    match at.refuted {
        Some(told) => Some((level, told)),
        None => above,
    }
}

/// Whether a part adds nothing to this one, where there is one.
fn is_shown(shown: &Option<ToldPart>, part: &ToldPart) -> bool
    ensures shown { result ≡ is_shown part.now shown.now }
{
    match shown {
        None => false,
        Some(told) => adds_nothing(part, told),
    }
}

/// The part, unless it adds nothing to one of these, or to this one.
fn unless_shown(part: ToldPart, parts: &[ToldPart], shown: &Option<ToldPart>) -> Option<ToldPart>
    ensures told { result ≡ unless_shown part parts.now shown.now }
{
    if is_told_by(&part, parts) || is_shown(shown, &part) {
        None
    } else {
        Some(part)
    }
}

/// The part that shows that the weakest level was not kept, unless it adds nothing to one that is
/// told.
fn tell_lowest<R: Threads + Wait + Clock + Sync>(
    rt: &R,
    alloc: Global,
    version: Version,
    sessions: &[Session],
    answer: &Answer,
    shown: &Option<ToldPart>,
    found: Option<(Isolation, RefutedPart)>,
    options: &AuditOptions<'_>,
) -> Result<Option<ToldPart>, AllocError>
    requires part { IfSome found (λ found. IsPartOf (map view sessions.now) found.1) }
    ensures lowest { (ss : List ClientSession) (weakest : Option IsolationValue)
        → map view sessions.now ≡ resolved ss → IsWeakest ss weakest found
        → IfOk result (IsLowest options.now (first_line version) ss answer.now shown.now weakest) }
{
    match found {
        None => Ok(None),
        Some((level, refuted)) => {
            let below = asked_at(level, options);
            let part = told_part(rt, alloc, version, sessions, refuted, &below)?;
            Ok(unless_shown(part, parts_of(answer), shown))
        }
    }
}

/// What holds of levels below snapshot isolation, of which this is known: of a log of these sessions,
/// whose outcomes are known, and which state no moments.
pub fn judge_lower<R: Threads + Wait + Clock + Eprint + Sync, P: Progress>(
    rt: &R,
    alloc: Global,
    version: Version,
    sessions: &[Session],
    answer: &Answer,
    snapshot: Option<Word>,
    shown: &Option<ToldPart>,
    options: &AuditOptions<'_>,
    progress: &mut P,
) -> Result<(Lower, Option<ToldPart>), AllocError>
    requires log { IsLog (map view sessions.now) }
    ensures lower { IfOk result (λ both. (ss : List ClientSession) → AllByRecursion IsLegal ss
        → IsSoundLog ss → map view sessions.now ≡ resolved ss
        → IsLower options.now (first_line version) ss answer.now snapshot shown.now both.0 both.1) }
{
    let first = first_flags(answer);
    let asked = asks_lower(options, answer, snapshot);
    let level = Isolation::Prefix;
    let is_asked = asks_at(options, asked, false, level);
    let at = judge_where(
        rt, alloc, sessions, first, level, is_asked, options, progress,
    )?;
    let prefix = at.word;
    let weakest = or_above(level, at, None);

    let kept = is_kept(prefix);
    let level = Isolation::Causal;
    let is_asked = asks_at(options, asked, kept, level);
    let at = judge_where(
        rt, alloc, sessions, first, level, is_asked, options, progress,
    )?;
    let causal = at.word;
    let weakest = or_above(level, at, weakest);

    let kept = is_one_kept(prefix, causal);
    let level = Isolation::ReadAtomic;
    let is_asked = asks_at(options, asked, kept, level);
    let at = judge_where(
        rt, alloc, sessions, first, level, is_asked, options, progress,
    )?;
    let read_atomic = at.word;
    let weakest = or_above(level, at, weakest);

    let kept = is_kept_or(kept, read_atomic);
    let level = Isolation::MonotonicAtomicView;
    let is_asked = asks_at(options, asked, kept, level);
    let at = judge_where(
        rt, alloc, sessions, first, level, is_asked, options, progress,
    )?;
    let monotonic_atomic_view = at.word;
    let weakest = or_above(level, at, weakest);

    let kept = is_kept_or(kept, monotonic_atomic_view);
    let level = Isolation::ReadCommitted;
    let is_asked = asks_at(options, asked, kept, level);
    let at = judge_where(
        rt, alloc, sessions, first, level, is_asked, options, progress,
    )?;
    let read_committed = at.word;
    let weakest = or_above(level, at, weakest);

    let lower = Lower {
        prefix,
        causal,
        read_atomic,
        monotonic_atomic_view,
        read_committed,
    };
    let lowest = tell_lowest(
        rt, alloc, version, sessions, answer, shown, weakest, options,
    )?;
    Ok((lower, lowest))
}
