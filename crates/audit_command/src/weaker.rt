//! What holds of a refused log as if it stated no moments, and at weaker levels.

ghost use Rattle.std.specs.Prelude.{◌≡◌, ◌||◌, true, false, List, Some, map, IfOk};
ghost use Rattle.std.specs.List.{AllByRecursion};
ghost use Rattle.session_log.specs.Text.{ClientSession, IsLegal, view, view_txn};
ghost use Rattle.session_log.specs.Version.{first_line};
ghost use Rattle.log_definitions.specs.Unknown.{resolved};
ghost use Rattle.log_laws.specs.Logs.{IsSoundLog, IsLog};
ghost use Rattle.judging.specs.Judges.{IsVerdict};
ghost use Rattle.judging.specs.Made.{IsMade};
ghost use Rattle.point_laws.specs.Without.{without_moments};
ghost use Rattle.judging.specs.declared.means.JudgeMeans.{JudgeMeans};
ghost use Rattle.audit_command.specs.Audited.{states_moment, some_state, one_states, states_moments};
ghost use Rattle.audit_command.specs.Audited.{IsWord, IsWordWhere, IsWeaker};
ghost use Rattle.audit_command.specs.Audited.{asks_levels, is_serial, asks_strict, asks_plain};
ghost use Rattle.audit_report.specs.Words.{is_kept};
ghost use Rattle.audit_command.specs.Audited.{at_snapshot, asked_at_snapshot, verdict_word};
ghost use Rattle.audit_command.specs.Audited.{unless_told, IsShownBy};
ghost use Rattle.audit_command.specs.Resolved.{IsPartOfVerdict};
ghost use Rattle.audit_report.specs.declared.told.Word.TheVariants as word;

use crate::distinct::is_told_by;
use crate::options::AuditOptions;
use crate::telling::told_part;
use audit_report::{Answer, ToldPart, Word, is_kept, parts_of};
use judging::{JudgeMeans, Level, Verdict, judge_known_log, leave_out_moments};
use order_proposals::Flags;
use progress::Progress;
use session_log::{Session, Txn, Version};
use std::alloc::{AllocError, Global};
use std::io::Eprint;
use std::sync::Wait;
use std::thread::Threads;
use std::time::Clock;

/// What holds of a log as if it stated no moments, and at weaker levels, where that is asked for.
#[derive(Drop)]
pub struct Weaker {
    pub without_moments: Option<Word>,
    pub strict_snapshot: Option<Word>,
    pub snapshot: Option<Word>,
    /// The part that shows that snapshot isolation was not kept, unless it adds nothing to one of the
    /// answer.
    pub shown: Option<ToldPart>,
}

/// Whether snapshot isolation was kept, and the part that shows that it was not.
#[derive(Drop)]
struct Plain {
    word: Option<Word>,
    shown: Option<ToldPart>,
}

/// Which moment of a transaction.
#[derive(Clone, Copy)]
pub enum Side {
    Begun,
    Ended,
}

/// Whether a committed transaction states this moment.
fn states_moment(side: Side, txn: &Txn) -> bool
    ensures states { result ≡ states_moment side (view_txn txn.now) }
{
    match side {
        Side::Begun => txn.is_committed() && txn.begun.is_some(),
        Side::Ended => txn.is_committed() && txn.ended.is_some(),
    }
}

fn some_state(side: Side, txns: &[Txn]) -> bool
    ensures states { result ≡ some_state side (map view_txn txns.now) }
{
    for txn in txns {
        if states_moment(side, txn) {
            return true;
        }
    }
    false
}

fn one_states(side: Side, sessions: &[Session]) -> bool
    ensures states { result ≡ one_states side (map view sessions.now) }
{
    for session in sessions {
        if some_state(side, &session.txns) {
            return true;
        }
    }
    false
}

/// Whether a committed transaction states when it began, and one when it ended.
pub fn state_moments(sessions: &[Session]) -> bool
    ensures states { result ≡ states_moments (map view sessions.now) }
{
    one_states(Side::Begun, sessions) && one_states(Side::Ended, sessions)
}

/// The verdict, in a word.
pub fn word_of(verdict: &Verdict) -> Word
    ensures is { result ≡ verdict_word verdict.now }
    ensures word { (m : JudgeMeans) (ss : List ClientSession) → IsVerdict m ss verdict.now
        → IsWord m ss result }
{
    match verdict {
        Verdict::Serializable(_) => Word::Serializable,
        Verdict::NotSerializable(_) => Word::NotSerializable,
        Verdict::Undecided { .. } => Word::Unknown,
    }
}

/// Whether weaker levels are asked for: a level was not kept or is not decided, and more than the
/// first line is told.
pub fn asks_levels(options: &AuditOptions<'_>, answer: &Answer) -> bool
    ensures asks { result ≡ asks_levels options.now answer.now }
{
    match answer {
        Answer::NotSerializable(_) | Answer::Undecided { .. } => !options.quiet && !options.only,
        Answer::Serializable | Answer::NoMoments | Answer::TooFew { .. } => false,
    }
}

/// Whether the level is that of serial orders.
fn is_serial(level: Level) -> bool
    ensures serial { result ≡ is_serial level }
{
    match level {
        Level::Serializable => true,
        Level::Snapshot | Level::Prefix | Level::Below(_) => false,
    }
}

/// Whether it is asked for that serial orders are judged without moments, and snapshot isolation in
/// the order of the stated ones.
fn asks_strict(options: &AuditOptions<'_>, answer: &Answer, states: bool) -> bool
    ensures asks { (ss : List ClientSession) → states ≡ states_moments (resolved ss)
        → result ≡ asks_strict options.now ss answer.now }
{
    asks_levels(options, answer) && is_serial(options.means.level) && states
}

/// Whether it is asked for that snapshot isolation is judged without moments.
fn asks_plain(options: &AuditOptions<'_>, answer: &Answer, states: bool) -> bool
    ensures asks { (ss : List ClientSession) → states ≡ states_moments (resolved ss)
        → result ≡ asks_plain options.now ss answer.now }
{
    asks_levels(options, answer) && (is_serial(options.means.level) || states)
}

/// Whether it is told of one of two levels that it was kept.
pub fn is_one_kept(one: Option<Word>, other: Option<Word>) -> bool
    ensures kept { result ≡ (is_kept one || is_kept other) }
{
    is_kept(one) || is_kept(other)
}

/// The means of judging, at the level of snapshots.
fn at_snapshot(means: &JudgeMeans) -> JudgeMeans
    ensures at { result ≡ at_snapshot means.now }
{
    JudgeMeans {
        level: Level::Snapshot,
        ..*means
    }
}

/// What is asked, at the level of snapshots.
fn asked_at_snapshot<'a>(options: &AuditOptions<'a>) -> AuditOptions<'a>
    ensures at { result ≡ asked_at_snapshot options.now }
{
    AuditOptions {
        means: at_snapshot(&options.means),
        ..*options
    }
}

/// Which transactions the first part of an answer has.
pub fn first_flags(answer: &Answer) -> Option<&Flags> {
    match answer {
        Answer::NotSerializable(parts) => parts
            .first()
            .and_then(|part| part.refuted.flags.as_ref()),
        Answer::Serializable
        | Answer::NoMoments
        | Answer::TooFew { .. }
        | Answer::Undecided { .. } => None,
    }
}

/// The verdict on these sessions, whose outcomes are known; the part of these flags is looked at
/// first.
fn word_on<R: Threads + Wait + Clock + Eprint + Sync, P: Progress>(
    rt: &R,
    alloc: Global,
    sessions: &[Session],
    first: Option<&Flags>,
    means: &JudgeMeans,
    progress: &mut P,
) -> Result<Word, AllocError>
    requires log { IsLog (map view sessions.now) }
    ensures word { IfOk result (λ word. (ss : List ClientSession) → AllByRecursion IsLegal ss
        → IsSoundLog ss → map view sessions.now ≡ resolved ss → IsWord means.now ss word) }
{
    let verdict = judge_known_log(rt, alloc, sessions, first, means, progress)?;
    Ok(word_of(&verdict))
}

/// The verdict on these sessions, whose outcomes are known, where it is asked for.
fn word_where<R: Threads + Wait + Clock + Eprint + Sync, P: Progress>(
    rt: &R,
    alloc: Global,
    sessions: &[Session],
    first: Option<&Flags>,
    is_asked: bool,
    means: &JudgeMeans,
    progress: &mut P,
) -> Result<Option<Word>, AllocError>
    requires log { IsLog (map view sessions.now) }
    ensures word { IfOk result (λ word. (ss : List ClientSession) → AllByRecursion IsLegal ss
        → IsSoundLog ss → map view sessions.now ≡ resolved ss
        → IsWordWhere means.now ss is_asked word) }
{
    if is_asked {
        Ok(Some(word_on(rt, alloc, sessions, first, means, progress)?))
    } else {
        Ok(None)
    }
}

/// The part, unless it adds nothing to one of these.
fn unless_told(part: ToldPart, parts: &[ToldPart]) -> Option<ToldPart>
    ensures told { result ≡ unless_told part parts.now }
{
    if is_told_by(&part, parts) {
        None
    } else {
        Some(part)
    }
}

/// The part that shows a verdict at the level of snapshots, unless it adds nothing to one of the
/// answer.
fn shown_by<R: Threads + Wait + Clock + Sync>(
    rt: &R,
    alloc: Global,
    version: Version,
    sessions: &[Session],
    answer: &Answer,
    verdict: Verdict,
    options: &AuditOptions<'_>,
) -> Result<Option<ToldPart>, AllocError>
    requires part { IsPartOfVerdict (map view sessions.now) verdict }
    ensures shown { (ss : List ClientSession) → map view sessions.now ≡ resolved ss
        → IsVerdict (at_snapshot options.now.means) ss verdict → IsMade (resolved ss) verdict
        → IfOk result (IsShownBy options.now (first_line version) ss answer.now (Some (verdict_word verdict))) }
{
    match verdict {
        Verdict::NotSerializable(refuted) => {
            let below = asked_at_snapshot(options);
            let part = told_part(rt, alloc, version, sessions, refuted, &below)?;
            Ok(unless_told(part, parts_of(answer)))
        }
        Verdict::Serializable(_) | Verdict::Undecided { .. } => Ok(None),
    }
}

/// Whether these sessions, whose outcomes are known, kept snapshot isolation, and what shows that
/// they did not.
fn plain_on<R: Threads + Wait + Clock + Eprint + Sync, P: Progress>(
    rt: &R,
    alloc: Global,
    version: Version,
    sessions: &[Session],
    answer: &Answer,
    options: &AuditOptions<'_>,
    progress: &mut P,
) -> Result<Plain, AllocError>
    requires log { IsLog (map view sessions.now) }
    ensures word { IfOk result (λ plain. (ss : List ClientSession) → AllByRecursion IsLegal ss
        → IsSoundLog ss → map view sessions.now ≡ resolved ss
        → IsWordWhere (at_snapshot options.now.means) ss true plain.word) }
    ensures shown { IfOk result (λ plain. (ss : List ClientSession) → AllByRecursion IsLegal ss
        → IsSoundLog ss → map view sessions.now ≡ resolved ss
        → IsShownBy options.now (first_line version) ss answer.now plain.word plain.shown) }
{
    let means = at_snapshot(&options.means);
    let verdict = judge_known_log(rt, alloc, sessions, first_flags(answer), &means, progress)?;
    let word = Some(word_of(&verdict));
    let shown = shown_by(rt, alloc, version, sessions, answer, verdict, options)?;
    Ok(Plain { word, shown })
}

/// The same, where it is asked for: it is kept where a stronger level is.
fn plain_where<R: Threads + Wait + Clock + Eprint + Sync, P: Progress>(
    rt: &R,
    alloc: Global,
    version: Version,
    sessions: &[Session],
    answer: &Answer,
    is_implied: bool,
    is_asked: bool,
    options: &AuditOptions<'_>,
    progress: &mut P,
) -> Result<Plain, AllocError>
    requires log { IsLog (map view sessions.now) }
    ensures kept { IfOk result (λ plain. is_implied ≡ true → plain.word ≡ Some word.Serializable) }
    ensures word { IfOk result (λ plain. is_implied ≡ false → (ss : List ClientSession)
        → AllByRecursion IsLegal ss → IsSoundLog ss → map view sessions.now ≡ resolved ss
        → IsWordWhere (at_snapshot options.now.means) ss is_asked plain.word) }
    ensures shown { IfOk result (λ plain. (ss : List ClientSession) → AllByRecursion IsLegal ss
        → IsSoundLog ss → map view sessions.now ≡ resolved ss
        → IsShownBy options.now (first_line version) ss answer.now plain.word plain.shown) }
{
    if is_implied {
        return Ok(Plain {
            word: Some(Word::Serializable),
            shown: None,
        });
    }
    if is_asked {
        plain_on(rt, alloc, version, sessions, answer, options, progress)
    } else {
        Ok(Plain {
            word: None,
            shown: None,
        })
    }
}

/// What holds of a log of these sessions, whose outcomes are known, as if it stated no moments, and
/// at weaker levels, where that is asked for; and the sessions without them.
pub fn judge_weaker<R: Threads + Wait + Clock + Eprint + Sync, P: Progress>(
    rt: &R,
    alloc: Global,
    version: Version,
    answer: &Answer,
    sessions: Vec<Session>,
    options: &AuditOptions<'_>,
    progress: &mut P,
) -> Result<(Weaker, Vec<Session>), AllocError>
    requires log { IsLog (map view sessions.items) }
    ensures weaker { (ss : List ClientSession) → AllByRecursion IsLegal ss → IsSoundLog ss
        → map view sessions.items ≡ resolved ss
        → IfOk result (λ both. IsWeaker options.now (first_line version) ss answer.now both.0) }
    ensures rest { IfOk result (λ both. map view both.1.items
        ≡ without_moments (map view sessions.items)) }
{
    let means = at_snapshot(&options.means);
    let first = first_flags(answer);
    let states = state_moments(&sessions);
    let mut sessions = sessions;
    let is_strict = asks_strict(options, answer, states);
    let strict_snapshot = word_where(rt, alloc, &sessions, first, is_strict, &means, progress)?;
    leave_out_moments(&mut sessions);
    let own = &options.means;
    let without_moments = word_where(rt, alloc, &sessions, first, is_strict, own, progress)?;
    let is_implied = is_one_kept(without_moments, strict_snapshot);
    let is_plain = asks_plain(options, answer, states);
    let plain = plain_where(
        rt, alloc, version, &sessions, answer, is_implied, is_plain, options, progress,
    )?;
    let weaker = Weaker {
        without_moments,
        strict_snapshot,
        snapshot: plain.word,
        shown: plain.shown,
    };
    Ok((weaker, sessions))
}
