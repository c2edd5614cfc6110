//! What is known of a judged log.

ghost use Rattle.std.specs.Prelude.{map, IfOk};
ghost use Rattle.std.specs.List.{AllByRecursion};
ghost use Rattle.session_log.specs.Text.{IsLegal, view};
ghost use Rattle.session_log.specs.Version.{first_line};
ghost use Rattle.log_laws.specs.Logs.{IsSoundLog};
ghost use Rattle.audit_command.specs.Audited.{first_part, part_asked, IsPartFile, IsKnown};

use crate::options::AuditOptions;
use crate::telling::{Answered, JudgedLog, answer_of};
use crate::totals::totals_of;
use audit_report::{Answer, PartFile, ToldPart, Totals, counts_of, part_file};
use judging::{Judged, judge_whole};
use progress::Progress;
use session_history::Tally;
use session_log::{Session, Version};
use std::alloc::{AllocError, Global};
use std::io::Eprint;
use std::sync::Wait;
use std::thread::Threads;
use std::time::Clock;

/// What is known of a judged log.
#[derive(Drop)]
pub struct Known {
    /// Its sessions with their outcomes known.
    pub sessions: Vec<Session>,
    pub answered: Answered,
    pub totals: Totals,
    /// The part that is told first, as a log, where it is asked for.
    pub part: Option<PartFile>,
}

/// The first of these parts as a log.
fn first_file(
    alloc: Global,
    version: Version,
    sessions: &[Session],
    parts: &[ToldPart],
) -> Result<Option<PartFile>, AllocError>
    ensures file { IfOk result (IsPartFile (first_part parts.now)) }
{
    match parts {
        [] => Ok(None),
        [first, ..] => Ok(Some(part_file(alloc, version, sessions, first)?)),
    }
}

/// The part that is told first, as a log, where it is asked for.
fn asked_part(
    alloc: Global,
    version: Version,
    sessions: &[Session],
    answer: &Answer,
    is_asked: bool,
) -> Result<Option<PartFile>, AllocError>
    ensures file { IfOk result (IsPartFile (part_asked answer.now is_asked)) }
{
    match answer {
        Answer::NotSerializable(parts) => {
            if is_asked {
                first_file(alloc, version, sessions, parts)
            } else {
                Ok(None)
            }
        }
        Answer::Serializable
        | Answer::NoMoments
        | Answer::TooFew { .. }
        | Answer::Undecided { .. } => Ok(None),
    }
}

/// Judges a log of these sessions, which is of this version.
pub fn know<R: Threads + Wait + Clock + Eprint + Sync, P: Progress>(
    rt: &R,
    alloc: Global,
    version: Version,
    sessions: Vec<Session>,
    options: &AuditOptions<'_>,
    progress: &mut P,
) -> Result<Known, AllocError>
    requires legal { AllByRecursion IsLegal (map view sessions.items) }
    requires sound { IsSoundLog (map view sessions.items) }
    ensures known { IfOk result (IsKnown options.now (first_line version)
        (map view sessions.items)) }
{
    let tally = Tally::of(&sessions);
    let count = sessions.len();
    let Judged {
        sessions,
        at,
        proposal,
        verdict,
        keys,
    } = judge_whole(rt, alloc, sessions, &options.means, progress)?;
    let log = JudgedLog {
        version,
        sessions: &sessions,
        at: &at,
        proposal: &proposal,
    };
    let counts = counts_of(tally, count, keys)?;
    let committed = counts.committed;
    let answered = answer_of(rt, alloc, &log, verdict, committed, options, progress)?;
    let totals = totals_of(counts, &sessions)?;
    let part = asked_part(alloc, version, &sessions, &answered.answer, options.part)?;
    Ok(Known {
        sessions,
        answered,
        totals,
        part,
    })
}
