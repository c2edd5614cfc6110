//! The command `audit`.

ghost use Rattle.std.specs.Prelude.{◌≡◌, ◌≢◌, map, IfOk, IfErr};
ghost use Rattle.session_log.specs.Text.{view};
ghost use Rattle.session_log.specs.Version.{version_of};
ghost use Rattle.session_log.specs.declared.fault.LogFault.TheVariants.{Memory};
ghost use Rattle.long_log_definitions.specs.LongLog.{IsLongLog, IsLongLogFault};
ghost use Rattle.audit_command.specs.Levels.{settled};
ghost use Rattle.audit_report.specs.Words.{status_of};
ghost use Rattle.audit_command.specs.Audited.{seen, text_in, written_in, IsAudited, IsRefused};

use crate::known::{Known, know};
use crate::levels::settled;
use crate::lower::judge_lower;
use crate::options::AuditOptions;
use crate::outcome::{Audited, Refusal};
use crate::refusals::refusal;
use crate::telling::Answered;
use crate::weaker::judge_weaker;
use audit_report::{Answer, Told, graph_text, report_object, report_text};
use call_options::{Format, ReportForm};
use cobra_answers::{Reply, Status};
use judging::leave_out_moments;
use long_reading::read_long_log;
use progress::Progress;
use session_log::{LogFault, Session, Version};
use std::alloc::{AllocError, Global};
use std::io::Eprint;
use std::sync::Wait;
use std::thread::Threads;
use std::time::Clock;

/// How a command ends that tells this.
fn status_of(answer: &Answer) -> Status
    ensures status { result ≡ status_of answer.now }
{
    match answer {
        Answer::Serializable => Status::Done,
        Answer::NotSerializable(_) => Status::NotSerializable,
        Answer::NoMoments | Answer::TooFew { .. } | Answer::Undecided { .. } => Status::Unknown,
    }
}

/// The sessions that are judged.
fn seen(sessions: Vec<Session>, no_moments: bool) -> Vec<Session>
    ensures seen { map view result.items ≡ seen no_moments (map view sessions.items) }
{
    let mut sessions = sessions;
    if no_moments {
        leave_out_moments(&mut sessions);
    }
    sessions
}

/// The report in the form that is asked for.
fn report_of(alloc: Global, options: &AuditOptions<'_>, told: &Told) -> Result<Vec<u8>, AllocError>
    ensures text { IfOk result (λ text. text.items
        ≡ text_in options.now.form options.now told.now) }
{
    match options.form {
        ReportForm::Text => report_text(alloc, options.faults, options.quiet, told),
        ReportForm::Json => {
            report_object(alloc, options.explain, options.quiet, options.version, told)
        }
    }
}

/// The same; or a graph, where that is asked for.
fn text_of(alloc: Global, options: &AuditOptions<'_>, told: &Told) -> Result<Vec<u8>, AllocError>
    ensures text { IfOk result (λ text. text.items
        ≡ written_in options.now.explanation options.now told.now) }
{
    match options.explanation {
        Format::Text => report_of(alloc, options, told),
        Format::Dot => graph_text(alloc, told),
    }
}

/// How the command ends that tells this, and what it writes.
fn reply_of(alloc: Global, options: &AuditOptions<'_>, told: &Told) -> Result<Reply, AllocError>
    ensures ends { IfOk result (λ reply. reply.status ≡ status_of told.now.answer) }
    ensures text { IfOk result (λ reply. reply.text.items
        ≡ written_in options.now.explanation options.now told.now) }
{
    Ok(Reply {
        status: status_of(&told.answer),
        text: text_of(alloc, options, told)?,
    })
}

/// What an audit of a long log of these sessions comes to. Its bytes are given back first.
fn audit_sessions<R: Threads + Wait + Clock + Eprint + Sync, P: Progress>(
    rt: &R,
    alloc: Global,
    log: Vec<u8>,
    version: Version,
    sessions: Vec<Session>,
    options: &AuditOptions<'_>,
    progress: &mut P,
) -> Result<Audited, AllocError>
    requires long { IsLongLog log.items (map view sessions.items) }
    requires version { version ≡ version_of log.items }
    ensures audited { IfOk result (IsAudited options.now log.items) }
{
    drop(log);
    let sessions = seen(sessions, options.no_moments);
    let Known {
        sessions,
        answered,
        totals,
        part,
    } = know(rt, alloc, version, sessions, options, progress)?;
    let Answered { answer, order } = answered;
    let (weaker, bare) = judge_weaker(rt, alloc, version, &answer, sessions, options, progress)?;
    let (lower, lowest) = judge_lower(
        rt,
        alloc,
        version,
        &bare,
        &answer,
        weaker.snapshot,
        &weaker.shown,
        options,
        progress,
    )?;
    let told = Told {
        level: options.level,
        answer,
        without_moments: weaker.without_moments,
        strict_snapshot: weaker.strict_snapshot,
        snapshot: weaker.snapshot,
        shown: weaker.shown,
        lower,
        lowest,
        totals,
    };
    let reply = reply_of(alloc, options, &told)?;
    Ok(Audited { reply, part, order })
}

/// Why a log is refused, and what is said of that.
fn refused(alloc: Global, log: &[u8], fault: LogFault, options: &AuditOptions<'_>) -> Refusal
    requires fault { IsLongLogFault log.now fault }
    requires other { fault ≢ Memory }
    ensures refused { IsRefused options.now log.now result }
{
    match refusal(alloc, options, log, fault) {
        Ok(text) => Refusal::Log { fault, text },
        Err(AllocError) => Refusal::Memory,
    }
}

/// Says of a log of any length whether it has an order of the level of isolation that is asked for: a
/// serial one, where none is. The log's bytes are given back as soon as it is read.
///
/// # Errors
/// The log's first fault, with the object that says so, where one is asked for; want of memory.
pub fn audit<R: Threads + Wait + Clock + Eprint + Sync, P: Progress>(
    rt: &R,
    alloc: Global,
    log: &mut Vec<u8>,
    options: &AuditOptions<'_>,
    progress: &mut P,
) -> Result<Audited, Refusal>
    ensures audited { IfOk result (IsAudited (settled options.now) log.old.items) }
    ensures refused { IfErr result (IsRefused options.now log.old.items) }
{
    match read_long_log(rt, alloc, log, options.means.deciding.workers) {
        Ok((version, sessions)) => {
            let settled = settled(options);
            let log = std::mem::replace(log, Vec::new(alloc));
            match audit_sessions(rt, alloc, log, version, sessions, &settled, progress) {
                Ok(audit) => Ok(audit),
                Err(AllocError) => Err(Refusal::Memory),
            }
        }
        Err(fault) => match fault {
            LogFault::Memory => Err(Refusal::Memory),
            _ => Err(refused(alloc, log, fault, options)),
        },
    }
}
