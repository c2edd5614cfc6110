//! A call of `audit`, from its request to what it leaves in the world.

ghost use Rattle.std.specs.Prelude.{◌≡◌, option_map};
ghost use Rattle.output.specs.Sinks.{one_more};
ghost use Rattle.audit_report.specs.Objects as objects;
ghost use Rattle.cobra_program.specs.Audits.{failure_line, IsSaid, IsFailureSaid};
ghost use Rattle.cobra_program.specs.Audits.{IsAuditAnswered};

use crate::stages::EachSecond;
use audit_report::failure_object;
use call_options::ReportForm;
use cobra_calls::{
    Ending, Errors, Inputs, NewFiles, Outlet, World, audit_log, hand_on, read_log, tell_ending,
};
use cobra_words::{AuditWords, Request, VERSION};
use std::alloc::Global;
use std::io::Eprint;
use std::sync::Wait;
use std::thread::Threads;
use std::time::{Clock, Instant};

/// The line of an ending that an object says, where one is asked for.
fn failure_line<'a>(form: ReportForm, ending: &'a Ending) -> Option<&'a str>
    ensures line { option_map (λ s. s.now) result ≡ failure_line form ending.now }
{
    match form {
        ReportForm::Text => None,
        ReportForm::Json => match ending {
            Ending::Told { line, .. } => Some(line.as_str()),
            _ => None,
        },
    }
}

/// Says in an object that the log could not be read, for this reason. The call ends for that, also
/// where the object cannot be said.
fn say_failure<O: Outlet>(alloc: Global, quiet: bool, line: &str, output: &mut O)
    ensures said { IsSaid (objects.failure_object quiet line.now VERSION.now) (O.bytes output.old)
        (O.bytes output.new) (O.failures output.old) (O.failures output.new) }
{
    if let Ok(text) = failure_object(alloc, quiet, line, VERSION) {
        let _ = hand_on(&text, output);
    }
}

/// Says on the output that the log could not be read, where an object is asked for.
fn tell_failure<O: Outlet>(alloc: Global, words: &AuditWords<'_>, ending: &Ending, output: &mut O)
    ensures said { IsFailureSaid words.now.quiet (failure_line words.now.format ending.now)
        (O.bytes output.old) (O.bytes output.new)
        (O.failures output.old) (O.failures output.new) }
{
    if let Some(line) = failure_line(words.format, ending) {
        say_failure(alloc, words.quiet, line, output);
    }
}

/// Audits the log that a call reads, and gives the exit status. The call began then.
pub fn answer_audit<
    R: Threads + Wait + Clock + Eprint + Sync,
    I: Inputs,
    O: Outlet,
    E: Errors,
    F: NewFiles,
>(
    rt: &R,
    alloc: Global,
    start: Option<Instant>,
    request: &Request<'_>,
    words: &AuditWords<'_>,
    world: &mut World<I, O, E>,
    files: &mut F,
) -> u8
    ensures answered { IsAuditAnswered start request.now words.now (record {
      seen = record {
        given = I.given world.old.inputs;
        held = I.held world.old.inputs;
        before = I.failures world.old.inputs;
        after = I.failures world.new.inputs;
        old = O.bytes world.old.output;
        new = O.bytes world.new.output;
        failures = O.failures world.old.output;
        later_failures = O.failures world.new.output;
        lines = E.lines world.old.errors;
        later = E.lines world.new.errors;
        is_through = O.is_through world.new.output;
        is_broken = E.is_broken world.new.errors;
      };
      files = F.files files.old;
      later_files = F.files files.new;
      reads = I.reads world.old.inputs;
      later_reads = I.reads world.new.inputs;
    }) result }
    ensures once { I.reads world.new.inputs ≡ one_more (I.reads world.old.inputs) }
{
    let mut log = match read_log(alloc, request, &mut world.inputs) {
        Ok(log) => log,
        Err(ending) => {
            tell_failure(alloc, words, &ending, &mut world.output);
            return tell_ending(&mut world.errors, ending);
        }
    };
    let mut progress = EachSecond::new(words.progress, start);
    let output = &mut world.output;
    match audit_log(
        rt,
        alloc,
        &mut log,
        request,
        words,
        start,
        &mut progress,
        output,
        files,
    ) {
        Ok(status) => status.code(),
        Err(ending) => tell_ending(&mut world.errors, ending),
    }
}
