//! A call of `audit`.

ghost use Rattle.std.specs.Prelude.{◌≡◌, ◌≢◌, true, false, ◌∷◌, ◌++◌, [], string_bytes};
ghost use Rattle.std.specs.Prelude.{IfOk, IfErr, OnOk, OnErr, IfSome, IfNone};
ghost use Rattle.std.specs.List.{AllByRecursion};
ghost use Rattle.cobra_calls.specs.Files.{Adds, FailsAt};
ghost use Rattle.cobra_calls.specs.Endings.{IsUnusable, failures_by, output_failures};
ghost use Rattle.cobra_calls.specs.Audits.{AreOptions, deadline_of, map_path, part_names};
ghost use Rattle.cobra_calls.specs.Audits.{order_names, files_named, AreApart, StandsIn, StandsTwice};
ghost use Rattle.cobra_calls.specs.Audits.{twice_line, IsNamedTwice, part_files, order_files, files_of};
ghost use Rattle.cobra_calls.specs.Audits.{IsHandedOn, TellsFront, IsUnwritten, IsRefusalTold};
ghost use Rattle.cobra_calls.specs.Audits.{IsAuditDone, IsAuditEnding};

use crate::ending::Ending;
use crate::splits::log_name;
use crate::world::{NewFiles, Outlet};
use audit_command::{AuditOptions, Audited, Refusal, audit};
use audit_report::PartFile;
use cobra_answers::{Status, Stop};
use cobra_words::{AuditWords, Request, VERSION};
use deciding::Means;
use judging::{JudgeMeans, Level};
use output::{SinkFailed, write_all};
use progress::{Deadline, Progress};
use std::alloc::{AllocError, Global};
use std::io::Eprint;
use std::sync::Wait;
use std::thread::Threads;
use std::time::{Clock, Instant};

/// Until when something further is begun, in a call that began then.
fn deadline_of(start: Option<Instant>, seconds: Option<u32>) -> Option<Deadline>
    ensures deadline { result ≡ deadline_of start seconds }
{
    match start {
        Some(start) => match seconds {
            Some(seconds) => Some(Deadline { start, seconds }),
            None => None,
        },
        None => None,
    }
}

/// What a call asks for that began then.
fn options_of<'a>(
    request: &Request<'a>,
    words: &AuditWords<'a>,
    start: Option<Instant>,
) -> AuditOptions<'a>
    ensures options { AreOptions request.now words.now start result }
{
    let deciding = Means {
        workers: request.workers,
        strategy: request.strategy,
        budget: request.budget,
    };
    AuditOptions {
        means: JudgeMeans {
            level: Level::Serializable,
            deciding,
            deadline: deadline_of(start, words.seconds),
        },
        at_least: words.at_least,
        faults: words.faults,
        level: words.level,
        only: words.only,
        no_moments: words.no_moments,
        explain: words.explain,
        explanation: words.explanation,
        part: words.part.is_some(),
        order: words.order.is_some(),
        form: words.format,
        quiet: words.quiet,
        version: VERSION,
    }
}

/// The name of the map beside the part; empty where no part is asked for.
fn map_path(alloc: Global, part: Option<&str>) -> Result<String, AllocError>
    ensures path { IfOk result (λ path. string_bytes path ≡ map_path part.entry) }
{
    match part {
        Some(part) => format!(in alloc; "{part}.map"),
        None => Ok(String::new(alloc)),
    }
}

/// Whether the name is that of the part or of its map.
fn is_of_part(name: &str, part: Option<&str>, map: &str) -> bool
    requires map { map.now ≡ map_path part }
    ensures same { result ≡ true → StandsIn (part_names part.entry) name.now }
    ensures apart { result ≡ false → AllByRecursion (λ other. name.now ≢ other) (part_names part.entry) }
{
    match part {
        Some(part) => name == part || name == map,
        None => false,
    }
}

/// A name that two files of a call have.
fn name_twice<'a>(
    log: &'a str,
    part: Option<&'a str>,
    map: &str,
    order: Option<&'a str>,
) -> Option<&'a str>
    requires map { map.now ≡ map_path part }
    ensures twice { IfSome result (λ name. StandsTwice
        (log.now ∷ part_names part.entry ++ order_names order.entry) name.now) }
    ensures apart { IfNone result (AreApart
        (log.now ∷ part_names part.entry ++ order_names order.entry)) }
{
    if is_of_part(log, part, map) {
        return Some(log);
    }
    let Some(order) = order else {
        return None;
    };
    if order == log {
        return Some(order);
    }
    if is_of_part(order, part, map) {
        Some(order)
    } else {
        None
    }
}

/// Says that two files of a call have this name.
fn twice_line(alloc: Global, name: &str) -> Result<String, AllocError>
    ensures line { IfOk result (λ line. string_bytes line ≡ twice_line name.now) }
{
    format!(in alloc; "error: the call names {name} twice, and would write over it")
}

/// Refuses a call whose files would be written over the log or over one another.
fn refuse_same_files(
    alloc: Global,
    request: &Request<'_>,
    words: &AuditWords<'_>,
    map: &str,
) -> Result<(), Ending>
    requires map { map.now ≡ map_path words.now.part }
    ensures apart { OnOk result (AreApart (files_named request.now words.now)) }
    ensures refused { IfErr result (IsNamedTwice (files_named request.now words.now)) }
{
    match name_twice(log_name(request), words.part, map, words.order) {
        Some(name) => Err(Ending::usage(twice_line(alloc, name))),
        None => Ok(()),
    }
}

/// Writes a file.
fn put_file<F: NewFiles>(
    alloc: Global,
    path: &str,
    bytes: &[u8],
    files: &mut F,
) -> Result<(), Ending>
    ensures put { OnOk result (Adds (F.files files.old) (F.files files.new)
        ((path.now, bytes.now) ∷ [])) }
    ensures unwritten { IfErr result (λ e. FailsAt (F.files files.old) (F.files files.new)
        (path.now, bytes.now) × IsUnusable path.now e) }
{
    match files.put(path, bytes) {
        Ok(()) => Ok(()),
        Err(error) => Err(Ending::unusable(alloc, path, error)),
    }
}

/// Writes the part as a log, and its map beside it.
fn put_part<F: NewFiles>(
    alloc: Global,
    path: Option<&str>,
    map: &str,
    part: &Option<PartFile>,
    files: &mut F,
) -> Result<(), Ending>
    ensures put { OnOk result (Adds (F.files files.old) (F.files files.new)
        (part_files path.entry map.now part.now)) }
    ensures unwritten { IfErr result (IsUnwritten (part_files path.entry map.now part.now)
        (F.files files.old) (F.files files.new)) }
{
    let Some(path) = path else {
        return Ok(());
    };
    match part {
        Some(part) => {
            if let Err(ending) = put_file(alloc, path, &part.log, files) {
                return Err(ending);
            }
            put_file(alloc, map, &part.map, files)
        }
        None => Ok(()),
    }
}

/// Writes the order.
fn put_order<F: NewFiles>(
    alloc: Global,
    path: Option<&str>,
    order: &Option<Vec<u8>>,
    files: &mut F,
) -> Result<(), Ending>
    ensures put { OnOk result (Adds (F.files files.old) (F.files files.new)
        (order_files path.entry order.now)) }
    ensures unwritten { IfErr result (IsUnwritten (order_files path.entry order.now)
        (F.files files.old) (F.files files.new)) }
{
    let Some(path) = path else {
        return Ok(());
    };
    match order {
        Some(order) => put_file(alloc, path, order, files),
        None => Ok(()),
    }
}

/// Writes the files that are asked for.
fn put_files<F: NewFiles>(
    alloc: Global,
    audited: &Audited,
    words: &AuditWords<'_>,
    map: &str,
    files: &mut F,
) -> Result<(), Ending>
    requires map { map.now ≡ map_path words.now.part }
    ensures put { OnOk result (Adds (F.files files.old) (F.files files.new)
        (files_of words.now audited.now)) }
    ensures unwritten { IfErr result (IsUnwritten (files_of words.now audited.now)
        (F.files files.old) (F.files files.new)) }
{
    if let Err(ending) = put_part(alloc, words.part, map, &audited.part, files) {
        return Err(ending);
    }
    put_order(alloc, words.order, &audited.order, files)
}

/// Tells a text whole, and hands it on.
pub fn hand_on<W: Outlet>(text: &[u8], sink: &mut W) -> Result<(), Ending>
    ensures told { OnOk result (IsHandedOn (W.bytes sink.old) (W.bytes sink.new) text.now) }
    ensures cut { OnErr result (TellsFront (W.bytes sink.old) (W.bytes sink.new) text.now) }
    ensures through { OnOk result (W.is_through sink.new ≡ true) }
    ensures output { IfErr result (λ e. e ≡ Ending.Stop Stop.Output) }
    ensures count { W.failures sink.new ≡ output_failures (W.failures sink.old) result }
{
    match write_all(sink, text) {
        Ok(()) => match sink.flush() {
            Ok(()) => Ok(()),
            Err(SinkFailed) => Err(Ending::Stop(Stop::Output)),
        },
        Err(_) => Err(Ending::Stop(Stop::Output)),
    }
}

/// Tells why a log of this name is refused, and how the call ends.
fn refuse<W: Outlet>(
    alloc: Global,
    log: &[u8],
    name: &str,
    refusal: &Refusal,
    sink: &mut W,
) -> Ending
    ensures told { IsRefusalTold name.now refusal.now (W.bytes sink.old) (W.bytes sink.new) result }
    ensures count { W.failures sink.new ≡ failures_by (W.failures sink.old) result }
{
    match refusal {
        Refusal::Memory => Ending::memory(),
        Refusal::Log { fault, text } => match hand_on(text, sink) {
            Ok(()) => Ending::refused(alloc, name, log, *fault),
            Err(ending) => ending,
        },
    }
}

/// Says of a long log whether it has a serial order, and writes the files that are asked for. The
/// call began then. The log's bytes are given back as soon as it is read.
pub fn audit_log<R: Threads + Wait + Clock + Eprint + Sync, W: Outlet, F: NewFiles, P: Progress>(
    rt: &R,
    alloc: Global,
    log: &mut Vec<u8>,
    request: &Request<'_>,
    words: &AuditWords<'_>,
    start: Option<Instant>,
    progress: &mut P,
    sink: &mut W,
    files: &mut F,
) -> Result<Status, Ending>
    ensures done { IfOk result (IsAuditDone request.now words.now start log.old.items
        (W.bytes sink.old) (W.bytes sink.new) (F.files files.old) (F.files files.new)) }
    ensures through { OnOk result (W.is_through sink.new ≡ true) }
    ensures ended { IfErr result (IsAuditEnding request.now words.now start log.old.items
        (W.bytes sink.old) (W.bytes sink.new) (F.files files.old) (F.files files.new)) }
    ensures count { W.failures sink.new ≡ output_failures (W.failures sink.old) result }
{
    let map = map_path(alloc, words.part)?;
    refuse_same_files(alloc, request, words, &map)?;
    let options = options_of(request, words, start);
    match audit(rt, alloc, log, &options, progress) {
        Ok(audited) => {
            hand_on(&audited.reply.text, sink)?;
            put_files(alloc, &audited, words, &map, files)?;
            Ok(audited.reply.status)
        }
        Err(refusal) => Err(refuse(alloc, log, log_name(request), &refusal, sink)),
    }
}
