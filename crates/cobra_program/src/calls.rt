//! A call of the program.

ghost use Rattle.std.specs.Prelude.{◌≡◌};
ghost use Rattle.cobra_program.specs.Program.{words_ending, IsServed, IsProgram};

use crate::audits::answer_audit;
use crate::texts::show;
use cobra_answers::Stop;
use cobra_calls::{Ending, Errors, Inputs, NewFiles, Outlet, USAGE, World, answer, tell_ending};
use cobra_words::{Command, Request, Words, words_of};
use std::alloc::Global;
use std::io::{self, Eprint, ErrorKind};
use std::sync::Wait;
use std::thread::Threads;
use std::time::{Clock, Instant};

/// How a call ends whose words cannot be had.
fn words_ending(kind: ErrorKind) -> Ending
    ensures ending { result ≡ words_ending kind }
{
    match kind {
        ErrorKind::OutOfMemory => Ending::memory(),
        _ => Ending::Stop(Stop::Words),
    }
}

/// Does what a request asks for, and gives the exit status. The call began then.
fn serve<R: Threads + Wait + Clock + Eprint + Sync, I: Inputs, O: Outlet, E: Errors, F: NewFiles>(
    rt: &R,
    alloc: Global,
    start: Option<Instant>,
    request: &Request<'_>,
    world: &mut World<I, O, E>,
    files: &mut F,
) -> u8
    ensures served { IsServed start request.now (record {
      seen = record {
        given = I.given world.old.inputs;
        held = I.held world.old.inputs;
        before = I.failures world.old.inputs;
        after = I.failures world.new.inputs;
        old = O.bytes world.old.output;
        new = O.bytes world.new.output;
        failures = O.failures world.old.output;
        later_failures = O.failures world.new.output;
        lines = E.lines world.old.errors;
        later = E.lines world.new.errors;
        is_through = O.is_through world.new.output;
        is_broken = E.is_broken world.new.errors;
      };
      files = F.files files.old;
      later_files = F.files files.new;
      reads = I.reads world.old.inputs;
      later_reads = I.reads world.new.inputs;
    }) result }
{
    match &request.command {
        Command::Audit(words) => answer_audit(rt, alloc, start, request, words, world, files),
        _ => answer(rt, alloc, request, world),
    }
}

/// Does what the words of a call ask for, the first of which is the program's name, and gives the
/// exit status. Where the words cannot be had, they are why. The call began then.
pub fn program<
    R: Threads + Wait + Clock + Eprint + Sync,
    I: Inputs,
    O: Outlet,
    E: Errors,
    F: NewFiles,
>(
    rt: &R,
    alloc: Global,
    start: Option<Instant>,
    words: io::Result<Vec<String>>,
    world: &mut World<I, O, E>,
    files: &mut F,
) -> u8
    ensures call { IsProgram start words (record {
      seen = record {
        given = I.given world.old.inputs;
        held = I.held world.old.inputs;
        before = I.failures world.old.inputs;
        after = I.failures world.new.inputs;
        old = O.bytes world.old.output;
        new = O.bytes world.new.output;
        failures = O.failures world.old.output;
        later_failures = O.failures world.new.output;
        lines = E.lines world.old.errors;
        later = E.lines world.new.errors;
        is_through = O.is_through world.new.output;
        is_broken = E.is_broken world.new.errors;
      };
      files = F.files files.old;
      later_files = F.files files.new;
      reads = I.reads world.old.inputs;
      later_reads = I.reads world.new.inputs;
    }) result }
{
    let words = match words {
        Ok(words) => words,
        Err(error) => return tell_ending(&mut world.errors, words_ending(error.kind())),
    };
    match words_of(alloc, &words) {
        Ok(Some(Words::Request(request))) => serve(rt, alloc, start, &request, world, files),
        Ok(Some(Words::Shown(text))) => show(alloc, &text, world),
        Ok(None) => USAGE,
        Err(_refused) => tell_ending(&mut world.errors, Ending::memory()),
    }
}
