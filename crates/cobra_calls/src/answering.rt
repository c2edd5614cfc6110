//! A call, from its request to what it leaves in the world.

ghost use Rattle.std.specs.Prelude.{◌≡◌, true, IfOk, IfErr, OnOk};
ghost use Rattle.cobra_calls.specs.Calls.{is_plain};
ghost use Rattle.cobra_calls.specs.Endings.{status_of, output_failures};
ghost use Rattle.cobra_calls.specs.Worlds.{IsAnswer, IsEnding, IsLineTold, IsAnswered, AreReads};

use crate::calls::run_on;
use crate::ending::Ending;
use crate::reading::{read_log, read_named};
use crate::world::{Errors, Inputs, Outlet, World};
use cobra_answers::{Status, Stop};
use cobra_words::Request;
use output::SinkFailed;
use std::alloc::Global;
use std::sync::Wait;
use std::thread::Threads;
use std::time::Clock;

/// Runs a command on what it reads: first the log, then the answer, the proof or the order.
#[tactic(auto, using(crate::proofs::Left::read_log_alone, crate::proofs::Left::read_both))]
fn run<R: Threads + Wait + Clock + Sync, I: Inputs, O: Outlet>(
    rt: &R,
    alloc: Global,
    request: &Request<'_>,
    inputs: &mut I,
    output: &mut O,
) -> Result<Status, Ending>
    requires plain { is_plain request.now.command ≡ true }
    ensures answer { IfOk result (IsAnswer request.now (I.given inputs.old) (I.held inputs.old)
        (O.bytes output.old) (O.bytes output.new)) }
    ensures through { OnOk result (O.is_through output.new ≡ true) }
    ensures ending { IfErr result (IsEnding request.now (I.given inputs.old) (I.held inputs.old)
        (I.failures inputs.old) (I.failures inputs.new) (O.bytes output.old) (O.bytes output.new)) }
    ensures reads { OnOk result (I.failures inputs.new ≡ I.failures inputs.old) }
    ensures once { AreReads request.now.command (I.reads inputs.old) (I.reads inputs.new) }
    ensures count { O.failures output.new ≡ output_failures (O.failures output.old) result }
{
    let log = read_log(alloc, request, inputs)?;
    let named = read_named(alloc, &request.command, inputs)?;
    let status = run_on(rt, alloc, &log, &named, request, output)?;
    match output.flush() {
        Ok(()) => Ok(status),
        Err(SinkFailed) => Err(Ending::Stop(Stop::Output)),
    }
}

/// Says why a call ended without an answer, and gives its exit status.
pub fn tell_ending<E: Errors>(errors: &mut E, ending: Ending) -> u8
    ensures told { IsLineTold (E.lines errors.old) (E.lines errors.new) (E.is_broken errors.new) ending }
    ensures status { result ≡ status_of ending }
{
    let status = ending.code();
    let _ = errors.tell(format_args!("{ending}\n"));
    status
}

/// Does what a request asks for, and gives the exit status.
pub fn answer<R: Threads + Wait + Clock + Sync, I: Inputs, O: Outlet, E: Errors>(
    rt: &R,
    alloc: Global,
    request: &Request<'_>,
    world: &mut World<I, O, E>,
) -> u8
    requires plain { is_plain request.now.command ≡ true }
    ensures answered { IsAnswered request.now (record {
      given = I.given world.old.inputs;
      held = I.held world.old.inputs;
      before = I.failures world.old.inputs;
      after = I.failures world.new.inputs;
      old = O.bytes world.old.output;
      new = O.bytes world.new.output;
      failures = O.failures world.old.output;
      later_failures = O.failures world.new.output;
      lines = E.lines world.old.errors;
      later = E.lines world.new.errors;
      is_through = O.is_through world.new.output;
      is_broken = E.is_broken world.new.errors;
    }) result }
    ensures once { AreReads request.now.command (I.reads world.old.inputs)
        (I.reads world.new.inputs) }
{
    match run(rt, alloc, request, &mut world.inputs, &mut world.output) {
        Ok(status) => status.code(),
        Err(ending) => tell_ending(&mut world.errors, ending),
    }
}
