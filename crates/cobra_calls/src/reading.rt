//! What a call reads.

ghost use Rattle.std.specs.Prelude.{◌≡◌, true, OnErr, ℕ, IfOk, IfErr, OnOk};
ghost use Rattle.output.specs.Sinks.{one_more};
ghost use Rattle.cobra_calls.specs.Calls.{log_name};
ghost use Rattle.cobra_calls.specs.Endings.{IsUnread};
ghost use Rattle.cobra_calls.specs.Worlds.{is_long, limit_of, IsLogRead, IsNamedRead, IsLogUnread};
ghost use Rattle.cobra_calls.specs.Worlds.{failures_with, names_file, read_failures, with_named};

use crate::ending::Ending;
use crate::splits::log_name;
use crate::world::{Inputs, Unread};
use cobra_answers::Stop;
use cobra_words::{Command, Request};
use dimacs::MAX_ANSWER_BYTES;
use long_log_definitions::MAX_LONG_LOG_BYTES;
use order_text::MAX_ORDER_BYTES;
use proof_text::MAX_PROOF_BYTES;
use session_log::MAX_LOG_BYTES;
use std::alloc::Global;

/// Whether the command reads a log of any length.
fn is_long(command: &Command<'_>) -> bool
    ensures long { result ≡ is_long command.now }
{
    matches!(
        command,
        Command::Audit(_) | Command::Split | Command::Census
    )
}

/// How many bytes the log of a command has at most.
fn limit_of(command: &Command<'_>) -> usize
    ensures limit { result ≡ limit_of command.now }
{
    if is_long(command) {
        MAX_LONG_LOG_BYTES
    } else {
        MAX_LOG_BYTES
    }
}

/// How a call ends of which a file could not be read.
fn unread(unread: Unread) -> Ending
    ensures unread { (before : ℕ) → IsUnread before (failures_with before unread) result }
{
    match unread {
        Unread::Memory => Ending::memory(),
        Unread::Device(_) => Ending::Stop(Stop::Input),
    }
}

/// How a call ends whose log could not be read: of a long one, its name is told, and why.
fn log_unread(alloc: Global, request: &Request<'_>, why: Unread) -> Ending
    ensures unread { (before : ℕ)
        → IsLogUnread request.now before (failures_with before why) result }
{
    if !is_long(&request.command) {
        return unread(why);
    }
    match why {
        Unread::Memory => Ending::memory(),
        Unread::Device(error) => Ending::unusable(alloc, log_name(request), error),
    }
}

/// The bytes of the log, up to one more than the limit.
fn log_bytes<I: Inputs>(
    alloc: Global,
    request: &Request<'_>,
    inputs: &mut I,
) -> Result<Vec<u8>, Unread>
    ensures log { IfOk result (λ log. IsLogRead request.now (I.given inputs.old)
        (I.held inputs.old) log.items) }
    ensures held { I.held inputs.new ≡ I.held inputs.old }
    ensures count { I.failures inputs.new ≡ read_failures (I.failures inputs.old) result }
    ensures once { I.reads inputs.new ≡ one_more (I.reads inputs.old) }
{
    let limit = limit_of(&request.command);
    match request.log {
        Some(name) => inputs.read_held(alloc, name, limit),
        None => inputs.read_given(alloc, limit),
    }
}

/// Reads the log that a call asks for, from its file or from standard input.
pub fn read_log<I: Inputs>(
    alloc: Global,
    request: &Request<'_>,
    inputs: &mut I,
) -> Result<Vec<u8>, Ending>
    ensures log { IfOk result (λ log. IsLogRead request.now (I.given inputs.old)
        (I.held inputs.old) log.items) }
    ensures held { I.held inputs.new ≡ I.held inputs.old }
    ensures count { OnOk result (I.failures inputs.new ≡ I.failures inputs.old) }
    ensures unread { IfErr result (IsLogUnread request.now
        (I.failures inputs.old) (I.failures inputs.new)) }
    ensures once { I.reads inputs.new ≡ one_more (I.reads inputs.old) }
{
    match log_bytes(alloc, request, inputs) {
        Ok(log) => Ok(log),
        Err(why) => Err(log_unread(alloc, request, why)),
    }
}

/// The bytes of the file that the command names beside the log.
fn named_bytes<I: Inputs>(
    alloc: Global,
    command: &Command<'_>,
    inputs: &mut I,
) -> Result<Vec<u8>, Unread>
    ensures named { IfOk result (λ named. IsNamedRead command.now (I.held inputs.old) named.items) }
    ensures count { I.failures inputs.new ≡ read_failures (I.failures inputs.old) result }
    ensures names { OnErr result (names_file command.now ≡ true) }
    ensures once { I.reads inputs.new ≡ with_named command.now (I.reads inputs.old) }
{
    match command {
        Command::Decode { model } => inputs.read_held(alloc, model, MAX_ANSWER_BYTES),
        Command::Refute { proof } => inputs.read_held(alloc, proof, MAX_PROOF_BYTES),
        Command::Verify { order } => inputs.read_held(alloc, order, MAX_ORDER_BYTES),
        _ => Ok(Vec::new(alloc)),
    }
}

/// Reads the file that the command names beside the log.
pub fn read_named<I: Inputs>(
    alloc: Global,
    command: &Command<'_>,
    inputs: &mut I,
) -> Result<Vec<u8>, Ending>
    ensures named { IfOk result (λ named. IsNamedRead command.now (I.held inputs.old) named.items) }
    ensures count { OnOk result (I.failures inputs.new ≡ I.failures inputs.old) }
    ensures unread { IfErr result (IsUnread (I.failures inputs.old) (I.failures inputs.new)) }
    ensures names { OnErr result (names_file command.now ≡ true) }
    ensures once { I.reads inputs.new ≡ with_named command.now (I.reads inputs.old) }
{
    match named_bytes(alloc, command, inputs) {
        Ok(named) => Ok(named),
        Err(why) => Err(unread(why)),
    }
}
