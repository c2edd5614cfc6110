//! What the command of a request does with a log.

ghost use Rattle.std.specs.Prelude.{◌≡◌, true, IfOk, IfErr};
ghost use Rattle.cobra_calls.specs.Calls.{is_plain, IsDone, IsEnded};
ghost use Rattle.cobra_calls.specs.Endings.{output_failures};

use crate::censuses::census_log;
use crate::ending::Ending;
use crate::explains::explain_log;
use crate::splits::split_log;
use crate::world::Outlet;
use cobra_answers::Status;
use cobra_cli::{Options, check, decode, encode, stats, verify};
use cobra_words::{Command, Request};
use desk::gate::OpenGate;
use refute_command::refute;
use solve_command::solve;
use std::alloc::Global;
use std::sync::Wait;
use std::thread::Threads;
use std::time::Clock;

/// Whether `run_on` runs the command.
pub fn is_plain(command: &Command<'_>) -> bool
    ensures plain { result ≡ is_plain command.now }
{
    !matches!(command, Command::Audit(_))
}

/// Runs a command on the log, and on the file that the request names beside it: what it answers is
/// put into the sink.
#[tactic(auto, using(crate::proofs::Failures::by_refusal))]
pub fn run_on<R: Threads + Wait + Clock + Sync, W: Outlet>(
    rt: &R,
    alloc: Global,
    log: &[u8],
    named: &[u8],
    request: &Request<'_>,
    sink: &mut W,
) -> Result<Status, Ending>
    requires plain { is_plain request.now.command ≡ true }
    ensures done { IfOk result (IsDone request.now (record { log = log.now; named = named.now })
        (W.bytes sink.old) (W.bytes sink.new)) }
    ensures ended { IfErr result (IsEnded request.now (record { log = log.now; named = named.now })
        (W.bytes sink.old) (W.bytes sink.new)) }
    ensures count { W.failures sink.new ≡ output_failures (W.failures sink.old) result }
{
    let options = Options {
        plain: request.plain,
        workers: request.workers,
        strategy: request.strategy,
        budget: request.budget,
    };
    let (plain, workers) = (request.plain, request.workers);
    match &request.command {
        Command::Encode => Ok(encode(rt, alloc, log, &options, &OpenGate, sink)?),
        Command::Check => Ok(check(rt, alloc, log, &options, &OpenGate, sink)?),
        Command::Stats => Ok(stats(rt, alloc, log, &options, &OpenGate, sink)?),
        Command::Decode { .. } => Ok(decode(rt, alloc, log, named, &options, &OpenGate, sink)?),
        Command::Verify { .. } => Ok(verify(rt, alloc, log, named, &options, &OpenGate, sink)?),
        Command::Refute { .. } => {
            Ok(refute(rt, alloc, log, named, plain, workers, &OpenGate, sink)?)
        }
        Command::Solve { conflicts } => {
            Ok(solve(rt, alloc, log, plain, *conflicts, workers, &OpenGate, sink)?)
        }
        Command::Split => split_log(rt, alloc, log, request, sink),
        Command::Census => census_log(rt, alloc, log, request, sink),
        Command::Explain { format } => {
            explain_log(rt, alloc, log, request, &options, *format, sink)
        }
        Command::Audit(_) => unreachable!(),
    }
}
