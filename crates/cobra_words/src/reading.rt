//! From words to what they ask for.

ghost use Rattle.std.specs.Prelude.{codes, map, string_bytes, IfOk, IfSome, IfNone, IsSome};
ghost use Rattle.clap.specs.Matches.{found_of};
ghost use Rattle.clap.specs.Walk.{rows_of};
ghost use Rattle.cobra_words.specs.declared.request.Command.{Command};
ghost use Rattle.cobra_words.specs.declared.request.Request.{Request};
ghost use Rattle.cobra_words.specs.Asked.{AreAuditWords, IsCommand, IsRequest, IsAskedBy};
ghost use Rattle.cobra_words.specs.Asked.{IsInRange, IsRead};

use crate::commands::program;
use crate::request::{AuditWords, Command, Request, Words};
use crate::values::{
    byte_of, flag_of, format_of, level_of, log_of, number_of, report_of, short_number_of,
    strategy_of, text_of,
};
use clap::ArgMatches;
use clap::error::ErrorKind;
use cube_machine::Budget;
use desk::seat_no::Workers;
use std::alloc::{AllocError, Global};

/// What is asked of `audit`: why no order explains the log is to be said, or not.
fn audit_of<'a>(matches: &ArgMatches<'a>, explain: bool) -> AuditWords<'a>
    ensures words { AreAuditWords (rows_of (found_of matches.now)) explain result }
{
    AuditWords {
        at_least: number_of(matches, "at-least").unwrap_or(1) as usize,
        faults: short_number_of(matches, "faults").unwrap_or(1) as usize,
        seconds: number_of(matches, "seconds"),
        level: level_of(text_of(matches, "level")),
        only: flag_of(matches, "only"),
        no_moments: flag_of(matches, "no-moments"),
        explain,
        explanation: format_of(text_of(matches, "format")),
        part: text_of(matches, "part"),
        order: text_of(matches, "order"),
        format: report_of(text_of(matches, "format")),
        quiet: flag_of(matches, "quiet"),
        progress: flag_of(matches, "progress"),
    }
}

/// A call of `explain`: of a level that is named, what `audit` says and why.
fn explain_of<'a>(matches: &ArgMatches<'a>) -> Command<'a>
    ensures command { IsCommand (codes "explain") (rows_of (found_of matches.now)) result }
{
    match level_of(text_of(matches, "level")) {
        Some(_) => Command::Audit(audit_of(matches, true)),
        None => Command::Explain {
            format: format_of(text_of(matches, "format")),
        },
    }
}

fn command_of<'a>(name: &str, matches: &ArgMatches<'a>) -> Option<Command<'a>>
    ensures command { IfSome result (IsCommand name.now (rows_of (found_of matches.now))) }
    ensures known { (c : Command) → IsCommand name.now (rows_of (found_of matches.now)) c
        → IsSome result }
{
    match name {
        "encode" => Some(Command::Encode),
        "decode" => Some(Command::Decode {
            model: text_of(matches, "model")?,
        }),
        "refute" => Some(Command::Refute {
            proof: text_of(matches, "proof")?,
        }),
        "solve" => Some(Command::Solve {
            conflicts: number_of(matches, "conflicts")?,
        }),
        "check" => Some(Command::Check),
        "verify" => Some(Command::Verify {
            order: text_of(matches, "order")?,
        }),
        "stats" => Some(Command::Stats),
        "explain" => Some(explain_of(matches)),
        "audit" => Some(Command::Audit(audit_of(matches, flag_of(matches, "explain")))),
        "split" => Some(Command::Split),
        "census" => Some(Command::Census),
        _ => None,
    }
}

/// What the matches of the command of this name ask for.
fn request_at<'a>(name: &str, matches: &ArgMatches<'a>) -> Option<Request<'a>>
    ensures request { IfSome result (IsRequest name.now (rows_of (found_of matches.now))) }
    ensures known { (r : Request) → IsRequest name.now (rows_of (found_of matches.now)) r
        → IsInRange r → IsSome result }
{
    let command = command_of(name, matches)?;
    let number = byte_of(matches, "workers").unwrap_or(4);
    let budget = number_of(matches, "budget").unwrap_or(10_000);
    Some(Request {
        command,
        plain: flag_of(matches, "plain"),
        workers: Workers::new(number)?,
        strategy: strategy_of(text_of(matches, "strategy")),
        budget: Budget::new(budget as usize)?,
        log: log_of(text_of(matches, "FILE")),
    })
}

fn request_of<'a>(program: &ArgMatches<'a>) -> Option<Request<'a>>
    ensures request { IfSome result (IsAskedBy program.now) }
    ensures known { IfNone result ((r : Request) → IsAskedBy program.now r → IsInRange r → ⊥) }
{
    let (name, matches) = program.subcommand()?;
    request_at(name, matches)
}

/// What these words ask for, the first of which is the program's name. `None` is never given for
/// words that the command line lets through.
pub fn words_of<'a>(alloc: Global, words: &'a [String]) -> Result<Option<Words<'a>>, AllocError>
    ensures read { IfOk result (IsRead (map string_bytes words.entry.now)) }
{
    let program = program(alloc)?;
    match program.try_get_matches_from(words) {
        Err(error) => match error.kind() {
            ErrorKind::OutOfMemory => Err(AllocError),
            _ => Ok(Some(Words::Shown(error))),
        },
        Ok(matches) => {
            match request_of(&matches) {
                Some(request) => Ok(Some(Words::Request(request))),
                None => Ok(None),
            }
        }
    }
}
