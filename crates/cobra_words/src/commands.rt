//! The commands, each with its options and what it answers.

ghost use Rattle.std.specs.Prelude.{IfOk};
ghost use Rattle.clap.specs.Simple.{App};
ghost use Rattle.cobra_words.specs.Commands.{verify_app, encode_app, decode_app, refute_app};
ghost use Rattle.cobra_words.specs.Commands.{solve_app, stats_app, split_app, census_app, with_workers};
ghost use Rattle.cobra_words.specs.Commands.{with_formula, with_search, with_report, with_audit};
ghost use Rattle.cobra_words.specs.Commands.{check_app, program_head, HasApp, HasListApp, IsExplain};
ghost use Rattle.cobra_words.specs.Commands.{IsAudit, IsProgram, strategies, reports};
ghost use Rattle.cobra_words.specs.Commands.{levels};

use crate::{answers, options};
use call_options::{AUDIT_DEFAULTS, CHECK_DEFAULTS, SearchDefaults};
use clap::Command;
use std::alloc::{AllocError, Global};

/// The version that `--version` prints. Where a built program is kept, its commit and whether it
/// was proved are written over what stands in brackets here, in as many bytes (`tools/stamp.py`).
pub const VERSION: &str = "1.0.0 (commit unknown, not stamped)";

/// A command that several workers take part in, with the log as its last word.
fn with_workers<'a>(alloc: Global, command: Command<'a>) -> Result<Command<'a>, AllocError>
    ensures app { (a : App) → HasApp a command.entry → IfOk result (HasApp (with_workers a)) }
{
    command
        .arg(options::workers(alloc))?
        .arg(options::log_file(alloc))
}

/// Such a command that works on a formula.
fn with_formula<'a>(alloc: Global, command: Command<'a>) -> Result<Command<'a>, AllocError>
    ensures app { (a : App) → HasApp a command.entry → IfOk result (HasApp (with_formula a)) }
{
    with_workers(alloc, command.arg(options::plain(alloc))?)
}

/// What the budget of a search is.
const CUBES: &str = "How many cubes a search may close, 1 to 1000000";

/// The same where a search over the formula takes part.
const CUBES_AND_CONFLICTS: &str =
    "How many cubes a search may close, and how many conflicts one over the formula may meet, 1 to 1000000";

/// Such a command that searches.
fn with_search<'a>(
    alloc: Global,
    command: Command<'a>,
    budget: &'a str,
    defaults: SearchDefaults,
) -> Result<Command<'a>, AllocError>
    ensures app { (a : App) → HasApp a command.entry → IfOk result (HasListApp strategies (λ p.
        with_search defaults.strategy.now defaults.budget.now p a)) }
{
    let command = command
        .arg(options::strategy(alloc, defaults.strategy))?
        .arg(options::budget(alloc, budget, defaults.budget))?;
    with_workers(alloc, command)
}

fn encode<'a>(alloc: Global) -> Result<Command<'a>, AllocError>
    ensures app { IfOk result (HasApp encode_app) }
{
    let command = Command::new(alloc, "encode")
        .about("Write the formula of a log as DIMACS text")
        .after_help(answers::ENCODE);
    with_formula(alloc, command)
}

fn decode<'a>(alloc: Global) -> Result<Command<'a>, AllocError>
    ensures app { IfOk result (HasApp decode_app) }
{
    let command = Command::new(alloc, "decode")
        .about("Turn a solver's answer into a serial order")
        .after_help(answers::DECODE)
        .arg(options::required_file(alloc, "model", "The solver's answer"))?;
    with_formula(alloc, command)
}

fn refute<'a>(alloc: Global) -> Result<Command<'a>, AllocError>
    ensures app { IfOk result (HasApp refute_app) }
{
    let command = Command::new(alloc, "refute")
        .about("Check a solver's proof that no serial order explains a log")
        .after_help(answers::REFUTE)
        .arg(options::required_file(alloc, "proof", "The solver's proof, in LRAT or DRAT"))?;
    with_formula(alloc, command)
}

fn solve<'a>(alloc: Global) -> Result<Command<'a>, AllocError>
    ensures app { IfOk result (HasApp solve_app) }
{
    let command = Command::new(alloc, "solve")
        .about("Decide whether some serial order explains a log, by a search over its formula")
        .after_help(answers::SOLVE)
        .arg(options::conflicts(alloc))?;
    with_formula(alloc, command)
}

fn check<'a>(alloc: Global) -> Result<Command<'a>, AllocError>
    ensures app { IfOk result (HasListApp strategies check_app) }
{
    let command = Command::new(alloc, "check")
        .about("Decide whether some serial order explains a log")
        .after_help(answers::CHECK);
    with_search(alloc, command, CUBES, CHECK_DEFAULTS)
}

fn verify<'a>(alloc: Global) -> Result<Command<'a>, AllocError>
    ensures app { IfOk result (HasApp verify_app) }
{
    Command::new(alloc, "verify")
        .about("Check that an order is a serial order of a log")
        .after_help(answers::VERIFY)
        .arg(options::required_file(alloc, "order", "The order"))?
        .arg(options::log_file(alloc))
}

fn stats<'a>(alloc: Global) -> Result<Command<'a>, AllocError>
    ensures app { IfOk result (HasApp stats_app) }
{
    let command = Command::new(alloc, "stats")
        .about("Write how large a log and its formula are")
        .after_help(answers::STATS);
    with_formula(alloc, command)
}

fn explain<'a>(alloc: Global) -> Result<Command<'a>, AllocError>
    ensures app { IfOk result IsExplain }
{
    let command = Command::new(alloc, "explain")
        .about("Say why no serial order explains a log")
        .after_help(answers::EXPLAIN)
        .arg(options::format(alloc))?
        .arg(options::level_of_explain(alloc))?;
    with_search(alloc, command, CUBES, CHECK_DEFAULTS)
}

/// Such a command that reports.
fn with_report<'a>(alloc: Global, command: Command<'a>) -> Result<Command<'a>, AllocError>
    ensures app { (a : App) → HasApp a command.entry
        → IfOk result (HasListApp reports (λ p. with_report p a)) }
{
    command
        .arg(options::report_format(alloc))?
        .arg(options::quiet(alloc))?
        .arg(options::seconds(alloc))?
        .arg(options::progress(alloc))
}

/// Such a command with what is asked of `audit` alone.
fn with_audit<'a>(alloc: Global, command: Command<'a>) -> Result<Command<'a>, AllocError>
    ensures app { (a : App) → HasApp a command.entry
        → IfOk result (HasListApp levels (λ p. with_audit p a)) }
{
    command
        .arg(options::explain(alloc))?
        .arg(options::faults(alloc))?
        .arg(options::part(alloc))?
        .arg(options::order(alloc))?
        .arg(options::level(alloc))?
        .arg(options::only(alloc))?
        .arg(options::no_moments(alloc))?
        .arg(options::at_least(alloc))
}

fn audit<'a>(alloc: Global) -> Result<Command<'a>, AllocError>
    ensures app { IfOk result IsAudit }
{
    let command = Command::new(alloc, "audit")
        .about("Decide whether some serial order explains a log of any length")
        .after_help(answers::AUDIT);
    let command = with_report(alloc, with_audit(alloc, command)?)?;
    with_search(alloc, command, CUBES_AND_CONFLICTS, AUDIT_DEFAULTS)
}

fn split<'a>(alloc: Global) -> Result<Command<'a>, AllocError>
    ensures app { IfOk result (HasApp split_app) }
{
    let command = Command::new(alloc, "split")
        .about("Write the log that has a serial order exactly where this one is snapshot isolated")
        .after_help(answers::SPLIT);
    with_workers(alloc, command)
}

fn census<'a>(alloc: Global) -> Result<Command<'a>, AllocError>
    ensures app { IfOk result (HasApp census_app) }
{
    let command = Command::new(alloc, "census")
        .about("Count the reads and transactions that break serializability by themselves")
        .after_help(answers::CENSUS);
    with_workers(alloc, command)
}

/// The program, without its commands.
fn program_head<'a>(alloc: Global) -> Command<'a>
    ensures app { HasApp program_head result }
{
    Command::new(alloc, "cobra_poly")
        .about(
            "Decides by a formula whether some serial order explains what the clients of a store saw",
        )
        .version(VERSION)
        .subcommand_required(true)
}

/// The program, with its commands.
pub fn program<'a>(alloc: Global) -> Result<Command<'a>, AllocError>
    ensures app { IfOk result IsProgram }
{
    program_head(alloc)
        .subcommand(encode(alloc)?)?
        .subcommand(decode(alloc)?)?
        .subcommand(refute(alloc)?)?
        .subcommand(solve(alloc)?)?
        .subcommand(check(alloc)?)?
        .subcommand(verify(alloc)?)?
        .subcommand(stats(alloc)?)?
        .subcommand(explain(alloc)?)?
        .subcommand(audit(alloc)?)?
        .subcommand(split(alloc)?)?
        .subcommand(census(alloc)?)
}
