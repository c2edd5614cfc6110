//! The options of commands.

ghost use Rattle.std.specs.Prelude.{codes};
ghost use Rattle.cobra_words.specs.Commands.{valued, flag, required_file, log_file, HasRule};
ghost use Rattle.cobra_words.specs.Commands.{workers, conflicts, strategy, budget, form, level};
ghost use Rattle.cobra_words.specs.Commands.{at_least, faults, seconds, HasListRule};
ghost use Rattle.cobra_words.specs.Commands.{strategies, forms, reports, levels};

use clap::builder::ValueParser;
use clap::{Arg, ArgAction};
use std::alloc::Global;

/// How many workers take part where the words do not say.
const DEFAULT_WORKERS: &str = "4";

/// How many lines `commit` a log must have where the words do not say.
const DEFAULT_AT_LEAST: &str = "1";

/// How many conflicts a search over a formula may meet where the words do not say.
const DEFAULT_CONFLICTS: &str = "1000000";

/// The words for the forms of an explanation.
const FORMATS: [&str; 2] = ["text", "dot"];

/// The words for the forms of a report.
const REPORTS: [&str; 2] = ["text", "json"];

/// The words for levels of isolation.
const LEVELS: [&str; 9] = [
    "strict-serializable",
    "serializable",
    "strict-snapshot",
    "snapshot",
    "prefix",
    "causal",
    "read-atomic",
    "monotonic-atomic-view",
    "read-committed",
];

/// The words for strategies.
const STRATEGIES: [&str; 4] = ["first", "most", "least", "forced"];

/// An option with a value, which help calls so.
fn valued<'a>(alloc: Global, name: &'a str, value: &'a str) -> Arg<'a>
    ensures rule { HasRule (valued name.entry.now) result }
{
    Arg::new(alloc, name)
        .long(name)
        .value_name(value)
        .action(ArgAction::Set)
}

/// An option without a value.
fn flag<'a>(alloc: Global, name: &'a str) -> Arg<'a>
    ensures rule { HasRule (flag name.entry.now) result }
{
    Arg::new(alloc, name).long(name).action(ArgAction::SetTrue)
}

pub fn log_file<'a>(alloc: Global) -> Arg<'a>
    ensures rule { HasRule log_file result }
{
    Arg::new(alloc, "FILE").help("The log; standard input where it is - or absent")
}

pub fn workers<'a>(alloc: Global) -> Arg<'a>
    ensures rule { HasRule workers result }
{
    valued(alloc, "workers", "N")
        .help("How many workers take part, 1 to 16")
        .value_parser(clap::value_parser!(u8).range(1..=16))
        .default_value(DEFAULT_WORKERS)
}

pub fn plain<'a>(alloc: Global) -> Arg<'a>
    ensures rule { HasRule (flag (codes "plain")) result }
{
    flag(alloc, "plain").help("Use the plain formula, of at most 100 transactions")
}

pub fn strategy<'a>(alloc: Global, default: &'a str) -> Arg<'a>
    ensures rule { HasListRule strategies (strategy default.entry.now) result }
{
    valued(alloc, "strategy", "NAME")
        .help(
            "Which choice a search decides next: the first, one with the most or the least edges, or one that the edges force",
        )
        .value_parser(ValueParser::Names(&STRATEGIES))
        .default_value(default)
}

pub fn budget<'a>(alloc: Global, help: &'a str, default: &'a str) -> Arg<'a>
    ensures rule { HasRule (budget default.entry.now) result }
{
    valued(alloc, "budget", "N")
        .help(help)
        .value_parser(clap::value_parser!(u32).range(1..=1_000_000))
        .default_value(default)
}

pub fn conflicts<'a>(alloc: Global) -> Arg<'a>
    ensures rule { HasRule conflicts result }
{
    Arg::new(alloc, "conflicts")
        .long("budget")
        .value_name("N")
        .action(ArgAction::Set)
        .help("How many conflicts the search may meet, 1 to 100000000")
        .value_parser(clap::value_parser!(u32).range(1..=100_000_000))
        .default_value(DEFAULT_CONFLICTS)
}

pub fn format<'a>(alloc: Global) -> Arg<'a>
    ensures rule { HasListRule forms form result }
{
    valued(alloc, "format", "FORM")
        .help("Lines of text, or a graph for Graphviz")
        .value_parser(ValueParser::Names(&FORMATS))
        .default_value("text")
}

pub fn required_file<'a>(alloc: Global, name: &'a str, help: &'a str) -> Arg<'a>
    ensures rule { HasRule (required_file name.entry.now) result }
{
    valued(alloc, name, "FILE").help(help).required(true)
}

pub fn at_least<'a>(alloc: Global) -> Arg<'a>
    ensures rule { HasRule at_least result }
{
    valued(alloc, "at-least", "N")
        .help("How many lines commit the log must have: with fewer the answer is unknown")
        .value_parser(clap::value_parser!(u32))
        .default_value(DEFAULT_AT_LEAST)
}

pub fn seconds<'a>(alloc: Global) -> Arg<'a>
    ensures rule { HasRule seconds result }
{
    valued(alloc, "seconds", "N")
        .help("Begin nothing further so many seconds after the start, 1 to 1000000")
        .value_parser(clap::value_parser!(u32).range(1..=1_000_000))
}

pub fn explain<'a>(alloc: Global) -> Arg<'a>
    ensures rule { HasRule (flag (codes "explain")) result }
{
    flag(alloc, "explain").help("Say why no serial order explains the log")
}

pub fn faults<'a>(alloc: Global) -> Arg<'a>
    ensures rule { HasRule faults result }
{
    valued(alloc, "faults", "N")
        .help(
            "Tell up to N parts that no serial order explains, 1 to 1000, and how many have each code",
        )
        .value_parser(clap::value_parser!(u16).range(1..=1000))
        .default_value("1")
}

pub fn part<'a>(alloc: Global) -> Arg<'a>
    ensures rule { HasRule (valued (codes "part")) result }
{
    valued(alloc, "part", "FILE").help(
        "Write the part that no serial order explains as a log, and into FILE.map the line of the log for each of its lines",
    )
}

pub fn order<'a>(alloc: Global) -> Arg<'a>
    ensures rule { HasRule (valued (codes "order")) result }
{
    valued(alloc, "order", "FILE").help(
        "Write the order, a line SESSION PLACE for each transaction, or of snapshots and commits a line for each of these",
    )
}

pub fn level<'a>(alloc: Global) -> Arg<'a>
    ensures rule { HasListRule levels level result }
{
    valued(alloc, "level", "LEVEL")
        .help(
            "Which promise is judged: else strict-serializable where moments are stated, and serializable where none are",
        )
        .value_parser(ValueParser::Names(&LEVELS))
}

pub fn level_of_explain<'a>(alloc: Global) -> Arg<'a>
    ensures rule { HasListRule levels level result }
{
    level(alloc).help("Say what audit --explain says of this promise, or draw it")
}

pub fn only<'a>(alloc: Global) -> Arg<'a>
    ensures rule { HasRule (flag (codes "only")) result }
{
    flag(alloc, "only").help(
        "Judge nothing but the level: no weaker one, and nothing without moments",
    )
}

pub fn no_moments<'a>(alloc: Global) -> Arg<'a>
    ensures rule { HasRule (flag (codes "no-moments")) result }
{
    flag(alloc, "no-moments").help("Judge the log as if it stated no moments")
}

pub fn report_format<'a>(alloc: Global) -> Arg<'a>
    ensures rule { HasListRule reports form result }
{
    valued(alloc, "format", "FORM")
        .help("Lines of text, or one object of JSON")
        .value_parser(ValueParser::Names(&REPORTS))
        .default_value("text")
}

pub fn quiet<'a>(alloc: Global) -> Arg<'a>
    ensures rule { HasRule (flag (codes "quiet")) result }
{
    flag(alloc, "quiet").help("Write the first line alone, or of JSON the verdict")
}

pub fn progress<'a>(alloc: Global) -> Arg<'a>
    ensures rule { HasRule (flag (codes "progress")) result }
{
    flag(alloc, "progress").help("Tell once a second on standard error how far it is")
}
