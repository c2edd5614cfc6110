//! One value of the matches.

ghost use Rattle.std.specs.Prelude.{◌≡◌, option_map};
ghost use Rattle.clap.specs.Matches.{found_of};
ghost use Rattle.clap.specs.Walk.{rows_of, first_of, one_of};
ghost use Rattle.cobra_words.specs.Asked.{IsFlag, IsNumber, but_standard_input};
ghost use Rattle.cobra_words.specs.Asked.{strategy_of, format_of, report_of, level_of};

use call_options::{Format, ReportForm};
use clap::ArgMatches;
use cube_machine::StrategyName;
use isolation::Isolation;

/// The name of a log that stands for standard input.
const STANDARD_INPUT: &str = "-";

/// The value of this option, as text.
#[tactic(auto, using(crate::proofs::Rows::text_rows))]
pub fn text_of<'a>(matches: &ArgMatches<'a>, id: &str) -> Option<&'a str>
    ensures text { option_map (λ s. s.now) result ≡ first_of id.now (rows_of (found_of matches.now)) }
{
    matches.get_str(id)
}

/// Whether this flag is set.
pub fn flag_of(matches: &ArgMatches<'_>, id: &str) -> bool
    ensures flag { IsFlag (one_of id.now (rows_of (found_of matches.now))) result }
{
    matches.get_one::<bool>(id).unwrap_or(false)
}

/// The number of this option, where it has one.
pub fn number_of(matches: &ArgMatches<'_>, id: &str) -> Option<u32>
    ensures number { IsNumber 32 (one_of id.now (rows_of (found_of matches.now))) result }
{
    matches.get_one::<u32>(id)
}

/// The strategy, of which the command line has filled in the default of its command.
pub fn strategy_of(text: Option<&str>) -> StrategyName
    ensures strategy { result ≡ strategy_of (option_map (λ s. s.now) text.entry) }
{
    match text {
        Some("most") => StrategyName::Most,
        Some("least") => StrategyName::Least,
        Some("forced") => StrategyName::Forced,
        _ => StrategyName::First,
    }
}

/// The form of an explanation; any word but this stands for the default, and so does none.
pub fn format_of(text: Option<&str>) -> Format
    ensures format { result ≡ format_of (option_map (λ s. s.now) text.entry) }
{
    match text {
        Some("dot") => Format::Dot,
        _ => Format::Text,
    }
}

/// The file that holds the log, and nothing for standard input.
pub fn log_of<'a>(name: Option<&'a str>) -> Option<&'a str>
    ensures log { option_map (λ s. s.now) result
        ≡ but_standard_input (option_map (λ s. s.now) name.entry) }
{
    match name {
        Some(name) => {
            if name == STANDARD_INPUT {
                None
            } else {
                Some(name)
            }
        }
        None => None,
    }
}

/// The number of this option, below 2^16, where it has one.
pub fn short_number_of(matches: &ArgMatches<'_>, id: &str) -> Option<u16>
    ensures number { IsNumber 16 (one_of id.now (rows_of (found_of matches.now))) result }
{
    matches.get_one::<u16>(id)
}

/// The number of this option, below 2^8, where it has one.
pub fn byte_of(matches: &ArgMatches<'_>, id: &str) -> Option<u8>
    ensures number { IsNumber 8 (one_of id.now (rows_of (found_of matches.now))) result }
{
    matches.get_one::<u8>(id)
}

/// The form of a report; any word but this stands for the default, and so does none.
pub fn report_of(text: Option<&str>) -> ReportForm
    ensures form { result ≡ report_of (option_map (λ s. s.now) text.entry) }
{
    match text {
        Some("json") => ReportForm::Json,
        _ => ReportForm::Text,
    }
}

/// The level of isolation, where one is named.
pub fn level_of(text: Option<&str>) -> Option<Isolation>
    ensures level { result ≡ level_of (option_map (λ s. s.now) text.entry) }
{
    match text {
        Some("strict-serializable") => Some(Isolation::StrictSerializable),
        Some("serializable") => Some(Isolation::Serializable),
        Some("strict-snapshot") => Some(Isolation::StrictSnapshot),
        Some("snapshot") => Some(Isolation::Snapshot),
        Some("prefix") => Some(Isolation::Prefix),
        Some("causal") => Some(Isolation::Causal),
        Some("read-atomic") => Some(Isolation::ReadAtomic),
        Some("monotonic-atomic-view") => Some(Isolation::MonotonicAtomicView),
        Some("read-committed") => Some(Isolation::ReadCommitted),
        _ => None,
    }
}
