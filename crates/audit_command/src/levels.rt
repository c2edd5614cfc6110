//! What the level of isolation that is asked for means for judging.

ghost use Rattle.std.specs.Prelude.{◌≡◌};
ghost use Rattle.audit_command.specs.Levels.{judged_of, judged_level, depth_below, depth, is_above};
ghost use Rattle.audit_command.specs.Levels.{asks_moments, leaves_moments, is_graph, settled};

use crate::options::AuditOptions;
use call_options::Format;
use isolation::Isolation;
use judging::{JudgeMeans, Level};

/// At which level a log is judged for one that a store promises.
pub fn judged_of(level: Isolation) -> Level
    ensures level { result ≡ judged_of level }
{
    match level {
        Isolation::StrictSerializable | Isolation::Serializable => Level::Serializable,
        Isolation::StrictSnapshot | Isolation::Snapshot => Level::Snapshot,
        Isolation::Prefix => Level::Prefix,
        Isolation::Causal => Level::Below(level_laws::Level::Causal),
        Isolation::ReadAtomic => Level::Below(level_laws::Level::ReadAtomic),
        Isolation::MonotonicAtomicView => Level::Below(level_laws::Level::MonotonicAtomicView),
        Isolation::ReadCommitted => Level::Below(level_laws::Level::ReadCommitted),
    }
}

/// At which level a log is judged.
fn judged_level(asked: Option<Isolation>) -> Level
    ensures level { result ≡ judged_level asked }
{
    match asked {
        Some(level) => judged_of(level),
        None => Level::Serializable,
    }
}

/// How far down a level below prefix stands.
fn depth_below(level: level_laws::Level) -> usize
    ensures depth { result ≡ depth_below level }
{
    match level {
        level_laws::Level::Causal => 3,
        level_laws::Level::ReadAtomic => 4,
        level_laws::Level::MonotonicAtomicView => 5,
        level_laws::Level::ReadCommitted => 6,
    }
}

/// How far down a level stands.
fn depth(level: Level) -> usize
    ensures depth { result ≡ depth level }
{
    match level {
        Level::Serializable => 0,
        Level::Snapshot => 1,
        Level::Prefix => 2,
        Level::Below(below) => depth_below(below),
    }
}

/// Whether one level stands above another one.
pub fn is_above(one: Level, other: Level) -> bool
    ensures above { result ≡ is_above one other }
{
    depth(one) < depth(other)
}

/// Whether a level is asked for that keeps the order of stated moments.
pub fn asks_moments(asked: Option<Isolation>) -> bool
    ensures asks { result ≡ asks_moments asked }
{
    match asked {
        Some(level) => level.is_strict(),
        None => false,
    }
}

/// Whether a level is asked for that does not.
fn leaves_moments(asked: Option<Isolation>) -> bool
    ensures leaves { result ≡ leaves_moments asked }
{
    match asked {
        Some(level) => !level.is_strict(),
        None => false,
    }
}

/// Whether a graph is asked for.
fn is_graph(format: Format) -> bool
    ensures graph { result ≡ is_graph format }
{
    match format {
        Format::Text => false,
        Format::Dot => true,
    }
}

/// The options, with what the level that is asked for means for judging: for a graph no other is
/// judged.
pub fn settled<'a>(options: &AuditOptions<'a>) -> AuditOptions<'a>
    ensures settled { result ≡ settled options.now }
{
    let means = JudgeMeans {
        level: judged_level(options.level),
        ..options.means
    };
    AuditOptions {
        means,
        only: options.only || is_graph(options.explanation),
        no_moments: options.no_moments || leaves_moments(options.level),
        ..*options
    }
}
