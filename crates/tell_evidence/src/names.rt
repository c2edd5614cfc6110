//! What the field calls a fault.

ghost use Rattle.std.specs.Prelude.{◌≡◌};
ghost use Rattle.std.specs.List.{list_any};
ghost use Rattle.std.specs.Option.{option_copied};
ghost use Rattle.tell_evidence.specs.Names as spec;

use crate::paths::reads_it;
use level_laws::Level;
use level_refutations::{Edge, Evidence, Hop, Overlooked, Step, Why};

fn why_name(why: Why) -> Option<&'static str>
    ensures { option_copied result ≡ spec.why_name why }
{
    match why {
        Why::MissesOwn { .. } => Some("own write missed (internal)"),
        Why::Unwritten => None,
        Why::Aborted { .. } => Some("aborted read (G1a)"),
        Why::Overwritten { .. } => Some("intermediate read (G1b)"),
        Why::OwnLater { .. } => Some("future read (internal)"),
    }
}

fn is_session(hop: &Hop) -> bool
    ensures { result ≡ spec.is_session hop.now }
{
    match hop.step {
        Step::Session => true,
        Step::Read { .. } => false,
    }
}

/// Whether a read sees the write that it overlooks by a session somewhere on the way.
fn has_session(it: &Overlooked) -> bool
    ensures { result ≡ spec.has_session it.now }
{
    it.path.iter().any(|hop| is_session(hop))
}

fn begins_by_session(path: &[Hop]) -> bool
    ensures { result ≡ spec.begins_by_session path.now }
{
    match path {
        [] => false,
        [first, ..] => is_session(first),
    }
}

/// How a read sees the write that it overlooks.
#[derive(Clone, Copy)]
pub enum Way {
    Any,
    /// By several hops.
    Far,
    /// First by a session.
    Session,
    /// First by a read of something else.
    Other,
}

fn sees(way: Way, it: &Overlooked) -> bool
    ensures { result ≡ spec.sees way it.now }
{
    match way {
        Way::Any => true,
        Way::Far => it.path.len() != 1,
        Way::Session => begins_by_session(&it.path),
        Way::Other => !begins_by_session(&it.path) && !reads_it(it.write, &it.path),
    }
}

/// Whether an edge is forced, and its read sees so.
fn is_forced(way: Way, edge: &Edge) -> bool
    ensures { result ≡ spec.is_forced way edge.now }
{
    match edge {
        Edge::Known(_) => false,
        Edge::Forced { overlooked, .. } => sees(way, overlooked),
    }
}

fn has_session_edge(edge: &Edge) -> bool
    ensures { result ≡ spec.has_session_edge edge.now }
{
    match edge {
        Edge::Known(hop) => is_session(hop),
        Edge::Forced { overlooked, .. } => has_session(overlooked),
    }
}

/// The name at monotonic atomic view of a read that overlooks a write, by some session or by none.
fn view_name(some: bool, other: bool) -> &'static str
    ensures { result.now ≡ spec.view_name some other }
{
    if !other {
        "non-repeatable read (internal)"
    } else if some {
        "read skew by way of sessions (G-single-process)"
    } else {
        "read skew (G-single)"
    }
}

/// The name at read atomic.
fn atomic_name(some: bool, session: bool, other: bool) -> &'static str
    ensures { result.now ≡ spec.atomic_name some session other }
{
    if session {
        "a session misses its own write (G-single-process)"
    } else {
        view_name(some, other)
    }
}

/// The name at causal consistency.
fn causal_name(far: bool, some: bool, session: bool, other: bool) -> &'static str
    ensures { result.now ≡ spec.causal_name far some session other }
{
    if !far {
        atomic_name(some, session, other)
    } else if some {
        "cycle with one missed write and sessions (G-single-process)"
    } else {
        "cycle with one missed write (G-single)"
    }
}

/// The name of a read that overlooks a write: far away, by some session, by its own one, or by a
/// read of something else.
fn seen_name(
    level: Level,
    far: bool,
    some: bool,
    session: bool,
    other: bool,
) -> Option<&'static str>
    ensures { option_copied result ≡ spec.seen_name level far some session other }
{
    match level {
        Level::ReadCommitted => None,
        Level::MonotonicAtomicView => Some(view_name(some, other)),
        Level::ReadAtomic => Some(atomic_name(some, session, other)),
        Level::Causal => Some(causal_name(far, some, session, other)),
    }
}

/// Whether one of these edges is forced, and its read sees so.
fn some_forced(way: Way, edges: &[Edge]) -> bool
    ensures { result ≡ list_any (spec.is_forced way) edges.now }
{
    edges.iter().any(|edge| is_forced(way, edge))
}

/// Whether a session is on the way of one of these edges.
fn some_with_session(edges: &[Edge]) -> bool
    ensures { result ≡ list_any spec.has_session_edge edges.now }
{
    edges.iter().any(|edge| has_session_edge(edge))
}

/// The name of edges of which none is forced.
fn known_name(edges: &[Edge]) -> &'static str
    ensures { result.now ≡ spec.known_name edges.now }
{
    if some_with_session(edges) {
        "a read from the future (G1c-process)"
    } else {
        "circular information flow (G1c)"
    }
}

/// The name of edges of which some are forced: that of the read that sees farthest.
fn forced_name(level: Level, edges: &[Edge]) -> Option<&'static str>
    ensures { option_copied result ≡ spec.forced_name level edges.now }
{
    let (far, some) = (some_forced(Way::Far, edges), some_with_session(edges));
    let session = some_forced(Way::Session, edges);
    seen_name(level, far, some, session, some_forced(Way::Other, edges))
}

fn circle_name(level: Level, edges: &[Edge]) -> Option<&'static str>
    ensures { option_copied result ≡ spec.circle_name level edges.now }
{
    if some_forced(Way::Any, edges) {
        forced_name(level, edges)
    } else {
        Some(known_name(edges))
    }
}

fn initial_name(level: Level, it: &Overlooked) -> Option<&'static str>
    ensures { option_copied result ≡ spec.initial_name level it.now }
{
    let (far, some) = (sees(Way::Far, it), has_session(it));
    seen_name(
        level,
        far,
        some,
        sees(Way::Session, it),
        sees(Way::Other, it),
    )
}

/// What the field calls what the evidence shows, where it has a name at this level, which the
/// evidence breaks.
pub fn evidence_name(level: Level, evidence: &Evidence) -> Option<&'static str>
    ensures name { option_copied result ≡ spec.evidence_name level evidence.now }
{
    match evidence {
        Evidence::Fault(fault) => why_name(fault.why),
        Evidence::Circle(edges) => circle_name(level, edges),
        Evidence::Initial(overlooked) => initial_name(level, overlooked),
    }
}
