//! Cycles in the edges of a cube, by what is noted of its sides.

ghost use Rattle.std.specs.Prelude.{◌≡◌, ◌==◌, ◌&&◌};
ghost use Rattle.std.specs.List.{list_any};
ghost use Rattle.cube_machine.specs.Flags.{flag_at};
ghost use Rattle.cube_machine.specs.Cycles.{is_among, leads_by, is_cycle_by};

use crate::decided::{SideFlags, is_flagged_for};
use known_graph::Known;
use serializability::NodeIx;
use side_edges::SideEdge;

/// Whether these are the nodes of a cycle, its first node repeated last, by the known edges and by
/// those of the flagged sides.
pub fn is_cycle(
    known: &Known,
    lists: &[Vec<SideEdge>],
    flags: &[SideFlags],
    line: &[NodeIx],
) -> bool
    ensures cycle { result ≡ is_cycle_by (is_among known.now.edges lists.now flags.now) line.now }
{
    1 < line.len() && leads(known, lists, flags, line[0], &line[1..], line[0])
}

/// Whether each step from a node on along these is one of the edges, and the last one is the end.
fn leads(
    known: &Known,
    lists: &[Vec<SideEdge>],
    flags: &[SideFlags],
    from: NodeIx,
    steps: &[NodeIx],
    to: NodeIx,
) -> bool
    ensures leads { result ≡ leads_by (is_among known.now.edges lists.now flags.now) from steps.now
        to }
{
    let mut at = from;
    for &node in steps {
        if !is_among(known, lists, flags, at, node) {
            return false;
        }
        at = node;
    }
    at.get() == to.get()
}

/// Whether an edge is known, or one of a flagged side.
fn is_among(
    known: &Known,
    lists: &[Vec<SideEdge>],
    flags: &[SideFlags],
    source: NodeIx,
    target: NodeIx,
) -> bool
    ensures among { result ≡ is_among known.now.edges lists.now flags.now (source, target) }
{
    if known.has_edge(source, target) {
        return true;
    }
    match lists.get(target.get()) {
        Some(list) => leads_from(list, flags, source),
        None => false,
    }
}

/// Whether one of these edges has this source and a flagged side.
fn leads_from(list: &[SideEdge], flags: &[SideFlags], source: NodeIx) -> bool
    ensures leads { result
        ≡ list_any (λ x. (x.source == source) && flag_at flags.now x.choice x.side) list.now }
{
    list.iter().any(|x| x.source.get() == source.get() && is_flagged_for(flags, x.choice, x.side))
}
