//! Marks of the choices of which a side is refuted.

ghost use Rattle.std.specs.Prelude.{◌≡◌, ◌+◌, ◌/◌, ◌<◌, true, length};
ghost use Rattle.reach_laws.specs.Reach.{Graph};
ghost use Rattle.reach_rows.specs.ReachRows.{AreRowsOf};
ghost use Rattle.known_graph.specs.Bits.{bit_of};
ghost use Rattle.branching.specs.Marked.{Keeps, IsOrReaches, MarksBehind, MarksTarget, MarksAll};

use known_graph::bits::set_bit;
use reach_rows::Rows;
use serializability::NodeIx;
use serializability::numbers::node as node_of;
use side_edges::SideEdge;

/// Marks each choice of which an edge more, from u to v, refutes a side that the edges of these
/// rows do not: a side that has an edge whose target does not reach its source by those edges, and
/// does by one more.
pub fn mark_refuted(
    incoming: &[Vec<SideEdge>],
    rows: &Rows,
    marks: &mut [u64],
    u: NodeIx,
    v: NodeIx,
)
    requires lists { length incoming.now ≡ rows.now.nodes + 1 }
    ensures keeps { Keeps marks.old marks.new }
    ensures marked { (graph : Graph) → AreRowsOf rows.now graph →
        MarksAll graph.edges u v incoming.now marks.new }
{
    if rows.reaches(u, v) {
        return;
    }
    for number in 0..rows.nodes() + 1 {
        mark_target(&incoming[number], rows, marks, node_of(number), u, v);
    }
}

/// Where the target comes to reach v by an edge from u to v, marks the choices of these edges into
/// it, from v or from what v reaches.
fn mark_target(
    list: &[SideEdge],
    rows: &Rows,
    marks: &mut [u64],
    target: NodeIx,
    u: NodeIx,
    v: NodeIx,
)
    ensures keeps { Keeps marks.old marks.new }
    ensures marked { MarksTarget rows.now.edges target u v list.now marks.new }
{
    if !list.is_empty() && is_or_reaches(rows, target, u) && !rows.reaches(target, v) {
        mark_behind(list, rows, marks, v);
    }
}

/// Marks the choices of these edges, of which the sources are v or reached by v.
fn mark_behind(list: &[SideEdge], rows: &Rows, marks: &mut [u64], v: NodeIx)
    ensures keeps { Keeps marks.old marks.new }
    ensures marked { MarksBehind rows.now.edges v list.now marks.new }
{
    for &entry in list {
        mark_source(entry, rows, marks, v);
    }
}

/// Marks the choice of this edge, where its source is v or reached by v.
fn mark_source(entry: SideEdge, rows: &Rows, marks: &mut [u64], v: NodeIx)
    ensures keeps { Keeps marks.old marks.new }
    ensures marked { entry.choice / 64 < length marks.old
        → IsOrReaches rows.now.edges v entry.source →
        bit_of marks.new entry.choice ≡ true }
{
    if is_or_reaches(rows, v, entry.source) {
        set_within(marks, entry.choice.get());
    }
}

/// Whether a node is another one, or reaches it.
fn is_or_reaches(rows: &Rows, from: NodeIx, to: NodeIx) -> bool
    ensures leads { IsOrReaches rows.now.edges from to → result ≡ true }
{
    from.get() == to.get() || rows.reaches(from, to)
}

/// Sets the bit of this number; past the last word there is none.
fn set_within(words: &mut [u64], number: usize)
    ensures keeps { Keeps words.old words.new }
    ensures set { number / 64 < length words.old → bit_of words.new number ≡ true }
{
    if number / 64 < words.len() {
        set_bit(words, number);
    }
}
