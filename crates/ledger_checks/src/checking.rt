//! Checks of ledgers.

ghost use Rattle.std.specs.Prelude.{◌≡◌, ◌↔◌, ◌<◌, ◌&&◌, ◌++◌, [], List, IsTrue};
ghost use Rattle.serializability.specs.Polygraph.{Edge};
ghost use Rattle.pruning_laws.specs.Forced.{other};
ghost use Rattle.known_graph.specs.Tests.{has_edge};
ghost use Rattle.prune_ledger.specs.Ledger.{side_of};
ghost use Rattle.ledger_checks.specs.Tested.{is_held, leads_by, is_line_by, is_shown_by};
ghost use Rattle.ledger_checks.specs.Tested.{are_shown_by, is_cycle_by};
ghost use Rattle.prune_ledger.specs.Pruned.{IsLedgerOf};
ghost use Rattle.ledger_checks.specs.KeptEdges.{edges_kept, HasEdges};
ghost use Rattle.prune_ledger.specs.declared.ledger.LedgerEntry.{LedgerEntry};

use crate::kept::KeptEdges;
use polygraph::{ChoiceIx, Polygraph};
use prune_ledger::machine::{has_edge, other_side};
use prune_ledger::messages::Refutation;
use prune_ledger::{Ledger, LedgerEntry};
use pruning_laws::Side;
use reach_laws::Edge;
use serializability::NodeIx;

/// Whether a ledger is valid: each entry's edge is in its refused side, and its walk leads against
/// the edge over the known edges and the sides that earlier entries keep; a cycle, where one is
/// given, is one in the known edges and the sides that all entries keep. It takes no memory. What
/// the entries so far keep is held as bits, so that each step of a walk is looked up once, however
/// long the ledger is.
pub fn check_ledger(polygraph: &Polygraph, ledger: &Ledger) -> bool
    ensures { IsTrue result ↔ IsLedgerOf polygraph.now ledger.now }
{
    let mut kept = KeptEdges::none();
    if !are_shown(polygraph, &mut kept, &ledger.entries) {
        return false;
    }
    match &ledger.cycle {
        Some(line) => is_cycle(polygraph, &kept, line),
        None => true,
    }
}

/// Whether each entry is shown by those before it. The edges that each keeps are added once it is
/// tested.
fn are_shown(polygraph: &Polygraph, kept: &mut KeptEdges, entries: &[LedgerEntry]) -> bool
    requires empty { HasEdges kept.old [] }
    ensures shown { result ≡ are_shown_by polygraph.now [] entries.now }
    ensures kept { IsTrue result → HasEdges kept.new (edges_kept polygraph.now entries.now) }
{
    for entry in entries {
        if !is_shown(polygraph, kept, &entry.post) {
            return false;
        }
        add_kept(polygraph, kept, &entry.post);
    }
    true
}

/// Whether the edge is in the refused side, and the walk leads against it.
fn is_shown(polygraph: &Polygraph, kept: &KeptEdges, post: &Refutation) -> bool
    ensures { (entries : List LedgerEntry) → HasEdges kept.now (edges_kept polygraph.now entries) →
        result ≡ is_shown_by polygraph.now entries post.now }
{
    is_in(polygraph, post.choice, post.side, post.edge)
        && is_line(
            polygraph,
            kept,
            post.edge.target(),
            &post.walk,
            post.edge.source(),
        )
}

/// Adds the edges of the side that the post keeps, where there is such a choice.
fn add_kept(polygraph: &Polygraph, kept: &mut KeptEdges, post: &Refutation)
    ensures { (before : List Edge) → HasEdges kept.old before →
        HasEdges kept.new (before ++ side_of polygraph.now.choices post.now.choice (other post.now.side)) }
{
    if let Some(sides) = polygraph.choice(post.choice) {
        kept.add_all(sides.edges(other_side(post.side)));
    }
}

/// Whether the edge is in a side of a choice.
fn is_in(polygraph: &Polygraph, choice: ChoiceIx, side: Side, edge: Edge) -> bool
    ensures { result ≡ has_edge (side_of polygraph.now.choices choice side) edge }
{
    match polygraph.choice(choice) {
        Some(sides) => has_edge(sides.edges(side), edge),
        None => false,
    }
}

/// Whether these are the nodes of a walk, both ends included.
fn is_line(
    polygraph: &Polygraph,
    kept: &KeptEdges,
    from: NodeIx,
    line: &[NodeIx],
    to: NodeIx,
) -> bool
    ensures { (entries : List LedgerEntry) → HasEdges kept.now (edges_kept polygraph.now entries) →
        result ≡ is_line_by polygraph.now entries from line.now to }
{
    1 < line.len() && line[0].get() == from.get() && leads(polygraph, kept, from, &line[1..], to)
}

/// Whether each step from a node on along these is held, and the last one is the end.
fn leads(
    polygraph: &Polygraph,
    kept: &KeptEdges,
    from: NodeIx,
    steps: &[NodeIx],
    to: NodeIx,
) -> bool
    ensures { (entries : List LedgerEntry) → HasEdges kept.now (edges_kept polygraph.now entries) →
        result ≡ leads_by polygraph.now entries from steps.now to }
{
    let mut at = from;
    for &node in steps {
        if !is_held(polygraph, kept, at, node) {
            return false;
        }
        at = node;
    }
    at.get() == to.get()
}

/// Whether the edge is known, or of a side that an entry keeps.
fn is_held(polygraph: &Polygraph, kept: &KeptEdges, u: NodeIx, v: NodeIx) -> bool
    ensures { (entries : List LedgerEntry) → HasEdges kept.now (edges_kept polygraph.now entries) →
        result ≡ is_held polygraph.now entries (u, v) }
{
    polygraph.known().has_edge(u, v) || kept.has(u, v)
}

/// Whether the nodes are a cycle.
fn is_cycle(polygraph: &Polygraph, kept: &KeptEdges, line: &[NodeIx]) -> bool
    ensures { (entries : List LedgerEntry) → HasEdges kept.now (edges_kept polygraph.now entries) →
        result ≡ is_cycle_by polygraph.now entries line.now }
{
    if line.is_empty() {
        return false;
    }
    is_line(polygraph, kept, line[0], line, line[0])
}
