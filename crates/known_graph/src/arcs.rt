//! The graph of a history's arcs.

ghost use Rattle.std.specs.Prelude.{◌≡◌, ◌⊎◌, ◌+◌, ◌<◌, ◌≤◌, ◌↔◌, true, IfOk};
ghost use Rattle.std.specs.List.{Contains};
ghost use Rattle.serializability.specs.Reads.{IsClean};
ghost use Rattle.serializability.specs.Polygraph.{Edge, reads_from};
ghost use Rattle.log_definitions.specs.Numbers.{log_of};
ghost use Rattle.known_graph.specs.Graphs.{IsKnownGraph, arc_graph};

use crate::graph::Known;
use crate::moments::{add_moment_arcs, ended_nodes};
use serializability::NodeIx;
use serializability::numbers::node;
use session_history::History;
use std::alloc::{AllocError, Global};

/// Adds the arc to a node from the one before it, where they are of one session.
fn add_session_arc(known: &mut Known, history: &History, v: NodeIx)
    requires node { (0 < v) × (v ≤ known.old.nodes) }
    requires graph { IsKnownGraph known.old }
    ensures edges { (e : Edge) → (Contains known.new.edges e ↔ (Contains known.old.edges e
        ⊎ ((e.1 ≡ v) × (e.0 + 1 ≡ v) × ((log_of history.now).session e.0
        ≡ (log_of history.now).session v)))) }
    ensures nodes { known.new.nodes ≡ known.old.nodes }
    ensures graph { IsKnownGraph known.new }
{
    let before = node(v.get() - 1);
    if history.session_of(before) == history.session_of(v) {
        known.add_edge(before, v);
    }
}

/// Adds the arcs to a node from those that it reads from.
fn add_read_arcs(known: &mut Known, history: &History, v: NodeIx)
    requires clean { IsClean (log_of history.now) }
    requires nodes { known.old.nodes ≡ (log_of history.now).nodes }
    requires node { (0 < v) × (v ≤ known.old.nodes) }
    requires graph { IsKnownGraph known.old }
    ensures edges { (e : Edge) → (Contains known.new.edges e ↔ (Contains known.old.edges e
        ⊎ ((e.1 ≡ v) × (reads_from (log_of history.now) v e.0 ≡ true)))) }
    ensures nodes { known.new.nodes ≡ known.old.nodes }
    ensures graph { IsKnownGraph known.new }
{
    for read in history.reads_of(v) {
        known.add_edge(read.source, v);
    }
}

impl Known {
    /// The graph of the arcs of a clean history.
    pub fn of(alloc: Global, history: &History) -> Result<Known, AllocError>
        requires clean { IsClean (log_of history.now) }
        ensures arcs { IfOk result (λ known. known ≡ arc_graph (log_of history.now)) }
    {
        let nodes = history.committed();
        let mut known = Known::new(alloc, nodes)?;
        let ended = ended_nodes(alloc, history)?;
        for number in 1..nodes + 1 {
            let v = node(number);
            add_session_arc(&mut known, history, v);
            add_read_arcs(&mut known, history, v);
            add_moment_arcs(&mut known, history, &ended, v);
        }
        Ok(known)
    }
}
