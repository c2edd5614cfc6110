//! The arcs between nodes of which one ended before the other began.

ghost use Rattle.std.specs.Prelude.{◌≡◌, ◌⊎◌, ◌↔◌, ◌<◌, ◌≤◌, true, IfOk};
ghost use Rattle.std.specs.List.{Contains};
ghost use Rattle.serializability.specs.Log.{precedes};
ghost use Rattle.serializability.specs.Polygraph.{Edge};
ghost use Rattle.log_definitions.specs.Numbers.{log_of};
ghost use Rattle.known_graph.specs.Graphs.{IsKnownGraph};
ghost use Rattle.known_graph.specs.Moments.{AreEnded};

use crate::graph::Known;
use serializability::NodeIx;
use serializability::numbers::node;
use session_history::History;
use std::alloc::{AllocError, Global};

/// A node, and the moment at which it ended.
#[derive(Clone, Copy)]
pub struct Ended {
    pub moment: u64,
    pub node: NodeIx,
}

/// The nodes of which it is stated when they ended, in the order of these moments: so those that
/// ended before another moment are the first of them, and not each pair of nodes is looked at.
pub fn ended_nodes(alloc: Global, history: &History) -> Result<Vec<Ended>, AllocError>
    ensures { IfOk result (λ ended. AreEnded history.now ended.items) }
{
    let nodes = history.committed();
    let mut ended = Vec::with_capacity(alloc, nodes)?;
    for number in 1..nodes + 1 {
        let node = node(number);
        if let Some(moment) = history.ended_of(node) {
            ended.push(Ended { moment, node })?;
        }
    }
    ended.sort_by_key(|entry| entry.moment)?;
    Ok(ended)
}

/// Adds the arcs to a node from those that ended before it began.
pub fn add_moment_arcs(known: &mut Known, history: &History, ended: &[Ended], v: NodeIx)
    requires ended { AreEnded history.now ended.now }
    requires nodes { known.old.nodes ≡ (log_of history.now).nodes }
    requires node { (0 < v) × (v ≤ known.old.nodes) }
    requires graph { IsKnownGraph known.old }
    ensures edges { (e : Edge) → (Contains known.new.edges e ↔ (Contains known.old.edges e
        ⊎ ((e.1 ≡ v) × (0 < e.0) × (e.0 ≤ (log_of history.now).nodes)
        × (precedes (log_of history.now) e.0 v ≡ true)))) }
    ensures nodes { known.new.nodes ≡ known.old.nodes }
    ensures graph { IsKnownGraph known.new }
{
    let Some(begun) = history.begun_of(v) else {
        return;
    };
    let count = ended.partition_point(|entry| entry.moment < begun);
    for entry in &ended[..count] {
        if entry.node != v {
            known.add_edge(entry.node, v);
        }
    }
}
