//! The edges of a graph as a list.

ghost use Rattle.std.specs.Prelude.{◌≡◌, ◌⊎◌, ◌∷◌, ◌++◌, [], IfOk, OnOk};
ghost use Rattle.std.specs.List.{Contains};

use crate::graph::Known;
use reach_laws::Edge;
use serializability::NodeIx;
use serializability::numbers::node;
use std::alloc::{AllocError, Global};

/// Adds the edge from u to v, where the graph has it.
fn add_known(edges: &mut Vec<Edge>, known: &Known, u: NodeIx, v: NodeIx) -> Result<(), AllocError>
    ensures added { OnOk result (Contains known.now.edges (u, v) →
        edges.new.items ≡ edges.old.items ++ (u, v) ∷ []) }
    ensures same { OnOk result (Contains known.now.edges (u, v)
        ⊎ (edges.new.items ≡ edges.old.items)) }
{
    if known.has_edge(u, v) {
        edges.push(Edge::new(u, v))?;
    }
    Ok(())
}

impl Known {
    /// The edges, by the first node and then the second.
    pub fn edges(&self, alloc: Global) -> Result<Vec<Edge>, AllocError>
        ensures edges { IfOk result (λ edges. edges.items ≡ self.now.edges) }
    {
        let end = self.nodes() + 1;
        let mut edges = Vec::new(alloc);
        for from in 0..end {
            for to in 0..end {
                add_known(&mut edges, self, node(from), node(to))?;
            }
        }
        Ok(edges)
    }
}
