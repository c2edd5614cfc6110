//! Edges inside chains.

ghost use Rattle.std.specs.Prelude.{◌≡◌, ◌+◌, ◌++◌, ℕ, List, Option, map, OnOk};
ghost use Rattle.std.specs.List.{flat_map, range_with_len};
ghost use Rattle.write_chains.specs.Lists.{AreLists, IsTable};
ghost use Rattle.write_chains.specs.Views.{FitTogether, edges_before};

use crate::links::Links;
use reach_laws::Edge;
use serializability::NodeIx;
use std::alloc::{AllocError, Global};

/// Adds an edge from each of these readers to the writer, but from the writer itself.
fn add_edges_to(edges: &mut Vec<Edge>, readers: &[NodeIx], writer: NodeIx) -> Result<(), AllocError>
    ensures edges { OnOk result (edges.new.items
        ≡ edges.old.items ++ edges_before readers.now (Some writer)) }
{
    for reader in readers {
        if *reader != writer {
            edges.push(Edge::new(*reader, writer))?;
        }
    }
    Ok(())
}

/// Adds the inner edges of a key, which has these links.
pub fn add_inner_edges(edges: &mut Vec<Edge>, links: &Links) -> Result<(), AllocError>
    requires links { FitTogether links.now }
    ensures edges { OnOk result ((n : ℕ) (f : ℕ → Option ℕ) (g : ℕ → List ℕ) →
        IsTable n f links.now.next.items → AreLists (n + 1) g links.now.readers.items →
        edges.new.items ≡ edges.old.items
        ++ flat_map (λ w. edges_before (g w) (f w)) (range_with_len 0 (n + 1))) }
{
    for node in 0..links.next.len() {
        if let Some(writer) = links.next[node] {
            add_edges_to(edges, &links.readers[node], writer)?;
        }
    }
    Ok(())
}
