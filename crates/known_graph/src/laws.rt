//! A law of graphs of known edges, the contract of a function that does nothing.

ghost use Rattle.std.specs.Prelude.{◌≡◌, ◌↔◌};
ghost use Rattle.std.specs.List.{Contains};
ghost use Rattle.serializability.specs.Polygraph.{Edge};
ghost use Rattle.reach_laws.specs.Reach.{Graph};
ghost use Rattle.known_graph.specs.Graphs.{IsKnownGraph};

/// Graphs of known edges that have the same nodes and the same edges are equal.
pub fn same_edges_are_one_graph()
    ensures { (g h : Graph) → IsKnownGraph g → IsKnownGraph h → g.nodes ≡ h.nodes →
        ((e : Edge) → (Contains g.edges e ↔ Contains h.edges e)) → g ≡ h }
{}
