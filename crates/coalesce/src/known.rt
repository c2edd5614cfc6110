//! The known edges of chains.

ghost use Rattle.std.specs.Prelude.{◌≡◌, ◌++◌, map};
ghost use Rattle.std.specs.List.{AllByRecursion, flat_map};
ghost use Rattle.chain_laws.specs.Chains.{edges_to, inner_edges, initial_first};
ghost use Rattle.log_definitions.specs.Numbers.{log_of};
ghost use Rattle.write_chains.specs.Views.{chain_view};
ghost use Rattle.polygraph.specs.Polygraphs.{Joins};
ghost use Rattle.coalesce.specs.Between.{before};
ghost use Rattle.coalesce.specs.Added.{IsWith};

use known_graph::Known;
use reach_laws::Edge;
use serializability::NodeIx;
use write_chains::{Chain, Chains};

/// Adds these edges.
fn add_edges(known: &mut Known, edges: &[Edge])
    requires joined { AllByRecursion (Joins known.old.nodes) edges.now }
    ensures edges { IsWith known.old.edges edges.now known.new.edges }
    ensures nodes { known.new.nodes ≡ known.old.nodes }
{
    for &edge in edges {
        known.add_edge(edge.source(), edge.target());
    }
}

/// Adds an edge from each of these nodes.
fn add_edges_to(known: &mut Known, sources: &[NodeIx], target: NodeIx)
    requires joined { AllByRecursion (Joins known.old.nodes) (map (λ u. (u, target)) sources.now) }
    ensures edges { IsWith known.old.edges (map (λ u. (u, target)) sources.now) known.new.edges }
    ensures nodes { known.new.nodes ≡ known.old.nodes }
{
    for source in sources {
        known.add_edge(*source, target);
    }
}

/// Adds the edges by which a chain stands before this head.
#[tactic(auto, using(crate::proofs::Sets::with_tail))]
fn add_edges_before(known: &mut Known, first: &Chain, head: NodeIx)
    requires joined { AllByRecursion (Joins known.old.nodes)
        (edges_to first.now.tail head first.now.readers.items) }
    ensures edges { IsWith known.old.edges
        (edges_to first.now.tail head first.now.readers.items) known.new.edges }
    ensures nodes { known.new.nodes ≡ known.old.nodes }
{
    if first.readers.is_empty() {
        known.add_edge(first.tail, head);
    } else {
        add_edges_to(known, &first.readers, head);
    }
}

/// Adds the edges by which a chain stands before each of the others.
fn add_first(known: &mut Known, first: &Chain, others: &[Chain])
    requires joined { AllByRecursion (λ v. AllByRecursion (Joins known.old.nodes)
        (before (chain_view first.now) v)) (map chain_view others.now) }
    ensures edges { IsWith known.old.edges
        (flat_map (before (chain_view first.now)) (map chain_view others.now)) known.new.edges }
    ensures nodes { known.new.nodes ≡ known.old.nodes }
{
    for other in others {
        add_edges_before(known, first, other.head);
    }
}

/// Adds the inner edges of all chains, and those by which the initial chain of each key stands
/// before its other chains.
pub fn add_known_edges(known: &mut Known, chains: &Chains, keys: usize)
    requires nodes { known.old.nodes ≡ (log_of chains.now).nodes }
    requires keys { keys ≡ (log_of chains.now).keys }
    ensures edges { IsWith known.old.edges
        (inner_edges (log_of chains.now) ++ initial_first (log_of chains.now)) known.new.edges }
    ensures nodes { known.new.nodes ≡ known.old.nodes }
{
    add_edges(known, chains.inner_edges());
    for key in 0..keys {
        add_first(known, chains.initial_chain(key), chains.chains_of(key));
    }
}
