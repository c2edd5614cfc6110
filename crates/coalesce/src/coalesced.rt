//! The polygraph of a history's chains.

ghost use Rattle.std.specs.Prelude.{◌≡◌, ℕ, ◌≤◌, ◌↔◌, List, length, IfOk, IfErr, OnOk};
ghost use Rattle.std.specs.List.{Contains};
ghost use Rattle.serializability.specs.Reads.{IsClean};
ghost use Rattle.serializability.specs.Polygraph as spec;
ghost use Rattle.serializability.specs.Polygraph.{Fits, bipath_polygraph};
ghost use Rattle.chain_laws.specs.Chains.{chain_choices, chain_polygraph};
ghost use Rattle.log_definitions.specs.Numbers.{log_of};
ghost use Rattle.known_graph.specs.Graphs.{arc_graph};
ghost use Rattle.polygraph.specs.Limits.{IsPolyFault};
ghost use Rattle.polygraph.specs.declared.index.TheConstants.{MAX_CHOICES};

use crate::choices::choices_of;
use crate::known::add_known_edges;
use known_graph::Known;
use polygraph::{PolyFault, Polygraph};
use session_history::History;
use std::alloc::Global;
use write_chains::Chains;

/// The polygraph of the chains of a clean history, to which its chains and its arcs are given.
/// Known are the arcs, the inner edges of the chains, and that the initial chain of a key stands
/// before its other chains; for each pair of the others there is a choice which of them stands
/// first, by key, lesser head and greater head. The same orders fit it as the bipaths.
///
/// It is refused with `TooManyChoices` where there are more than 100,000 choices, which are then
/// counted no further, and with `Memory` where memory was refused.
pub fn coalesce(
    alloc: Global,
    history: &History,
    chains: &Chains,
    known: Known,
) -> Result<Polygraph, PolyFault>
    requires clean { IsClean (log_of history.now) }
    requires chains { chains.now ≡ history.now }
    requires arcs { known ≡ arc_graph (log_of history.now) }
    ensures nodes { IfOk result (λ p. p.nodes ≡ (log_of history.now).nodes) }
    ensures known { IfOk result (λ p. (e : spec.Edge) →
        (Contains p.known e ↔ Contains (chain_polygraph (log_of history.now)).known e)) }
    ensures choices { IfOk result (λ p. p.choices ≡ chain_choices (log_of history.now)) }
    ensures same_orders { IfOk result (λ p. (order : List ℕ) →
        (Fits (bipath_polygraph (log_of history.now)) order ↔ Fits p order)) }
    ensures few { OnOk result (length (chain_choices (log_of history.now)) ≤ MAX_CHOICES) }
    ensures fault { IfErr result (IsPolyFault (chain_choices (log_of history.now))) }
{
    let keys = history.keys();
    let choices = choices_of(alloc, chains, keys)?;
    let mut known = known;
    add_known_edges(&mut known, chains, keys);
    Ok(Polygraph::new(known, choices))
}
