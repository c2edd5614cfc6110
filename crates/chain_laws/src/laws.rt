//! Laws of chains, each the contract of a function that does nothing.

ghost use Rattle.std.specs.Prelude.{◌≡◌, ◌⊎◌, ◌↔◌, ◌<◌, ℕ, List, ◌∷◌};
ghost use Rattle.serializability.specs.Log.{Log};
ghost use Rattle.serializability.specs.Reads.{IsClean};
ghost use Rattle.serializability.specs.Polygraph.{Fits, bipath_polygraph, arcs};
ghost use Rattle.std.specs.List.{Contains};
ghost use Rattle.reach_laws.specs.Reach.{IsCyclic, IsCycle};
ghost use Rattle.chain_laws.specs.Chains.{chain_polygraph, heads, tail, last, IsWriter, IsChain};
ghost use Rattle.chain_laws.specs.Chains.{IsClosedChain, NoneCloses};

/// An order of a clean history fits its bipaths exactly when it fits its chains.
pub fn fits_chains_exactly_when_bipaths()
    ensures { (log : Log) → IsClean log → (order : List ℕ) →
        (Fits (bipath_polygraph log) order ↔ Fits (chain_polygraph log) order) }
{}

/// A chain that closes on itself is a cycle of the arcs, and its key is one of the log's.
pub fn closed_chain_is_a_cycle()
    ensures cycle { (log : Log) → IsClean log → (x : ℕ) (line : List ℕ) →
        IsClosedChain log x line → IsCycle (arcs log) line }
    ensures key { (log : Log) → IsClean log → (x : ℕ) (line : List ℕ) →
        IsClosedChain log x line → x < log.keys }
{}

/// Where no chain of a key closes on itself, the key's chains are those that begin with node 0 or
/// with a head, and end with its tail.
pub fn chains_where_none_closes()
    ensures each { (log : Log) → IsClean log → (x : ℕ) → NoneCloses log x →
        (w : ℕ) → (w ≡ 0) ⊎ Contains (heads log x) w → ((rest : List ℕ) × IsChain log x w rest) }
    ensures only { (log : Log) → IsClean log → (x : ℕ) → NoneCloses log x →
        (w : ℕ) (rest : List ℕ) → IsChain log x w rest →
        (((w ≡ 0) ⊎ Contains (heads log x) w) × (last w rest ≡ tail log x w)) }
{}

/// Where no chain of a key closes on itself, each writer of the key, and node 0, is in a chain. It
/// is in no other one.
pub fn each_writer_in_one_chain()
    ensures some { (log : Log) → IsClean log → (x : ℕ) → NoneCloses log x →
        (v : ℕ) → IsWriter log x v →
        ((w : ℕ) × ((rest : List ℕ) × (IsChain log x w rest × Contains (w ∷ rest) v))) }
    ensures one { (log : Log) → IsClean log → (x v w u : ℕ) (rest more : List ℕ) →
        IsChain log x w rest → Contains (w ∷ rest) v → IsChain log x u more
        → Contains (u ∷ more) v →
        ((w ≡ u) × (rest ≡ more)) }
{}

/// Where the arcs have no cycle, the chains of a key are those that begin with node 0 or with a
/// head, and end with its tail.
pub fn heads_and_tails_are_those_of_chains()
    ensures each { (log : Log) → IsClean log → (IsCyclic (arcs log) → ⊥) → (x : ℕ) → x < log.keys →
        (w : ℕ) → (w ≡ 0) ⊎ Contains (heads log x) w → ((rest : List ℕ) × IsChain log x w rest) }
    ensures only { (log : Log) → IsClean log → (IsCyclic (arcs log) → ⊥) → (x : ℕ) → x < log.keys →
        (w : ℕ) (rest : List ℕ) → IsChain log x w rest →
        (((w ≡ 0) ⊎ Contains (heads log x) w) × (last w rest ≡ tail log x w)) }
{}
