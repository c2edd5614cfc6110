//! Laws of walks, each the contract of a function that does nothing.

ghost use Rattle.std.specs.Prelude.{◌↔◌, ℕ, List};
ghost use Rattle.std.specs.List.{AllByRecursion, Contains};
ghost use Rattle.serializability.specs.Polygraph.{Edge, Keeps};
ghost use Rattle.reach_laws.specs.Reach.{Reaches, IsCyclic, IsCycle};

/// What a node reaches, all that reaches it reaches too.
pub fn reach_is_transitive()
    ensures { (edges : List Edge) (u v w : ℕ) → Reaches edges u v → Reaches edges v w
        → Reaches edges u w }
{}

/// Among more edges a node reaches no less.
pub fn more_edges_reach_more()
    ensures { (edges more : List Edge) → AllByRecursion (Contains more) edges → (u v : ℕ) →
        Reaches edges u v → Reaches more u v }
{}

/// Edges have a cycle exactly where some list of nodes is one.
pub fn cyclic_exactly_where_a_cycle()
    ensures { (edges : List Edge) → (IsCyclic edges ↔ ((line : List ℕ) × IsCycle edges line)) }
{}

/// No order keeps all edges of a cycle.
pub fn no_order_keeps_a_cycle()
    ensures { (order : List ℕ) (edges : List Edge) → Keeps order edges → IsCyclic edges → ⊥ }
{}
