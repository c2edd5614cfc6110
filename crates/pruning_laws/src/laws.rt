//! Laws of forced sets, each the contract of a function that does nothing.

ghost use Rattle.std.specs.Prelude.{◌≡◌, ◌↔◌, ℕ, List, Bool, true};
ghost use Rattle.std.specs.List.{Contains};
ghost use Rattle.serializability.specs.Polygraph.{Edge, Polygraph, Fits};
ghost use Rattle.reach_laws.specs.Reach.{Reaches, IsCyclic};
ghost use Rattle.pruning_laws.specs.Ledger.{Entry, sides_in, IsLedger};
ghost use Rattle.pruning_laws.specs.Forced.{Sides, IsForced, IsClosed, IsDead, IsRefuted};
ghost use Rattle.pruning_laws.specs.Forced.{EachNumbered, edges_of, other, edges_with, pruned};
ghost use Rattle.pruning_laws.specs.declared.side.Side.{Side};

/// An order fits a polygraph exactly when it fits what pruning leaves of it.
pub fn pruning_keeps_each_order()
    ensures { (p : Polygraph) (forced : Sides) → IsForced p forced → (order : List ℕ) →
        (Fits p order ↔ Fits (pruned p forced) order) }
{}

/// A polygraph is dead exactly where its forced set has a cycle.
pub fn dead_exactly_where_forced_edges_are_cyclic()
    ensures { (p : Polygraph) (forced : Sides) → IsForced p forced →
        (IsDead p ↔ IsCyclic (edges_with p forced)) }
{}

/// No order fits a dead polygraph.
pub fn no_order_fits_where_dead()
    ensures { (p : Polygraph) → IsDead p → (order : List ℕ) → Fits p order → ⊥ }
{}

/// A side is forced exactly where the other is refuted by what the forced set keeps.
pub fn forced_exactly_where_other_refuted()
    ensures { (p : Polygraph) (forced : Sides) → IsForced p forced → (known : ℕ → ℕ → Bool) →
        ((u v : ℕ) → (known u v ≡ true ↔ Reaches (edges_with p forced) u v)) →
        EachNumbered (λ c h. (s : Side) → (forced c (other s) ≡ true ↔ IsRefuted
        (edges_with p forced) (edges_of h s))) 0 p.choices }
{}

/// What a ledger keeps is the forced set where it is closed, and where its edges have a cycle the
/// polygraph is dead.
pub fn ledgers_keep_forced_sides()
    ensures forced { (p : Polygraph) (entries : List Entry) → IsLedger p entries
        → IsClosed p (sides_in entries) → IsForced p (sides_in entries) }
    ensures dead { (p : Polygraph) (entries : List Entry) → IsLedger p entries
        → IsCyclic (edges_with p (sides_in entries)) → IsDead p }
{}

/// Of the known edges the orders that fit see the set alone.
pub fn known_edges_are_a_set()
    ensures { (p q : Polygraph) → p.nodes ≡ q.nodes
        → ((e : Edge) → (Contains p.known e ↔ Contains q.known e)) →
        p.choices ≡ q.choices → (order : List ℕ) → (Fits p order ↔ Fits q order) }
{}
