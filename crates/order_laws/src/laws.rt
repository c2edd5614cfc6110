//! Laws of reduced formulas, each the contract of a function that does nothing.

ghost use Rattle.std.specs.Prelude.{◌≡◌, ◌≤◌, ℕ, List, Bool, length};
ghost use Rattle.serializability.specs.Polygraph.{Polygraph, Fits};
ghost use Rattle.serializability.specs.Formula.{Satisfies};
ghost use Rattle.serializability.specs.Pairs.{Known};
ghost use Rattle.serializability.specs.Decoded.{before, IsDecoded, IsFormula};
ghost use Rattle.pruning_laws.specs.Forced.{Sides, IsForced, EachNumbered, edges_with, pruned};
ghost use Rattle.pruning_laws.specs.declared.side.Side.{Side};
ghost use Rattle.order_laws.specs.Reduced.{reduced, IsReach};
ghost use Rattle.order_laws.specs.Proper.{IsProper};
ghost use Rattle.serializability.specs.declared.literal.TheConstants.{MAX_CLAUSES};
ghost use Rattle.serializability.specs.declared.node.TheConstants.{MAX_NODES};

/// Each order that fits gives an assignment that satisfies the reduced formula.
pub fn fitting_order_satisfies()
    ensures { (p : Polygraph) → IsProper p → (known : Known) → IsReach p.known known →
        (order : List ℕ) → Fits p order → ((values : List Bool)
        × Satisfies values (reduced known p)) }
{}

/// The order that a satisfying assignment stands for fits, and there is one.
pub fn satisfying_order_fits()
    ensures each { (p : Polygraph) → IsProper p → (known : Known) → IsReach p.known known →
        (values : List Bool) → Satisfies values (reduced known p) → (order : List ℕ) →
        IsDecoded p.nodes (before (reduced known p) values) order → Fits p order }
    ensures decodes { (p : Polygraph) → IsProper p → (known : Known) → IsReach p.known known →
        (values : List Bool) → Satisfies values (reduced known p) →
        ((order : List ℕ) × IsDecoded p.nodes (before (reduced known p) values) order) }
{}

/// A reduced formula that is not too large is a formula: its literals are in range, its clauses
/// have one to three of them, and what a satisfying assignment puts before what is a strict total
/// order of the nodes.
pub fn reduced_formula_is_a_formula()
    ensures { (p : Polygraph) → IsProper p → (known : Known) → IsReach p.known known
        → p.nodes ≤ MAX_NODES →
        length (reduced known p).clauses ≤ MAX_CLAUSES → IsFormula (reduced known p) }
{}

/// A polygraph has one forced set: of each of its choices two of them hold the same sides.
pub fn one_forced_set()
    ensures { (p : Polygraph) (forced same : Sides) → IsForced p forced → IsForced p same →
        EachNumbered (λ c h. (side : Side) → forced c side ≡ same c side) 0 p.choices }
{}

/// A polygraph has one reduced formula: its variables and clauses do not depend on how forced set
/// and reach are written.
pub fn one_reduced_formula()
    ensures variables { (p : Polygraph) (forced same : Sides) (known knows : Known)
        → IsForced p forced → IsForced p same →
        IsReach (edges_with p forced) known → IsReach (edges_with p same) knows →
        (reduced known (pruned p forced)).variables ≡ (reduced knows (pruned p same)).variables }
    ensures clauses { (p : Polygraph) (forced same : Sides) (known knows : Known)
        → IsForced p forced → IsForced p same →
        IsReach (edges_with p forced) known → IsReach (edges_with p same) knows →
        (reduced known (pruned p forced)).clauses ≡ (reduced knows (pruned p same)).clauses }
    ensures before { (p : Polygraph) (forced same : Sides) (known knows : Known) → IsForced p forced
        → IsForced p same →
        IsReach (edges_with p forced) known → IsReach (edges_with p same) knows
        → (values : List Bool) (u v : ℕ) →
        before (reduced known (pruned p forced)) values u v ≡ before
        (reduced knows (pruned p same)) values u v }
{}
