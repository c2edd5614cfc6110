//! What a refuted formula is.

ghost use Rattle.std.specs.Prelude.{List, Bool, Some, map};
ghost use Rattle.serializability.specs.Formula.{Cnf, Satisfies};
ghost use Rattle.refutation.specs.Follows.{Entails, IsRefuted};

/// A formula whose clauses are refuted is satisfied by no assignment.
pub fn refuted_formula_is_not_satisfied()
    ensures { (f : Cnf) → IsRefuted (map Some f.clauses) → (values : List Bool) → Satisfies values f
        → ⊥ }
{}
