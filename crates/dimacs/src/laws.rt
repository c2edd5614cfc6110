//! Laws of the definitions, each the contract of a function that does nothing.

ghost use Rattle.std.specs.Prelude.{◌≡◌, ◌<◌, ◌≤◌, ◌^◌, Bool, List, None, Some, length};
ghost use Rattle.serializability.specs.Formula.{Cnf, IsInRange};
ghost use Rattle.dimacs.specs.Answer.{answer_fault, status_of, assignment_of};
ghost use Rattle.dimacs.specs.Models.{model_text};
ghost use Rattle.dimacs.specs.Text.{text_of};
ghost use Rattle.dimacs.specs.declared.status.Status.TheVariants.{Satisfiable};

/// No text belongs to two formulas of fewer than 2^64 variables.
pub fn text_belongs_to_one_formula()
    ensures variables { (f g : Cnf) → f.variables < 2 ^ 64 → g.variables < 2 ^ 64 →
        text_of f ≡ text_of g → f.variables ≡ g.variables }
    ensures clauses { (f g : Cnf) → IsInRange f → IsInRange g →
        f.variables < 2 ^ 64 → g.variables < 2 ^ 64 → text_of f ≡ text_of g →
        f.clauses ≡ g.clauses }
{}

/// The answer that lists an assignment has no fault, and names that assignment.
pub fn model_is_read_back()
    ensures fault { (values : List Bool) → length (model_text values) ≤ 2 ^ 26 →
        answer_fault (length values) (model_text values) ≡ None }
    ensures status { (values : List Bool) → length (model_text values) ≤ 2 ^ 26 →
        status_of (model_text values) ≡ Some Satisfiable }
    ensures values { (values : List Bool) → length (model_text values) ≤ 2 ^ 26 →
        assignment_of (length values) (model_text values) ≡ values }
{}
