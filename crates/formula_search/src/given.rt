//! The clauses of a formula, given to a checker.

ghost use Rattle.std.specs.Prelude.{◌≡◌, ◌+◌, ◌++◌, ◌∷◌, [], Some, map, IfOk, OnOk};
ghost use Rattle.order_cnf.specs.Clauses.{literals};
ghost use Rattle.refutation.specs.Known.{all_open};

use order_cnf::{Clause, Formula};
use refutation::Checker;
use std::alloc::{AllocError, Global};

/// Gives a checker one more clause.
fn give(checker: &mut Checker, clause: Clause) -> Result<(), AllocError>
    ensures clauses { OnOk result
        (checker.new.clauses ≡ checker.old.clauses ++ Some (literals clause) ∷ []) }
    ensures known { OnOk result (checker.new.known ≡ checker.old.known) }
{
    match clause {
        Clause::Unit(a) => checker.give(&[a]),
        Clause::Pair(a, b) => checker.give(&[a, b]),
        Clause::Triple(a, b, c) => checker.give(&[a, b, c]),
    }
}

/// A checker to which the clauses of a formula were given.
pub fn checker_of(alloc: Global, formula: &Formula) -> Result<Checker, AllocError>
    ensures clauses { IfOk result (λ c. c.clauses ≡ map Some formula.now.clauses) }
    ensures known { IfOk result (λ c. c.known ≡ all_open (formula.now.variables + 1)) }
{
    let mut checker = Checker::new(alloc, formula.vars() + 1)?;
    for clause in formula.clauses() {
        give(&mut checker, clause)?;
    }
    Ok(checker)
}
