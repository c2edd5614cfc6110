//! Clauses of a formula.

ghost use Rattle.std.specs.Prelude.{◌≡◌, ◌<◌, ◌≤◌, ◌∷◌, [], length};
ghost use Rattle.std.specs.List.{AllByRecursion};
ghost use Rattle.serializability.specs.Formula.{literal_true, clause_true};
ghost use Rattle.order_cnf.specs.Clauses.{literals, IsWithin};
ghost use Rattle.order_cnf.specs.Tables.{clause_of, given};

use crate::term::Term;
use serializability::Literal;

/// One to three literals, of which at least one is to be true.
#[derive(Clone, Copy, Debug, PartialEq, Eq)]
pub enum Clause {
    Unit(Literal),
    Pair(Literal, Literal),
    Triple(Literal, Literal, Literal),
}

/// Whether an assignment makes a literal true.
pub fn literal_is_true(values: &[bool], literal: Literal) -> bool
    requires within { (0 < literal.variable) × (literal.variable ≤ length values.now) }
    ensures value { result ≡ literal_true values.now literal }
{
    values[literal.variable as usize - 1] == literal.positive
}

/// Whether an assignment makes a clause true.
pub fn clause_is_true(values: &[bool], clause: Clause) -> bool
    requires within { AllByRecursion (IsWithin (length values.now)) (literals clause) }
    ensures value { result ≡ clause_true values.now (literals clause) }
{
    match clause {
        Clause::Unit(a) => literal_is_true(values, a),
        Clause::Pair(a, b) => literal_is_true(values, a) || literal_is_true(values, b),
        Clause::Triple(a, b, c) => {
            literal_is_true(values, a) || literal_is_true(values, b) || literal_is_true(values, c)
        }
    }
}

#[tactic(auto, unfolding(crate::specs::Tables::clause_of))]
/// "One of these", where none of them is known to be so.
pub fn clause_of(a: Term, b: Term, c: Term) -> Option<Clause>
    requires some { a ≡ Term.False → b ≡ Term.False → c ≡ Term.False → ⊥ }
    ensures value { given result ≡ clause_of (a ∷ b ∷ c ∷ []) }
{
    match (a, b, c) {
        (Term::Open(a), Term::Open(b), Term::Open(c)) => Some(Clause::Triple(a, b, c)),
        (Term::Open(a), Term::Open(b), Term::False) => Some(Clause::Pair(a, b)),
        (Term::Open(a), Term::False, Term::Open(c)) => Some(Clause::Pair(a, c)),
        (Term::False, Term::Open(b), Term::Open(c)) => Some(Clause::Pair(b, c)),
        (Term::Open(a), Term::False, Term::False) => Some(Clause::Unit(a)),
        (Term::False, Term::Open(b), Term::False) => Some(Clause::Unit(b)),
        (Term::False, Term::False, Term::Open(c)) => Some(Clause::Unit(c)),
        _ => None,
    }
}
