//! A search, and the test of what it comes to.

ghost use Rattle.std.specs.Prelude.{◌≡◌, List, Option, length, IfOk, IsTrue};
ghost use Rattle.serializability.specs.Formula.{literal_true, clause_true};
ghost use Rattle.watched_clauses.specs.Extends.{Extends};
ghost use Rattle.serializability.specs.declared.literal.Literal.{Literal};
ghost use Rattle.clause_search.specs.Founds.{IsFound, MayBeFound, IsTrueAt, AreTrue};

use crate::found::Found;
use crate::search::{Round, Search};
use refutation::Checker;
use serializability::Literal;
use std::alloc::{AllocError, Global};

/// Whether an assignment makes a literal true.
fn is_true(values: &[bool], literal: Literal) -> bool
    ensures { result ≡ literal_true values.now literal }
{
    let place = (literal.variable as usize).saturating_sub(1);
    let value = values.get(place).copied().unwrap_or(false);
    if literal.positive { value } else { !value }
}

/// Whether an assignment makes a clause true.
fn satisfies(values: &[bool], clause: &[Literal]) -> bool
    ensures { result ≡ clause_true values.now clause.now }
{
    clause.iter().any(|literal| is_true(values, *literal))
}

/// Whether an assignment makes the clause with a number true, if that stands.
fn satisfies_at(values: &[bool], checker: &Checker, number: usize) -> bool
    ensures { IsTrue result → IsTrueAt number checker.now.clauses values.now }
{
    match checker.clause(number) {
        Some(clause) => satisfies(values, clause),
        None => true,
    }
}

/// Whether an assignment makes each of the first clauses of a checker true.
#[tactic(auto, using(crate::proofs::Models::none_true, crate::proofs::Models::true_more))]
fn satisfies_first(values: &[bool], checker: &Checker, given: usize) -> bool
    ensures { IsTrue result → AreTrue given checker.now.clauses values.now }
{
    for number in 0..given {
        if !satisfies_at(values, checker, number) {
            return false;
        }
    }
    true
}

/// What a round comes to, where that decides the first clauses, which were given.
#[tactic(auto, using(crate::proofs::Models::refuted_before, crate::proofs::Models::model_before))]
fn conclude(
    search: &Search,
    checker: &Checker,
    variables: u32,
    given: usize,
    round: Round,
) -> Result<Option<Found>, AllocError>
    ensures found { (old : List (Option (List Literal))) → given ≡ length old →
        Extends given old checker.now.clauses → IfOk result (MayBeFound variables old) }
{
    match round {
        Round::Learnt => Ok(None),
        Round::Closed => {
            if checker.is_refuted() {
                return Ok(Some(Found::Refuted));
            }
            Ok(None)
        }
        Round::Full => {
            let values = search.values(variables)?;
            if satisfies_first(&values, checker, given) {
                return Ok(Some(Found::Satisfied(values)));
            }
            Ok(None)
        }
    }
}

/// Whether the clauses of a checker, whose variables are 1 to `variables`, can be satisfied, by a
/// search that ends after so many conflicts. What it learns stands in the checker.
pub fn search_clauses(
    alloc: Global,
    checker: &mut Checker,
    variables: u32,
    budget: u32,
) -> Result<Found, AllocError>
    ensures found { IfOk result (IsFound variables checker.old.clauses) }
{
    let mut used = Vec::new(alloc);
    search_used(alloc, checker, variables, budget, &mut used)
}

/// The same; and where they are refuted, the numbers of those on which that rests, as far as it is
/// known.
pub fn search_used(
    alloc: Global,
    checker: &mut Checker,
    variables: u32,
    budget: u32,
    used: &mut Vec<usize>,
) -> Result<Found, AllocError>
    ensures found { IfOk result (IsFound variables checker.old.clauses) }
{
    let given = checker.len();
    let mut search = Search::new(alloc, checker, variables)?;
    for _ in 0..budget {
        let round = search.round(checker, given)?;
        if let Some(found) = conclude(&search, checker, variables, given, round)? {
            *used = search.used(given)?;
            return Ok(found);
        }
    }
    Ok(Found::Spent)
}
