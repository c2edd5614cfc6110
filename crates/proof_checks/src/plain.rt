//! Unit propagation to its end, which looks at each clause: the last word on a step where the
//! search finds nothing.

ghost use Rattle.std.specs.Prelude.{ℕ, ◌<◌, List, [], ◌∷◌, ◌++◌, Contains, IfOk, OnOk, IsFalse};
ghost use Rattle.serializability.specs.declared.literal.Literal.{Literal};
ghost use Rattle.proof_checks.specs.Distinct.{is_among};
ghost use Rattle.proof_checks.specs.Marks.{HasRounds, IsMarking};
ghost use Rattle.proof_checks.specs.Reached.{AreFalse, Covers, EndsAt, IsLeft, PassesOr, Visits};

use crate::distinct::{Marks, negated};
use refutation::Checker;
use serializability::Literal;
use std::alloc::{AllocError, Global};
use std::mem;

/// What is left of a clause when its marked literals are taken away.
#[derive(Clone, Copy)]
enum Left {
    Nothing,
    One(Literal),
    More,
}

impl Left {
    /// What is left of a clause with an unmarked literal more.
    fn with(self, literal: Literal) -> Left
        ensures { (marked clause : List Literal) → IsFalse (is_among marked literal) →
            IsLeft marked clause self → IsLeft marked (clause ++ literal ∷ []) result }
    {
        match self {
            Left::Nothing => Left::One(literal),
            Left::One(other) if other == literal => Left::One(other),
            _ => Left::More,
        }
    }
}

/// What is left of a clause.
fn what_is_left(marks: &Marks, clause: &[Literal]) -> Left
    ensures { (marked : List Literal) → IsMarking marks.now marked →
        IsLeft marked clause.now result }
{
    let mut left = Left::Nothing;
    for &literal in clause {
        if !marks.has(literal) {
            left = left.with(literal);
        }
    }
    left
}

/// Looks at the clause with a number, where these literals are made false, all of them marked. Makes
/// the opposite of its last literal false, and keeps its number where it has two. Whether it had
/// none.
fn visit(
    checker: &Checker,
    number: usize,
    marks: &mut Marks,
    made_false: &mut Vec<Literal>,
    kept: &mut Vec<usize>,
) -> Result<bool, AllocError>
    requires { IsMarking marks.old made_false.old.items }
    ensures marking { OnOk result (IsMarking marks.new made_false.new.items) }
    ensures visits { (c : List Literal) → AreFalse checker.now.clauses c made_false.old.items →
        IfOk result (Visits checker.now.clauses c made_false.old.items made_false.new.items number
        kept.old.items kept.new.items) }
{
    let Some(clause) = checker.clause(number) else {
        return Ok(false);
    };
    match what_is_left(marks, clause) {
        Left::Nothing => Ok(true),
        Left::One(literal) => {
            marks.keep_one(negated(literal), made_false)?;
            Ok(false)
        }
        Left::More => {
            kept.push(number)?;
            Ok(false)
        }
    }
}

/// Looks at each of the clauses with these numbers, and keeps those that have two literals left.
/// Whether one had none.
fn pass(
    checker: &Checker,
    numbers: &[usize],
    marks: &mut Marks,
    made_false: &mut Vec<Literal>,
    kept: &mut Vec<usize>,
) -> Result<bool, AllocError>
    requires { IsMarking marks.old made_false.old.items }
    ensures marking { OnOk result (IsMarking marks.new made_false.new.items) }
    ensures passes { (c : List Literal) → AreFalse checker.now.clauses c made_false.old.items →
        IfOk result (PassesOr checker.now.clauses c made_false.old.items made_false.new.items
        numbers.now kept.new.items) }
{
    kept.clear();
    for &number in numbers {
        if visit(checker, number, marks, made_false, kept)? {
            return Ok(true);
        }
    }
    Ok(false)
}

/// Passes over the clauses with these numbers until no more literals are made false. Whether one
/// had no literal left.
fn reach_end(
    alloc: Global,
    checker: &Checker,
    mut left: Vec<usize>,
    marks: &mut Marks,
    made_false: &mut Vec<Literal>,
) -> Result<bool, AllocError>
    requires { IsMarking marks.old made_false.old.items }
    ensures rounds { OnOk result (HasRounds marks.new) }
    ensures ends { (c : List Literal) → AreFalse checker.now.clauses c made_false.old.items →
        Covers checker.now.clauses made_false.old.items left.items →
        IfOk result (EndsAt checker.now.clauses c) }
{
    let mut kept = Vec::new(alloc);
    loop {
        if pass(checker, &left, marks, made_false, &mut kept)? {
            return Ok(true);
        }
        if kept.len() == left.len() {
            return Ok(false);
        }
        mem::swap(&mut left, &mut kept);
    }
}

/// The numbers below one.
fn numbers_below(alloc: Global, count: usize) -> Result<Vec<usize>, AllocError>
    ensures { IfOk result (λ numbers. (k : ℕ) → k < count → Contains numbers.items k) }
{
    let mut numbers = Vec::new(alloc);
    for number in 0..count {
        numbers.push(number)?;
    }
    Ok(numbers)
}

/// Whether a clause, whose literals are marked, follows by unit propagation. The clauses with the
/// numbers in `hints` are looked at first.
pub(crate) fn is_implied(
    alloc: Global,
    checker: &Checker,
    marks: &mut Marks,
    clause: &[Literal],
    hints: &[usize],
) -> Result<bool, AllocError>
    requires { IsMarking marks.old clause.now }
    ensures rounds { OnOk result (HasRounds marks.new) }
    ensures ends { IfOk result (EndsAt checker.now.clauses clause.now) }
{
    let mut made_false = Vec::new(alloc);
    made_false.extend_from_slice(clause)?;
    let mut kept = Vec::new(alloc);
    if pass(checker, hints, marks, &mut made_false, &mut kept)? {
        return Ok(true);
    }
    let left = numbers_below(alloc, checker.len())?;
    reach_end(alloc, checker, left, marks, &mut made_false)
}
