//! The clauses of open choices.

ghost use Rattle.std.specs.Prelude.{◌≡◌, ◌↔◌, ◌+◌, IsSome, IfSome, false, ◌<◌, ◌≤◌, [], ◌∷◌};
ghost use Rattle.std.specs.Prelude.{length};
ghost use Rattle.std.specs.List.{AllByRecursion};
ghost use Rattle.order_laws.specs.Reduced.{side_clauses};
ghost use Rattle.order_cnf.specs.Tables.{known_in, pairs_in, given};
ghost use Rattle.order_cnf.specs.Streams.{IsUnturned, IsStep, turned, last_variable, sides_after};
ghost use Rattle.serializability.specs.declared.literal.TheConstants.{MAX_CLAUSES};

use crate::clause::Clause;
use crate::relation::Relation;
use crate::term::Term;
use reach_laws::Edge;
use serializability::Literal;
use std::marker::Model;

/// The literal of the side behind the one of this literal: a choice's variable is negated with its
/// first side.
fn turned(literal: Literal) -> Literal
    requires few { literal.variable ≤ 650000 }
    ensures value { result ≡ turned literal }
{
    if literal.positive {
        Literal {
            variable: literal.variable + 1,
            positive: false,
        }
    } else {
        Literal {
            variable: literal.variable,
            positive: true,
        }
    }
}

/// "This literal or this edge", where it is not known that the edge is so.
fn edge_clause(relation: &Relation, literal: Literal, edge: Edge) -> Option<Clause>
    requires open_to { IsUnturned relation.now edge }
    ensures value { given result ≡ side_clauses (known_in relation.now)
        (pairs_in relation.now) literal (edge ∷ []) }
{
    match relation.term(edge.source().get(), edge.target().get()) {
        Term::Open(other) => Some(Clause::Pair(literal, other)),
        _ => None,
    }
}

/// What is left of the clauses of open choices.
#[derive(Drop)]
pub(crate) struct Sides<'a> {
    relation: &'a Relation,
    /// The choice's variable, negated with its first side.
    literal: Literal,
    /// How many edges are left of this side.
    count: usize,
    /// These edges, and those of the sides behind it.
    edges: &'a [Edge],
    /// How many edges each side behind it has.
    counts: &'a [usize],
}

impl<'a> Model for Sides<'a> {
    ghost use Rattle.std.specs.Prelude.{◌+◌, ◌≤◌, List, length};
    ghost use Rattle.std.specs.List.{AllByRecursion};
    ghost use Rattle.serializability.specs.declared.literal.Literal.{Literal};
    ghost use Rattle.order_cnf.specs.Streams.{sides_left, IsUnturned, rank_of};

    ghost Value = { List (List Literal) };

    ghost view = { λ s. sides_left s.relation.now s.literal s.count s.edges.now s.counts.now };

    ghost invariant = { λ s. AllByRecursion (IsUnturned s.relation.now) s.edges.now
        × (rank_of s.literal + length s.counts.now ≤ 1300001) };
}

impl<'a> Sides<'a> {
    /// The clauses of choices whose sides have these edges, so many each, and whose variables come
    /// behind those of the relation.
    pub(crate) fn new(relation: &'a Relation, edges: &'a [Edge], counts: &'a [usize]) -> Sides<'a>
        requires open_to { AllByRecursion (IsUnturned relation.now) edges.now }
        requires few { length counts.now ≤ 200000 }
        ensures value { result ≡ sides_after relation.now
            (last_variable relation.now) edges.now counts.now }
    {
        Sides {
            relation,
            literal: Literal {
                variable: relation.variables(),
                positive: true,
            },
            count: 0,
            edges,
            counts,
        }
    }

    /// How many clauses there are with these that were counted before, where they are at most so
    /// many.
    pub(crate) fn count_after(mut self, counted: usize, most: usize) -> Option<usize>
        requires within { counted ≤ most }
        requires few { most ≤ MAX_CLAUSES }
        ensures some { IfSome result (λ n. n ≡ counted + length self.entry) }
        ensures none { IsSome result ↔ (counted + length self.entry ≤ most) }
    {
        let mut count = counted;
        while let Some(_clause) = self.next() {
            if count == most {
                return None;
            }
            count += 1;
        }
        Some(count)
    }

    /// The next clause.
    pub(crate) fn next(&mut self) -> Option<Clause>
        ensures step { IsStep self.old result self.new }
    {
        loop {
            if self.count > 0 {
                let (edge, rest) = self.edges.split_first()?;
                self.edges = rest;
                self.count -= 1;
                let clause = edge_clause(self.relation, self.literal, *edge);
                if clause.is_some() {
                    return clause;
                }
            } else {
                let (count, rest) = self.counts.split_first()?;
                self.counts = rest;
                self.count = *count;
                self.literal = turned(self.literal);
            }
        }
    }
}
