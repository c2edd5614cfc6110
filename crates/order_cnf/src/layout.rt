//! What a formula is made of, and its clauses, each made when it is asked for.

ghost use Rattle.std.specs.Prelude.{◌≡◌, ◌↔◌, ◌+◌, ◌<◌, ◌≤◌, ◌∷◌, [], length, map, IfSome, IsSome};
ghost use Rattle.std.specs.Iterator.{YieldsFirstBy, item_count};
ghost use Rattle.polygraph.specs.Polygraphs.{Joins};
ghost use Rattle.serializability.specs.Pairs.{edge_literal};
ghost use Rattle.order_cnf.specs.Bipaths.{IsSingle};
ghost use Rattle.order_cnf.specs.Clauses.{literals};
ghost use Rattle.order_cnf.specs.Tables.{pairs_in};
ghost use Rattle.order_cnf.specs.Streams.{IsFreeBipath, bipaths_of};
ghost use Rattle.order_cnf.specs.Layouts.{IsLayout, clauses_in};
ghost use Rattle.serializability.specs.declared.literal.TheConstants.{MAX_CLAUSES};

use crate::clause::Clause;
use crate::relation::Relation;
use crate::sides::Sides;
use crate::term::Term;
use crate::triples::{Triples, count_triples};
use polygraph::Bipath;
use reach_laws::Edge;
use serializability::Literal;
use std::marker::Model;

/// What a formula is made of.
#[derive(Drop)]
pub(crate) struct Layout {
    relation: Relation,
    /// The least node of the triples.
    start: usize,
    units: Vec<Literal>,
    bipaths: Vec<Bipath>,
    /// The edges of the open choices' sides, and how many each side has.
    edges: Vec<Edge>,
    counts: Vec<usize>,
}

impl Model for Layout {
    ghost use Rattle.order_cnf.specs.Shapes.{Shape};
    ghost use Rattle.order_cnf.specs.Layouts.{IsLayout, clauses_in};

    ghost Value = { Shape };

    ghost view = { λ l. record {
      relation = l.relation;
      clauses = clauses_in l.relation l.start l.units.items l.bipaths.items l.edges.items l.counts.items;
    } };

    ghost invariant = { λ l. IsLayout l.relation l.start l.bipaths.items l.edges.items
        l.counts.items };
}

/// The literal of an edge, where of no pair it is known which comes first.
pub(crate) fn free_literal(relation: &Relation, edge: Edge) -> Literal
    requires nothing { relation.now.known ≡ [] }
    requires joined { Joins relation.now.nodes edge }
    ensures value { result ≡ edge_literal (pairs_in relation.now) edge.0 edge.1 }
{
    match relation.term(edge.source().get(), edge.target().get()) {
        Term::Open(literal) => literal,
        _ => unreachable!(),
    }
}

/// The literal of a bipath's side, which is this edge.
fn side_literal(relation: &Relation, edge: Edge) -> Literal
    requires nothing { relation.now.known ≡ [] }
    requires single { IsSingle relation.now.nodes (edge ∷ []) }
    ensures value { result ∷ [] ≡ map (λ e. edge_literal (pairs_in relation.now) e.0 e.1)
        (edge ∷ []) }
{
    free_literal(relation, edge)
}

/// A sum, where it is at most so many.
fn added(count: usize, more: usize, most: usize) -> Option<usize>
    requires within { count ≤ most }
    ensures some { IfSome result (λ n. n ≡ count + more) }
    ensures none { IsSome result ↔ (count + more ≤ most) }
{
    if more > most - count {
        None
    } else {
        Some(count + more)
    }
}

/// The clause of a bipath.
fn bipath_clause(relation: &Relation, bipath: &Bipath) -> Clause
    requires free { IsFreeBipath relation.now bipath.now }
    ensures value { literals result ∷ [] ≡ bipaths_of relation.now (bipath.now ∷ []) }
{
    Clause::Pair(
        side_literal(relation, bipath.one()),
        side_literal(relation, bipath.two()),
    )
}

impl Layout {
    /// A formula's relation, and the parts of its clauses.
    pub(crate) fn new(
        relation: Relation,
        start: usize,
        units: Vec<Literal>,
        bipaths: Vec<Bipath>,
        edges: Vec<Edge>,
        counts: Vec<usize>,
    ) -> Layout
        requires layout { IsLayout relation start bipaths.items edges.items counts.items }
        ensures value { result ≡ record {
          relation = relation;
          clauses = clauses_in relation start units.items bipaths.items edges.items counts.items;
        } }
    {
        Layout {
            relation,
            start,
            units,
            bipaths,
            edges,
            counts,
        }
    }

    /// The relation of nodes.
    pub(crate) fn relation(&self) -> &Relation
        ensures { result.now ≡ self.now.relation }
    {
        &self.relation
    }

    /// The clauses, in order.
    pub(crate) fn clauses(&self) -> Clauses<'_>
        ensures items { result ≡ self.now.clauses }
    {
        Clauses {
            relation: &self.relation,
            units: self.units.as_slice(),
            bipaths: self.bipaths.as_slice(),
            triples: Triples::new(&self.relation, self.start),
            sides: Sides::new(
                &self.relation,
                self.edges.as_slice(),
                self.counts.as_slice(),
            ),
        }
    }

    /// How many clauses there are, where they are at most so many.
    pub(crate) fn count(&self, most: usize) -> Option<usize>
        requires few { most ≤ MAX_CLAUSES }
        ensures some { IfSome result (λ n. n ≡ length self.now.clauses) }
        ensures none { IsSome result ↔ (length self.now.clauses ≤ most) }
    {
        let Some(triples) = count_triples(&self.relation, self.start, most) else {
            return None;
        };
        let Some(more) = added(triples, self.units.len(), most) else {
            return None;
        };
        let Some(count) = added(more, self.bipaths.len(), most) else {
            return None;
        };
        let sides = Sides::new(
            &self.relation,
            self.edges.as_slice(),
            self.counts.as_slice(),
        );
        sides.count_after(count, most)
    }
}

/// What is left of the clauses of a formula.
#[derive(Drop)]
pub struct Clauses<'a> {
    relation: &'a Relation,
    units: &'a [Literal],
    bipaths: &'a [Bipath],
    triples: Triples<'a>,
    sides: Sides<'a>,
}

impl<'a> Model for Clauses<'a> {
    ghost use Rattle.std.specs.Prelude.{List};
    ghost use Rattle.std.specs.List.{AllByRecursion};
    ghost use Rattle.serializability.specs.declared.literal.Literal.{Literal};
    ghost use Rattle.order_cnf.specs.Streams.{rest_of, IsFreeBipath};

    ghost Value = { List (List Literal) };

    ghost view = { λ c. rest_of c.relation.now c.units.now c.bipaths.now c.triples c.sides };

    ghost invariant = { λ c. AllByRecursion (IsFreeBipath c.relation.now) c.bipaths.now };
}

impl<'a> Iterator for Clauses<'a> {
    type Item = Clause;

    ghost next_gives = { YieldsFirstBy literals (λ rest. rest) };

    ghost remaining = { item_count (λ rest. rest) };

    fn next(&mut self) -> Option<Clause> {
        if let Some((literal, rest)) = self.units.split_first() {
            self.units = rest;
            return Some(Clause::Unit(*literal));
        }
        if let Some((bipath, rest)) = self.bipaths.split_first() {
            self.bipaths = rest;
            return Some(bipath_clause(self.relation, bipath));
        }
        if let Some(clause) = self.triples.next() {
            return Some(clause);
        }
        self.sides.next()
    }
}
