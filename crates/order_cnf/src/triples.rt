//! The clauses that make a relation of nodes an order.

ghost use Rattle.std.specs.Prelude.{◌≡◌, ◌≢◌, ◌↔◌, ◌<◌, ◌≤◌, ◌+◌, ◌/◌, ◌++◌, [], length, not};
ghost use Rattle.std.specs.Prelude.{nat_le, IsTrue, IsSome, IfSome, IfNone, None};
ghost use Rattle.known_graph.specs.Bits.{row_len};
ghost use Rattle.order_cnf.specs.Cycles.{is_open_from, IsWord};
ghost use Rattle.order_cnf.specs.Tables.{Relation as Data, given};
ghost use Rattle.order_cnf.specs.Streams.{clauses_at, of_three, of_one, up_to, IsStep};
ghost use Rattle.serializability.specs.declared.literal.TheConstants.{MAX_CLAUSES};

use crate::clause::{Clause, clause_of};
use crate::relation::Relation;
use known_graph::bits::row_len;
use std::marker::Model;

/// The clauses of one triple of nodes: no cycle through them, either way round. A clause that holds
/// by what is known is left out.
pub(crate) fn triple_clauses(
    relation: &Relation,
    i: usize,
    j: usize,
    k: usize,
) -> (Option<Clause>, Option<Clause>)
    requires within { (i < j) × (j < k) × (k ≤ relation.now.nodes) }
    ensures value { given result.0 ++ given result.1 ≡ clauses_at relation.now (i, j, k) }
{
    let _invariant = relation.nodes();
    let (ij, ji) = relation.terms(i, j);
    let (jk, kj) = relation.terms(j, k);
    let (ik, ki) = relation.terms(i, k);
    (clause_of(ji, kj, ik), clause_of(ij, jk, ki))
}

/// Of the 64 nodes from 64 * place on, those that are not before `from`, as bits.
fn nodes_from(from: usize, place: usize) -> u64
    requires behind { from / 64 ≤ place }
    ensures word { IsWord (nat_le from) place result }
{
    if from / 64 < place {
        u64::MAX
    } else {
        u64::MAX << (from % 64)
    }
}

/// Of the 64 nodes from 64 * place on, those that are not before `from` and for which it is known
/// of no edge of their cycle with u and v that it is so, as bits.
fn open_from(relation: &Relation, u: usize, v: usize, from: usize, place: usize) -> u64
    requires nodes { (u ≤ relation.now.nodes) × (v ≤ relation.now.nodes) }
    requires behind { from / 64 ≤ place }
    requires within { place < row_len relation.now.nodes }
    ensures word { IsWord (is_open_from relation.now u v from) place result }
{
    relation.open_cycles(u, v, place) & nodes_from(from, place)
}

/// The first node from `from` on that has a clause with i and j, where there is one.
fn next_open(relation: &Relation, i: usize, j: usize, from: usize) -> Option<usize>
    requires nodes { (i ≤ relation.now.nodes) × (j ≤ relation.now.nodes) }
    requires within { from ≤ relation.now.nodes }
    ensures node { IfSome result (λ k. (from ≤ k) × (k ≤ relation.now.nodes)) }
    ensures some { IfSome result (λ k. clauses_at relation.now (i, j, k) ≢ []) }
    ensures passed { IfSome result (λ k. of_one relation.now i j
        (up_to k (relation.now.nodes + 1)) ≡ of_one relation.now i j
        (up_to from (relation.now.nodes + 1))) }
    ensures none { IfNone result (of_one relation.now i j
        (up_to from (relation.now.nodes + 1)) ≡ []) }
{
    for place in from / 64..row_len(relation.nodes()) {
        let one = open_from(relation, j, i, from, place);
        let other = open_from(relation, i, j, from, place);
        let either = one | other;
        if either != 0 {
            return Some(place * 64 + either.trailing_zeros() as usize);
        }
    }
    None
}

/// Where a walk over all triples of nodes has come to: the next one is (first, second, third),
/// where third is a node.
#[derive(Drop)]
pub(crate) struct Cursor {
    pub first: usize,
    pub second: usize,
    pub third: usize,
}

impl Cursor {
    ghost use Rattle.order_cnf.specs.Cursors.{IsCursor, cursor_left, steps_left};

    /// Goes on to the next triple below `end`, and says whether there is one.
    fn settle(&mut self, end: usize) -> bool
        requires cursor { IsCursor end self.old }
        ensures cursor { IsCursor end self.new }
        ensures found { IsTrue result → self.new.third < end }
        ensures same { (r : Data) → r.nodes + 1 ≡ end
            → cursor_left r self.new ≡ cursor_left r self.old }
        ensures none { IsTrue (not result) → (r : Data) → r.nodes + 1 ≡ end
            → cursor_left r self.old ≡ [] }
        ensures steps { steps_left self.new ≤ steps_left self.old }
    {
        while self.third >= end {
            if self.second + 1 < end {
                self.second += 1;
                self.third = self.second + 1;
            } else if self.first + 1 < end {
                self.first += 1;
                self.second = self.first;
                self.third = end;
            } else {
                return false;
            }
        }
        true
    }

    /// Goes on to the next triple that has a clause, and says whether there is one.
    fn advance(&mut self, relation: &Relation) -> bool
        requires cursor { IsCursor (relation.now.nodes + 1) self.old }
        ensures cursor { IsCursor (relation.now.nodes + 1) self.new }
        ensures found { IsTrue result → self.new.third ≤ relation.now.nodes }
        ensures some { IsTrue result → clauses_at relation.now
            (self.new.first, self.new.second, self.new.third) ≢ [] }
        ensures same { cursor_left relation.now self.new ≡ cursor_left relation.now self.old }
        ensures none { IsTrue (not result) → cursor_left relation.now self.old ≡ [] }
        ensures steps { steps_left self.new ≤ steps_left self.old }
    {
        let end = relation.nodes() + 1;
        while self.settle(end) {
            if let Some(third) = next_open(relation, self.first, self.second, self.third) {
                self.third = third;
                return true;
            }
            self.third = end;
        }
        false
    }

    /// How many clauses the triples of the first and the second node have, from the third on.
    fn row_count(&self, relation: &Relation) -> usize
        requires cursor { IsCursor (relation.now.nodes + 1) self.now }
        requires found { self.now.third < relation.now.nodes + 1 }
        ensures value { result ≡ length (of_one relation.now self.now.first self.now.second
            (up_to self.now.third (relation.now.nodes + 1))) }
        ensures few { result ≤ 2002 }
    {
        let mut count = 0;
        for place in self.third / 64..row_len(relation.nodes()) {
            let one = open_from(relation, self.second, self.first, self.third, place);
            let other = open_from(relation, self.first, self.second, self.third, place);
            count += one.count_ones() as usize + other.count_ones() as usize;
        }
        count
    }

    /// The clauses of the next triple that has one.
    fn next_pair(&mut self, relation: &Relation) -> (Option<Clause>, Option<Clause>)
        requires cursor { IsCursor (relation.now.nodes + 1) self.old }
        ensures cursor { IsCursor (relation.now.nodes + 1) self.new }
        ensures value { given result.0 ++ (given result.1 ++ cursor_left relation.now self.new)
            ≡ cursor_left relation.now self.old }
        ensures none { result.0 ≡ None → (result.1 ≡ None)
            × (cursor_left relation.now self.new ≡ []) }
    {
        while self.advance(relation) {
            let (one, other) = triple_clauses(relation, self.first, self.second, self.third);
            self.third += 1;
            if one.is_some() {
                return (one, other);
            }
            if other.is_some() {
                return (other, None);
            }
        }
        (None, None)
    }
}

/// How many clauses the triples of nodes from `start` on have, where they are at most so many.
pub(crate) fn count_triples(relation: &Relation, start: usize, most: usize) -> Option<usize>
    requires within { start ≤ relation.now.nodes + 1 }
    requires few { most ≤ MAX_CLAUSES }
    ensures some { IfSome result (λ n. n ≡ length
        (of_three relation.now (up_to start (relation.now.nodes + 1)))) }
    ensures none { IsSome result ↔ (length (of_three relation.now
        (up_to start (relation.now.nodes + 1))) ≤ most) }
{
    let end = relation.nodes() + 1;
    let mut cursor = Cursor {
        first: start,
        second: start,
        third: end,
    };
    let mut count = 0;
    while cursor.settle(end) {
        count += cursor.row_count(relation);
        if count > most {
            return None;
        }
        cursor.third = end;
    }
    Some(count)
}

/// What is left of the clauses of all triples of nodes, in lexicographic order.
#[derive(Drop)]
pub(crate) struct Triples<'a> {
    relation: &'a Relation,
    /// The other clause of the last triple.
    waiting: Option<Clause>,
    cursor: Cursor,
}

impl<'a> Model for Triples<'a> {
    ghost use Rattle.std.specs.Prelude.{◌+◌, ◌++◌, List};
    ghost use Rattle.serializability.specs.declared.literal.Literal.{Literal};
    ghost use Rattle.order_cnf.specs.Tables.{given};
    ghost use Rattle.order_cnf.specs.Cursors.{IsCursor, cursor_left};

    ghost Value = { List (List Literal) };

    ghost view = { λ t. given t.waiting ++ cursor_left t.relation.now t.cursor };

    ghost invariant = { λ t. IsCursor (t.relation.now.nodes + 1) t.cursor };
}

impl<'a> Triples<'a> {
    /// The clauses of all triples of nodes from `start` on.
    pub(crate) fn new(relation: &'a Relation, start: usize) -> Triples<'a>
        requires within { start ≤ relation.now.nodes + 1 }
        ensures value { result ≡ of_three relation.now (up_to start (relation.now.nodes + 1)) }
    {
        Triples {
            relation,
            waiting: None,
            cursor: Cursor {
                first: start,
                second: start,
                third: relation.nodes() + 1,
            },
        }
    }

    /// The next clause.
    pub(crate) fn next(&mut self) -> Option<Clause>
        ensures step { IsStep self.old result self.new }
    {
        if let Some(clause) = self.waiting.take() {
            return Some(clause);
        }
        let (one, other) = self.cursor.next_pair(self.relation);
        self.waiting = other;
        one
    }
}
