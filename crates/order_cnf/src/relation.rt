//! What is known of each pair of nodes: which comes first, or the variable that says it.

ghost use Rattle.std.specs.Prelude.{◌≡◌, ◌≢◌, ◌<◌, ◌≤◌, true, false, [], length, IfOk};
ghost use Rattle.known_graph.specs.Bits.{row_len};
ghost use Rattle.serializability.specs.declared.literal.Literal.{Literal};
ghost use Rattle.serializability.specs.Pairs.{is_free};
ghost use Rattle.serializability.specs.Decoded.{is_before};
ghost use Rattle.order_cnf.specs.Clauses.{IsWithin};
ghost use Rattle.order_cnf.specs.Cycles.{is_open_cycle, IsWord};
ghost use Rattle.order_cnf.specs.Data.{is_listed};
ghost use Rattle.order_cnf.specs.Tables.{Relation as Data, IsStrict, IsTable, known_in, pairs_in};
ghost use Rattle.order_cnf.specs.Tables.{rows_known, term_of};
ghost use Rattle.serializability.specs.declared.node.TheConstants.{MAX_NODES};

use crate::clause::literal_is_true;
use crate::open_pairs::OpenPairs;
use crate::term::Term;
use known_graph::bits::has_bit;
use reach_laws::Edge;
use reach_rows::Rows;
use serializability::Literal;
use serializability::numbers::node;
use std::alloc::{AllocError, Global};
use std::marker::Model;

/// Nodes 0 to n, and of each pair of them which one is known to stand before the other, or the
/// variable that says it. Variables are numbered from 1, by the first node and then the second.
#[derive(Drop)]
pub(crate) struct Relation {
    nodes: usize,
    /// Which node reaches which. Without rows of no pair it is known which comes first.
    rows: Option<Rows>,
    /// The variable of each pair, by row, and 0 where it has none.
    table: Vec<u32>,
    /// How many variables there are.
    variables: u32,
    /// The pairs of which it is not known that the first stands before the second.
    pairs: OpenPairs,
}

impl Model for Relation {
    ghost use Rattle.std.specs.Prelude.{◌≡◌, length};
    ghost use Rattle.order_cnf.specs.Cycles.{AreOpenPairs};
    ghost use Rattle.order_cnf.specs.Tables.{Relation as Data, IsTable, pairs_in, rows_known};

    ghost Value = { Data };

    ghost view = { λ r. record { nodes = r.nodes; known = rows_known r.rows } };

    ghost invariant = { λ r. IsTable (record { nodes = r.nodes; known = rows_known r.rows })
        r.table.items
        × (r.variables ≡ length (pairs_in (record { nodes = r.nodes; known = rows_known r.rows })))
        × AreOpenPairs (record { nodes = r.nodes; known = rows_known r.rows }) r.pairs };
}

/// Whether these rows say that u stands before v.
pub(crate) fn is_known(rows: &Option<Rows>, u: usize, v: usize) -> bool
    requires few { (u ≤ MAX_NODES) × (v ≤ MAX_NODES) }
    ensures value { result ≡ is_listed (rows_known rows.now) u v }
{
    match rows {
        Some(rows) => rows.reaches(node(u), node(v)),
        None => false,
    }
}

/// Whether these rows say nothing of the two nodes.
fn is_free(rows: &Option<Rows>, u: usize, v: usize) -> bool
    requires few { (u ≤ MAX_NODES) × (v ≤ MAX_NODES) }
    ensures value { result ≡ is_free (is_listed (rows_known rows.now)) (u, v) }
{
    !is_known(rows, u, v) && !is_known(rows, v, u)
}

/// The variables of pairs of nodes 0 to n, by row, and how many they are.
#[derive(Drop)]
struct Numbering {
    table: Vec<u32>,
    variables: u32,
}

/// Numbers the pairs of which these rows say nothing.
fn number_pairs(alloc: Global, nodes: usize, rows: &Option<Rows>) -> Result<Numbering, AllocError>
    requires few { nodes ≤ MAX_NODES }
    ensures table { IfOk result (λ m. (r : Data)
        → r ≡ record { nodes = nodes; known = rows_known rows.now } →
        IsStrict (known_in r) → IsTable r m.table.items) }
    ensures count { IfOk result (λ m. (r : Data)
        → r ≡ record { nodes = nodes; known = rows_known rows.now } →
        m.variables ≡ length (pairs_in r)) }
{
    let side = nodes + 1;
    let mut table = vec![in alloc; 0; side * side]?;
    let mut variables = 0;
    for low in 0..side {
        for high in low + 1..side {
            if is_free(rows, low, high) {
                variables += 1;
                table[low * side + high] = variables;
            }
        }
    }
    Ok(Numbering { table, variables })
}

/// This variable says it.
fn up(variable: u32) -> Term
    ensures value { result ≡ Term.Open (record { variable = variable; positive = true }) }
{
    Term::Open(Literal {
        variable,
        positive: true,
    })
}

/// This variable says the opposite.
fn down(variable: u32) -> Term
    ensures value { result ≡ Term.Open (record { variable = variable; positive = false }) }
{
    Term::Open(Literal {
        variable,
        positive: false,
    })
}

impl Relation {
    /// Of no pair of nodes 0 to n it is known which comes first.
    pub(crate) fn unknown(alloc: Global, nodes: usize) -> Result<Relation, AllocError>
        requires few { nodes ≤ MAX_NODES }
        ensures relation { IfOk result (λ r. r ≡ record { nodes = nodes; known = [] }) }
    {
        Relation::of(alloc, nodes, None)
    }

    /// What these rows say of nodes 0 to n is known.
    pub(crate) fn of(
        alloc: Global,
        nodes: usize,
        rows: Option<Rows>,
    ) -> Result<Relation, AllocError>
        requires few { nodes ≤ MAX_NODES }
        requires strict { IsStrict (is_listed (rows_known rows)) }
        ensures relation { IfOk result (λ r. r
            ≡ record { nodes = nodes; known = rows_known rows }) }
    {
        let Numbering { table, variables } = number_pairs(alloc, nodes, &rows)?;
        let pairs = OpenPairs::of(alloc, nodes, &rows)?;
        Ok(Relation {
            nodes,
            rows,
            table,
            variables,
            pairs,
        })
    }

    /// The number n.
    pub(crate) fn nodes(&self) -> usize
        ensures count { result ≡ self.now.nodes }
        ensures few { result ≤ MAX_NODES }
        ensures strict { IsStrict (known_in self.now) }
    {
        self.nodes
    }

    /// The number of variables.
    pub(crate) fn variables(&self) -> u32
        ensures count { result ≡ length (pairs_in self.now) }
        ensures few { result ≤ 500500 }
    {
        self.variables
    }

    /// What is said of `low` before `high`, and of `high` before `low`.
    #[inline]
    pub(crate) fn terms(&self, low: usize, high: usize) -> (Term, Term)
        requires within { (low < high) × (high ≤ self.now.nodes) }
        ensures up { result.0 ≡ term_of self.now low high }
        ensures down { result.1 ≡ term_of self.now high low }
    {
        let variable = self.table[low * (self.nodes + 1) + high];
        if variable != 0 {
            (up(variable), down(variable))
        } else if is_known(&self.rows, low, high) {
            (Term::True, Term::False)
        } else {
            (Term::False, Term::True)
        }
    }

    /// What is said of u before v.
    pub(crate) fn term(&self, u: usize, v: usize) -> Term
        requires within { (u ≤ self.now.nodes) × (v ≤ self.now.nodes) × (u ≢ v) }
        ensures value { result ≡ term_of self.now u v }
        ensures literal { (l : Literal) → result ≡ Term.Open l
            → IsWithin (length (pairs_in self.now)) l }
    {
        if u < v {
            self.terms(u, v).0
        } else {
            self.terms(v, u).1
        }
    }

    /// Of the 64 nodes from 64 * place on, those k for which it is known of no edge of the cycle u,
    /// v, k that it is so, as bits.
    pub(crate) fn open_cycles(&self, u: usize, v: usize, place: usize) -> u64
        requires within { (u ≤ self.now.nodes) × (v ≤ self.now.nodes)
            × (place < row_len self.now.nodes) }
        ensures word { IsWord (is_open_cycle self.now u v) place result }
    {
        let OpenPairs {
            by_first,
            by_second,
        } = &self.pairs;
        if !has_bit(by_first.row(u), v) {
            return 0;
        }
        let (first, second) = (by_first.row(v), by_second.row(u));
        first[place] & second[place]
    }

    /// Whether u stands before v, as it is known or as these values of the variables have it.
    pub(crate) fn stands_before(&self, values: &[bool], u: usize, v: usize) -> bool
        requires each_variable { length (pairs_in self.now) ≤ length values.now }
        requires within { (u ≤ self.now.nodes) × (v ≤ self.now.nodes) }
        ensures value { result ≡ is_before (known_in self.now) (pairs_in self.now) values.now u v }
    {
        if u == v {
            return false;
        }
        match self.term(u, v) {
            Term::True => true,
            Term::False => false,
            Term::Open(literal) => literal_is_true(values, literal),
        }
    }
}
