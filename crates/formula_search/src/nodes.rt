//! The nodes of which some clauses of a formula speak. No contract speaks of what these functions
//! give.

ghost use Rattle.std.specs.Prelude.{◌≡◌, ◌≤◌, length};

use order_cnf::{Clause, Formula};
use serializability::numbers::node;
use serializability::{Literal, NodeIx};
use std::alloc::{AllocError, Global};

/// Marks the variable of a literal.
fn mark(values: &mut [bool], literal: Literal) {
    if let Some(place) = (literal.variable as usize).checked_sub(1)
        && let Some(value) = values.get_mut(place)
    {
        *value = true;
    }
}

/// Marks the variables of a clause.
fn mark_clause(values: &mut [bool], clause: Clause) {
    match clause {
        Clause::Unit(a) => mark(values, a),
        Clause::Pair(a, b) => {
            mark(values, a);
            mark(values, b);
        }
        Clause::Triple(a, b, c) => {
            mark(values, a);
            mark(values, b);
            mark(values, c);
        }
    }
}

/// Of each variable whether one of the clauses with these numbers, ascending, has it.
fn variables_in(alloc: Global, formula: &Formula, used: &[usize]) -> Result<Vec<bool>, AllocError> {
    let mut values = vec![in alloc; false; formula.vars()]?;
    let mut next: usize = 0;
    let mut number: usize = 0;
    for clause in formula.clauses() {
        if used.get(next).copied() == Some(number) {
            mark_clause(values.as_mut_slice(), clause);
            next = next.saturating_add(1);
        }
        number = number.saturating_add(1);
    }
    Ok(values)
}

/// Whether the order of two nodes differs between two assignments.
fn differs(formula: &Formula, one: &[bool], other: &[bool], u: NodeIx, v: NodeIx) -> bool
    requires first { length one.now ≡ formula.now.variables }
    requires second { length other.now ≡ formula.now.variables }
    requires nodes { (u ≤ formula.now.nodes) × (v ≤ formula.now.nodes) }
{
    formula.stands_before(one, u, v) != formula.stands_before(other, u, v)
}

/// Whether the order of a node and one behind it, by number, differs between two assignments.
fn differs_from(formula: &Formula, one: &[bool], other: &[bool], u: usize) -> bool {
    if one.len() != formula.vars() || other.len() != formula.vars() {
        return false;
    }
    let count = formula.nodes() + 1;
    if u >= count {
        return false;
    }
    for v in 0..count {
        if u != v && differs(formula, one, other, node(u), node(v)) {
            return true;
        }
    }
    false
}

/// The nodes of which the clauses with these numbers, ascending, speak; none, where there is no
/// clause.
pub fn nodes_of(
    alloc: Global,
    formula: &Formula,
    used: &[usize],
) -> Result<Vec<NodeIx>, AllocError> {
    let mut nodes = Vec::new(alloc);
    if used.is_empty() {
        return Ok(nodes);
    }
    let none = vec![in alloc; false; formula.vars()]?;
    let values = variables_in(alloc, formula, used)?;
    for u in 1..formula.nodes() + 1 {
        if differs_from(formula, &none, &values, u) {
            nodes.push(node(u))?;
        }
    }
    Ok(nodes)
}
