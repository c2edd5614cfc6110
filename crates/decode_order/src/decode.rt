//! The order that an assignment stands for.

ghost use Rattle.std.specs.Prelude.{◌≡◌, ◌+◌, ◌<◌, ◌≤◌, IfOk, OnOk, IfErr};
ghost use Rattle.std.specs.List.{count_by, range_with_len};
ghost use Rattle.serializability.specs.Formula.{Satisfies};
ghost use Rattle.serializability.specs.Decoded.{before, IsDecoded};
ghost use Rattle.order_cnf.specs.Data.{cnf_of};
ghost use Rattle.decode_order.specs.Decoding.{IsDecodeFault};

use crate::fault::DecodeFault;
use order_cnf::Formula;
use serializability::NodeIx;
use serializability::numbers::node as node_of;
use session_history::NodeLine;
use std::alloc::{AllocError, Global};

/// The order of nodes 1 to n that a satisfying assignment stands for: the node at place p has p
/// nodes before it, node 0 counted.
pub fn positions(alloc: Global, formula: &Formula, values: &[bool]) -> Result<NodeLine, DecodeFault>
    ensures satisfied { OnOk result (Satisfies values.now (cnf_of formula.now)) }
    ensures order { IfOk result
        (λ order. IsDecoded formula.now.nodes (before (cnf_of formula.now) values.now) order) }
    ensures fault { IfErr result (IsDecodeFault formula.now values.now) }
{
    if values.len() != formula.vars() {
        return Err(DecodeFault::WrongLength);
    }
    if let Err(clause) = formula.satisfied_by(values) {
        return Err(DecodeFault::NotAModel { clause });
    }
    Ok(order_of(alloc, formula, values)?)
}

/// The order that a satisfying assignment stands for.
fn order_of(alloc: Global, formula: &Formula, values: &[bool]) -> Result<NodeLine, AllocError>
    requires satisfied { Satisfies values.now (cnf_of formula.now) }
    ensures order { IfOk result
        (λ order. IsDecoded formula.now.nodes (before (cnf_of formula.now) values.now) order) }
{
    let n = formula.nodes();
    let mut order = vec![in alloc; NodeIx::INITIAL; n]?;
    for number in 1..n + 1 {
        let node = node_of(number);
        let place = nodes_before(formula, values, node);
        order[place - 1] = node;
    }
    Ok(NodeLine::from_nodes(order))
}

/// How many of nodes 0 to n the assignment puts before this one, which is not node 0.
fn nodes_before(formula: &Formula, values: &[bool], node: NodeIx) -> usize
    requires satisfied { Satisfies values.now (cnf_of formula.now) }
    requires within { (0 < node) × (node ≤ formula.now.nodes) }
    ensures count { result ≡ count_by (λ u. before (cnf_of formula.now) values.now u node)
        (range_with_len 0 (formula.now.nodes + 1)) }
    ensures within { (0 < result) × (result ≤ formula.now.nodes) }
{
    let mut count = 0;
    for number in 0..formula.nodes() + 1 {
        if formula.stands_before(values, node_of(number), node) {
            count += 1;
        }
    }
    count
}
