//! The boxes of a graph, or lines: transactions, with those of their operations that the explanation
//! names.

ghost use Rattle.std.specs.Prelude.{◌≡◌, ◌++◌, length, OnOk, IfOk};
ghost use Rattle.std.specs.List.{filter, list_any};
ghost use Rattle.log_definitions.specs.Numbers.{log_of};
ghost use Rattle.tell_texts.specs.Graphs as spec;

use log_lines::PlacedHistory as Log;
use reasons::Reason;
use serializability::NodeIx;
use serializability::numbers::node as node_of;
use session_history::History;
use std::alloc::{AllocError, Global};
use tell_reasons::{Said, Why, left_at, read_at, say};
use tell_steps::Item;

/// How a transaction is shown.
#[derive(Clone, Copy)]
pub enum Look {
    /// As a box of a graph.
    Box,
    /// As a line.
    Line,
}

/// Whether an item is an edge of a node.
fn is_edge_of(node: NodeIx, item: Item) -> bool
    ensures { result ≡ spec.is_edge_of node item }
{
    match item {
        Item::Edge { first, second, .. } => {
            first.get() == node.get() || second.get() == node.get()
        }
        _ => false,
    }
}

/// The items that are edges of a node.
fn edges_of(alloc: Global, items: &[Item], node: NodeIx) -> Result<Vec<Item>, AllocError>
    ensures edges { IfOk result (λ edges. edges.items ≡ filter (spec.is_edge_of node) items.now) }
{
    items
        .iter()
        .copied()
        .filter(|item| is_edge_of(node, *item))
        .collect(alloc)
}

/// The operations that a reason names, of the first node and of the second.
fn reason_ops(reason: Reason) -> (Option<usize>, Option<usize>)
    ensures { result ≡ spec.reason_ops reason }
{
    match reason {
        Reason::Read { written, read } => (Some(written), Some(read)),
        Reason::Overwritten { read, overwrites } => (Some(read), Some(overwrites)),
        Reason::Initial { read, begins } => (Some(read), Some(begins)),
        Reason::Session | Reason::Moments => (None, None),
    }
}

/// The operation by which a node has a version of a key: its last write of it, or else its first
/// read.
fn held_at(history: &History, key: usize, node: NodeIx) -> Option<usize>
    ensures { result ≡ spec.held_at history.now key node }
{
    left_at(history, key, node).or(read_at(history, key, node))
}

/// The operations that an order of two versions names: what the first node has of the key, and what
/// the second one leaves.
fn version_ops(
    history: &History,
    first: NodeIx,
    second: NodeIx,
    key: usize,
) -> (Option<usize>, Option<usize>)
    ensures { result ≡ spec.version_ops history.now first second key }
{
    (held_at(history, key, first), left_at(history, key, second))
}

/// The operations that it names why one node stands before another, of the first and of the second.
fn why_ops(
    history: &History,
    first: NodeIx,
    second: NodeIx,
    why: Why,
) -> (Option<usize>, Option<usize>)
    ensures { result ≡ spec.why_ops history.now first second why }
{
    match why {
        Why::Known(reason) => reason_ops(reason),
        Why::Forced { order, number: _ } => version_ops(history, first, second, order.key),
        Why::Chosen(order) => version_ops(history, first, second, order.key),
    }
}

/// Whether this operation of this node is an operation of a node.
fn is_op(node: NodeIx, op: usize, of: NodeIx, named: Option<usize>) -> bool
    ensures { result ≡ spec.is_op node op of named }
{
    of.get() == node.get() && named.is_some_and(|it| it == op)
}

/// Whether an item names an operation of a node.
fn names(history: &History, item: Item, node: NodeIx, op: usize) -> bool
    ensures { result ≡ spec.names history.now node op item }
{
    match item {
        Item::Edge { first, second, why } => {
            let (one, other) = why_ops(history, first, second, why);
            is_op(node, op, first, one) || is_op(node, op, second, other)
        }
        _ => false,
    }
}

/// Whether one of these items names an operation of a node.
fn one_names(history: &History, items: &[Item], node: NodeIx, op: usize) -> bool
    ensures { result ≡ list_any (spec.names history.now node op) items.now }
{
    items.iter().any(|item| names(history, *item, node, op))
}

/// What stands before an operation.
fn before_op(look: Look) -> &'static [u8]
    ensures text { result.now ≡ spec.before_op look }
{
    match look {
        Look::Box => b"\\n",
        Look::Line => b"  ",
    }
}

/// Appends an operation and its line, where one of these items names it.
fn put_op_label(
    out: &mut Vec<u8>,
    look: Look,
    log: &Log<'_>,
    items: &[Item],
    node: NodeIx,
    op: usize,
) -> Said
    ensures text { OnOk result (out.new.items
        ≡ out.old.items ++ spec.op_label look log.now items.now node op) }
{
    if one_names(log.history, items, node, op) {
        say!(out, log; Text(before_op(look)), Listed(node, op), AtLine(node, op))
    } else {
        Ok(())
    }
}

/// Appends the labels of the operations of a node that these items name.
#[tactic(auto, using(std::proofs::lemmas::Grind::common_steps, crate::proofs::Pieces::labels_more))]
fn put_op_labels(out: &mut Vec<u8>, look: Look, log: &Log<'_>, items: &[Item], node: NodeIx) -> Said
    ensures text { OnOk result (out.new.items ≡ out.old.items ++ spec.op_labels look log.now
        items.now node (length ((log_of log.now.history.now).ops node))) }
{
    for op in 0..log.history.events_of(node).len() {
        put_op_label(out, look, log, items, node, op)?;
    }
    Ok(())
}

/// Appends the box of a node with these edges, where there are any.
fn put_box(out: &mut Vec<u8>, look: Look, log: &Log<'_>, node: NodeIx, edges: &[Item]) -> Said
    ensures text { OnOk result (out.new.items
        ≡ out.old.items ++ spec.box look log.now node edges.now) }
{
    match (edges, look) {
        ([], _) => Ok(()),
        ([_, ..], Look::Box) => {
            say!(out, log; Text(b"\""), Node(node), Text(b"\" [label=\""), Node(node))?;
            put_op_labels(out, look, log, edges, node)?;
            say!(out, log; Text(b"\"];\n"))
        }
        ([_, ..], Look::Line) => {
            say!(out, log; Text(b"    "), Node(node))?;
            put_op_labels(out, look, log, edges, node)?;
            say!(out, log; Text(b"\n"))
        }
    }
}

/// Appends the boxes of the nodes that take part.
pub fn put_boxes(
    alloc: Global,
    out: &mut Vec<u8>,
    look: Look,
    log: &Log<'_>,
    items: &[Item],
) -> Said
    ensures text { OnOk result (out.new.items ≡ out.old.items
        ++ spec.boxes look log.now items.now (log_of log.now.history.now).nodes) }
{
    for before in 0..log.history.committed() {
        let node = node_of(before + 1);
        let edges = edges_of(alloc, items, node)?;
        put_box(out, look, log, node, &edges)?;
    }
    Ok(())
}

/// Appends a line for each transaction that takes part, with those of its operations that reasons
/// name.
pub fn put_table(alloc: Global, out: &mut Vec<u8>, log: &Log<'_>, items: &[Item]) -> Said
    ensures text { OnOk result (out.new.items
        ≡ out.old.items ++ spec.table_text log.now items.now) }
{
    say!(out, log; Text(b"the reads and writes that matter:\n"))?;
    put_boxes(alloc, out, Look::Line, log, items)
}
