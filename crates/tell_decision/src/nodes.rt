//! The nodes on which it rests that a history has no order: those of an anomaly, of a cycle, of the
//! forced steps and of the tree of a search. No contract speaks of what is given.

ghost use Rattle.deciding.specs.Decides.{IsDecided};

use crate::cycles::{dead_items, tree_items};
use deciding::Decision;
use serializability::{Anomaly, NodeIx};
use session_history::History;
use std::alloc::{AllocError, Global};
use tell_reasons::{ChainOrder, Why};
use tell_steps::Item;

/// Adds the nodes of a chain of the key from this one back to its head.
fn put_chain(
    nodes: &mut Vec<NodeIx>,
    history: &History,
    key: usize,
    last: NodeIx,
) -> Result<(), AllocError> {
    let mut node = last;
    for _ in 0..history.committed() {
        nodes.push(node)?;
        if key >= history.keys() {
            break;
        }
        let Some(before) = history.source_of(node, key) else {
            break;
        };
        node = before;
    }
    Ok(())
}

/// Adds the heads of two chains, and the first one up to this node.
fn put_order(
    nodes: &mut Vec<NodeIx>,
    history: &History,
    order: ChainOrder,
    last: NodeIx,
) -> Result<(), AllocError> {
    nodes.push(order.first)?;
    nodes.push(order.second)?;
    put_chain(nodes, history, order.key, last)
}

/// Adds the nodes of an item.
fn put_item(nodes: &mut Vec<NodeIx>, history: &History, item: &Item) -> Result<(), AllocError> {
    match item {
        Item::Step {
            order,
            source,
            target,
            ..
        } => {
            nodes.push(*target)?;
            put_order(nodes, history, *order, *source)
        }
        Item::Edge { first, second, why } => {
            nodes.push(*first)?;
            nodes.push(*second)?;
            match why {
                Why::Known(_) => Ok(()),
                Why::Forced { order, .. } | Why::Chosen(order) => {
                    put_order(nodes, history, *order, *first)
                }
            }
        }
        Item::Decided { order, .. } => put_order(nodes, history, *order, order.first),
        Item::Cycle { .. } | Item::Leaves { .. } => Ok(()),
    }
}

/// Adds the nodes of items.
fn put_items(nodes: &mut Vec<NodeIx>, history: &History, items: &[Item]) -> Result<(), AllocError> {
    for item in items {
        put_item(nodes, history, item)?;
    }
    Ok(())
}

/// The nodes of an anomaly.
fn anomaly_nodes(alloc: Global, anomaly: Anomaly) -> Result<Vec<NodeIx>, AllocError> {
    let mut nodes = Vec::new(alloc);
    match anomaly {
        Anomaly::Read { node, .. } => nodes.push(node)?,
        Anomaly::LostUpdate { first, second, .. } => {
            nodes.push(first)?;
            nodes.push(second)?;
        }
    }
    Ok(nodes)
}

/// These nodes, once each.
fn once_each(
    alloc: Global,
    history: &History,
    nodes: &[NodeIx],
) -> Result<Vec<NodeIx>, AllocError> {
    let mut marks = vec![in alloc; false; history.committed().saturating_add(1)]?;
    let mut single = Vec::new(alloc);
    for node in nodes {
        if let Some(mark) = marks.get_mut(node.get())
            && !*mark
        {
            *mark = true;
            single.push(*node)?;
        }
    }
    Ok(single)
}

/// The nodes on which it rests that a history has no order, by a decision of it, once each; none,
/// where it is not decided that it has none.
pub fn nodes_of(
    alloc: Global,
    history: &History,
    decision: &Decision,
) -> Result<Vec<NodeIx>, AllocError>
    requires decided { IsDecided history.now decision.now }
{
    let _invariant = history.committed();
    let items = match decision {
        Decision::Anomalous(anomaly) => return anomaly_nodes(alloc, *anomaly),
        Decision::Cyclic(line) => return line.to_vec(alloc),
        Decision::Dead(ledger) => dead_items(alloc, history, ledger)?,
        Decision::Refuted { reduced, tree } => tree_items(alloc, history, reduced, tree)?,
        Decision::Serial(_) | Decision::Spent { .. } => Vec::new(alloc),
    };
    let mut nodes = Vec::new(alloc);
    put_items(&mut nodes, history, &items)?;
    once_each(alloc, history, &nodes)
}
