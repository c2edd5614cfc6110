//! The order of a cube's nodes.

ghost use Rattle.std.specs.Prelude.{◌≡◌, ◌+◌, IfOk, map};
ghost use Rattle.std.specs.List.{All, range_with_len};
ghost use Rattle.branching.specs.Orders.{unreached, IsOrderByReach};

use reach_rows::Rows;
use serializability::NodeIx;
use serializability::numbers::node as node_of;
use std::alloc::{AllocError, Global};

/// A node, and how many nodes it does not reach.
#[derive(Clone, Copy)]
struct Ranked {
    unreached: usize,
    node: NodeIx,
}

/// Nodes 1 to n by how many nodes they reach: most first, and of several that reach as many the one
/// of least number (shown by tests).
pub fn order_by_reach(alloc: Global, rows: &Rows) -> Result<Vec<NodeIx>, AllocError>
    ensures order { IfOk result (λ order. IsOrderByReach rows.now order.items) }
{
    let mut all = all_ranked(alloc, rows)?;
    all.sort_by_key(|entry| entry.unreached)?;
    nodes_of(alloc, &all)
}

fn nodes_of(alloc: Global, all: &[Ranked]) -> Result<Vec<NodeIx>, AllocError>
    ensures nodes { IfOk result (λ nodes. nodes.items ≡ map (λ x. x.node) all.now) }
{
    all.iter().map(|entry| entry.node).collect(alloc)
}

/// Nodes 1 to n, each with how many nodes it does not reach.
fn all_ranked(alloc: Global, rows: &Rows) -> Result<Vec<Ranked>, AllocError>
    ensures nodes { IfOk result (λ all. map (λ x. x.node) all.items
        ≡ range_with_len 1 rows.now.nodes) }
    ensures counts { IfOk result (λ all. All (λ x. x.unreached ≡ unreached rows.now x.node)
        all.items) }
{
    let nodes = rows.nodes();
    let mut all = Vec::with_capacity(alloc, nodes)?;
    for number in 1..nodes + 1 {
        let node = node_of(number);
        let unreached = unreached(rows, node);
        all.push(Ranked { unreached, node })?;
    }
    Ok(all)
}

/// How many of nodes 0 to n a node does not reach.
fn unreached(rows: &Rows, node: NodeIx) -> usize
    ensures count { result ≡ unreached rows.now node }
{
    let mut count = 0;
    for number in 0..rows.nodes() + 1 {
        if !rows.reaches(node, node_of(number)) {
            count += 1;
        }
    }
    count
}
