//! The readers of the nodes that a key is read from.

ghost use Rattle.std.specs.Prelude.{◌≡◌, ◌+◌, ◌<◌, ◌≤◌, ℕ, List, length, map, IfOk};
ghost use Rattle.session_history.specs.Tables.{pairs};
ghost use Rattle.write_chains.specs.Lists.{AreLists, unless_empty};
ghost use Rattle.write_chains.specs.Views.{group_view};

use serializability::NodeIx;
use serializability::numbers::node;
use std::alloc::{AllocError, Global};

/// The nodes that read a key from one node, ascending.
#[derive(Drop)]
pub struct Group {
    pub source: NodeIx,
    pub readers: Vec<NodeIx>,
}

/// The lists of so many nodes that are not empty, by node.
pub fn groups_of(
    alloc: Global,
    count: usize,
    lists: &[Vec<NodeIx>],
) -> Result<Vec<Group>, AllocError>
    requires count { length lists.now ≡ count }
    requires few { count ≤ 1001 }
    ensures groups { IfOk result (λ groups. (n : ℕ) (f : ℕ → List ℕ) → AreLists n f lists.now →
        map group_view groups.items ≡ pairs (λ v. unless_empty (f v)) 0 n) }
{
    let mut groups = Vec::new(alloc);
    for number in 0..count {
        let readers = &lists[number];
        if !readers.is_empty() {
            groups.push(Group {
                source: node(number),
                readers: Vec::from_slice(alloc, readers)?,
            })?;
        }
    }
    Ok(groups)
}

/// The readers of a node, of which there may be none.
pub fn readers_in<'a>(groups: &'a [Group], node: NodeIx) -> &'a [NodeIx]
    ensures readers { (n : ℕ) (f : ℕ → List ℕ) → node < n →
        map group_view groups.now ≡ pairs (λ v. unless_empty (f v)) 0 n → result.now ≡ f node }
{
    match groups.binary_search_by_key(&node.get(), |group| group.source.get()) {
        Ok(place) => &groups[place].readers,
        Err(_) => &[],
    }
}
