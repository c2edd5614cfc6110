//! Chains of a key.

ghost use Rattle.std.specs.Prelude.{◌≡◌, ◌+◌, ◌<◌, ℕ, List, Option, length, slice_index_or, None};
ghost use Rattle.std.specs.Prelude.{Some, IfOk};
ghost use Rattle.log_definitions.specs.Numbers.{log_of};
ghost use Rattle.write_chains.specs.Lists.{AreLists, IsTable};
ghost use Rattle.write_chains.specs.Walks.{end_by};
ghost use Rattle.write_chains.specs.Views.{AreLinks, FitTogether, chain_view};
ghost use Rattle.write_chains.specs.Held.{key_view, key_in};

use crate::groups::{Group, groups_of};
use crate::links::Links;
use serializability::NodeIx;
use session_history::History;
use std::alloc::{AllocError, Global};

/// A chain of a key: its first and its last writer, and the nodes that read the key from the last,
/// ascending.
#[derive(Drop)]
pub struct Chain {
    pub head: NodeIx,
    pub tail: NodeIx,
    pub readers: Vec<NodeIx>,
}

/// The chains of a key: that which begins with the initial transaction, and the others by their
/// heads. Beside them the readers of each node that the key is read from.
#[derive(Drop)]
pub struct KeyChains {
    pub initial: Chain,
    pub others: Vec<Chain>,
    pub readers: Vec<Group>,
}

/// The last writer of a chain: the end of the walk along the table.
fn tail_of(next: &[Option<NodeIx>], head: NodeIx) -> NodeIx
    requires head { head < length next.now }
    requires stays { (v u : ℕ) → slice_index_or next.now v None ≡ Some u → u < length next.now }
    ensures tail { (n : ℕ) (f : ℕ → Option ℕ) → IsTable n f next.now → result ≡ end_by f n head }
    ensures within { result < length next.now }
{
    let mut tail = head;
    for step in 1..next.len() {
        match next[tail.get()] {
            Some(behind) => tail = behind,
            None => return tail,
        }
    }
    tail
}

/// The chain that begins with this node.
fn chain_of(alloc: Global, links: &Links, head: NodeIx) -> Result<Chain, AllocError>
    requires head { head < length links.now.next.items }
    requires links { FitTogether links.now }
    ensures chain { IfOk result (λ c. (n : ℕ) (f : ℕ → Option ℕ) (g : ℕ → List ℕ) →
        IsTable n f links.now.next.items → AreLists (n + 1) g links.now.readers.items →
        chain_view c ≡ record {
          head = head;
          tail = end_by f n head;
          readers = g
              (end_by f n head);
        }) }
{
    let tail = tail_of(&links.next, head);
    let readers = Vec::from_slice(alloc, &links.readers[tail.get()])?;
    Ok(Chain {
        head,
        tail,
        readers,
    })
}

/// The chains of the key, which has these links.
pub fn key_chains(
    alloc: Global,
    history: &History,
    key: usize,
    links: &Links,
) -> Result<KeyChains, AllocError>
    requires key { key < (log_of history.now).keys }
    requires links { AreLinks (log_of history.now) key links.now }
    ensures chains { IfOk result (λ c. key_view c ≡ key_in (log_of history.now) key) }
{
    let initial = chain_of(alloc, links, NodeIx::INITIAL)?;
    let mut others = Vec::new(alloc);
    for writer in history.writers_of(key) {
        if history.source_of(*writer, key).is_none() {
            others.push(chain_of(alloc, links, *writer)?)?;
        }
    }
    let readers = groups_of(alloc, history.committed() + 1, &links.readers)?;
    Ok(KeyChains {
        initial,
        others,
        readers,
    })
}
