//! Nodes that a search of a graph finds.

ghost use Rattle.std.specs.Prelude.{◌≡◌, ℕ, ◌+◌, ◌^◌, ◌<◌, ◌≤◌, ◌++◌, ◌||◌, true, List, length};
ghost use Rattle.std.specs.Prelude.{IfOk, OnOk};
ghost use Rattle.std.specs.List.{Contains};
ghost use Rattle.std.specs.Int.{bit_at};
ghost use Rattle.serializability.specs.Polygraph.{Edge};
ghost use Rattle.reach_laws.specs.Reach.{IsWalk};
ghost use Rattle.known_graph.specs.Bits.{bit_of};
ghost use Rattle.known_graph.specs.Tree.{reached_from, word_numbers, fresh_numbers, node_at};
ghost use Rattle.known_graph.specs.Tree.{from_at, IsTree};
ghost use Rattle.serializability.specs.declared.node.TheConstants.{MAX_NODES};

use serializability::NodeIx;
use serializability::numbers::node;
use std::alloc::{AllocError, Global};

/// A node that was found, and the place in the list of found nodes from which it was; of the first
/// it has no meaning.
#[derive(Clone, Copy)]
pub struct Reached {
    pub node: NodeIx,
    pub from: usize,
}

/// Adds the nodes of a word's bits, ascending.
fn add_word(
    found: &mut Vec<Reached>,
    word: u64,
    first: usize,
    from: usize,
) -> Result<(), AllocError>
    requires nodes { (b : ℕ) → b < 64 → bit_at word b ≡ 1 → first + b ≤ MAX_NODES }
    ensures added { OnOk result (found.new.items
        ≡ found.old.items ++ reached_from from (word_numbers first word)) }
{
    let mut rest = word;
    while rest != 0 {
        let bit = rest.trailing_zeros();
        found.push(Reached {
            node: node(first + bit as usize),
            from,
        })?;
        rest &= !(1 << bit);
    }
    Ok(())
}

/// Adds the nodes of a row that were not seen, ascending, and marks the row's as seen.
pub fn add_row(
    found: &mut Vec<Reached>,
    seen: &mut [u64],
    row: &[u64],
    from: usize,
) -> Result<(), AllocError>
    requires len { length seen.old ≡ length row.now }
    requires short { length row.now < 2 ^ 32 }
    requires nodes { (v : ℕ) → bit_of row.now v ≡ true → v ≤ MAX_NODES }
    ensures added { OnOk result (found.new.items
        ≡ found.old.items ++ reached_from from (fresh_numbers row.now seen.old)) }
    ensures seen { OnOk result ((v : ℕ) →
        bit_of seen.new v ≡ (bit_of seen.old v || bit_of row.now v)) }
    ensures len { length seen.new ≡ length seen.old }
{
    for i in 0..row.len() {
        let word = row[i];
        add_word(found, word & !seen[i], i * 64, from)?;
        seen[i] |= word;
    }
    Ok(())
}

/// The way to the node at a place, from the first one, and from there to an end.
pub fn line_to(
    alloc: Global,
    found: &[Reached],
    place: usize,
    end: NodeIx,
) -> Result<Vec<NodeIx>, AllocError>
    requires within { place < length found.now }
    requires earlier { (k : ℕ) → 0 < k → k < length found.now → from_at found.now k < k }
    ensures line { IfOk result (λ line. (edges : List Edge) → IsTree edges found.now →
        Contains edges (node_at found.now place, end) →
        IsWalk edges (node_at found.now 0) end line.items) }
{
    let mut line = vec![in alloc; end]?;
    let mut at = place;
    while at > 0 {
        line.push(found[at].node)?;
        at = found[at].from;
    }
    line.push(found[0].node)?;
    line.reverse();
    Ok(line)
}
