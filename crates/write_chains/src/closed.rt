//! Chains that close on themselves.

ghost use Rattle.std.specs.Prelude.{◌≡◌, ◌+◌, ◌<◌, ◌≤◌, ℕ, true, length, None, Some, IfOk, IfSome};
ghost use Rattle.std.specs.Prelude.{IfNone, MatchOption, All};
ghost use Rattle.serializability.specs.Log.{Log};
ghost use Rattle.serializability.specs.Reads.{IsClean};
ghost use Rattle.serializability.specs.Polygraph.{source};
ghost use Rattle.chain_laws.specs.Chains.{writes, IsClosedChain, NoneCloses};
ghost use Rattle.log_definitions.specs.Numbers.{log_of};
ghost use Rattle.write_chains.specs.Walks.{IsOpen, AreOpen};

use serializability::NodeIx;
use session_history::History;
use std::alloc::{AllocError, Global};

/// The source of a node that is not known to be open. There is none where the node is open.
fn source_unless_open(history: &History, key: usize, marks: &[bool], node: NodeIx) -> Option<NodeIx>
    requires key { key < (log_of history.now).keys }
    requires node { node ≤ (log_of history.now).nodes }
    requires marks { AreOpen (log_of history.now) key marks.now }
    ensures source { MatchOption result (IsOpen (log_of history.now) key node)
        (λ u. source (log_of history.now) node key ≡ Some u) }
{
    if marks[node.get()] {
        None
    } else {
        history.source_of(node, key)
    }
}

/// Walks from a writer back along the sources of the key. Where that comes to a node that is open,
/// all nodes on the way are open, and are marked. Where it comes back to the writer, the way is a
/// chain that closes on itself.
fn walk_back(
    alloc: Global,
    history: &History,
    key: usize,
    marks: &mut [bool],
    writer: NodeIx,
) -> Result<Option<Vec<NodeIx>>, AllocError>
    requires clean { IsClean (log_of history.now) }
    requires key { key < (log_of history.now).keys }
    requires writer { (0 < writer) × (writer ≤ (log_of history.now).nodes)
        × (writes (log_of history.now) key writer ≡ true) }
    requires marks { AreOpen (log_of history.now) key marks.old }
    ensures marks { AreOpen (log_of history.now) key marks.new }
    ensures is_open { IfOk result (λ found. IfNone found (IsOpen (log_of history.now) key writer)) }
    ensures closed { IfOk result (λ found. IfSome found
        (λ line. IsClosedChain (log_of history.now) key line.items)) }
{
    let mut line = vec![in alloc; writer]?;
    let mut first = writer;
    while let Some(source) = source_unless_open(history, key, marks, first) {
        line.push(source)?;
        if source == writer {
            line.reverse();
            return Ok(Some(line));
        }
        first = source;
    }
    mark(marks, &line);
    Ok(None)
}

/// Marks these nodes, which are open.
fn mark(marks: &mut [bool], nodes: &[NodeIx])
    requires within { All (λ node. node < length marks.old) nodes.now }
    ensures marks { (log : Log) (x : ℕ) → AreOpen log x marks.old →
        All (IsOpen log x) nodes.now → AreOpen log x marks.new }
{
    for node in nodes {
        marks[node.get()] = true;
    }
}

/// A chain of the key that closes on itself, where there is one.
fn closed_chain_of(
    alloc: Global,
    history: &History,
    key: usize,
) -> Result<Option<Vec<NodeIx>>, AllocError>
    requires clean { IsClean (log_of history.now) }
    requires key { key < (log_of history.now).keys }
    ensures closed { IfOk result (λ found. MatchOption found (NoneCloses (log_of history.now) key)
        (λ line. IsClosedChain (log_of history.now) key line.items)) }
{
    let mut table = vec![in alloc; false; history.committed() + 1]?;
    let marks = table.as_mut_slice();
    for writer in history.writers_of(key) {
        if let Some(line) = walk_back(alloc, history, key, marks, *writer)? {
            return Ok(Some(line));
        }
    }
    Ok(None)
}

/// A chain of some key that closes on itself, where there is one.
pub fn closed_chain(alloc: Global, history: &History) -> Result<Option<Vec<NodeIx>>, AllocError>
    requires clean { IsClean (log_of history.now) }
    ensures closed { IfOk result (λ found. MatchOption found
        ((x : ℕ) → NoneCloses (log_of history.now) x)
        (λ line. (x : ℕ) × ((x < (log_of history.now).keys)
        × IsClosedChain (log_of history.now) x line.items))) }
{
    for key in 0..history.keys() {
        if let Some(line) = closed_chain_of(alloc, history, key)? {
            return Ok(Some(line));
        }
    }
    Ok(None)
}
