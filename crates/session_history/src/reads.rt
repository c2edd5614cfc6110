//! What each node reads, and from which node.

ghost use Rattle.std.specs.Prelude.{◌≡◌, ℕ, ◌<◌, ◌≤◌, ◌==◌, List, [], ◌∷◌, ◌++◌, length, map, All};
ghost use Rattle.std.specs.Prelude.{OnOk, IfOk, if◌then◌else◌};
ghost use Rattle.session_history.specs.Written.{entry_of};
ghost use Rattle.session_history.specs.Rows.{reader_view};
ghost use Rattle.session_history.specs.Sources.{AreReads, final_node, found_by, found_in};
ghost use Rattle.session_history.specs.Sources.{readers_of};

use crate::rows::{KeyRow, Reader};
use crate::writes::Writes;
use serializability::NodeIx;
use std::alloc::{AllocError, Global};

/// A key that a node reads externally, and the node that it reads it from.
#[derive(Clone, Copy)]
pub struct ReadFrom {
    pub key: usize,
    pub source: NodeIx,
}

/// No reads, for so many nodes.
fn no_reads(alloc: Global, nodes: usize) -> Result<Vec<Vec<ReadFrom>>, AllocError>
    ensures { IfOk result (λ reads. AreReads nodes (λ _. []) reads.items) }
{
    let mut reads = Vec::with_capacity(alloc, nodes)?;
    for i in 0..nodes {
        reads.push(Vec::new(alloc))?;
    }
    Ok(reads)
}

/// Adds what this node reads.
fn add_read(reads: &mut Vec<Vec<ReadFrom>>, node: NodeIx, read: ReadFrom) -> Result<(), AllocError>
    requires low { 0 < node }
    requires high { node ≤ length reads.old.items }
    ensures count { length reads.new.items ≡ length reads.old.items }
    ensures added { OnOk result ((n : ℕ) (g : ℕ → List (ℕ × ℕ)) → AreReads n g reads.old.items →
        AreReads n (λ v. g v ++ (if node == v then (read.key, read.source) ∷ [] else []))
        reads.new.items) }
{
    let own = &mut reads[node.get() - 1];
    own.push(read)?;
    Ok(())
}

/// Adds the reads of a key.
fn add_key(
    reads: &mut Vec<Vec<ReadFrom>>,
    key: usize,
    readers: &[Reader],
    writes: &Writes,
) -> Result<(), AllocError>
    requires { All (λ r. (0 < r.node) × (r.node ≤ length reads.old.items)) readers.now }
    ensures count { length reads.new.items ≡ length reads.old.items }
    ensures added { OnOk result ((n : ℕ) (g : ℕ → List (ℕ × ℕ)) → AreReads n g reads.old.items →
        AreReads n (λ v. g v
        ++ found_by key (λ w. final_node (entry_of writes.now w) key) v
        (map reader_view readers.now))
        reads.new.items) }
{
    for reader in readers {
        let source = writes.final_writer(key, reader.wid);
        add_read(reads, reader.node, ReadFrom { key, source })?;
    }
    Ok(())
}

/// The reads of each node, by key.
pub fn reads_of(
    alloc: Global,
    nodes: usize,
    rows: &[KeyRow],
    writes: &Writes,
) -> Result<Vec<Vec<ReadFrom>>, AllocError>
    requires { All (λ row. All (λ r. (0 < r.node) × (r.node ≤ nodes)) row.readers.items) rows.now }
    ensures { IfOk result (λ reads. AreReads nodes
        (λ v. found_in 0 (λ x w. final_node (entry_of writes.now w) x) v (map readers_of rows.now))
        reads.items) }
{
    let mut reads = no_reads(alloc, nodes)?;
    for key in 0..rows.len() {
        add_key(&mut reads, key, &rows[key].readers, writes)?;
    }
    Ok(reads)
}
