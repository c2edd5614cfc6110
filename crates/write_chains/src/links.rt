//! What joins the writers of a key.

ghost use Rattle.std.specs.Prelude.{◌≡◌, ◌+◌, ◌<◌, All, IfOk};
ghost use Rattle.serializability.specs.Reads.{IsClean};
ghost use Rattle.chain_laws.specs.Chains.{next};
ghost use Rattle.log_definitions.specs.Numbers.{log_of};
ghost use Rattle.write_chains.specs.Lists.{AreLists, IsTable};
ghost use Rattle.write_chains.specs.Readings.{readings_in, readers_among};
ghost use Rattle.write_chains.specs.Views.{AreLinks};

use crate::lists::{empty_lists, push_at};
use crate::readings::Reading;
use serializability::NodeIx;
use session_history::History;
use std::alloc::{AllocError, Global};

/// Of each node of a history, the writer of a key that stands behind it, and the nodes that read
/// the key from it.
#[derive(Drop)]
pub struct Links {
    pub next: Vec<Option<NodeIx>>,
    pub readers: Vec<Vec<NodeIx>>,
}

/// The writer of the key behind each node.
fn next_of(alloc: Global, history: &History, key: usize) -> Result<Vec<Option<NodeIx>>, AllocError>
    requires clean { IsClean (log_of history.now) }
    requires key { key < (log_of history.now).keys }
    ensures next { IfOk result (λ table.
        IsTable (log_of history.now).nodes (next (log_of history.now) key) table.items) }
{
    let mut table = vec![in alloc; None; history.committed() + 1]?;
    for writer in history.writers_of(key) {
        if let Some(source) = history.source_of(*writer, key) {
            table[source.get()] = Some(*writer);
        }
    }
    Ok(table)
}

/// The readers of each of so many nodes.
fn readers_of(
    alloc: Global,
    count: usize,
    readings: &[Reading],
) -> Result<Vec<Vec<NodeIx>>, AllocError>
    requires within { All (λ reading. reading.source < count) readings.now }
    ensures readers { IfOk result (λ readers.
        AreLists count (λ w. readers_among w readings.now) readers.items) }
{
    let mut readers = empty_lists(alloc, count)?;
    let lists = readers.as_mut_slice();
    for reading in readings {
        push_at(lists, reading.source.get(), reading.reader)?;
    }
    Ok(readers)
}

/// The links of a key, of which these are the readings.
pub fn links_of(
    alloc: Global,
    history: &History,
    key: usize,
    readings: &[Reading],
) -> Result<Links, AllocError>
    requires clean { IsClean (log_of history.now) }
    requires key { key < (log_of history.now).keys }
    requires readings { readings.now ≡ readings_in (log_of history.now) key }
    ensures links { IfOk result (AreLinks (log_of history.now) key) }
{
    Ok(Links {
        next: next_of(alloc, history, key)?,
        readers: readers_of(alloc, history.committed() + 1, readings)?,
    })
}
