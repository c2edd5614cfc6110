//! The external reads of each key.

ghost use Rattle.std.specs.Prelude.{◌≡◌, ◌<◌, ◌++◌, ℕ, List, length, All, IfOk, OnOk};
ghost use Rattle.log_definitions.specs.Numbers.{log_of};
ghost use Rattle.write_chains.specs.Lists.{AreLists};
ghost use Rattle.write_chains.specs.Readings.{readings_by, readings_in};
ghost use Rattle.write_chains.specs.declared.readings.Reading.{Reading};

use crate::lists::{empty_lists, push_at};
use serializability::NodeIx;
use serializability::numbers::node;
use session_history::{History, ReadFrom};
use std::alloc::{AllocError, Global};

/// A node that reads a key externally, and the node that it reads it from.
#[derive(Clone, Copy)]
pub struct Reading {
    pub reader: NodeIx,
    pub source: NodeIx,
}

/// Adds what a node reads to the lists of the keys.
fn add_reads(
    readings: &mut [Vec<Reading>],
    reader: NodeIx,
    reads: &[ReadFrom],
) -> Result<(), AllocError>
    requires keys { All (λ read. read.key < length readings.old) reads.now }
    ensures added { OnOk result ((n : ℕ) (f : ℕ → List Reading) → AreLists n f readings.old →
        AreLists n (λ x. f x ++ readings_by reader x reads.now) readings.new) }
{
    for read in reads {
        let source = read.source;
        push_at(readings, read.key, Reading { reader, source })?;
    }
    Ok(())
}

/// The external reads of each key, ascending by reader.
pub fn readings_of(alloc: Global, history: &History) -> Result<Vec<Vec<Reading>>, AllocError>
    ensures readings { IfOk result (λ readings. AreLists (log_of history.now).keys
        (readings_in (log_of history.now)) readings.items) }
{
    let mut readings = empty_lists(alloc, history.keys())?;
    let lists = readings.as_mut_slice();
    for number in 1..history.committed() + 1 {
        let reader = node(number);
        add_reads(lists, reader, history.reads_of(reader))?;
    }
    Ok(readings)
}
