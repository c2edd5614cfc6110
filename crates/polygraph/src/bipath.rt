//! The bipaths of a history.

ghost use Rattle.std.specs.Prelude.{◌≡◌, ◌≤◌, ◌++◌, length, map, count_by, IfOk, IfErr, OnOk};
ghost use Rattle.std.specs.List.{filter};
ghost use Rattle.serializability.specs.Reads.{IsClean};
ghost use Rattle.serializability.specs.Polygraph as spec;
ghost use Rattle.serializability.specs.Polygraph.{bipath_polygraph, rival_choice};
ghost use Rattle.log_definitions.specs.Numbers.{log_of};
ghost use Rattle.polygraph.specs.Rivals.{is_other};
ghost use Rattle.polygraph.specs.Limits.{IsPolyFault};
ghost use Rattle.polygraph.specs.declared.index.TheConstants.{MAX_CHOICES};

use crate::choice::Choice;
use crate::compact::{Bipath, BipathGraph};
use crate::fault::PolyFault;
use crate::index::MAX_CHOICES;
use crate::polygraph::Polygraph;
use known_graph::Known;
use reach_laws::Edge;
use serializability::NodeIx;
use serializability::numbers::node;
use session_history::History;
use std::alloc::{AllocError, Global};

/// Whether a writer is neither the source nor the reader.
fn is_other(writer: NodeIx, source: NodeIx, reader: NodeIx) -> bool
    ensures value { result ≡ is_other source reader writer }
{
    writer != source && writer != reader
}

/// A rival stands before the source, or the reader stands before the rival.
fn bipath(source: NodeIx, reader: NodeIx, rival: NodeIx) -> Bipath
    ensures choice { result ≡ rival_choice source reader rival }
{
    let before_source = Edge::new(rival, source);
    let behind_reader = Edge::new(reader, rival);
    Bipath::new(before_source, behind_reader)
}

/// How many of the writers of a key are neither the reader nor its source.
fn rival_count(writers: &[NodeIx], source: NodeIx, reader: NodeIx) -> usize
    ensures count { result ≡ count_by (is_other source reader) writers.now }
{
    writers
        .iter()
        .filter(|rival| is_other(**rival, source, reader))
        .count()
}

/// Adds the bipaths of a reader and a source.
fn add_rivals(
    choices: &mut Vec<Bipath>,
    writers: &[NodeIx],
    source: NodeIx,
    reader: NodeIx,
) -> Result<(), PolyFault>
    ensures ok { OnOk result (choices.new.items
        ≡ choices.old.items ++ map (rival_choice source reader)
        (filter (is_other source reader) writers.now)) }
    ensures fault { IfErr result (λ e. e ≡ PolyFault.Memory) }
{
    choices.extend(
        writers
            .iter()
            .filter(|rival| is_other(**rival, source, reader))
            .map(|rival| bipath(source, reader, *rival)),
    )?;
    Ok(())
}

/// The number of bipaths of a clean history.
fn bipath_count(history: &History) -> Result<usize, PolyFault>
    requires clean { IsClean (log_of history.now) }
    ensures count { IfOk result (λ k. k ≡ length (spec.bipaths (log_of history.now))) }
    ensures few { OnOk result (length (spec.bipaths (log_of history.now)) ≤ MAX_CHOICES) }
    ensures fault { IfErr result (IsPolyFault (spec.bipaths (log_of history.now))) }
{
    let end = history.committed() + 1;
    let mut count = 0;
    for number in 1..end {
        let reader = node(number);
        for read in history.reads_of(reader) {
            count += rival_count(history.writers_of(read.key), read.source, reader);
            if count > MAX_CHOICES {
                return Err(PolyFault::TooManyChoices);
            }
        }
    }
    Ok(count)
}

/// The bipaths of a clean history, by reader, key and rival.
fn choices_of(alloc: Global, history: &History) -> Result<Vec<Bipath>, PolyFault>
    requires clean { IsClean (log_of history.now) }
    ensures choices { IfOk result (λ c. c.items ≡ spec.bipaths (log_of history.now)) }
    ensures few { OnOk result (length (spec.bipaths (log_of history.now)) ≤ MAX_CHOICES) }
    ensures fault { IfErr result (IsPolyFault (spec.bipaths (log_of history.now))) }
{
    let mut choices = Vec::with_capacity(alloc, bipath_count(history)?)?;
    let end = history.committed() + 1;
    for number in 1..end {
        let reader = node(number);
        for read in history.reads_of(reader) {
            add_rivals(
                &mut choices,
                history.writers_of(read.key),
                read.source,
                reader,
            )?;
        }
    }
    Ok(choices)
}

/// The polygraph of a clean history: its arcs are known, and its bipaths are the choices, by
/// reader, key and rival.
///
/// It is refused with `TooManyChoices` where there are more than 100,000 bipaths, which are then
/// counted no further, and with `Memory` where memory was refused.
pub fn bipath_graph(alloc: Global, history: &History) -> Result<BipathGraph, PolyFault>
    requires clean { IsClean (log_of history.now) }
    ensures polygraph { IfOk result (λ p. p ≡ bipath_polygraph (log_of history.now)) }
    ensures few { OnOk result (length (spec.bipaths (log_of history.now)) ≤ MAX_CHOICES) }
    ensures fault { IfErr result (IsPolyFault (spec.bipaths (log_of history.now))) }
{
    let bipaths = choices_of(alloc, history)?;
    let known = Known::of(alloc, history)?;
    Ok(BipathGraph::new(known, bipaths))
}

/// The same choices, each with its sides as lists.
fn with_lists(alloc: Global, bipaths: &[Bipath]) -> Result<Vec<Choice>, AllocError>
    ensures same { IfOk result (λ listed. listed.items ≡ bipaths.now) }
{
    let mut listed = Vec::with_capacity(alloc, bipaths.len())?;
    for bipath in bipaths {
        listed.push(bipath.choice())?;
    }
    Ok(listed)
}

/// The same polygraph, with each side as a list of edges. Its faults are the same.
pub fn bipaths(alloc: Global, history: &History) -> Result<Polygraph, PolyFault>
    requires clean { IsClean (log_of history.now) }
    ensures polygraph { IfOk result (λ p. p ≡ bipath_polygraph (log_of history.now)) }
    ensures few { OnOk result (length (spec.bipaths (log_of history.now)) ≤ MAX_CHOICES) }
    ensures fault { IfErr result (IsPolyFault (spec.bipaths (log_of history.now))) }
{
    let (known, bipaths) = bipath_graph(alloc, history)?.into_parts();
    let choices = with_lists(alloc, &bipaths)?;
    Ok(Polygraph::new(known, choices))
}
