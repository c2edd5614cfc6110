//! Transactions that read all four pairs of two versions of a key and two of another. A version is
//! given by the node that wrote it.
//!
//! For each key and each version of it, the search looks at what is read beside any version of the
//! key.

ghost use Rattle.std.specs.Prelude.{◌≡◌, ◌≢◌, ◌<◌, ◌≤◌, ◌+◌, ◌++◌, min, Option, Some, IfOk, OnOk};
ghost use Rattle.std.specs.Prelude.{map, IfSome, IfNone};
ghost use Rattle.std.specs.BTreeMap.{get};
ghost use Rattle.serializability.specs.Reads.{IsClean};
ghost use Rattle.log_definitions.specs.Numbers.{log_of};
ghost use Rattle.session_history.specs.Tables.{sources_of};
ghost use Rattle.reason_laws.specs.Crossed.{AreCrossed};
ghost use Rattle.reason_laws.specs.Reasons.{IsNode};
ghost use Rattle.reasons.specs.Crossed as spec;
ghost use Rattle.reasons.specs.Crossed.{looks_at, looks, IsCrossedAnswer, pairs_by, ArePairs};
ghost use Rattle.reasons.specs.Crossed.{AreReaders, HasEntered, pair_cmp, triple_cmp, AmongPairs};
ghost use Rattle.reasons.specs.Crossed.{IsSquareOf, NoSquareOf, IsSquare, NoSquare};
ghost use Rattle.reasons.specs.Firsts.{HasSource, IsPairOf};
ghost use Rattle.reasons.specs.declared.crossed.Square.{Square as SquareView};

use crate::read::read_of;
use reason_laws::{Crossing, PairRead};
use serializability::NodeIx;
use serializability::numbers::node;
use session_history::History;
use std::alloc::{AllocError, Global};
use std::collections::BTreeMap;

/// How often a search for crossed reads looks at a read, at the most.
pub const MAX_LOOKS: usize = 20_000_000;

/// A node that reads a version of the key that is looked at, and a version of any key.
#[derive(Clone, Copy)]
pub struct Pair {
    pub reader: NodeIx,
    pub version: usize,
    pub key: usize,
    pub source: usize,
}

/// A version of another key that is read beside two versions of the key that is looked at: by
/// `one` beside the one, and by `two` beside the other.
#[derive(Clone, Copy)]
pub struct Shared {
    pub one: NodeIx,
    pub two: NodeIx,
    pub source: usize,
}

/// Two keys, and who reads which versions of them: `one_two` version one of the first key and
/// version two of the second.
#[derive(Clone, Copy)]
pub struct Square {
    pub first: usize,
    pub second: usize,
    pub one_one: NodeIx,
    pub one_two: NodeIx,
    pub two_one: NodeIx,
    pub two_two: NodeIx,
}

/// Appends what a reader of a version reads.
fn put_reads(
    pairs: &mut Vec<Pair>,
    history: &History,
    reader: NodeIx,
    version: NodeIx,
) -> Result<(), AllocError>
    ensures put { OnOk result (pairs.new.items
        ≡ pairs.old.items ++ pairs_by reader version (sources_of (log_of history.now) reader)) }
{
    let reads = history.reads_of(reader);
    for read in reads {
        pairs.push(Pair {
            reader,
            version: version.get(),
            key: read.key,
            source: read.source.get(),
        })?;
    }
    Ok(())
}

/// Appends what a node reads, where it reads the key.
#[tactic(auto, using(crate::proofs::Pairs::node_further))]
fn put_node(
    pairs: &mut Vec<Pair>,
    history: &History,
    key: usize,
    reader: NodeIx,
) -> Result<(), AllocError>
    requires clean { IsClean (log_of history.now) }
    requires low { 0 < reader }
    requires high { reader ≤ (log_of history.now).nodes }
    requires key { key < (log_of history.now).keys }
    ensures put { OnOk result (ArePairs (log_of history.now) key reader pairs.old.items →
        ArePairs (log_of history.now) key (reader + 1) pairs.new.items) }
{
    match history.source_of(reader, key) {
        Some(version) => put_reads(pairs, history, reader, version),
        None => Ok(()),
    }
}

/// What the readers of a key read.
fn pairs_at(alloc: Global, history: &History, key: usize) -> Result<Vec<Pair>, AllocError>
    requires clean { IsClean (log_of history.now) }
    requires key { key < (log_of history.now).keys }
    ensures pairs { IfOk result (λ pairs. ArePairs (log_of history.now) key
        ((log_of history.now).nodes + 1) pairs.items) }
{
    let mut pairs = Vec::new(alloc);
    for number in 1..history.committed() + 1 {
        put_node(&mut pairs, history, key, node(number))?;
    }
    Ok(pairs)
}

/// For each version of the key and each version of another, a node that reads both.
fn readers_of(
    alloc: Global,
    pairs: &[Pair],
) -> Result<BTreeMap<(usize, (usize, usize)), NodeIx>, AllocError>
    ensures readers { IfOk result (λ readers. AreReaders pairs.now (get triple_cmp readers)) }
{
    pairs
        .iter()
        .map(|pair| ((pair.version, (pair.key, pair.source)), pair.reader))
        .collect(alloc)
}

/// What a pair reads beside another version of the key, where it is read beside this one too.
fn shared_by(
    readers: &BTreeMap<(usize, (usize, usize)), NodeIx>,
    version: usize,
    pair: &Pair,
) -> Option<Shared>
    ensures { result ≡ spec.shared_by (get triple_cmp readers.now) version pair.now }
{
    if pair.version == version {
        return None;
    }
    let one = readers.get(&(version, (pair.key, pair.source))).copied()?;
    Some(Shared {
        one,
        two: pair.reader,
        source: pair.source,
    })
}

/// What stands at a place, where that is of another version; where nothing does, this is entered.
fn enter(
    met: &mut BTreeMap<(usize, usize), Shared>,
    place: (usize, usize),
    now: &Shared,
) -> Result<Option<Shared>, AllocError>
    ensures other { IfOk result (λ found. IfSome found
        (λ s. (get pair_cmp met.old place ≡ Some s) × s.source ≢ now.now.source)) }
    ensures entered { IfOk result (λ found. IfNone found
        (HasEntered (get pair_cmp met.old) (get pair_cmp met.new) place now.now)) }
{
    match met.get(&place).copied() {
        Some(other) => Ok((other.source != now.source).then_some(other)),
        None => {
            met.insert(place, *now)?;
            Ok(None)
        }
    }
}

/// Four nodes of which two read this version of the key, where there are such.
fn square_with(
    alloc: Global,
    pairs: &[Pair],
    readers: &BTreeMap<(usize, (usize, usize)), NodeIx>,
    key: usize,
    version: usize,
) -> Result<Option<Square>, AllocError>
    requires readers { AreReaders pairs.now (get triple_cmp readers.now) }
    ensures square { IfOk result (λ found.
        IfSome found (λ s. (s.first ≡ key) × IsSquareOf (AmongPairs pairs.now) version s)) }
    ensures none { IfOk result (λ found. IfNone found (NoSquareOf pairs.now version)) }
{
    let mut met = BTreeMap::new(alloc);
    for pair in pairs {
        let Some(now) = shared_by(readers, version, pair) else {
            continue;
        };
        let other = enter(&mut met, (pair.version, pair.key), &now)?;
        if let Some(other) = other {
            return Ok(Some(Square {
                first: key,
                second: pair.key,
                one_one: other.one,
                one_two: now.one,
                two_one: other.two,
                two_two: now.two,
            }));
        }
    }
    Ok(None)
}

/// Four nodes of which this is the first key, where there are such.
fn square_at(alloc: Global, history: &History, key: usize) -> Result<Option<Square>, AllocError>
    requires clean { IsClean (log_of history.now) }
    requires key { key < (log_of history.now).keys }
    ensures square { IfOk result (λ found. IfSome found (IsSquare (log_of history.now))) }
    ensures none { IfOk result (λ found. IfNone found (NoSquare (log_of history.now) key)) }
{
    let all = pairs_at(alloc, history, key)?;
    let pairs = all.as_slice();
    let readers = readers_of(alloc, pairs)?;
    if let Some(square) = square_with(alloc, pairs, &readers, key, 0)? {
        return Ok(Some(square));
    }
    let writers = history.writers_of(key);
    for version in writers {
        if let Some(square) = square_with(alloc, pairs, &readers, key, version.get())? {
            return Ok(Some(square));
        }
    }
    Ok(None)
}

/// Four nodes that read all four pairs of two versions of a key and two of another, where there are
/// such.
#[tactic(auto, using(crate::proofs::Pairs::key_within))]
fn square_in(alloc: Global, history: &History) -> Result<Option<Square>, AllocError>
    requires clean { IsClean (log_of history.now) }
    ensures square { IfOk result (λ found. IfSome found (IsSquare (log_of history.now))) }
    ensures none { IfOk result (λ found.
        IfNone found ((s : SquareView) → IsSquare (log_of history.now) s → ⊥)) }
{
    for key in 0..history.keys() {
        if let Some(square) = square_at(alloc, history, key)? {
            return Ok(Some(square));
        }
    }
    Ok(None)
}

/// The reads of two keys by a node.
fn pair_read(history: &History, node: NodeIx, first: usize, second: usize) -> PairRead
    requires clean { IsClean (log_of history.now) }
    requires node { IsNode history.now node }
    requires first { HasSource (log_of history.now) node first }
    requires second { HasSource (log_of history.now) node second }
    ensures reads { IsPairOf history.now node first second result }
{
    PairRead {
        node,
        first: read_of(history, node, first),
        second: read_of(history, node, second),
    }
}

/// The reads of four nodes that read all four pairs.
#[tactic(auto, unfolding(log_definitions::specs::Numbers::log_of))]
fn crossing(history: &History, square: Square) -> Crossing
    requires clean { IsClean (log_of history.now) }
    requires square { IsSquare (log_of history.now) square }
    ensures crossed { AreCrossed history.now result }
{
    let Square {
        first,
        second,
        one_one,
        one_two,
        two_one,
        two_two,
    } = square;
    Crossing {
        one_one: pair_read(history, one_one, first, second),
        one_two: pair_read(history, one_two, first, second),
        two_one: pair_read(history, two_one, first, second),
        two_two: pair_read(history, two_two, first, second),
    }
}

/// Adds how often a search looks at what a node reads, up to the greatest number.
#[tactic(auto, using(crate::proofs::Pairs::key_read))]
fn add_looks(history: &History, reader: NodeIx, before: usize) -> usize
    ensures { result ≡ min (before + looks_at (log_of history.now) reader) usize.MAX }
{
    let reads = history.reads_of(reader);
    let mut looks = before;
    for read in reads {
        let versions = history.writers_of(read.key).len() + 1;
        looks = looks.saturating_add(reads.len().saturating_mul(versions));
    }
    looks
}

/// How often a search looks at what the nodes read, up to the greatest number.
#[tactic(auto, using(crate::proofs::Pairs::looks_further))]
fn looks_of(history: &History) -> usize
    ensures { result ≡ min (looks (log_of history.now)) usize.MAX }
{
    let mut looks = 0;
    for number in 1..history.committed() + 1 {
        looks = add_looks(history, node(number), looks);
    }
    looks
}

/// Transactions that read all four pairs of two versions of a key and two of another, where there
/// are such, and the search would not look too often; which of several is free. The one error is
/// that memory runs out.
pub fn crossed_reads(alloc: Global, history: &History) -> Result<Option<Crossing>, AllocError>
    requires clean { IsClean (log_of history.now) }
    ensures answer { IfOk result (IsCrossedAnswer history.now) }
{
    if MAX_LOOKS < looks_of(history) {
        return Ok(None);
    }
    match square_in(alloc, history)? {
        Some(square) => Ok(Some(crossing(history, square))),
        None => Ok(None),
    }
}
