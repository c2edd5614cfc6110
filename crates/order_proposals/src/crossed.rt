//! Crossed reads: four nodes that read all four pairs of two versions of a key and two of another,
//! which no order explains.

use crate::names::Access;
use crate::versions::Versions;
use std::alloc::{AllocError, Global};
use std::collections::BTreeMap;

/// So many pairs of reads are looked at at most,
const MOST_PAIRS: usize = 4_000_000;
/// and so many pairs of these.
const MOST_LOOKS: usize = 4_000_000;

/// A node that reads two keys, and the versions that it reads.
#[derive(Clone, Copy)]
struct Pair {
    one: Access,
    two: Access,
    reader: u32,
}

/// Two nodes that read the same version of a key beside two versions of another.
#[derive(Clone, Copy)]
struct Beside {
    first: u32,
    second: u32,
}

/// Two numbers as one.
fn joined(one: u32, two: u32) -> u64 {
    (u64::from(one) << 32) | u64::from(two)
}

/// The reads of a node, that of the lesser key first.
fn pair_of(reader: u32, one: Access, two: Access) -> Pair {
    if one.key < two.key {
        Pair { one, two, reader }
    } else {
        Pair {
            one: two,
            two: one,
            reader,
        }
    }
}

/// Adds each two reads of a node.
fn add_pairs(pairs: &mut Vec<Pair>, reader: u32, reads: &[Access]) -> Result<(), AllocError> {
    for (i, one) in reads.iter().enumerate() {
        for two in reads.iter().skip(i.saturating_add(1)) {
            if pairs.len() >= MOST_PAIRS {
                return Ok(());
            }
            pairs.push(pair_of(reader, *one, *two))?;
        }
    }
    Ok(())
}

/// Each two reads of all nodes, by the first version, then by the second key and version.
fn pairs_of(alloc: Global, versions: &Versions) -> Result<Vec<Pair>, AllocError> {
    let mut pairs = Vec::new(alloc);
    for reader in 0..versions.count() {
        add_pairs(&mut pairs, reader, versions.reads.list(reader))?;
    }
    pairs.sort_unstable_by_key(|pair: &Pair| {
        let (one, two) = (pair.one, pair.two);
        (
            joined(one.version, two.key),
            joined(two.version, pair.reader),
        )
    });
    Ok(pairs)
}

/// The first of each run of pairs with the same versions.
fn without_copies(alloc: Global, pairs: &[Pair]) -> Result<Vec<Pair>, AllocError> {
    let mut single = Vec::new(alloc);
    let mut last = None;
    for pair in pairs {
        let now = joined(pair.one.version, pair.two.version);
        if last != Some(now) {
            single.push(*pair)?;
        }
        last = Some(now);
    }
    Ok(single)
}

/// Whether both read the same version of the first key, and the same second key.
fn is_beside(one: &Pair, other: &Pair) -> bool {
    one.one.version == other.one.version && one.two.key == other.two.key
}

/// The nodes of crossed reads, and who wrote what they read.
fn nodes_of(
    alloc: Global,
    versions: &Versions,
    first: &Pair,
    second: &Pair,
    met: Beside,
) -> Result<Vec<u32>, AllocError> {
    let readers = [met.first, met.second, first.reader, second.reader];
    let mut nodes = Vec::new(alloc);
    for reader in readers {
        nodes.push(reader)?;
    }
    for reader in readers {
        for read in versions.reads.list(reader) {
            if read.key == first.one.key || read.key == first.two.key {
                nodes.push(versions.writer(read.version))?;
            }
        }
    }
    Ok(nodes)
}

/// Looks for crossed reads among pairs.
#[derive(Drop)]
struct Looking {
    /// Of each first key and two versions of another key the nodes that read these beside the same
    /// version of the first.
    met: BTreeMap<(u64, u64), Beside>,
    looks: usize,
}

impl Looking {
    /// The nodes that read the versions of these pairs beside another version, where some were met;
    /// else the readers of the pairs are kept.
    fn meet(&mut self, first: &Pair, second: &Pair) -> Result<Option<Beside>, AllocError> {
        self.looks = self.looks.saturating_add(1);
        let place = (
            u64::from(first.one.key),
            joined(first.two.version, second.two.version),
        );
        if let Some(met) = self.met.get(&place).copied() {
            return Ok(Some(met));
        }
        let (first, second) = (first.reader, second.reader);
        self.met.insert(place, Beside { first, second })?;
        Ok(None)
    }

    /// The crossed reads of a pair and one of those before it, as their nodes and who wrote what these
    /// read.
    fn look_back(
        &mut self,
        alloc: Global,
        versions: &Versions,
        before: &[Pair],
        second: &Pair,
    ) -> Result<Option<Vec<u32>>, AllocError> {
        for first in before {
            if self.looks >= MOST_LOOKS {
                break;
            }
            if let Some(met) = self.meet(first, second)? {
                return Ok(Some(nodes_of(alloc, versions, first, second, met)?));
            }
        }
        Ok(None)
    }

    /// The first crossed reads among pairs, as their nodes and who wrote what these read.
    fn look(
        &mut self,
        alloc: Global,
        versions: &Versions,
        pairs: &[Pair],
    ) -> Result<Option<Vec<u32>>, AllocError> {
        let mut start = 0;
        for (i, second) in pairs.iter().enumerate() {
            if let Some(first) = pairs.get(start)
                && !is_beside(first, second)
            {
                start = i;
            }
            let Some(before) = pairs.get(start..i) else {
                break;
            };
            if let Some(nodes) = self.look_back(alloc, versions, before, second)? {
                return Ok(Some(nodes));
            }
            if self.looks >= MOST_LOOKS {
                break;
            }
        }
        Ok(None)
    }
}

/// The nodes of crossed reads, and who wrote what they read, where there are such and the search
/// would not look too often.
pub fn crossed_nodes(alloc: Global, versions: &Versions) -> Result<Option<Vec<u32>>, AllocError> {
    let all = pairs_of(alloc, versions)?;
    let pairs = without_copies(alloc, &all)?;
    let mut looking = Looking {
        met: BTreeMap::new(alloc),
        looks: 0,
    };
    looking.look(alloc, versions, &pairs)
}
