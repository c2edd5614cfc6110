//! What is noted of the writes of keys, for the look backs that are long.

ghost use Rattle.std.specs.Prelude.{◌∷◌, ◌++◌, [], List, OnOk};
ghost use Rattle.level_checks.specs.Spots.{AreKept};

use crate::trail::Passed;
use std::alloc::{AllocError, Global};
use std::collections::{BTreeMap, BTreeSet};

/// Where each key was written, by the root of its writes, the index of the session and the position;
/// and at which position each identity was. Nothing is noted where nothing is kept.
#[derive(Drop)]
pub struct Noted {
    pub is_kept: bool,
    pub spots: BTreeSet<(usize, usize, usize)>,
    pub sources: BTreeMap<u64, usize>,
}

impl Noted {
    /// Nothing.
    pub fn new(alloc: Global, is_kept: bool) -> Noted
        ensures { AreKept [] result }
    {
        Noted {
            is_kept,
            spots: BTreeSet::new(alloc),
            sources: BTreeMap::new(alloc),
        }
    }

    /// Notes a write.
    pub fn add(&mut self, passed: &Passed) -> Result<(), AllocError>
        ensures { OnOk result ((entries : List Passed) → AreKept entries self.old
            → AreKept (entries ++ passed.now ∷ []) self.new) }
    {
        if self.is_kept {
            let spot = (passed.root, passed.session, passed.position);
            self.spots.insert(spot)?;
            self.sources.insert(passed.wid, passed.position)?;
        }
        Ok(())
    }
}
