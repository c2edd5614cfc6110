//! Sets of versions: keys, each with an identity.

ghost use Rattle.std.specs.Prelude.{◌≡◌, ◌==◌, ◌&&◌, ◌||◌, ℕ, List, length, false, IfOk, OnOk};
ghost use Rattle.std.specs.Str.{bytes_eq};
ghost use Rattle.census.specs.Versions.{has_version, is_in, place_in};

use session_log::Key;
use std::alloc::{AllocError, Global};
use std::collections::BTreeSet;

/// There are at most so many sets.
const MOST_SETS: usize = 1 << 14;

/// Whether this version of a key is in a set.
fn is_in<'a>(set: &BTreeSet<(u64, &'a Key)>, key: &'a Key, wid: u64) -> bool
    ensures { result ≡ is_in set.now key.now wid }
{
    set.contains(&(wid, key))
}

/// Adds a version of a key to a set.
fn add_to<'a>(set: &mut BTreeSet<(u64, &'a Key)>, key: &'a Key, wid: u64) -> Result<(), AllocError>
    ensures { OnOk result ((k : List ℕ) (w : ℕ) → is_in set.new k w
        ≡ (is_in set.old k w || (bytes_eq k key.now && (w == wid)))) }
{
    set.insert((wid, key))?;
    Ok(())
}

/// Versions of keys, in many sets, each for some identities, so that most have few.
#[derive(Drop)]
pub struct Versions<'a> {
    sets: Vec<BTreeSet<(u64, &'a Key)>>,
}

impl<'a> Versions<'a> {
    /// None, where about so many are to come.
    pub fn new(alloc: Global, versions: usize) -> Result<Versions<'a>, AllocError>
        ensures { IfOk result (λ new. (key : List ℕ) (wid : ℕ) → has_version new key wid ≡ false) }
    {
        let count = versions.clamp(1, MOST_SETS);
        let mut sets = Vec::with_capacity(alloc, count)?;
        for _ in 0..count {
            sets.push(BTreeSet::new(alloc))?;
        }
        Ok(Versions { sets })
    }

    /// Which set is for an identity.
    fn place_of(&self, wid: u64) -> usize
        ensures { result ≡ place_in (length self.now.sets.items) wid }
    {
        let count = self.sets.len();
        if count == 0 {
            return 0;
        }
        (wid % count as u64) as usize
    }

    /// Whether this version of a key is among them.
    #[tactic(auto, unfolding(crate::specs::Versions::has_version))]
    pub fn has(&self, key: &'a Key, wid: u64) -> bool
        ensures { result ≡ has_version self.now key.now wid }
    {
        match self.sets.get(self.place_of(wid)) {
            None => false,
            Some(set) => is_in(set, key, wid),
        }
    }

    /// Adds a version of a key.
    pub fn add(&mut self, key: &'a Key, wid: u64) -> Result<(), AllocError>
        ensures { OnOk result ((k : List ℕ) (w : ℕ) → has_version self.new k w
            ≡ (has_version self.old k w || (bytes_eq k key.now && (w == wid)))) }
    {
        let place = self.place_of(wid);
        let Some(set) = self.sets.get_mut(place) else {
            return Err(AllocError);
        };
        add_to(set, key, wid)?;
        Ok(())
    }
}
