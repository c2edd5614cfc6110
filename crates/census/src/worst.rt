//! The keys with the most faults.

ghost use Rattle.std.specs.Prelude.{◌≡◌, nat_lt, position, IfOk, OnOk};
ghost use Rattle.census.specs.Counts.{count_in, place_in, with_line};
ghost use Rattle.census.specs.Worst.{AreWorst};

use crate::key_counts::KeyCounts;
use crate::numbers::KeyFaults;
use session_log::Key;
use std::alloc::{AllocError, Global};

/// At most so many keys are told.
const MOST_KEYS: usize = 10;

/// The first key that has fewer faults.
fn first_with_fewer(worst: &[KeyFaults], faults: usize) -> Option<usize>
    ensures { result ≡ position (λ l. nat_lt l.faults faults) worst.now }
{
    worst.iter().position(|line| line.faults < faults)
}

/// The place of a key with so many faults, whose name is behind those of all others.
fn place_of(worst: &[KeyFaults], faults: usize) -> usize
    ensures { result ≡ place_in faults worst.now }
{
    first_with_fewer(worst, faults).unwrap_or(worst.len())
}

/// Adds a key whose name is behind those of all others, if it is one of the worst.
fn add_line(
    alloc: Global,
    worst: &mut Vec<KeyFaults>,
    key: &Key,
    faults: usize,
) -> Result<(), AllocError>
    ensures { OnOk result (worst.new.items
        ≡ with_line (record { key = key.now; faults = faults }) worst.old.items) }
{
    let place = place_of(worst.as_slice(), faults);
    if place < MOST_KEYS {
        let key = key.to_owned_key(alloc)?;
        worst.insert(place, KeyFaults { key, faults })?;
    }
    worst.truncate(MOST_KEYS);
    Ok(())
}

/// The keys with the most faults, ten at most, the worst first.
pub fn worst_of(alloc: Global, counts: &KeyCounts) -> Result<Vec<KeyFaults>, AllocError>
    ensures { IfOk result (λ worst. AreWorst (count_in counts.now.table) worst.items) }
{
    let mut worst = Vec::new(alloc);
    for (key, faults) in &counts.table {
        add_line(alloc, &mut worst, *key, *faults)?;
    }
    Ok(worst)
}
