//! Whether a look back passes a write that is seen: by a walk over the writes, or, where there are
//! many, by what is noted of each session and by what is read from.

ghost use Rattle.std.specs.Prelude.{◌≡◌, ◌≢◌, ◌≤◌, ◌<◌, ◌-◌, ℕ, List, Some, false, slice_index, IsTrue};
ghost use Rattle.std.specs.List.{AllByRecursion};
ghost use Rattle.std.specs.BTreeSet.{contains};
ghost use Rattle.level_checks.specs.Chains.{IsChain};
ghost use Rattle.level_checks.specs.Spots.{spot_cmp, AreNoted, AreKept};
ghost use Rattle.level_checks.specs.Seen.{AreMarked, IsClearLook};

use crate::noted::Noted;
use crate::trace::Look;
use crate::trail::{Passed, none_between, writes_at};
use std::collections::BTreeSet;

/// How many writes are walked over in any case.
const LEAST_STEPS: usize = 64;

/// Whether the session wrote the key at no position behind this one, up to `reach`.
fn none_noted(
    spots: &BTreeSet<(usize, usize, usize)>,
    root: usize,
    session: usize,
    source: usize,
    reach: usize,
) -> bool
    ensures { IsTrue result → (q : ℕ) → source < q → q ≤ reach
        → contains spot_cmp spots.now (root, session, q) ≡ false }
{
    if reach <= source {
        return true;
    }
    let mut range = spots.range((root, session, source + 1)..=(root, session, reach));
    match range.next() {
        Some(_) => false,
        None => true,
    }
}

/// How far a session is seen, but no further than this position.
fn up_to(reach: usize, top: usize) -> usize
    ensures { (q : ℕ) → q ≤ reach → q ≤ top → q ≤ result }
{
    if reach < top { reach } else { top }
}

/// Whether no session wrote the key at a position behind this one, up to which it is seen, and up to
/// `top`: the transaction that looks back may write the key itself, behind that.
fn are_rows_clear(
    spots: &BTreeSet<(usize, usize, usize)>,
    root: usize,
    source: usize,
    top: usize,
    row: &[usize],
) -> bool
    ensures { IsTrue result → (s q : ℕ) → source < q → q ≤ slice_index row.now s → q ≤ top
        → contains spot_cmp spots.now (root, s, q) ≡ false }
{
    for (s, reach) in row.iter().enumerate() {
        if !none_noted(spots, root, s, source, up_to(*reach, top)) {
            return false;
        }
    }
    true
}

/// Whether what is read from, where it is behind this position, wrote no such key.
fn is_source_clear(entries: &[Passed], link: usize, source: usize, look: Look) -> bool
    ensures { IsTrue result → (of : ℕ → ℕ) (bound : ℕ) (xs : List (ℕ × ℕ))
        → IsChain of entries.now bound link xs → source < look.source
        → AllByRecursion (λ (x : ℕ × ℕ). x.0 ≢ look.source) xs }
{
    look.source <= source || !writes_at(entries, link, look.source)
}

/// The same of all that is read from.
fn are_sources_clear(entries: &[Passed], link: usize, source: usize, front: &[Look]) -> bool
    ensures { IsTrue result → (of : ℕ → ℕ) (bound : ℕ) (xs : List (ℕ × ℕ))
        → IsChain of entries.now bound link xs → AllByRecursion (λ look. source < look.source
        → AllByRecursion (λ (x : ℕ × ℕ). x.0 ≢ look.source) xs) front.now }
{
    for look in front {
        if !is_source_clear(entries, link, source, *look) {
            return false;
        }
    }
    true
}

/// Whether no write of the key behind this position is seen, by the row or as read from.
fn is_clear_far(
    entries: &[Passed],
    spots: &BTreeSet<(usize, usize, usize)>,
    look: Look,
    row: &[usize],
    front: &[Look],
) -> bool
    ensures { IsTrue result → AreNoted entries.now spots.now
        → IsClearLook entries.now row.now front.now look }
{
    if look.link == 0 {
        return true;
    }
    let Some(passed) = entries.get(look.link - 1) else {
        return false;
    };
    are_rows_clear(spots, passed.root, look.source, passed.position, row)
        && are_sources_clear(entries, look.link, look.source, front)
}

/// The same, where what is read from is marked.
pub fn is_clear(
    entries: &[Passed],
    noted: &Noted,
    look: Look,
    row: &[usize],
    marks: &[usize],
    mark: usize,
    front: &[Look],
) -> bool
    ensures { IsTrue result → AreKept entries.now noted.now → AreMarked marks.now mark front.now
        → IsClearLook entries.now row.now front.now look }
{
    let mut steps = row
        .len()
        .saturating_add(front.len())
        .saturating_add(LEAST_STEPS);
    if none_between(
        entries,
        look.link,
        look.source,
        row,
        marks,
        mark,
        &mut steps,
    ) {
        return true;
    }
    steps == 0 && noted.is_kept && is_clear_far(entries, &noted.spots, look, row, front)
}
