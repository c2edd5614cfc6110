//! Which transactions are chosen. No contract speaks of what these functions choose.

ghost use Rattle.std.specs.Prelude.{◌≡◌, IfOk};
ghost use Rattle.log_parts.specs.Picked.{flags_view};

use order_proposals::Flags;
use session_history::NodeIx;
use session_log::{Op, Outcome, Session, Txn};
use std::alloc::{AllocError, Global};
use std::collections::BTreeSet;

/// The same flags of a session once more.
fn copy_list(alloc: Global, flags: &[bool]) -> Result<Vec<bool>, AllocError>
    ensures { IfOk result (λ copy. copy.items ≡ flags.now) }
{
    let mut copy = Vec::with_capacity(alloc, flags.len())?;
    copy.extend_from_slice(flags)?;
    Ok(copy)
}

/// The same flags once more.
pub fn copy_flags(alloc: Global, flags: &[Vec<bool>]) -> Result<Flags, AllocError>
    ensures { IfOk result (λ copy. flags_view copy.items ≡ flags_view flags.now) }
{
    let mut copy = Vec::with_capacity(alloc, flags.len())?;
    for list in flags {
        copy.push(copy_list(alloc, list)?)?;
    }
    Ok(copy)
}

/// Each transaction with the same flag.
pub fn all_flags(alloc: Global, sessions: &[Session], flag: bool) -> Result<Flags, AllocError> {
    let mut flags = Vec::with_capacity(alloc, sessions.len())?;
    for session in sessions {
        flags.push(vec![in alloc; flag; session.txns.len()]?)?;
    }
    Ok(flags)
}

/// Each transaction with the other flag.
pub fn other_flags(alloc: Global, flags: &[Vec<bool>]) -> Result<Flags, AllocError> {
    let mut others = Vec::with_capacity(alloc, flags.len())?;
    for list in flags {
        let mut own = Vec::with_capacity(alloc, list.len())?;
        for flag in list {
            own.push(!*flag)?;
        }
        others.push(own)?;
    }
    Ok(others)
}

/// Whether the transaction at this place is chosen.
fn is_flagged(flags: &[bool], place: usize) -> bool {
    flags.get(place).copied().unwrap_or(false)
}

/// Sets the flag of a transaction, by the indices of its session and of itself.
pub fn set_flag(flags: &mut Flags, place: (usize, usize), flag: bool) {
    if let Some(list) = flags.get_mut(place.0)
        && let Some(entry) = list.get_mut(place.1)
    {
        *entry = flag;
    }
}

/// The chosen transactions, by the indices of sessions and of themselves.
pub fn places_of(alloc: Global, flags: &[Vec<bool>]) -> Result<Vec<(usize, usize)>, AllocError> {
    let mut places = Vec::new(alloc);
    for (i, list) in flags.iter().enumerate() {
        for (place, flag) in list.iter().enumerate() {
            if *flag {
                places.push((i, place))?;
            }
        }
    }
    Ok(places)
}

/// How many transactions are chosen.
pub fn count_flags(flags: &[Vec<bool>]) -> usize {
    let mut count: usize = 0;
    for list in flags {
        count = count.saturating_add(list.iter().filter(|flag| **flag).count());
    }
    count
}

/// Chooses what is chosen in one of the two.
pub fn join_flags(flags: &mut Flags, more: &[Vec<bool>]) {
    for (i, list) in more.iter().enumerate() {
        for (place, flag) in list.iter().enumerate() {
            if *flag {
                set_flag(flags, (i, place), true);
            }
        }
    }
}

/// Of the chosen transactions those that are these nodes of their part.
pub fn flags_of_nodes(
    alloc: Global,
    log: &[Session],
    flags: &[Vec<bool>],
    nodes: &[NodeIx],
) -> Result<Flags, AllocError> {
    let mut few = all_flags(alloc, log, false)?;
    let mut number: usize = 0;
    for (i, (session, list)) in log.iter().zip(flags).enumerate() {
        for (place, txn) in session.txns.iter().enumerate() {
            if is_flagged(list, place) && txn.outcome == Outcome::Commit {
                number = number.saturating_add(1);
                if nodes.iter().any(|node| node.get() == number) {
                    set_flag(&mut few, (i, place), true);
                }
            }
        }
    }
    Ok(few)
}

/// Adds what the transaction reads.
fn add_reads(wids: &mut BTreeSet<u64>, txn: &Txn) -> Result<(), AllocError> {
    for op in &txn.ops {
        if let Op::Read { wid, .. } = op {
            wids.insert(*wid)?;
        }
    }
    Ok(())
}

/// Whether the transaction writes one of these identities.
fn writes_one(wids: &BTreeSet<u64>, txn: &Txn) -> bool {
    txn.ops.iter().any(|op| match op {
        Op::Write { wid, .. } => wids.contains(wid),
        Op::Read { .. } => false,
    })
}

/// These transactions, and whom they read from.
pub fn with_writers(
    alloc: Global,
    log: &[Session],
    flags: &[Vec<bool>],
) -> Result<Flags, AllocError> {
    let mut wids = BTreeSet::new(alloc);
    for (session, list) in log.iter().zip(flags) {
        for (place, txn) in session.txns.iter().enumerate() {
            if is_flagged(list, place) {
                add_reads(&mut wids, txn)?;
            }
        }
    }
    let mut more = copy_flags(alloc, flags)?;
    for (i, session) in log.iter().enumerate() {
        for (place, txn) in session.txns.iter().enumerate() {
            if writes_one(&wids, txn) {
                set_flag(&mut more, (i, place), true);
            }
        }
    }
    Ok(more)
}

/// Of the transactions of a session that are chosen, those that are chosen among them again.
fn chosen_twice(
    alloc: Global,
    session: &Session,
    flags: &[bool],
    few: &[bool],
) -> Result<Vec<bool>, AllocError> {
    let mut both = Vec::with_capacity(alloc, session.txns.len())?;
    let mut rank: usize = 0;
    for flag in flags.iter().take(session.txns.len()) {
        both.push(*flag && is_flagged(few, rank))?;
        if *flag {
            rank = rank.saturating_add(1);
        }
    }
    Ok(both)
}

/// Which transactions of the whole are chosen in the part of these flags.
pub fn flags_in_whole(
    alloc: Global,
    sessions: &[Session],
    flags: &[Vec<bool>],
    few: &[Vec<bool>],
) -> Result<Flags, AllocError> {
    let mut whole = Vec::with_capacity(alloc, flags.len())?;
    let mut rank: usize = 0;
    for (session, list) in sessions.iter().zip(flags) {
        let is_in = list.iter().take(session.txns.len()).any(|flag| *flag);
        let own: &[bool] = match few.get(rank) {
            Some(own) if is_in => own,
            _ => &[],
        };
        whole.push(chosen_twice(alloc, session, list, own)?)?;
        if is_in {
            rank = rank.saturating_add(1);
        }
    }
    Ok(whole)
}
