//! Transactions by the two halves into which a split log has them. No contract speaks of what these
//! functions choose.

use order_proposals::{Flags, Proposal, Stuck};
use session_history::NodeIx;
use session_log::{Outcome, Session, Txn};
use splitting::is_writer;
use std::alloc::{AllocError, Global};

/// How many transactions of the split log stand for this one.
fn halves(txn: &Txn) -> usize {
    if is_writer(txn) { 2 } else { 1 }
}

/// The flags of transactions, by those of their halves: a transaction is chosen where one is.
fn joined_flags(alloc: Global, txns: &[Txn], flags: &[bool]) -> Result<Vec<bool>, AllocError> {
    let mut joined = Vec::with_capacity(alloc, txns.len())?;
    let mut next: usize = 0;
    for txn in txns {
        let behind = next.saturating_add(halves(txn));
        let own = flags.get(next..behind).or_else(|| flags.get(next..));
        joined.push(own.is_some_and(|own| own.iter().any(|flag| *flag)))?;
        next = behind;
    }
    Ok(joined)
}

/// The flags of a log's transactions, by those of its split log.
fn joined(alloc: Global, sessions: &[Session], flags: &[Vec<bool>]) -> Result<Flags, AllocError> {
    let mut joined = Vec::with_capacity(alloc, sessions.len())?;
    for (session, list) in sessions.iter().zip(flags) {
        joined.push(joined_flags(alloc, &session.txns, list)?)?;
    }
    Ok(joined)
}

/// The flags of the split log's transactions: both halves of a chosen transaction are chosen.
pub fn split_flags(
    alloc: Global,
    sessions: &[Session],
    flags: &[Vec<bool>],
) -> Result<Flags, AllocError> {
    let mut split = Vec::with_capacity(alloc, sessions.len())?;
    for (session, list) in sessions.iter().zip(flags) {
        let mut own = Vec::new(alloc);
        for (txn, flag) in session.txns.iter().zip(list) {
            for _ in 0..halves(txn) {
                own.push(*flag)?;
            }
        }
        split.push(own)?;
    }
    Ok(split)
}

/// The index of a transaction of these, by that of its half.
fn joined_index(txns: &[Txn], half: usize) -> usize {
    let mut next: usize = 0;
    for (place, txn) in txns.iter().enumerate() {
        next = next.saturating_add(halves(txn));
        if half < next {
            return place;
        }
    }
    txns.len()
}

/// The places of transactions, by those of their halves, each once where both stand side by side.
fn joined_places(
    alloc: Global,
    sessions: &[Session],
    places: &[(usize, usize)],
) -> Result<Vec<(usize, usize)>, AllocError> {
    let mut joined = Vec::with_capacity(alloc, places.len())?;
    for (index, half) in places {
        if let Some(session) = sessions.get(*index) {
            let place = (*index, joined_index(&session.txns, *half));
            if joined.last() != Some(&place) {
                joined.push(place)?;
            }
        }
    }
    Ok(joined)
}

/// Of each transaction whether one of its halves is chosen, where some are.
fn joined_where(
    alloc: Global,
    sessions: &[Session],
    halves: Option<&Flags>,
) -> Result<Option<Flags>, AllocError> {
    match halves {
        Some(halves) => Ok(Some(joined(alloc, sessions, halves)?)),
        None => Ok(None),
    }
}

/// What is proposed of a log, by what is proposed of its split log. An order stays one of the split
/// log.
pub fn joined_proposal(
    alloc: Global,
    sessions: &[Session],
    proposal: Proposal,
) -> Result<Proposal, AllocError> {
    match proposal {
        Proposal::Part(flags) => Ok(Proposal::Part(joined(alloc, sessions, &flags)?)),
        Proposal::Stuck(stuck) => Ok(Proposal::Stuck(Stuck {
            around: joined(alloc, sessions, &stuck.around)?,
            against: joined_where(alloc, sessions, stuck.against.as_ref())?,
            waiting: joined_places(alloc, sessions, &stuck.waiting)?,
            ..stuck
        })),
        Proposal::Order(_) | Proposal::NotTried(_) => Ok(proposal),
    }
}

/// The nodes of a log, by those of its split log.
pub fn joined_nodes(
    alloc: Global,
    sessions: &[Session],
    nodes: &[NodeIx],
) -> Result<Vec<NodeIx>, AllocError> {
    let mut joined = Vec::new(alloc);
    let mut number: usize = 0;
    let mut next: usize = 0;
    for txn in sessions.iter().flat_map(|session| session.txns.iter()) {
        if txn.outcome == Outcome::Commit {
            number = number.saturating_add(1);
            let behind = next.saturating_add(halves(txn));
            if nodes
                .iter()
                .any(|node| node.get() > next && node.get() <= behind)
                && let Some(node) = NodeIx::new(number)
            {
                joined.push(node)?;
            }
            next = behind;
        }
    }
    Ok(joined)
}
