//! Ranks: which of two nodes comes first, by what the log says of when they were made.

use crate::quick::is_followed;
use numbered_log::{Moments, NumberedLog, NumberedOp, PackedOp};
use numbers::number;
use std::alloc::{AllocError, Global};

/// The greatest identity up to this one that a node with these operations writes.
fn greatest_identity(log: &NumberedLog<'_>, ops: &[PackedOp], most: u64) -> u64 {
    let mut greatest = 0;
    for op in ops {
        if let NumberedOp::Write { version, .. } = op.get()
            && let Some(identity) = log.identities.get(version as usize)
            && *identity <= most
        {
            greatest = greatest.max(*identity);
        }
    }
    greatest
}

/// Of each node when it ended, or else began, where all state one of these.
fn ranks_by_moments(alloc: Global, log: &NumberedLog<'_>) -> Result<Option<Vec<u64>>, AllocError> {
    let mut ranks = Vec::with_capacity(alloc, log.nodes.len())?;
    for place in 0..log.nodes.len() {
        let Moments { begun, ended } = log.moments_of(place);
        match ended.or(begun) {
            Some(moment) => ranks.push(moment)?,
            None => return Ok(None),
        }
    }
    Ok(Some(ranks))
}

/// Of each node the greatest identity up to this one that it writes; where it writes none, that of the
/// next one of its session.
fn ranks_by_identities(
    alloc: Global,
    log: &NumberedLog<'_>,
    most: u64,
) -> Result<Vec<u64>, AllocError> {
    let mut ranks = vec![in alloc; 0; log.nodes.len()]?;
    let mut behind = 0;
    for (place, node) in log.nodes.iter().enumerate().rev() {
        let own = greatest_identity(log, log.ops_of(*node), most);
        if own > 0 || !is_followed(log, number(place)) {
            behind = own;
        }
        if let Some(rank) = ranks.get_mut(place) {
            *rank = behind;
        }
    }
    Ok(ranks)
}

/// The ranks of nodes: moments, or identities. Greater identities than this one are those of locks, so
/// that a node that writes only locks comes just before the next one of its session.
pub fn ranks_of(alloc: Global, log: &NumberedLog<'_>, most: u64) -> Result<Vec<u64>, AllocError> {
    match ranks_by_moments(alloc, log)? {
        Some(ranks) => Ok(ranks),
        None => ranks_by_identities(alloc, log, most),
    }
}
