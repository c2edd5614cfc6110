//! Why a log is not decided, and what may help. No contract speaks of these words.

use crate::places::told_txns;
use audit_report::ToldTxn;
use judging::{Tried, Why};
use order_proposals::{Flags, MAX_ENTRIES, MAX_LANES, NotTried, Proposal, Stuck};
use session_log::{Limit, Session, Version};
use splitting::NoRoom;
use std::alloc::{AllocError, Global};

/// Why nothing was proposed.
fn not_tried_text(alloc: Global, reason: NotTried) -> Result<String, AllocError> {
    match reason {
        NotTried::TooWide { .. } => format!(in alloc; "more than {MAX_LANES} sessions at once"),
        NotTried::TooLarge { nodes, lanes } => {
            format!(in alloc;
                "{nodes} transactions in {lanes} sessions at once, at most {MAX_ENTRIES} of both multiplied"
            )
        }
        NotTried::TimeIsUp => String::from_str(alloc, "the time was up"),
    }
}

/// Why a log that is too large for a search is not decided.
fn large_text(alloc: Global, proposal: &Proposal, tried: Tried) -> Result<String, AllocError> {
    match proposal {
        Proposal::Stuck(stuck) => {
            let (placed, nodes) = (stuck.placed, stuck.nodes);
            format!(in alloc; "placed {placed} of {nodes}")
        }
        Proposal::NotTried(reason) => not_tried_text(alloc, *reason),
        Proposal::Order(_) => String::from_str(alloc, "the order that was found is none"),
        Proposal::Part(_) => part_text(alloc, tried),
    }
}

/// What a part has too many of.
fn things_of(which: Limit) -> &'static str {
    match which {
        Limit::LogBytes => "bytes",
        Limit::Sessions => "sessions",
        Limit::Operations => "reads and writes",
        Limit::Committed => "transactions",
        Limit::Keys => "keys",
    }
}

/// Why a part that was found is not decided.
fn part_text(alloc: Global, tried: Tried) -> Result<String, AllocError> {
    match tried {
        Tried::PartOpen(Why::Spent { closed }) => format!(in alloc; "{closed} closed in a part"),
        Tried::PartOpen(Why::TooLarge { which }) => {
            let things = things_of(which);
            format!(in alloc; "a part that was found has too many {things}")
        }
        _ => String::from_str(alloc, "a part that was found is not decided"),
    }
}

/// Why a log has no room for locks.
fn room_text(alloc: Global, why: NoRoom) -> Result<String, AllocError> {
    match why {
        NoRoom::Keys { longest, marks } => {
            format!(in alloc;
                "a key has {longest} bytes, its lock {marks} more, and at most 64 may be"
            )
        }
        NoRoom::Identities { largest, writes } => {
            format!(in alloc;
                "an identity is {largest}, which leaves none above it for {writes} locks"
            )
        }
    }
}

/// Why a log is not decided.
pub fn reason_text(
    alloc: Global,
    proposal: &Proposal,
    why: Why,
    tried: Tried,
) -> Result<String, AllocError> {
    match why {
        Why::Spent { closed } => format!(in alloc; "{closed} closed"),
        Why::TooManyChoices => String::from_str(alloc, "more than 100000 choices"),
        Why::NotBegun => String::from_str(alloc, "the time was up"),
        Why::NoRoom(why) => room_text(alloc, why),
        Why::TooLarge { .. } => large_text(alloc, proposal, tried),
        Why::NotShown => String::from_str(alloc, "it has too many operations, or sessions"),
    }
}

/// Flags of these transactions.
fn flags_of(
    alloc: Global,
    sessions: &[Session],
    places: &[(usize, usize)],
) -> Result<Flags, AllocError> {
    let mut flags = Vec::with_capacity(alloc, sessions.len())?;
    for session in sessions {
        flags.push(vec![in alloc; false; session.txns.len()]?)?;
    }
    for (session, place) in places {
        if let Some(list) = flags.get_mut(*session)
            && let Some(flag) = list.get_mut(*place)
        {
            *flag = true;
        }
    }
    Ok(flags)
}

/// The name and the lines of a transaction.
fn txn_words(alloc: Global, txn: ToldTxn) -> Result<String, AllocError> {
    let (session, place) = (txn.session, txn.place);
    let (first, last) = (txn.first, txn.last);
    format!(in alloc; "{session}.{place} (lines {first} to {last})")
}

/// The transactions that could not be placed, in a line.
fn waiting_text(
    alloc: Global,
    version: Version,
    sessions: &[Session],
    stuck: &Stuck,
) -> Result<String, AllocError> {
    let flags = Some(flags_of(alloc, sessions, &stuck.waiting)?);
    let txns = told_txns(alloc, version, sessions, &flags)?;
    let mut text = String::from_str(alloc, "not placed:")?;
    let mut separator = " ";
    for txn in &txns {
        text.push_str(separator)?;
        text.push_str(&txn_words(alloc, *txn)?)?;
        separator = ", ";
    }
    Ok(text)
}

/// What may help where nothing was proposed.
fn not_tried_advice(reason: NotTried) -> &'static str {
    match reason {
        NotTried::TooWide { .. } | NotTried::TooLarge { .. } => {
            "fewer clients at once, or moments that show which sessions follow which, may help"
        }
        NotTried::TimeIsUp => "more --seconds may help",
    }
}

/// Lines that say what may help.
pub fn advice_lines(
    alloc: Global,
    version: Version,
    sessions: &[Session],
    proposal: &Proposal,
    why: Why,
) -> Result<Vec<String>, AllocError> {
    let mut lines = Vec::new(alloc);
    match why {
        Why::Spent { .. } => lines.push(String::from_str(alloc, "a higher --budget may help")?)?,
        Why::TooManyChoices | Why::NoRoom(_) | Why::NotShown => {}
        Why::NotBegun => lines.push(String::from_str(alloc, "more --seconds may help")?)?,
        Why::TooLarge { .. } => match proposal {
            Proposal::Stuck(stuck) => {
                lines.push(waiting_text(alloc, version, sessions, stuck)?)?;
            }
            Proposal::NotTried(reason) => {
                lines.push(String::from_str(alloc, not_tried_advice(*reason))?)?;
            }
            Proposal::Order(_) | Proposal::Part(_) => {}
        },
    }
    Ok(lines)
}
