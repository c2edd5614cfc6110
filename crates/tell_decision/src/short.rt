//! A cycle in a sentence: what each of its transactions saw of another one, and what not.

ghost use Rattle.std.specs.Prelude.{◌≡◌, ◌≤◌, ◌++◌, length, None, OnOk};
ghost use Rattle.tell_decision.specs.Short as spec;

use crate::names::{kind_of, reads_first};
use log_lines::PlacedHistory;
use reasons::Reason;
use serializability::NodeIx;
use session_history::History;
use std::alloc::{AllocError, Global};
use tell_reasons::{Why, left_at, say};
use tell_steps::Item;

/// A cycle of more edges is not told in a sentence.
pub const MOST_EDGES: usize = 6;

/// Whether an item is no edge, or one that says that its first transaction did not see a write of
/// its second one.
fn misses(history: &History, item: &Item) -> bool
    ensures { result ≡ spec.misses history.now item.now }
{
    match item {
        Item::Edge { first, why, .. } => kind_of(history, *first, *why).missed > 0,
        _ => true,
    }
}

/// Appends what leads to the words of an edge from those of another one, where there is such, up to
/// the transaction with which they begin: each edge misses a write or does not.
fn put_lead(
    out: &mut Vec<u8>,
    log: &PlacedHistory<'_>,
    before: Option<bool>,
    is_missed: bool,
    whose: NodeIx,
) -> Result<(), AllocError>
    ensures text { OnOk result (out.new.items
        ≡ out.old.items ++ spec.lead_text log.now before is_missed whose) }
{
    match before {
        None => say!(out, log; Text(b"in short: "), Node(whose)),
        Some(was_missed) if is_missed && !was_missed => say!(out, log; Text(b", but")),
        Some(_) => say!(out, log; Text(b"; "), Node(whose)),
    }
}

/// Appends that a write is not seen, by its key.
fn put_unseen(
    out: &mut Vec<u8>,
    log: &PlacedHistory<'_>,
    writer: NodeIx,
    op: usize,
) -> Result<(), AllocError>
    ensures text { OnOk result (out.new.items
        ≡ out.old.items ++ spec.unseen_text log.now writer op) }
{
    say!(out, log; Text(b" did not see "), Node(writer), Text(b"'s "), KeyOf(writer, op))
}

/// Appends what an edge says that the log shows, but for the transaction with which that begins.
fn put_known(
    out: &mut Vec<u8>,
    log: &PlacedHistory<'_>,
    first: NodeIx,
    second: NodeIx,
    reason: Reason,
) -> Result<(), AllocError>
    ensures text { OnOk result (out.new.items
        ≡ out.old.items ++ spec.known_text log.now first second reason) }
{
    match reason {
        Reason::Session => {
            say!(out, log; Text(b" came after "), Node(first), Text(b" in its session"))
        }
        Reason::Moments => { say!(out, log; Text(b" began after "), Node(first), Text(b" ended")) }
        Reason::Read { written, .. } => {
            say!(out, log; Text(b" saw "), Node(first), Text(b"'s "), KeyOf(first, written))
        }
        Reason::Overwritten { overwrites, .. } => put_unseen(out, log, second, overwrites),
        Reason::Initial { begins, .. } => put_unseen(out, log, second, begins),
    }
}

/// The last write of a key in a node, where this reads nothing of the key before it writes it.
fn written_unread(history: &History, key: usize, node: NodeIx) -> Option<usize>
    ensures place { result ≡ spec.written_unread history.now key node }
{
    if reads_first(history, key, node) {
        None
    } else {
        left_at(history, key, node)
    }
}

/// Appends what an edge by an order of two versions of a key says, but for the transaction with
/// which that begins.
fn put_ordered(
    out: &mut Vec<u8>,
    log: &PlacedHistory<'_>,
    key: usize,
    first: NodeIx,
    second: NodeIx,
) -> Result<(), AllocError>
    ensures text { OnOk result (out.new.items
        ≡ out.old.items ++ spec.ordered_text log.now key first second) }
{
    match written_unread(log.history, key, first) {
        Some(op) => {
            say!(out, log; Text(b" wrote "), KeyOf(first, op), Text(b" after "), Node(first))
        }
        None => match left_at(log.history, key, second) {
            Some(op) => put_unseen(out, log, second, op),
            None => say!(out, log; Text(b" did not see "), Node(second)),
        },
    }
}

/// Appends what an edge says, but for the transaction with which that begins.
fn put_said(
    out: &mut Vec<u8>,
    log: &PlacedHistory<'_>,
    first: NodeIx,
    second: NodeIx,
    why: Why,
) -> Result<(), AllocError>
    ensures text { OnOk result (out.new.items
        ≡ out.old.items ++ spec.said_text log.now first second why) }
{
    match why {
        Why::Known(reason) => put_known(out, log, first, second, reason),
        Why::Forced { number, order } => {
            put_ordered(out, log, order.key, first, second)?;
            say!(out, log; Text(b" (by ["), Number(number as u64), Text(b"])"))
        }
        Why::Chosen(order) => put_ordered(out, log, order.key, first, second),
    }
}

/// Appends the words of an item, where it is an edge.
fn put_words(
    out: &mut Vec<u8>,
    log: &PlacedHistory<'_>,
    before: Option<bool>,
    item: &Item,
) -> Result<(), AllocError>
    ensures text { OnOk result (out.new.items
        ≡ out.old.items ++ spec.words_of log.now before item.now) }
{
    match item {
        Item::Edge { first, second, why } => {
            let missed = misses(log.history, item);
            let begins = if missed { *first } else { *second };
            put_lead(out, log, before, missed, begins)?;
            put_said(out, log, *first, *second, *why)
        }
        _ => Ok(()),
    }
}

/// Appends the words of edges.
fn put_all(out: &mut Vec<u8>, log: &PlacedHistory<'_>, items: &[Item]) -> Result<(), AllocError>
    ensures text { OnOk result (out.new.items
        ≡ out.old.items ++ spec.all_words log.now None items.now) }
{
    let mut before = None;
    for item in items {
        put_words(out, log, before, item)?;
        before = Some(misses(log.history, item));
    }
    Ok(())
}

/// How many of these edges stand behind the last one that misses a write.
fn count_behind(history: &History, edges: &[Item]) -> usize
    ensures count { result ≡ spec.count_behind history.now edges.now }
    ensures few { result ≤ length edges.now }
{
    edges
        .iter()
        .rev()
        .take_while(|item| !misses(history, item))
        .count()
}

/// Appends the edges of a cycle as a sentence, where they are few, so that the last ones say what a
/// transaction did not see; and what follows from them, where two do not show it at a glance.
pub fn put_short(
    alloc: Global,
    out: &mut Vec<u8>,
    log: &PlacedHistory<'_>,
    edges: &[Item],
) -> Result<(), AllocError>
    ensures text { OnOk result (out.new.items ≡ out.old.items ++ spec.short_text log.now edges.now) }
{
    if edges.is_empty() || edges.len() > MOST_EDGES {
        return Ok(());
    }
    let count = edges.len() - count_behind(log.history, edges);
    let mut turned = Vec::from_slice(alloc, &edges[count..])?;
    turned.extend_from_slice(&edges[..count])?;
    put_all(out, log, &turned)?;
    if edges.len() > 2 {
        say!(out, log; Text(b"; no serial order has all of this\n"))
    } else {
        say!(out, log; Text(b"\n"))
    }
}
