//! What closes in a sentence: what each of its transactions saw of another one, and what not.

ghost use Rattle.std.specs.Prelude.{◌≡◌, ◌++◌, None, map, slice_get, OnOk, IfOk};
ghost use Rattle.session_log.specs.Text.{view};
ghost use Rattle.log_lines.specs.Rows.{rows_of};
ghost use Rattle.point_refutations.specs.Edges.{is_missed};
ghost use Rattle.tell_points.specs.Short as spec;

use crate::whys::number_of;
use level_refutations::{OpAt, TxnAt, is_of_key};
use point_refutations::{
    Against, Both, Edge, Ending, Missed, Overwritten, Since, Step, Why, is_same_read, op_of,
};
use session_log::Session;
use std::alloc::AllocError;
use tell_evidence::{Log, tell};

/// A way of more edges is not told in a sentence.
const MOST_EDGES: usize = 6;

#[tactic(auto, unfolding(crate::specs::Short::missed_text))]
fn put_missed(out: &mut Vec<u8>, log: &Log<'_>, at: TxnAt, read: OpAt) -> Result<(), AllocError>
    ensures put { OnOk result (out.new.items ≡ out.old.items
        ++ spec.missed_text (rows_of log.now.places.now) (map view log.now.sessions.now) at read) }
{
    tell!(out, log; Text(b"did not see "), Name(at), Text(b"'s "), Key(read))
}

/// Appends what a transaction did by a step.
fn put_did(out: &mut Vec<u8>, log: &Log<'_>, steps: &[Step], index: usize) -> Result<(), AllocError>
    ensures put { OnOk result (out.new.items ≡ out.old.items
        ++ spec.did_text (map view log.now.sessions.now) (slice_get steps.now index)) }
{
    if index >= steps.len() {
        return tell!(out, log; Text(b"came"));
    }
    match &steps[index] {
        Step::Forced { both, .. } | Step::Later { both, .. } => {
            tell!(out, log; Text(b"wrote "), Key(both.one))
        }
        Step::Shown { .. } => tell!(out, log; Text(b"came")),
    }
}

/// Appends by which step a read missed a write, where it is by one.
fn put_since_number(out: &mut Vec<u8>, log: &Log<'_>, since: Since) -> Result<(), AllocError>
    ensures put { OnOk result (out.new.items ≡ out.old.items ++ spec.since_number since) }
{
    match since {
        Since::Step(step) => tell!(out, log;
            Text(b" (by ["), Number(number_of(step)), Text(b"])")),
        Since::Initial | Since::ReadToo(_) => Ok(()),
    }
}

/// Appends what an edge says.
#[tactic(auto, unfolding(crate::specs::Short::said_text))]
fn put_said(
    out: &mut Vec<u8>,
    log: &Log<'_>,
    steps: &[Step],
    from: TxnAt,
    to: TxnAt,
    why: Why,
) -> Result<(), AllocError>
    ensures put { OnOk result (out.new.items ≡ out.old.items ++ spec.said_text
        (rows_of log.now.places.now) (map view log.now.sessions.now) steps.now from to why) }
{
    match why {
        Why::Session => tell!(out, log;
            Text(b"came after "), Name(from), Text(b" in its session")),
        Why::Moments => tell!(out, log; Text(b"began after "), Name(from), Text(b" ended")),
        Why::Read { read, .. } => tell!(out, log;
            Text(b"saw "), Name(from), Text(b"'s "), Key(op_of(to, read))),
        Why::Step(index) | Why::Later(index) => {
            put_did(out, log, steps, index)?;
            tell!(out, log;
                Text(b" after "), Name(from), Text(b" (by ["), Number(number_of(index)), Text(b"])"))
        }
        Why::Missed(missed) => {
            put_missed(out, log, to, op_of(from, missed.read))?;
            put_since_number(out, log, missed.since)
        }
    }
}

/// Whether a write is missed.
fn is_missed(why: Why) -> bool
    ensures { result ≡ is_missed why }
{
    matches!(why, Why::Missed(_))
}

/// Of whom an edge says something.
fn whose(edge: Edge) -> TxnAt
    ensures { result ≡ spec.whose edge }
{
    if is_missed(edge.why) {
        edge.from
    } else {
        edge.to
    }
}

/// Appends what stands between an edge and one behind it, which missed a write or not.
fn put_link(
    out: &mut Vec<u8>,
    log: &Log<'_>,
    before: Option<bool>,
    edge: Edge,
) -> Result<(), AllocError>
    ensures put { OnOk result (out.new.items ≡ out.old.items ++ spec.link_text
        (rows_of log.now.places.now) (map view log.now.sessions.now) before edge) }
{
    match before {
        None => tell!(out, log; Name(whose(edge)), Text(b" ")),
        Some(missed) => {
            if !missed && is_missed(edge.why) {
                return tell!(out, log; Text(b", but "));
            }
            tell!(out, log; Text(b"; "), Name(whose(edge)), Text(b" "))
        }
    }
}

/// Appends a part of a sentence.
#[tactic(auto, unfolding(crate::specs::Short::part_text))]
fn put_part(
    out: &mut Vec<u8>,
    log: &Log<'_>,
    steps: &[Step],
    before: Option<bool>,
    edge: Edge,
) -> Result<(), AllocError>
    ensures put { OnOk result (out.new.items ≡ out.old.items ++ spec.part_text
        (rows_of log.now.places.now) (map view log.now.sessions.now) steps.now before edge) }
{
    put_link(out, log, before, edge)?;
    put_said(out, log, steps, edge.from, edge.to, edge.why)
}

/// Appends what edges say, and gives whether the last one misses a write.
fn put_sentence(
    out: &mut Vec<u8>,
    log: &Log<'_>,
    steps: &[Step],
    edges: &[Edge],
) -> Result<Option<bool>, AllocError>
    ensures put { OnOk result (out.new.items ≡ out.old.items ++ spec.sentence_text
        (rows_of log.now.places.now) (map view log.now.sessions.now) steps.now None edges.now) }
    ensures last { IfOk result (λ last. last ≡ spec.missed_last None edges.now) }
{
    let mut before = None;
    for edge in edges {
        put_part(out, log, steps, before, *edge)?;
        before = Some(is_missed(edge.why));
    }
    Ok(before)
}

/// What a read would find, if the other one committed later, as an edge.
fn overwritten_edge(it: Overwritten) -> Edge
    ensures { result ≡ spec.overwritten_edge it }
{
    Edge {
        from: it.read.txn,
        to: it.write.txn,
        why: Why::Missed(Missed {
            read: it.read.op,
            found: Some(it.found),
            write: it.write.op,
            since: Since::Initial,
        }),
    }
}

/// Appends what would be so, if a transaction committed first.
fn put_against(
    out: &mut Vec<u8>,
    log: &Log<'_>,
    steps: &[Step],
    against: &Against,
) -> Result<(), AllocError>
    ensures put { OnOk result (out.new.items ≡ out.old.items ++ spec.against_sentence
        (rows_of log.now.places.now) (map view log.now.sessions.now) steps.now against.now) }
{
    let before = put_sentence(out, log, steps, &against.edges)?;
    match against.overwritten {
        None => Ok(()),
        Some(it) => put_part(out, log, steps, before, overwritten_edge(it)),
    }
}

/// Whether so many edges are told in a sentence.
fn are_few(count: usize) -> bool
    ensures { result ≡ spec.are_few count }
{
    0 < count && count <= MOST_EDGES
}

/// Whether these are.
fn is_short(against: &Against) -> bool
    ensures { result ≡ spec.is_short against.now }
{
    let count = match against.overwritten {
        None => against.edges.len(),
        Some(_) => against.edges.len().saturating_add(1),
    };
    are_few(count)
}

/// The read of an edge, if it misses a write.
fn read_of(from: TxnAt, why: Why) -> Option<OpAt>
    ensures { result ≡ spec.read_of from why }
{
    match why {
        Why::Missed(missed) => Some(op_of(from, missed.read)),
        _ => None,
    }
}

/// The read of the only edge, if it misses a write.
fn only_read(edges: &[Edge]) -> Option<OpAt>
    ensures { result ≡ spec.only_read edges.now }
{
    if edges.len() == 1 {
        read_of(edges[0].from, edges[0].why)
    } else {
        None
    }
}

/// Whether two read one version and overwrite it.
pub fn are_lost(sessions: &[Session], not_one: &Against, not_other: &Against) -> bool
    ensures { result ≡ spec.are_lost (map view sessions.now) not_one.now not_other.now }
{
    match (only_read(&not_one.edges), only_read(&not_other.edges)) {
        (Some(one), Some(other)) => is_same_read(sessions, one, other),
        _ => false,
    }
}

/// Whether they read the key that both are told to write.
fn is_lost_key(sessions: &[Session], both: Both, not_one: &Against) -> bool
    ensures { result ≡ spec.is_lost_key (map view sessions.now) both not_one.now }
{
    only_read(&not_one.edges).is_some_and(|read| is_of_key(sessions, both.one, read))
}

/// Whether that two both wrote a key is told as a lost update of it.
fn is_lost(sessions: &[Session], both: Both, not_one: &Against, not_other: &Against) -> bool
    ensures { result ≡ spec.is_lost (map view sessions.now) both not_one.now not_other.now }
{
    are_lost(sessions, not_one, not_other) && is_lost_key(sessions, both, not_one)
}

/// Appends what follows from a circle.
fn put_conclusion(out: &mut Vec<u8>, log: &Log<'_>, edges: &[Edge]) -> Result<(), AllocError>
    ensures put { OnOk result (out.new.items ≡ out.old.items ++ spec.conclusion edges.now) }
{
    if edges.len() > 2 {
        return tell!(out, log; Text(b"; no order of snapshots and commits has all of this"));
    }
    Ok(())
}

#[tactic(auto, unfolding(crate::specs::Short::short_lost))]
fn put_short_lost(out: &mut Vec<u8>, log: &Log<'_>, both: Both) -> Result<(), AllocError>
    ensures put { OnOk result (out.new.items ≡ out.old.items
        ++ spec.short_lost (rows_of log.now.places.now) (map view log.now.sessions.now) both) }
{
    tell!(out, log;
        Text(b"in short: "), Name(both.one.txn), Text(b" and "), Name(both.other.txn),
        Text(b" read one version of "), Key(both.one),
        Text(b" and both overwrote it; neither saw the other's\n"))
}

/// Appends that two wrote a key.
#[tactic(auto, unfolding(crate::specs::Short::both_wrote_text))]
fn put_both_wrote(out: &mut Vec<u8>, log: &Log<'_>, both: Both) -> Result<(), AllocError>
    ensures put { OnOk result (out.new.items ≡ out.old.items
        ++ spec.both_wrote_text (rows_of log.now.places.now) (map view log.now.sessions.now) both) }
{
    tell!(out, log;
        Text(b"in short: "), Name(both.one.txn), Text(b" and "), Name(both.other.txn),
        Text(b" both wrote "), Key(both.one))
}

/// Appends that one of them is supposed to come first.
#[tactic(auto, unfolding(crate::specs::Short::if_text))]
fn put_if(out: &mut Vec<u8>, log: &Log<'_>, at: TxnAt) -> Result<(), AllocError>
    ensures put { OnOk result (out.new.items ≡ out.old.items
        ++ spec.if_text (rows_of log.now.places.now) (map view log.now.sessions.now) at) }
{
    tell!(out, log; Text(b". If "), Name(at), Text(b" came first, "))
}

fn put_short_both(
    out: &mut Vec<u8>,
    log: &Log<'_>,
    steps: &[Step],
    both: Both,
    not_one: &Against,
    not_other: &Against,
) -> Result<(), AllocError>
    ensures put { OnOk result (out.new.items ≡ out.old.items ++ spec.short_both
        (rows_of log.now.places.now) (map view log.now.sessions.now) steps.now both not_one.now
        not_other.now) }
{
    put_both_wrote(out, log, both)?;
    put_if(out, log, both.one.txn)?;
    put_against(out, log, steps, not_one)?;
    put_if(out, log, both.other.txn)?;
    put_against(out, log, steps, not_other)?;
    tell!(out, log; Text(b"\n"))
}

fn put_short_neither(
    out: &mut Vec<u8>,
    log: &Log<'_>,
    steps: &[Step],
    both: Both,
    not_one: &Against,
    not_other: &Against,
) -> Result<(), AllocError>
    ensures put { OnOk result (out.new.items ≡ out.old.items ++ spec.short_neither
        (rows_of log.now.places.now) (map view log.now.sessions.now) steps.now both not_one.now
        not_other.now) }
{
    if is_lost(log.sessions, both, not_one, not_other) {
        return put_short_lost(out, log, both);
    }
    if is_short(not_one) && is_short(not_other) {
        return put_short_both(out, log, steps, both, not_one, not_other);
    }
    Ok(())
}

/// Appends what steps lead to in a sentence or two, where its edges are few: of two of which neither
/// can commit first, or that both lost an update.
pub fn put_short(
    out: &mut Vec<u8>,
    log: &Log<'_>,
    steps: &[Step],
    ending: &Ending,
) -> Result<(), AllocError>
    ensures put { OnOk result (out.new.items ≡ out.old.items ++ spec.short_text
        (rows_of log.now.places.now) (map view log.now.sessions.now) steps.now ending.now) }
{
    match ending {
        Ending::Circle(edges) => {
            if !are_few(edges.len()) {
                return Ok(());
            }
            tell!(out, log; Text(b"in short: "))?;
            put_sentence(out, log, steps, edges)?;
            put_conclusion(out, log, edges)?;
            tell!(out, log; Text(b"\n"))
        }
        Ending::Neither {
            both,
            not_one,
            not_other,
        } => put_short_neither(out, log, steps, *both, not_one, not_other),
    }
}
