//! Versions of a key, by their writers.

ghost use Rattle.std.specs.Prelude.{◌≡◌, ◌++◌, OnOk};
ghost use Rattle.tell_reasons.specs.Versions as spec;
ghost use Rattle.tell_reasons.specs.Versions.{version_text, versions_text, over_text};
ghost use Rattle.tell_reasons.specs.Versions.{writer_text, behind_text, of_text, whose_text};
ghost use Rattle.tell_reasons.specs.Versions.{had_text, held_text, after_text, later_text, since_text};

use crate::phrases::{event_at, key_number, wid_at};
use crate::places::{last_among, reads};
use crate::say;
use crate::why::ChainOrder;
use crate::words::Said;
use log_lines::PlacedHistory as Log;
use serializability::NodeIx;
use session_history::History;

/// The last write of a key in a node.
pub fn left_at(history: &History, key: usize, node: NodeIx) -> Option<usize>
    ensures place { result ≡ spec.left_at history.now key node }
{
    last_among(history.events_of(node), key)
}

/// The first read of a key in a node.
pub fn read_at(history: &History, key: usize, node: NodeIx) -> Option<usize>
    ensures place { result ≡ spec.read_at history.now key node }
{
    let mut events = history.events_of(node).iter();
    events.position(|event| reads(*event, key))
}

/// Appends words and the version of a key that a node leaves, as `25, which 11.1 wrote (line 54)`.
#[tactic(auto, unfolding(crate::specs::Versions::version_text))]
pub fn put_version(out: &mut Vec<u8>, log: &Log<'_>, words: &[u8], key: usize, node: NodeIx) -> Said
    ensures text { OnOk result (out.new.items
        ≡ out.old.items ++ (words.now ++ version_text log.now key node)) }
{
    match left_at(log.history, key, node) {
        Some(op) => say!(out, log; Text(words), Identity(node, op), Wrote(node, op)),
        None => say!(out, log; Text(words), Node(node)),
    }
}

/// The identity of the version of a key that a node leaves.
fn version_of(history: &History, key: usize, node: NodeIx) -> u64
    ensures { result ≡ spec.version_of history.now key node }
{
    left_at(history, key, node).map_or(0, |op| wid_at(history, node, op))
}

/// Appends over what a node wrote a key, by its first read of it, as ` over 16009`.
#[tactic(auto, unfolding(crate::specs::Versions::over_text))]
fn put_over(out: &mut Vec<u8>, log: &Log<'_>, key: usize, base: u64, node: NodeIx) -> Said
    ensures text { OnOk result (out.new.items
        ≡ out.old.items ++ over_text log.now.history.now key base node) }
{
    match read_at(log.history, key, node) {
        Some(op) if wid_at(log.history, node, op) == base => {
            say!(out, log; Text(b" over "), Base(base))
        }
        Some(_) => say!(out, log; Text(b" over an update of "), Base(base)),
        None => Ok(()),
    }
}

/// Appends that what `writer` wrote last to a key was read, and over what it was written.
#[tactic(auto, unfolding(crate::specs::Versions::writer_text))]
fn put_writer(out: &mut Vec<u8>, log: &Log<'_>, key: usize, base: u64, writer: NodeIx) -> Said
    ensures text { OnOk result (out.new.items
        ≡ out.old.items ++ writer_text log.now key base writer) }
{
    match left_at(log.history, key, writer) {
        Some(op) => {
            say!(out, log; Wrote(writer, op))?;
            put_over(out, log, key, base, writer)
        }
        None => say!(out, log; Text(b", an update of "), Base(base)),
    }
}

/// The node from which an operation reads, where it reads externally.
#[tactic(auto, using(reasons::proofs::Ops::key_below))]
fn source_of(history: &History, node: NodeIx, op: usize) -> Option<NodeIx>
    ensures { result ≡ spec.source_at history.now node op }
{
    let event = event_at(history, node, op)?;
    history.source_of(node, event.key())
}

/// Appends who wrote what an operation reads, and over what, where that is not the version `base`
/// itself.
#[tactic(auto, unfolding(crate::specs::Versions::behind_text))]
pub fn put_behind(out: &mut Vec<u8>, log: &Log<'_>, base: u64, node: NodeIx, op: usize) -> Said
    ensures text { OnOk result (out.new.items ≡ out.old.items ++ behind_text log.now base node op) }
{
    if wid_at(log.history, node, op) == base {
        return Ok(());
    }
    match source_of(log.history, node, op) {
        Some(writer) => { put_writer(out, log, key_number(log.history, node, op), base, writer) }
        None => say!(out, log; Text(b", an update of "), Base(base)),
    }
}

/// Appends whose version of a key it is that `head` leaves, as ` of 3.1`.
#[tactic(auto, unfolding(crate::specs::Versions::of_text))]
fn put_of(out: &mut Vec<u8>, log: &Log<'_>, key: usize, head: NodeIx) -> Said
    ensures text { OnOk result (out.new.items ≡ out.old.items ++ of_text log.now key head) }
{
    match left_at(log.history, key, head) {
        Some(_) => say!(out, log; Text(b" of "), Node(head)),
        None => say!(out, log; Text(b", the initial value")),
    }
}

/// Appends whose version an operation reads, as ` of 3.1`.
#[tactic(auto, unfolding(crate::specs::Versions::whose_text))]
pub fn put_whose(out: &mut Vec<u8>, log: &Log<'_>, node: NodeIx, op: usize) -> Said
    ensures text { OnOk result (out.new.items ≡ out.old.items ++ whose_text log.now node op) }
{
    match source_of(log.history, node, op) {
        Some(head) => put_of(out, log, key_number(log.history, node, op), head),
        None => Ok(()),
    }
}

/// Appends a node's first read of a key, and how that goes back to the version of `head`, as `7.1
/// reads y 3 (line 30) of 3.1`, or `9.16 reads k1 16013 (line 1193), which 4.2 wrote (line 77) over
/// 16009`.
#[tactic(auto, unfolding(crate::specs::Versions::had_text))]
fn put_had(out: &mut Vec<u8>, log: &Log<'_>, key: usize, head: NodeIx, node: NodeIx) -> Said
    ensures text { OnOk result (out.new.items ≡ out.old.items ++ had_text log.now key head node) }
{
    let Some(op) = read_at(log.history, key, node) else {
        return say!(out, log; Node(node));
    };
    let version = version_of(log.history, key, head);
    say!(out, log; Does(node, b" reads ", op))?;
    if wid_at(log.history, node, op) == version {
        put_of(out, log, key, head)
    } else {
        put_behind(out, log, version, node, op)
    }
}

/// Appends the version of a key that a node has, by its last write of it, or else by its first
/// read, and how that goes back to that of `head`.
#[tactic(auto, unfolding(crate::specs::Versions::held_text))]
pub fn put_held(out: &mut Vec<u8>, log: &Log<'_>, key: usize, head: NodeIx, node: NodeIx) -> Said
    ensures text { OnOk result (out.new.items ≡ out.old.items ++ held_text log.now key head node) }
{
    let Some(op) = left_at(log.history, key, node) else {
        return put_had(out, log, key, head, node);
    };
    let version = version_of(log.history, key, head);
    say!(out, log; Does(node, b" wrote ", op))?;
    if wid_at(log.history, node, op) == version {
        Ok(())
    } else {
        put_over(out, log, key, version, node)
    }
}

/// Appends which of two versions of a key comes first, as `x: 25, which 11.1 wrote (line 54), comes
/// before 20, which 6.1 wrote (line 28)`.
#[tactic(auto, unfolding(crate::specs::Versions::versions_text))]
pub fn put_versions(out: &mut Vec<u8>, log: &Log<'_>, order: ChainOrder) -> Said
    ensures text { OnOk result (out.new.items ≡ out.old.items ++ versions_text log.now order) }
{
    say!(out, log; Key(order.key))?;
    put_version(out, log, b": ", order.key, order.first)?;
    put_version(out, log, b", comes before ", order.key, order.second)
}

/// Appends what a node, which comes after another one, reads by this operation.
#[tactic(auto, unfolding(crate::specs::Versions::after_text))]
fn put_after(out: &mut Vec<u8>, log: &Log<'_>, node: NodeIx, after: NodeIx, op: usize) -> Said
    ensures text { OnOk result (out.new.items ≡ out.old.items ++ after_text log.now node after op) }
{
    say!(out, log; Text(b"    "), Node(node), Text(b", which comes after "), Node(after),
        Text(b", reads "), Identity(node, op), AtLine(node, op))
}

/// Appends that it reads a version of a key or an update of it: so the version comes after the one
/// that the other node wrote.
#[tactic(auto, unfolding(crate::specs::Versions::later_text))]
fn put_later(
    out: &mut Vec<u8>,
    log: &Log<'_>,
    version: u64,
    node: NodeIx,
    after: NodeIx,
    op: usize,
) -> Said
    ensures text { OnOk result (out.new.items
        ≡ out.old.items ++ later_text log.now version node after op) }
{
    put_after(out, log, node, after, op)?;
    put_behind(out, log, version, node, op)?;
    say!(out, log; Text(b", so "), Number(version), Text(b" is the later version:\n"))
}

/// Appends why the first of two versions of a key comes first: `source` reads the other one, and
/// comes after `target`, which wrote the first. Nothing, where `source` does not read the key.
#[tactic(auto, unfolding(crate::specs::Versions::since_text))]
pub fn put_since(
    out: &mut Vec<u8>,
    log: &Log<'_>,
    order: ChainOrder,
    source: NodeIx,
    target: NodeIx,
) -> Said
    ensures text { OnOk result (out.new.items
        ≡ out.old.items ++ since_text log.now order source target) }
{
    match read_at(log.history, order.key, source) {
        Some(op) => {
            let version = version_of(log.history, order.key, order.second);
            put_later(out, log, version, source, target, op)
        }
        None => Ok(()),
    }
}
