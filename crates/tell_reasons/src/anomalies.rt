//! What is wrong with a read, or with two transactions that update one key, in the log's own lines.

ghost use Rattle.std.specs.Prelude.{◌≡◌, ◌++◌, OnOk};
ghost use Rattle.tell_reasons.specs.Anomalies.{read_text, bad_read_text};
ghost use Rattle.tell_reasons.specs.Anomalies.{update_text, unseen_text, both_text, updates_text, anomaly_text};

use crate::phrases::{key_in, line_of, op_of, wid_in};
use crate::places::{last_write, other_read};
use crate::say;
use crate::versions::{left_at, read_at};
use crate::words::Said;
use crate::writers::put_writer;
use log_lines::PlacedHistory as Log;
use serializability::{Anomaly, NodeIx};

/// Appends the line of a read, in these words, and who wrote what it names.
#[tactic(auto, unfolding(crate::specs::Anomalies::read_text))]
fn put_read(out: &mut Vec<u8>, log: &Log<'_>, node: NodeIx, reads: &[u8], op: usize) -> Said
    ensures text { OnOk result (out.new.items
        ≡ out.old.items ++ read_text log.now node reads.now op) }
{
    let read = op_of(log.history, node, op);
    say!(out, log; Does(node, reads, op))?;
    put_writer(out, log, line_of(log, node, op), key_in(read), wid_in(read))?;
    say!(out, log; Text(b"\n"))
}

/// Appends the lines of a read that is an anomaly: first what its transaction did with the key
/// before, by its latest write, else by its first read of another identity.
#[tactic(auto, unfolding(crate::specs::Anomalies::bad_read_text))]
fn put_bad_read(out: &mut Vec<u8>, log: &Log<'_>, node: NodeIx, op: usize) -> Said
    ensures text { OnOk result (out.new.items
        ≡ out.old.items ++ bad_read_text log.now node op) }
{
    if let Some(write) = last_write(log.history, node, op) {
        say!(out, log; Does(node, b" writes ", write), Text(b"\n"))?;
        put_read(out, log, node, b" then reads ", op)
    } else if let Some(read) = other_read(log.history, node, op) {
        put_read(out, log, node, b" reads ", read)?;
        put_read(out, log, node, b" then reads ", op)
    } else {
        put_read(out, log, node, b" reads ", op)
    }
}

/// Appends the lines of an update of a key.
#[tactic(auto, unfolding(crate::specs::Anomalies::update_text))]
fn put_update(out: &mut Vec<u8>, log: &Log<'_>, key: usize, node: NodeIx) -> Said
    ensures text { OnOk result (out.new.items ≡ out.old.items ++ update_text log.now key node) }
{
    if let Some(read) = read_at(log.history, key, node) {
        put_read(out, log, node, b" reads ", read)?;
    }
    match left_at(log.history, key, node) {
        Some(write) => say!(out, log; Node(node), Text(b" overwrites it with "),
            Identity(node, write), AtLine(node, write), Text(b"\n")),
        None => Ok(()),
    }
}

/// Appends which of two nodes did not see what the other wrote: of one session the second, else both.
#[tactic(auto, unfolding(crate::specs::Anomalies::unseen_text))]
fn put_unseen(out: &mut Vec<u8>, log: &Log<'_>, first: NodeIx, second: NodeIx) -> Said
    ensures text { OnOk result (out.new.items ≡ out.old.items ++ unseen_text log.now first second) }
{
    if log.history.session_of(first) == log.history.session_of(second) {
        say!(out, log; Node(second), Text(b" did not see "), Node(first), Text(b"'s\n"))
    } else {
        say!(out, log; Text(b"neither saw the other's\n"))
    }
}

/// Appends that two nodes update a key.
#[tactic(auto, unfolding(crate::specs::Anomalies::both_text))]
fn put_both(out: &mut Vec<u8>, log: &Log<'_>, key: usize, first: NodeIx, second: NodeIx) -> Said
    ensures text { OnOk result (out.new.items ≡ out.old.items ++ both_text log.now key first second) }
{
    say!(out, log; Text(b"in short: "), Node(first), Text(b" and "), Node(second),
        Text(b" read one version of "), Key(key), Text(b" and both overwrote it; "))
}

/// Appends two updates of a key, in a sentence and in lines.
#[tactic(auto, unfolding(crate::specs::Anomalies::updates_text))]
fn put_updates(out: &mut Vec<u8>, log: &Log<'_>, key: usize, first: NodeIx, second: NodeIx) -> Said
    ensures text { OnOk result (out.new.items
        ≡ out.old.items ++ updates_text log.now key first second) }
{
    put_both(out, log, key, first, second)?;
    put_unseen(out, log, first, second)?;
    put_update(out, log, key, first)?;
    put_update(out, log, key, second)
}

/// Appends the lines that show the anomaly of a log. Where memory runs out, a part of them may have
/// been appended.
pub fn put_anomaly(out: &mut Vec<u8>, log: &Log<'_>, anomaly: Anomaly) -> Said
    ensures text { OnOk result (out.new.items ≡ out.old.items ++ anomaly_text log.now anomaly) }
{
    match anomaly {
        Anomaly::Read { node, op, .. } => put_bad_read(out, log, node, op.saturating_sub(1)),
        Anomaly::LostUpdate {
            key,
            first,
            second,
            ..
        } => put_updates(out, log, key, first, second),
    }
}
