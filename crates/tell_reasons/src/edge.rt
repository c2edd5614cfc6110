//! Why one node stands before another, in a line.

ghost use Rattle.std.specs.Prelude.{◌≡◌, ◌++◌, OnOk};
ghost use Rattle.tell_reasons.specs.Edges.{origin_text, reason_text, because_text, why_text};

use crate::phrases::{begin_of, end_of, wid_at};
use crate::say;
use crate::versions::{put_behind, put_held, put_version, put_whose};
use crate::why::Why;
use crate::words::Said;
use log_lines::PlacedHistory as Log;
use reasons::Reason;
use serializability::NodeIx;

/// Appends whether an operation names the initial value itself, or who wrote an update of it that it
/// names.
fn put_origin(out: &mut Vec<u8>, log: &Log<'_>, node: NodeIx, op: usize) -> Said
    ensures text { OnOk result (out.new.items ≡ out.old.items ++ origin_text log.now node op) }
{
    if wid_at(log.history, node, op) == 0 {
        say!(out, log; Text(b", the initial value"))
    } else {
        put_behind(out, log, 0, node, op)
    }
}

/// Appends why the log shows that `a` stands before `b`.
fn put_reason(out: &mut Vec<u8>, log: &Log<'_>, a: NodeIx, b: NodeIx, reason: Reason) -> Said
    ensures text { OnOk result (out.new.items ≡ out.old.items ++ reason_text log.now a b reason) }
{
    match reason {
        Reason::Session => {
            let session = log.history.session_of(a);
            say!(out, log; Text(b"session "), Number(u64::from(session)))
        }
        Reason::Read { written, read } => say!(out, log;
            Does(b, b" reads ", read), Wrote(a, written)),
        Reason::Overwritten { read, overwrites } => {
            say!(out, log; Does(a, b" reads ", read))?;
            put_whose(out, log, a, read)?;
            say!(out, log; Text(b", and "), Node(b),
                Text(b", which reads it too, overwrites it with "), Identity(b, overwrites),
                AtLine(b, overwrites))
        }
        Reason::Initial { read, begins } => {
            say!(out, log; Does(a, b" reads ", read))?;
            put_origin(out, log, a, read)?;
            say!(out, log; Text(b", and "), Node(b), Text(b" wrote "), Operation(b, begins),
                AtLine(b, begins))
        }
        Reason::Moments => {
            let ended = log.history.ended_of(a).unwrap_or(0);
            let begun = log.history.begun_of(b).unwrap_or(0);
            say!(out, log;
                Node(a), Text(b" ended at "), Number(ended), Line(end_of(log, a)), Text(b", "),
                Node(b), Text(b" began at "), Number(begun), Line(begin_of(log, b)))
        }
    }
}

/// Appends why `a` stands before `b`.
fn put_because(out: &mut Vec<u8>, log: &Log<'_>, a: NodeIx, b: NodeIx, why: Why) -> Said
    ensures text { OnOk result (out.new.items ≡ out.old.items ++ because_text log.now a b why) }
{
    match why {
        Why::Known(reason) => put_reason(out, log, a, b, reason),
        Why::Forced { number, order } => {
            put_held(out, log, order.key, order.first, a)?;
            say!(out, log; Text(b", which by ["), Number(number as u64))?;
            put_version(out, log, b"] comes before ", order.key, b)
        }
        Why::Chosen(order) => {
            put_held(out, log, order.key, order.first, a)?;
            put_version(
                out,
                log,
                b", which by supposition comes before ",
                order.key,
                b,
            )
        }
    }
}

/// Appends the line that says why `a` stands before `b`. Where memory runs out, a part of the line
/// may have been appended.
pub fn put_edge(out: &mut Vec<u8>, log: &Log<'_>, a: NodeIx, b: NodeIx, why: Why) -> Said
    ensures text { OnOk result (out.new.items ≡ out.old.items ++ why_text log.now a b why) }
{
    say!(out, log; Node(a), Text(b" before "), Node(b), Text(b": "))?;
    put_because(out, log, a, b, why)?;
    say!(out, log; Text(b"\n"))
}
