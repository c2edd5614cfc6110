//! The texts that `check` writes.

ghost use Rattle.std.specs.Prelude.{◌≡◌, ◌<◌, ◌≤◌, ◌++◌, ◌∷◌, [], Some, codes, decimal, IfOk};
ghost use Rattle.std.specs.Prelude.{OnOk};
ghost use Rattle.std.specs.List.{All};
ghost use Rattle.serializability.specs.Anomalies.{anomaly_of};
ghost use Rattle.log_definitions.specs.Numbers.{log_of};
ghost use Rattle.order_text.specs.Text.{AreNodes};
ghost use Rattle.cobra_answers.specs.Verdicts.{named, read_title, key_bytes, read_text, lost_text};
ghost use Rattle.cobra_answers.specs.Verdicts.{anomaly_text, nodes_text, cycle_text, serial_text};
ghost use Rattle.cobra_answers.specs.Verdicts.{spent_text};

use itoa::Buffer;
use order_text::{print_order, put_name};
use session_history::{Anomaly, History, NodeIx, NodeLine, ReadAnomaly};
use std::alloc::{AllocError, Global};

/// Appends a word and the name of a node.
fn put_named(
    out: &mut Vec<u8>,
    word: &[u8],
    history: &History,
    node: NodeIx,
) -> Result<(), AllocError>
    requires known { node ≤ (log_of history.now).nodes }
    ensures text { OnOk result (out.new.items ≡ out.old.items ++ named word.now history.now node) }
{
    out.extend_from_slice(word)?;
    put_name(out, history, node)
}

/// The number and the name of an anomaly of a read.
pub fn read_title(kind: ReadAnomaly) -> &'static str
    ensures title { result.now ≡ read_title kind }
{
    match kind {
        ReadAnomaly::Unknown => "A1 unknown read",
        ReadAnomaly::Aborted => "A2 aborted read",
        ReadAnomaly::Intermediate => "A3 intermediate read",
        ReadAnomaly::OwnWriteMissed => "A4 own write missed",
        ReadAnomaly::Future => "A5 future read",
        ReadAnomaly::Split => "A6 split read",
    }
}

/// Appends the place of an operation, and ends the line.
fn put_operation(out: &mut Vec<u8>, op: usize) -> Result<(), AllocError>
    ensures text { OnOk result (out.new.items
        ≡ out.old.items ++ (codes " op " ++ decimal op ++ 10 ∷ [])) }
{
    let mut digits = Buffer::new();
    out.extend_from_slice(b" op ")?;
    out.extend_from_slice(digits.format(op).as_bytes())?;
    out.push(b'\n')?;
    Ok(())
}

/// The text of an anomaly of a read.
fn read_text(
    alloc: Global,
    history: &History,
    kind: ReadAnomaly,
    node: NodeIx,
    op: usize,
) -> Result<Vec<u8>, AllocError>
    requires known { node ≤ (log_of history.now).nodes }
    ensures text { IfOk result (λ text. text.items ≡ read_text history.now kind node op) }
{
    let mut out = Vec::new(alloc);
    out.extend_from_slice(b"not serializable: ")?;
    out.extend_from_slice(read_title(kind).as_bytes())?;
    put_named(&mut out, b" at ", history, node)?;
    put_operation(&mut out, op)?;
    Ok(out)
}

/// The bytes of a key.
#[tactic(auto, unfolding(crate::specs::Verdicts::key_bytes))]
fn key_bytes(history: &History, key: usize) -> &[u8]
    requires key { key < (log_of history.now).keys }
    ensures bytes { result.now ≡ key_bytes history.now key }
{
    history.key_text(key).as_bytes()
}

/// The text of a lost update.
fn lost_text(
    alloc: Global,
    history: &History,
    key: usize,
    source: NodeIx,
    first: NodeIx,
    second: NodeIx,
) -> Result<Vec<u8>, AllocError>
    requires key { key < (log_of history.now).keys }
    requires source { source ≤ (log_of history.now).nodes }
    requires first { first ≤ (log_of history.now).nodes }
    requires second { second ≤ (log_of history.now).nodes }
    ensures text { IfOk result (λ text. text.items
        ≡ lost_text history.now key source first second) }
{
    let mut out = Vec::new(alloc);
    out.extend_from_slice(b"not serializable: A7 lost update of ")?;
    out.extend_from_slice(key_bytes(history, key))?;
    put_named(&mut out, b" from ", history, source)?;
    put_named(&mut out, b" by ", history, first)?;
    put_named(&mut out, b" and ", history, second)?;
    out.push(b'\n')?;
    Ok(out)
}

/// The text of the anomaly of a history.
pub fn anomaly_text(
    alloc: Global,
    history: &History,
    anomaly: Anomaly,
) -> Result<Vec<u8>, AllocError>
    requires reported { anomaly_of (log_of history.now) ≡ Some anomaly }
    ensures text { IfOk result (λ text. text.items ≡ anomaly_text history.now anomaly) }
{
    match anomaly {
        Anomaly::Read { kind, node, op } => read_text(alloc, history, kind, node, op),
        Anomaly::LostUpdate {
            key,
            source,
            first,
            second,
        } => lost_text(alloc, history, key, source, first, second),
    }
}

/// Appends the names of nodes, each after a space.
#[tactic(auto, unfolding(crate::specs::Verdicts::nodes_text))]
fn put_nodes(out: &mut Vec<u8>, history: &History, nodes: &[NodeIx]) -> Result<(), AllocError>
    requires known { All (λ v. v ≤ (log_of history.now).nodes) nodes.now }
    ensures text { OnOk result (out.new.items ≡ out.old.items ++ nodes_text history.now nodes.now) }
{
    for node in nodes {
        put_named(out, b" ", history, *node)?;
    }
    Ok(())
}

/// The text of a cycle of known edges.
pub fn cycle_text(alloc: Global, history: &History, line: &[NodeIx]) -> Result<Vec<u8>, AllocError>
    requires known { All (λ v. v ≤ (log_of history.now).nodes) line.now }
    ensures text { IfOk result (λ text. text.items ≡ cycle_text history.now line.now) }
{
    let mut out = Vec::new(alloc);
    out.extend_from_slice(b"not serializable: A8 cycle of known edges\ncycle")?;
    put_nodes(&mut out, history, line)?;
    out.push(b'\n')?;
    Ok(out)
}

/// The text of a serial order.
pub fn serial_text(
    alloc: Global,
    history: &History,
    order: &NodeLine,
) -> Result<Vec<u8>, AllocError>
    requires nodes { AreNodes history.now order.now }
    ensures text { IfOk result (λ text. text.items ≡ serial_text history.now order.now) }
{
    let mut out = Vec::new(alloc);
    out.extend_from_slice(b"serializable\n")?;
    out.extend_from_slice(&print_order(alloc, history, order)?)?;
    Ok(out)
}

/// The text of a search whose budget was spent.
pub fn spent_text(alloc: Global, closed: usize) -> Result<Vec<u8>, AllocError>
    ensures text { IfOk result (λ text. text.items ≡ spent_text closed) }
{
    Ok(format!(in alloc; "unknown: {closed} closed\n")?.into_bytes())
}
