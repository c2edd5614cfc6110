//! The boxes of a graph: transactions with their operations.

ghost use Rattle.std.specs.Prelude.{◌≡◌, ◌++◌, map, OnOk};
ghost use Rattle.session_log.specs.Text.{view, view_txn};
ghost use Rattle.log_lines.specs.Rows.{rows_of};
ghost use Rattle.part_graphs.specs.Boxes as spec;

use level_refutations::{OpAt, TxnAt};
use session_log::{Op, Outcome, Txn};
use std::alloc::AllocError;
use tell_evidence::{Log, tell};

/// How a transaction is drawn.
#[derive(Clone, Copy)]
pub enum Look {
    /// As one box.
    Plain,
    /// With an end for its snapshot and one for its commit.
    Points,
}

/// What stands before an operation: the line break of a label, and what it does.
fn op_word(op: &Op) -> &'static [u8]
    ensures { result.now ≡ spec.op_word op.now }
{
    match op {
        Op::Read { .. } => b"\\nr ",
        Op::Write { .. } => b"\\nw ",
    }
}

/// Appends an operation, which stands here.
#[tactic(auto, unfolding(crate::specs::Boxes::op_text))]
fn put_op(out: &mut Vec<u8>, log: &Log<'_>, at: OpAt, op: &Op) -> Result<(), AllocError>
    ensures put { OnOk result (out.new.items ≡ out.old.items ++ spec.op_text
        (rows_of log.now.places.now) (map view log.now.sessions.now) at op.now) }
{
    tell!(out, log; Text(op_word(op)), Key(at), Text(b" "), Wid(at), AtLine(at))
}

/// Appends the operations of a transaction.
fn put_ops(out: &mut Vec<u8>, log: &Log<'_>, at: TxnAt, ops: &[Op]) -> Result<(), AllocError>
    ensures put { OnOk result (out.new.items ≡ out.old.items ++ spec.ops_text
        (rows_of log.now.places.now) (map view log.now.sessions.now) at 0 ops.now) }
{
    for i in 0..ops.len() {
        put_op(out, log, OpAt { txn: at, op: i }, &ops[i])?;
    }
    Ok(())
}

/// What stands behind the operations of a transaction that is not committed.
fn outcome_text(outcome: Outcome) -> &'static [u8]
    ensures { result.now ≡ spec.outcome_text outcome }
{
    match outcome {
        Outcome::Commit => b"",
        Outcome::Abort => b"\\naborted",
        Outcome::Unknown => b"\\nunknown",
    }
}

/// What stands between the name of a box and its label.
fn label_begin(look: Look) -> &'static [u8]
    ensures { result.now ≡ spec.label_begin look }
{
    match look {
        Look::Plain => b"\" [label=\"",
        Look::Points => b"\" [shape=record label=\"{<snapshot> snapshot|",
    }
}

/// What stands behind the label of a box.
fn label_end(look: Look) -> &'static [u8]
    ensures { result.now ≡ spec.label_end look }
{
    match look {
        Look::Plain => b"\"];\n",
        Look::Points => b"|<commit> commit}\"];\n",
    }
}

/// Appends the begin of a box: its name, and the name in its label.
#[tactic(auto, unfolding(crate::specs::Boxes::box_begin))]
fn put_begin(out: &mut Vec<u8>, log: &Log<'_>, look: Look, at: TxnAt) -> Result<(), AllocError>
    ensures put { OnOk result (out.new.items ≡ out.old.items ++ spec.box_begin
        (rows_of log.now.places.now) (map view log.now.sessions.now) look at) }
{
    tell!(out, log; Text(b"\""), Name(at), Text(label_begin(look)), Name(at))
}

/// Appends the end of a box, of a transaction with this outcome.
#[tactic(auto, unfolding(crate::specs::Boxes::box_end))]
fn put_end(out: &mut Vec<u8>, log: &Log<'_>, look: Look, outcome: Outcome) -> Result<(), AllocError>
    ensures put { OnOk result (out.new.items ≡ out.old.items ++ spec.box_end look outcome) }
{
    tell!(out, log; Text(outcome_text(outcome)), Text(label_end(look)))
}

/// Appends the box of a transaction.
fn put_box(
    out: &mut Vec<u8>,
    log: &Log<'_>,
    look: Look,
    at: TxnAt,
    txn: &Txn,
) -> Result<(), AllocError>
    ensures put { OnOk result (out.new.items ≡ out.old.items ++ spec.box_text
        (rows_of log.now.places.now) (map view log.now.sessions.now) look at (view_txn txn.now)) }
{
    put_begin(out, log, look, at)?;
    put_ops(out, log, at, &txn.ops)?;
    put_end(out, log, look, txn.outcome)
}

/// Appends the boxes of the session with this index.
fn put_session(
    out: &mut Vec<u8>,
    log: &Log<'_>,
    look: Look,
    index: usize,
    txns: &[Txn],
) -> Result<(), AllocError>
    ensures put { OnOk result (out.new.items ≡ out.old.items ++ spec.session_boxes
        (rows_of log.now.places.now) (map view log.now.sessions.now) look index 0
        (map view_txn txns.now)) }
{
    for i in 0..txns.len() {
        let at = TxnAt {
            session: index,
            txn: i,
        };
        put_box(out, log, look, at, &txns[i])?;
    }
    Ok(())
}

/// Appends a box for each transaction of the log.
pub fn put_boxes(out: &mut Vec<u8>, log: &Log<'_>, look: Look) -> Result<(), AllocError>
    ensures put { OnOk result (out.new.items ≡ out.old.items ++ spec.boxes_text
        (rows_of log.now.places.now) (map view log.now.sessions.now) look) }
{
    for i in 0..log.sessions.len() {
        put_session(out, log, look, i, &log.sessions[i].txns)?;
    }
    Ok(())
}
