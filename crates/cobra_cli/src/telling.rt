//! Why no serial order explains a log.

ghost use Rattle.std.specs.Prelude.{◌≡◌, ◌+◌, ◌<◌, ◌^◌, ◌++◌, length, IfOk, IfErr, OnOk};
ghost use Rattle.session_log.specs.Version.{version_of};
ghost use Rattle.log_definitions.specs.WellFormed.{log_lines};
ghost use Rattle.deciding.specs.Decides.{IsDecided};
ghost use Rattle.cobra_answers.specs.Answers.{IsTold, IsRefused};
ghost use Rattle.cobra_answers.specs.Failures.{failures_after};
ghost use Rattle.cobra_cli.specs.Checked.{status_of, IsUndecided};
ghost use Rattle.cobra_cli.specs.Explained.{head, first_text, advice_text, IsDecisionText};
ghost use Rattle.cobra_cli.specs.Explained.{IsExplanation};

use crate::checking::{status_of, verdict_text};
use crate::options::Options;
use cobra_answers::{Fault, Reply, Status, tell};
use cobra_formulas::read_log;
use deciding::{Decision, decide};
use desk::gate::Gate;
use output::Sink;
use session_history::History;
use session_log::Version;
use std::alloc::{AllocError, Global};
use std::sync::Wait;
use std::thread::Threads;
use std::time::Clock;
use tell_decision::Format;

/// The first line of what `check` says of a serial order.
const SERIAL: &[u8] = b"serializable\n";

/// The first line of what `check` says of a cycle of known edges.
const CYCLE: &[u8] = b"not serializable: A8 cycle of known edges\n";

/// What to try where the budget was spent.
const ADVICE: &[u8] =
    b"try --strategy forced --workers 1, then a larger --budget, then a SAT solver on what encode writes\n";

/// The first line of what `check` says of a decision.
fn first_text<'a>(decision: &Decision, whole: &'a [u8]) -> &'a [u8]
    ensures first { result.now ≡ first_text decision.now whole.now }
{
    match decision {
        Decision::Serial(_) => SERIAL,
        Decision::Cyclic(_) => CYCLE,
        _ => whole,
    }
}

/// Appends lines, or in a graph the first of them as a comment.
fn put_head(
    text: &mut Vec<u8>,
    format: Format,
    whole: &[u8],
    first: &[u8],
) -> Result<(), AllocError>
    ensures text { OnOk result (text.new.items ≡ text.old.items
        ++ head format whole.now first.now) }
{
    match format {
        Format::Text => text.extend_from_slice(whole),
        Format::Dot => {
            text.extend_from_slice(b"// ")?;
            text.extend_from_slice(first)
        }
    }
}

/// Appends what to try where the budget was spent.
fn put_advice(text: &mut Vec<u8>, format: Format, decision: &Decision) -> Result<(), AllocError>
    ensures text { OnOk result (text.new.items ≡ text.old.items
        ++ advice_text format decision.now) }
{
    match decision {
        Decision::Spent { .. } => put_head(text, format, ADVICE, ADVICE),
        _ => Ok(()),
    }
}

/// What is written of a decision, of which `check` says this, and which stands for this reason.
fn write_explanation(
    alloc: Global,
    format: Format,
    decision: &Decision,
    whole: &[u8],
    why: &[u8],
) -> Result<Vec<u8>, AllocError>
    ensures text { IfOk result (λ text. text.items
        ≡ head format whole.now (first_text decision.now whole.now)
        ++ advice_text format decision.now ++ why.now) }
{
    let mut text = Vec::new(alloc);
    put_head(&mut text, format, whole, first_text(decision, whole))?;
    put_advice(&mut text, format, decision)?;
    text.extend_from_slice(why)?;
    Ok(text)
}

/// What is to be said of a decision about the history of a log of this version.
fn explanation(
    alloc: Global,
    version: Version,
    history: &History,
    format: Format,
    decision: &Decision,
) -> Result<Reply, AllocError>
    requires room { length (log_lines history.now) + 2 < 2 ^ 63 }
    requires decided { IsDecided history.now decision.now }
    ensures status { IfOk result (λ r. r.status ≡ status_of decision.now) }
    ensures text { IfOk result (λ r. IsDecisionText version format history.now decision.now
        r.text.items) }
{
    let whole = verdict_text(alloc, history, decision)?;
    let why = tell_decision::explain(alloc, version, history, format, decision)?;
    Ok(Reply {
        status: status_of(decision),
        text: write_explanation(alloc, format, decision, &whole, &why)?,
    })
}

/// Writes what `check` writes, and behind `not serializable` why, in the log's own lines: the reads
/// and writes that an anomaly names; for each edge of a cycle the reason that the log shows; the
/// forced steps that pruning's cycle needs; the tree of a search. Or a graph of that for Graphviz,
/// with the first line of what `check` writes as a comment.
///
/// # Errors
/// Those of `check`.
pub fn explain<R: Threads + Wait + Clock + Sync, G: Gate, W: Sink>(
    rt: &R,
    alloc: Global,
    log: &[u8],
    options: &Options,
    format: Format,
    gate: &G,
    sink: &mut W,
) -> Result<Status, Fault>
    ensures told { IfOk result (IsTold (IsExplanation options.now.budget
        (version_of log.now) format)
        log.now (W.bytes sink.old) (W.bytes sink.new)) }
    ensures refused { IfErr result (IsRefused (IsExplanation options.now.budget
        (version_of log.now) format) IsUndecided
        log.now (W.bytes sink.old) (W.bytes sink.new)) }
    ensures count { W.failures sink.new ≡ failures_after (W.failures sink.old) result }
{
    let history = read_log(rt, alloc, log, options.workers, gate)?;
    let decision = decide(rt, alloc, &history, &options.means(), gate)?;
    let reply = explanation(alloc, Version::of(log), &history, format, &decision)?;
    tell(sink, &reply)
}
