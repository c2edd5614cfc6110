//! From a log to the text of its formula.

ghost use Rattle.std.specs.Prelude.{◌≡◌, IfOk, IfErr, OnOk};
ghost use Rattle.std.specs.Io.KnownBytes.{Appends};
ghost use Rattle.dimacs.specs.Text.{text_of};
ghost use Rattle.order_cnf.specs.Data.{cnf_of};
ghost use Rattle.cobra_answers.specs.Answers.{IsTold, IsRefused, IsCutAt};
ghost use Rattle.cobra_cli.specs.Commands.{IsEncoding, HasNoFormula};
ghost use Rattle.cobra_answers.specs.Failures.{failures_after};

use crate::options::Options;
use cobra_answers::{Fault, Status};
use cobra_formulas::{formula_of, read_log};
use desk::gate::Gate;
use dimacs::write_formula;
use order_cnf::Formula;
use output::Sink;
use std::alloc::Global;
use std::sync::Wait;
use std::thread::Threads;
use std::time::Clock;

/// Puts the text of a formula into a sink.
fn tell_formula<W: Sink>(sink: &mut W, formula: &Formula) -> Result<Status, Fault>
    ensures status { IfOk result (λ status. status ≡ Status.Done) }
    ensures told { OnOk result
        (Appends (W.bytes sink.old) (W.bytes sink.new) (text_of (cnf_of formula.now))) }
    ensures cut { IfErr result
        (IsCutAt (W.bytes sink.old) (W.bytes sink.new) (text_of (cnf_of formula.now))) }
    ensures count { W.failures sink.new ≡ failures_after (W.failures sink.old) result }
{
    write_formula(sink, formula)?;
    Ok(Status::Done)
}

/// Writes the formula of a log as DIMACS text: the reduced formula, or with `--plain` the plain
/// one, and the contradiction where an anomaly stands. Some assignment satisfies it exactly where
/// some serial order of the committed and the taken transactions explains every read. The text is
/// the same for each number of workers.
///
/// # Errors
/// The log's first fault; G1 above 100,000 choices between chains, where neither an anomaly nor a
/// cycle of the arcs was found; G3 above 20,000,000 clauses; the sink's failure, with how much of
/// the text went out; want of memory. With `--plain` G2 above 100 committed and taken transactions,
/// before anything else of the formula, and then, where no anomaly stands, G1 above 100,000
/// bipaths. At each but the sink's nothing was written.
pub fn encode<R: Threads + Wait + Clock + Sync, G: Gate, W: Sink>(
    rt: &R,
    alloc: Global,
    log: &[u8],
    options: &Options,
    gate: &G,
    sink: &mut W,
) -> Result<Status, Fault>
    ensures told { IfOk result (IsTold (IsEncoding options.now.plain)
        log.now (W.bytes sink.old) (W.bytes sink.new)) }
    ensures refused { IfErr result (IsRefused (IsEncoding options.now.plain)
        (HasNoFormula options.now.plain)
        log.now (W.bytes sink.old) (W.bytes sink.new)) }
    ensures count { W.failures sink.new ≡ failures_after (W.failures sink.old) result }
{
    let history = read_log(rt, alloc, log, options.workers, gate)?;
    let belonging = formula_of(rt, alloc, &history, options.plain, options.workers, gate)?;
    tell_formula(sink, &belonging.formula)
}
