//! From a solver's answer to a serial order.

ghost use Rattle.std.specs.Prelude.{◌≡◌, length, IfOk, IfErr, OnOk};
ghost use Rattle.serializability.specs.Formula.{Satisfies};
ghost use Rattle.serializability.specs.Decoded.{before, IsDecoded};
ghost use Rattle.dimacs.specs.declared.status.Status.TheVariants.{Satisfiable};
ghost use Rattle.order_cnf.specs.Data.{cnf_of};
ghost use Rattle.cobra_answers.specs.Answers.{IsTold, IsRefused};
ghost use Rattle.cobra_formulas.specs.Formulas.{IsFaithful};
ghost use Rattle.cobra_cli.specs.Commands.{named_by, IsAnswerTo, IsAssignmentRefused, IsDecoding};
ghost use Rattle.cobra_cli.specs.Commands.{IsNotDecoded};
ghost use Rattle.cobra_answers.specs.Failures.{failures_after};

use crate::options::Options;
use cobra_answers::{Fault, Reply, Status, tell};
use cobra_formulas::{formula_of, read_log};
use decode_order::{DecodeFault, positions};
use desk::gate::Gate;
use dimacs::{SolverAnswer, read_answer};
use order_cnf::Formula;
use order_text::print_order;
use output::Sink;
use session_history::{History, NodeLine};
use std::alloc::Global;
use std::sync::Wait;
use std::thread::Threads;
use std::time::Clock;

/// The order that an assignment of a formula stands for.
fn order_of(alloc: Global, formula: &Formula, values: &[bool]) -> Result<NodeLine, Fault>
    requires each_variable { length values.now ≡ formula.now.variables }
    ensures satisfied { OnOk result (Satisfies values.now (cnf_of formula.now)) }
    ensures order { IfOk result (IsDecoded formula.now.nodes
        (before (cnf_of formula.now) values.now)) }
    ensures refused { IfErr result (IsAssignmentRefused values.now formula.now.clauses) }
{
    match positions(alloc, formula, values) {
        Ok(order) => Ok(order),
        Err(DecodeFault::NotAModel { clause }) => Err(Fault::NotAModel { clause }),
        Err(DecodeFault::WrongLength) => unreachable!(),
        Err(DecodeFault::Memory) => Err(Fault::Memory),
    }
}

/// The text of the order that an answer's assignment stands for.
fn order_reply(
    alloc: Global,
    history: &History,
    formula: &Formula,
    answer: &[u8],
    options: &Options,
    values: &[bool],
) -> Result<Reply, Fault>
    requires names { IsAnswerTo options.now.plain answer.now history.now Satisfiable
        (cnf_of formula.now) }
    requires named { values.now ≡ named_by answer.now (cnf_of formula.now) }
    requires faithful { IsFaithful history.now (cnf_of formula.now) }
    ensures decoded { IfOk result (λ r.
        IsDecoding options.now.plain answer.now history.now r.status r.text.items) }
    ensures refused { IfErr result (λ f. IsNotDecoded options.now.plain answer.now f history.now) }
{
    let order = order_of(alloc, formula, values)?;
    Ok(Reply {
        status: Status::Done,
        text: print_order(alloc, history, &order)?,
    })
}

/// What an answer says of a history.
fn decode_answer<R: Threads + Wait + Clock + Sync, G: Gate>(
    rt: &R,
    alloc: Global,
    history: &History,
    answer: &[u8],
    options: &Options,
    gate: &G,
) -> Result<Reply, Fault>
    ensures decoded { IfOk result (λ r.
        IsDecoding options.now.plain answer.now history.now r.status r.text.items) }
    ensures refused { IfErr result (λ f. IsNotDecoded options.now.plain answer.now f history.now) }
{
    let belonging = formula_of(rt, alloc, history, options.plain, options.workers, gate)?;
    let formula = &belonging.formula;
    match read_answer(alloc, answer, formula.vars())? {
        SolverAnswer::Model(values) => {
            order_reply(alloc, history, formula, answer, options, &values)
        }
        SolverAnswer::Unsatisfiable => Ok(Reply::fixed(
            alloc,
            Status::Unknown,
            b"unsatisfiable claimed, not checked\n",
        )?),
        SolverAnswer::Unknown => Ok(Reply::fixed(alloc, Status::Unknown, b"unknown\n")?),
    }
}

/// Writes the serial order that a solver's answer stands for, a line for each transaction: its
/// session's number and its place there. Where the answer claims no assignment, it writes that.
///
/// # Errors
/// Those of the log and of its formula, as at `encode`; then those of the answer, M1 to M8; then E1
/// with the first clause that the assignment makes false; the sink's failure; want of memory.
pub fn decode<R: Threads + Wait + Clock + Sync, G: Gate, W: Sink>(
    rt: &R,
    alloc: Global,
    log: &[u8],
    answer: &[u8],
    options: &Options,
    gate: &G,
    sink: &mut W,
) -> Result<Status, Fault>
    ensures told { IfOk result (IsTold (IsDecoding options.now.plain answer.now)
        log.now (W.bytes sink.old) (W.bytes sink.new)) }
    ensures refused { IfErr result (IsRefused (IsDecoding options.now.plain answer.now)
        (IsNotDecoded options.now.plain answer.now) log.now (W.bytes sink.old) (W.bytes sink.new)) }
    ensures count { W.failures sink.new ≡ failures_after (W.failures sink.old) result }
{
    let history = read_log(rt, alloc, log, options.workers, gate)?;
    let reply = decode_answer(rt, alloc, &history, answer, options, gate)?;
    tell(sink, &reply)
}
