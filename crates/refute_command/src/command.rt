//! From a log and a solver's proof to the verdict.

ghost use Rattle.std.specs.Prelude.{◌≡◌, IfOk, IfErr, OnOk};
ghost use Rattle.order_cnf.specs.Data.{cnf_of};
ghost use Rattle.cobra_answers.specs.Answers.{IsTold};
ghost use Rattle.proof_checks.specs.Checked.{IsProofFault};
ghost use Rattle.refute_command.specs.Refuted.{IsRefutation, IsNotRefuted, IsRefuteRefused};
ghost use Rattle.refute_command.specs.Refuted.{IsShownBy, failures_of, given_by};

use crate::refusal::Refusal;
use cobra_answers::{Reply, Status, tell};
use cobra_formulas::{formula_of, read_log};
use desk::gate::Gate;
use desk::seat_no::Workers;
use formula_search::checker_of;
use order_cnf::Formula;
use output::Sink;
use proof_checks::check_proof;
use proof_text::ProofFault;
use session_history::History;
use std::alloc::Global;
use std::sync::Wait;
use std::thread::Threads;
use std::time::Clock;

/// Checks a proof that a formula cannot be satisfied.
fn refute_formula(alloc: Global, formula: &Formula, proof: &[u8]) -> Result<(), ProofFault>
    ensures shown { OnOk result (IsShownBy proof.now (cnf_of formula.now)) }
    ensures fault { IfErr result (IsProofFault (given_by (cnf_of formula.now)) proof.now) }
{
    let mut checker = checker_of(alloc, formula)?;
    check_proof(alloc, &mut checker, formula.vars() as u32, proof)?;
    Ok(())
}

/// What a proof shows of a history.
#[tactic(auto, using(crate::proofs::Refusing::refutation_of))]
fn refute_history<R: Threads + Wait + Clock + Sync, G: Gate>(
    rt: &R,
    alloc: Global,
    history: &History,
    proof: &[u8],
    plain: bool,
    workers: Workers,
    gate: &G,
) -> Result<Reply, Refusal>
    ensures shown { IfOk result (λ r.
        IsRefutation plain proof.now history.now r.status r.text.items) }
    ensures refused { IfErr result (λ f. IsNotRefuted plain proof.now f history.now) }
{
    let belonging = formula_of(rt, alloc, history, plain, workers, gate)?;
    refute_formula(alloc, &belonging.formula, proof)?;
    Ok(Reply::fixed(
        alloc,
        Status::NotSerializable,
        b"not serializable: the formula is refuted\n",
    )?)
}

/// Writes that no serial order explains a log, where a solver's proof shows that the log's formula
/// cannot be satisfied.
///
/// # Errors
/// Those of the log and of its formula, as at `encode`; then the first fault of the proof: R4 above
/// 1 GiB, else the first of its steps that has none of the forms (R1) or does not follow (R2), or R3
/// where none derives the empty clause; the sink's failure; want of memory.
pub fn refute<R: Threads + Wait + Clock + Sync, G: Gate, W: Sink>(
    rt: &R,
    alloc: Global,
    log: &[u8],
    proof: &[u8],
    plain: bool,
    workers: Workers,
    gate: &G,
    sink: &mut W,
) -> Result<Status, Refusal>
    ensures told { IfOk result (IsTold (IsRefutation plain proof.now)
        log.now (W.bytes sink.old) (W.bytes sink.new)) }
    ensures refused { IfErr result (IsRefuteRefused plain proof.now log.now (W.bytes sink.old)
        (W.bytes sink.new)) }
    ensures count { W.failures sink.new ≡ failures_of (W.failures sink.old) result }
{
    let history = read_log(rt, alloc, log, workers, gate)?;
    let reply = refute_history(rt, alloc, &history, proof, plain, workers, gate)?;
    Ok(tell(sink, &reply)?)
}
