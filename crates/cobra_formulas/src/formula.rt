//! The plain formula of a history, and the reduced one.

ghost use Rattle.std.specs.Prelude.{◌≡◌, ◌≤◌, Some, IfOk, IfErr, OnOk};
ghost use Rattle.serializability.specs.Plain as plain;
ghost use Rattle.log_definitions.specs.Numbers.{log_of, IsWellFormedList};
ghost use Rattle.reduction.specs.Outcome.{IsCountedHistory};
ghost use Rattle.order_cnf.specs.Data.{cnf_of};
ghost use Rattle.order_cnf.specs.Limits.{IsFault};
ghost use Rattle.cobra_formulas.specs.Formulas.{formula_fault, IsPlainFormula, IsReducedWithin};
ghost use Rattle.cobra_formulas.specs.Formulas.{IsReducedFault, IsFaithful};
ghost use Rattle.cobra_formulas.specs.Formulas.{IsFormulaFrom, IsFormulaFault};
ghost use Rattle.order_cnf.specs.declared.plain.TheConstants.{MAX_PLAIN_NODES};

use crate::basis::{Basis, KNOWN_CYCLE, PRUNED_CYCLE};
use anomalies::classify;
use desk::gate::Gate;
use desk::seat_no::Workers;
use order_cnf::{
    CnfFault, Formula, MAX_PLAIN_NODES, contradiction, plain_formula, reduced_formula,
};
use prune_ledger::{Pruned, Reduced};
use reduction::{Reduction, reduce};
use session_history::History;
use std::alloc::Global;
use std::sync::Wait;
use std::thread::Threads;
use std::time::Clock;

/// A formula, and what it is made from.
#[derive(Drop)]
pub struct Belonging {
    pub formula: Formula,
    pub basis: Basis,
}

/// The contradiction, for the anomaly that is printed with this number.
fn contradicted(alloc: Global, number: u8) -> Result<Belonging, CnfFault>
    ensures formula { IfOk result (λ b. cnf_of b.formula ≡ plain.contradiction) }
    ensures basis { IfOk result (λ b. b.basis ≡ Basis.Anomalous number) }
    ensures fault { IfErr result (λ e. e ≡ CnfFault.Memory) }
{
    Ok(Belonging {
        formula: contradiction(alloc)?,
        basis: Basis::Anomalous(number),
    })
}

/// The plain formula, or the contradiction where an anomaly stands.
#[tactic(auto, unfolding(crate::specs::Formulas::formula_fault, log_definitions::specs::Numbers::plain_answer))]
fn plain_of(alloc: Global, history: &History) -> Result<Belonging, CnfFault>
    ensures made { IfOk result (λ b. IsPlainFormula history.now b.basis (cnf_of b.formula)) }
    ensures faithful { IfOk result (λ b. IsFaithful history.now (cnf_of b.formula)) }
    ensures fault { IfErr result (λ e. IsFault e (formula_fault history.now)) }
    ensures few { OnOk result ((log_of history.now).nodes ≤ MAX_PLAIN_NODES) }
{
    if history.committed() > MAX_PLAIN_NODES {
        return Err(CnfFault::TooManyForPlain);
    }
    match classify(alloc, history)? {
        Some(anomaly) => contradicted(alloc, anomaly.number()),
        None => {
            let formula = plain_formula(alloc, history)?;
            let basis = Basis::Bipaths(formula.choices());
            Ok(Belonging { formula, basis })
        }
    }
}

/// The reduced formula of what pruning left of the polygraph of the chains, which had so many
/// choices.
fn of_left(
    alloc: Global,
    _history: &History,
    choices: usize,
    reduced: Reduced,
) -> Result<Belonging, CnfFault>
    requires well_formed { IsWellFormedList _history.now }
    requires left { IsCountedHistory _history.now choices reduced }
    ensures made { IfOk result (λ b. IsReducedWithin _history.now b.basis (cnf_of b.formula)) }
    ensures faithful { IfOk result (λ b. IsFaithful _history.now (cnf_of b.formula)) }
    ensures fault { IfErr result (IsReducedFault _history.now) }
{
    let _invariant = reduced.poly().nodes();
    let left = reduced.poly().choices().len();
    Ok(Belonging {
        formula: reduced_formula(alloc, Pruned::Open(reduced))?,
        basis: Basis::Chains { all: choices, left },
    })
}

/// The reduced formula, or the contradiction where an anomaly stands, a cycle of what is known, or
/// pruning ends in one.
fn reduced_of<R: Threads + Wait + Clock + Sync, G: Gate>(
    rt: &R,
    alloc: Global,
    history: &History,
    workers: Workers,
    gate: &G,
) -> Result<Belonging, CnfFault>
    ensures made { IfOk result (λ b. IsReducedWithin history.now b.basis (cnf_of b.formula)) }
    ensures faithful { IfOk result (λ b. IsFaithful history.now (cnf_of b.formula)) }
    ensures fault { IfErr result (IsReducedFault history.now) }
{
    match reduce(rt, alloc, history, workers, gate)? {
        Reduction::Anomalous(anomaly) => contradicted(alloc, anomaly.number()),
        Reduction::Cyclic(_) => contradicted(alloc, KNOWN_CYCLE),
        Reduction::Dead(_) => contradicted(alloc, PRUNED_CYCLE),
        Reduction::Open { choices, reduced } => of_left(alloc, history, choices, reduced),
    }
}

/// The formula that belongs to a history: with `plain` the plain one, without it the reduced one,
/// and the contradiction where an anomaly stands. So many workers prune, each of which passes the
/// gate before each of its turns.
pub fn formula_of<R: Threads + Wait + Clock + Sync, G: Gate>(
    rt: &R,
    alloc: Global,
    history: &History,
    plain: bool,
    workers: Workers,
    gate: &G,
) -> Result<Belonging, CnfFault>
    ensures made { IfOk result (λ b. IsFormulaFrom plain history.now b.basis (cnf_of b.formula)) }
    ensures faithful { IfOk result (λ b. IsFaithful history.now (cnf_of b.formula)) }
    ensures fault { IfErr result (IsFormulaFault plain history.now) }
{
    if plain {
        plain_of(alloc, history)
    } else {
        reduced_of(rt, alloc, history, workers, gate)
    }
}
