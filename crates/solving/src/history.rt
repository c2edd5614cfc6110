//! From a history to its formula, and from what is found of that to its serial order.

ghost use Rattle.std.specs.Prelude.{IfOk, IfErr};
ghost use Rattle.serializability.specs.Formula.{Satisfies};
ghost use Rattle.serializability.specs.Decoded.{before, IsDecoded};
ghost use Rattle.order_cnf.specs.Data.{cnf_of};
ghost use Rattle.cobra_formulas.specs.Formulas.{IsFaithful, IsFormulaOf, IsFormulaFault};
ghost use Rattle.solving.specs.Solved.{Solves};

use crate::solution::Solution;
use cobra_formulas::formula_of;
use decode_order::{DecodeFault, positions};
use desk::gate::Gate;
use desk::seat_no::Workers;
use formula_search::{Found, search_formula};
use order_cnf::{CnfFault, Formula};
use session_history::{History, NodeIx, NodeLine};
use std::alloc::{AllocError, Global};
use std::sync::Wait;
use std::thread::Threads;
use std::time::Clock;

/// The order that an assignment stands for which satisfies a formula.
#[tactic(auto, using(crate::proofs::Solving::none_false, crate::proofs::Solving::none_missing))]
fn order_of(alloc: Global, formula: &Formula, values: &[bool]) -> Result<NodeLine, AllocError>
    requires satisfied { Satisfies values.now (cnf_of formula.now) }
    ensures order { IfOk result (IsDecoded formula.now.nodes
        (before (cnf_of formula.now) values.now)) }
{
    match positions(alloc, formula, values) {
        Ok(order) => Ok(order),
        Err(DecodeFault::NotAModel { .. }) => unreachable!(),
        Err(DecodeFault::WrongLength) => unreachable!(),
        Err(DecodeFault::Memory) => Err(AllocError),
    }
}

/// What a search that ends after so many conflicts finds of a history by its formula, which is the
/// plain one or not.
#[tactic(auto, using(crate::proofs::Solving::refuted_for, crate::proofs::Solving::serial_of))]
fn solve_formula(
    alloc: Global,
    _history: &History,
    formula: &Formula,
    _plain: bool,
    budget: u32,
    nodes: &mut Vec<NodeIx>,
) -> Result<Solution, AllocError>
    requires belongs { IsFormulaOf _plain _history.now (cnf_of formula.now) }
    requires faithful { IsFaithful _history.now (cnf_of formula.now) }
    ensures solves { IfOk result (Solves _plain _history.now) }
{
    match search_formula(alloc, formula, budget, nodes)? {
        Found::Refuted => Ok(Solution::Refuted),
        Found::Satisfied(values) => Ok(Solution::Serial(order_of(alloc, formula, &values)?)),
        Found::Spent => Ok(Solution::Spent),
    }
}

/// What a search that ends after so many conflicts finds of a history by its formula: with `plain`
/// the plain one, without it the reduced one. So many workers prune, each of which passes the gate
/// before each of its turns.
///
/// # Errors
/// Those of the formula: a limit that it exceeds, or want of memory.
pub fn solve_history<R: Threads + Wait + Clock + Sync, G: Gate>(
    rt: &R,
    alloc: Global,
    history: &History,
    plain: bool,
    budget: u32,
    workers: Workers,
    gate: &G,
) -> Result<Solution, CnfFault>
    ensures solves { IfOk result (Solves plain history.now) }
    ensures fault { IfErr result (IsFormulaFault plain history.now) }
{
    let mut nodes = Vec::new(alloc);
    solve_nodes(rt, alloc, history, plain, budget, workers, gate, &mut nodes)
}

/// The same; and where the formula is refuted, nodes that show it, as far as they are known.
///
/// # Errors
/// Those of the formula: a limit that it exceeds, or want of memory.
#[tactic(auto, using(crate::proofs::Solving::belongs_so))]
pub fn solve_nodes<R: Threads + Wait + Clock + Sync, G: Gate>(
    rt: &R,
    alloc: Global,
    history: &History,
    plain: bool,
    budget: u32,
    workers: Workers,
    gate: &G,
    nodes: &mut Vec<NodeIx>,
) -> Result<Solution, CnfFault>
    ensures solves { IfOk result (Solves plain history.now) }
    ensures fault { IfErr result (IsFormulaFault plain history.now) }
{
    let belonging = formula_of(rt, alloc, history, plain, workers, gate)?;
    Ok(solve_formula(alloc, history, &belonging.formula, plain, budget, nodes)?)
}
