//! The search for an assignment that satisfies a formula.

ghost use Rattle.std.specs.Prelude.{IfOk};
ghost use Rattle.order_cnf.specs.Data.{cnf_of};
ghost use Rattle.formula_search.specs.Searched.{IsFoundOf};

use crate::given::checker_of;
use crate::nodes::nodes_of;
use clause_search::{Found, search_used};
use order_cnf::Formula;
use serializability::NodeIx;
use std::alloc::{AllocError, Global};

/// Whether a formula can be satisfied, by a search that ends after so many conflicts; and where it
/// is refuted, the nodes of the clauses on which that rests, as far as they are known.
#[tactic(auto, using(crate::proofs::Finding::found_of))]
pub fn search_formula(
    alloc: Global,
    formula: &Formula,
    budget: u32,
    nodes: &mut Vec<NodeIx>,
) -> Result<Found, AllocError>
    ensures found { IfOk result (IsFoundOf (cnf_of formula.now)) }
{
    let mut checker = checker_of(alloc, formula)?;
    let mut used = Vec::new(alloc);
    let found = search_used(
        alloc,
        &mut checker,
        formula.vars() as u32,
        budget,
        &mut used,
    )?;
    if let Found::Refuted = found {
        *nodes = nodes_of(alloc, formula, &used)?;
    }
    Ok(found)
}
