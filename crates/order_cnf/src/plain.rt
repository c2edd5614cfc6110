//! The plain formula of a history.

ghost use Rattle.std.specs.Prelude.{◌≡◌, [], length, map, None, IfOk, IfErr};
ghost use Rattle.std.specs.List.{AllByRecursion};
ghost use Rattle.serializability.specs.Reads.{IsClean};
ghost use Rattle.serializability.specs.Polygraph.{bipaths};
ghost use Rattle.serializability.specs.Pairs as spec;
ghost use Rattle.serializability.specs.Plain.{plain, plain_of};
ghost use Rattle.log_definitions.specs.Numbers.{log_of};
ghost use Rattle.polygraph.specs.Polygraphs.{Joins};
ghost use Rattle.order_cnf.specs.Bipaths.{HasPlain};
ghost use Rattle.order_cnf.specs.Data.{cnf_of};
ghost use Rattle.order_cnf.specs.Limits.{plain_fault, size_fault, IsFault};
ghost use Rattle.order_cnf.specs.Tables.{pairs_in};

use crate::fault::CnfFault;
use crate::formula::Formula;
use crate::layout::{Layout, free_literal};
use crate::relation::Relation;
use polygraph::{BipathGraph, bipath_graph};
use reach_laws::Edge;
use serializability::Literal;
use session_history::History;
use std::alloc::{AllocError, Global};

/// The greatest number of committed transactions for a plain formula.
pub const MAX_PLAIN_NODES: usize = 100;

/// The literals of arcs.
fn arc_literals(
    alloc: Global,
    relation: &Relation,
    arcs: &[Edge],
) -> Result<Vec<Literal>, AllocError>
    requires nothing { relation.now.known ≡ [] }
    requires joined { AllByRecursion (Joins relation.now.nodes) arcs.now }
    ensures literals { IfOk result (λ l. l.items ≡ map
        (λ e. spec.edge_literal (pairs_in relation.now) e.0 e.1) arcs.now) }
{
    let mut literals = Vec::with_capacity(alloc, arcs.len())?;
    for arc in arcs {
        literals.push(free_literal(relation, *arc))?;
    }
    Ok(literals)
}

/// The formula of a polygraph of bipaths, where it is one.
fn formula_of(alloc: Global, polygraph: BipathGraph) -> Result<Formula, CnfFault>
    requires plain { HasPlain polygraph }
    ensures formula { IfOk result (λ f. cnf_of f ≡ plain_of polygraph) }
    ensures choices { IfOk result (λ f. f.choices ≡ length polygraph.choices) }
    ensures fits { IfOk result (λ _. size_fault (plain_of polygraph) ≡ None) }
    ensures fault { IfErr result (λ e. IsFault e (size_fault (plain_of polygraph))) }
{
    let (known, bipaths) = polygraph.into_parts();
    let relation = Relation::unknown(alloc, known.nodes())?;
    let variables = relation.variables();
    let choices = bipaths.len();
    let units = arc_literals(alloc, &relation, &known.edges(alloc)?)?;
    let layout = Layout::new(
        relation,
        0,
        units,
        bipaths,
        Vec::new(alloc),
        Vec::new(alloc),
    );
    Formula::of(layout, variables, choices)
}

/// The plain formula of a clean history: a variable for each pair of nodes, and a clause for each
/// arc, for each bipath and, twice, for each three nodes.
///
/// Its satisfying assignments stand for the serial orders. There is none for more than 100
/// committed transactions, more than 100,000 bipaths or more than 20,000,000 clauses; the first of
/// these is the error.
pub fn plain_formula(alloc: Global, history: &History) -> Result<Formula, CnfFault>
    requires clean { IsClean (log_of history.now) }
    ensures formula { IfOk result (λ f. cnf_of f ≡ plain (log_of history.now)) }
    ensures choices { IfOk result (λ f. f.choices ≡ length (bipaths (log_of history.now))) }
    ensures fits { IfOk result (λ _. plain_fault (log_of history.now) ≡ None) }
    ensures fault { IfErr result (λ e. IsFault e (plain_fault (log_of history.now))) }
{
    if history.committed() > MAX_PLAIN_NODES {
        return Err(CnfFault::TooManyForPlain);
    }
    let polygraph = bipath_graph(alloc, history)?;
    formula_of(alloc, polygraph)
}
