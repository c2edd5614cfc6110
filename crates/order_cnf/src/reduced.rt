//! The reduced formula of a pruned polygraph.

ghost use Rattle.std.specs.Prelude.{◌≡◌, ◌∷◌, ◌++◌, [], length, None, IfOk, IfErr, OnOk};
ghost use Rattle.std.specs.List.{flat_map};
ghost use Rattle.order_cnf.specs.Data.{cnf_of};
ghost use Rattle.order_cnf.specs.Left.{choices_left, formula_left, formula_of_rest, IsLawful};
ghost use Rattle.order_cnf.specs.Left.{IsProperRest, IsRest};
ghost use Rattle.order_cnf.specs.Limits.{size_fault, IsFault};

use crate::fault::CnfFault;
use crate::formula::{Formula, contradiction};
use crate::layout::Layout;
use crate::relation::Relation;
use polygraph::Choice;
use prune_ledger::{Pruned, Reduced};
use reach_laws::Edge;
use std::alloc::{AllocError, Global};

/// The edges of choices, side by side, and how many each side has.
#[derive(Drop)]
struct Sides {
    edges: Vec<Edge>,
    counts: Vec<usize>,
}

/// How many edges these choices have.
fn edge_count(choices: &[Choice]) -> usize {
    let mut count: usize = 0;
    for choice in choices {
        count = count
            .saturating_add(choice.one().len())
            .saturating_add(choice.two().len());
    }
    count
}

impl Sides {
    /// Adds a side.
    fn push(&mut self, side: &[Edge]) -> Result<(), AllocError>
        ensures edges { OnOk result (self.new.edges.items ≡ self.old.edges.items ++ side.now) }
        ensures counts { OnOk result (self.new.counts.items ≡ self.old.counts.items
            ++ length side.now ∷ []) }
    {
        self.edges.extend_from_slice(side)?;
        self.counts.push(side.len())?;
        Ok(())
    }
}

/// The sides of these choices.
fn sides_of(alloc: Global, choices: &[Choice]) -> Result<Sides, AllocError>
    ensures edges { IfOk result (λ s. s.edges.items ≡ flat_map (λ h. h.one ++ h.two) choices.now) }
    ensures counts { IfOk result (λ s. s.counts.items ≡ flat_map
        (λ h. length h.one ∷ length h.two ∷ []) choices.now) }
{
    let mut sides = Sides {
        edges: Vec::with_capacity(alloc, edge_count(choices))?,
        counts: Vec::with_capacity(alloc, 2 * choices.len())?,
    };
    for choice in choices {
        sides.push(choice.one())?;
        sides.push(choice.two())?;
    }
    Ok(sides)
}

/// What pruning leaves is proper, and its rows say what reaches what.
fn left_is_proper(reduced: &Reduced)
    ensures rest { IsRest reduced.now.poly reduced.now.rows }
    ensures proper { IsProperRest reduced.now }
{
    let _invariant = reduced.poly().nodes();
    let _invariant = reduced.rows();
}

/// The formula of what pruning leaves open.
fn formula_of_open(alloc: Global, reduced: Reduced) -> Result<Formula, CnfFault>
    ensures formula { IfOk result (λ f. cnf_of f ≡ formula_of_rest reduced) }
    ensures choices { IfOk result (λ f. f.choices ≡ length reduced.poly.choices) }
    ensures proper { IsProperRest reduced }
    ensures fits { IfOk result (λ _. size_fault (formula_of_rest reduced) ≡ None) }
    ensures fault { IfErr result (λ e. IsFault e (size_fault (formula_of_rest reduced))) }
{
    left_is_proper(&reduced);
    let (polygraph, rows, _ledger) = reduced.into_parts();
    let choices = polygraph.choices();
    let relation = Relation::of(alloc, polygraph.nodes(), Some(rows))?;
    let variables = relation.variables() + choices.len() as u32;
    let Sides { edges, counts } = sides_of(alloc, choices)?;
    let layout = Layout::new(relation, 1, Vec::new(alloc), Vec::new(alloc), edges, counts);
    Formula::of(layout, variables, choices.len())
}

/// The reduced formula of what pruning leaves of a polygraph: a variable for each pair of nodes of
/// which neither reaches the other, and one for each open choice; a dead polygraph has the
/// contradiction.
///
/// Its satisfying assignments stand for the orders that fit. There is none of more than 20,000,000
/// clauses.
pub fn reduced_formula(alloc: Global, pruned: Pruned) -> Result<Formula, CnfFault>
    ensures formula { IfOk result (λ f. cnf_of f ≡ formula_left pruned) }
    ensures choices { IfOk result (λ f. f.choices ≡ choices_left pruned) }
    ensures lawful { IsLawful pruned }
    ensures fits { IfOk result (λ _. size_fault (formula_left pruned) ≡ None) }
    ensures fault { IfErr result (λ e. IsFault e (size_fault (formula_left pruned))) }
{
    match pruned {
        Pruned::Dead(_) => contradiction(alloc),
        Pruned::Open(reduced) => formula_of_open(alloc, reduced),
    }
}
