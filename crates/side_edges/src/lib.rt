//! The edges of all sides of a polygraph's choices, listed by their targets.
//!
//! Called by `cube_machine` and `branching`. It knows no cube and no mark.
#![tactic(auto)]

ghost use Rattle.std.specs.Prelude.{◌≡◌, ◌+◌, ◌<◌, length, IfOk, OnOk};
ghost use Rattle.std.specs.List.{AllByRecursion};
ghost use Rattle.side_edges.specs.Listed.{HasSides, AddsSide, AddsEntry, AreEmpty};
ghost use Rattle.polygraph.specs.declared.index.TheConstants.{MAX_CHOICES};

use polygraph::{ChoiceIx, Polygraph};
use pruning_laws::Side;
use reach_laws::Edge;
use serializability::NodeIx;
use std::alloc::{AllocError, Global};

/// An edge of a side of a choice, where its target is known.
#[derive(Clone, Copy)]
pub struct SideEdge {
    pub source: NodeIx,
    pub choice: ChoiceIx,
    pub side: Side,
}

/// The edges of all sides of a polygraph's choices, by their targets, which are nodes 0 to n.
pub fn side_edges(alloc: Global, polygraph: &Polygraph) -> Result<Vec<Vec<SideEdge>>, AllocError>
    ensures count { IfOk result (λ lists. length lists.items ≡ polygraph.now.nodes + 1) }
    ensures sides { IfOk result (λ lists. HasSides polygraph.now.choices lists.items) }
{
    let mut lists = empty_lists(alloc, polygraph.nodes() + 1)?;
    let choices = polygraph.choices();
    let table = lists.as_mut_slice();
    for number in 0..choices.len() {
        let choice = choice_of(number);
        add_side(table, choice, Side::One, choices[number].one())?;
        add_side(table, choice, Side::Two, choices[number].two())?;
    }
    Ok(lists)
}

/// The choice with this number.
fn choice_of(number: usize) -> ChoiceIx
    requires few { number < MAX_CHOICES }
    ensures number { result ≡ number }
{
    ChoiceIx::new(number).unwrap()
}

/// So many lists, which are empty.
fn empty_lists(alloc: Global, count: usize) -> Result<Vec<Vec<SideEdge>>, AllocError>
    ensures count { IfOk result (λ lists. length lists.items ≡ count) }
    ensures empty { IfOk result (λ lists. AreEmpty lists.items) }
{
    let mut lists = Vec::with_capacity(alloc, count)?;
    for made in 0..count {
        lists.push(Vec::new(alloc))?;
    }
    Ok(lists)
}

/// Adds the edges of a side of a choice.
fn add_side(
    lists: &mut [Vec<SideEdge>],
    choice: ChoiceIx,
    side: Side,
    edges: &[Edge],
) -> Result<(), AllocError>
    requires within { AllByRecursion (λ e. e.1 < length lists.old) edges.now }
    ensures len { length lists.new ≡ length lists.old }
    ensures added { OnOk result (AddsSide choice side edges.now lists.old lists.new) }
{
    for &edge in edges {
        let source = edge.source();
        let entry = SideEdge {
            source,
            choice,
            side,
        };
        push_to(lists, edge.target(), entry)?;
    }
    Ok(())
}

/// Adds an edge to the list of its target.
fn push_to(lists: &mut [Vec<SideEdge>], target: NodeIx, entry: SideEdge) -> Result<(), AllocError>
    requires within { target < length lists.old }
    ensures len { length lists.new ≡ length lists.old }
    ensures pushed { OnOk result (AddsEntry target entry lists.old lists.new) }
{
    let list = &mut lists[target.get()];
    list.push(entry)?;
    Ok(())
}
