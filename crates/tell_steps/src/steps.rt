//! A step, told behind others where it is right.

ghost use Rattle.std.specs.Prelude.{◌≡◌, ℕ, List, Some, IfOk, IfSome, IfNone};
ghost use Rattle.std.specs.List.{All};
ghost use Rattle.serializability.specs.Reads.{IsClean};
ghost use Rattle.log_definitions.specs.Numbers.{log_of};
ghost use Rattle.tell_reasons.specs.declared.why.ChainOrder.{ChainOrder as Order};
ghost use Rattle.tell_steps.specs.Steps.{IsOrder};
ghost use Rattle.tell_steps.specs.Lines.{HasEnds};
ghost use Rattle.tell_steps.specs.Ledgers.{IsStep};
ghost use Rattle.tell_steps.specs.Told.{IsRight, IsStepTold};

use crate::decided::{follows, is_order};
use crate::item::Item;
use crate::lines::tell_line;
use crate::orders::turned;
use serializability::NodeIx;
use std::alloc::{AllocError, Global};
use tell_proposals::Step;
use tell_reasons::ChainOrder;
use write_chains::Chains;

/// The first node and the last of a line that has an edge.
pub fn ends_of(line: &[NodeIx]) -> Option<(NodeIx, NodeIx)>
    ensures some { IfSome result (λ ends. HasEnds ends.0 ends.1 line.now) }
    ensures all { (a b : ℕ) → HasEnds a b line.now → result ≡ Some (a, b) }
{
    if line.len() < 2 {
        return None;
    }
    Some((line[0], line[line.len() - 1]))
}

/// The edge against which a step's walk leads, where it follows from the other way round than the
/// step's order, which is of two chains.
fn refuted_edge(chains: &Chains<'_>, step: &Step) -> Option<(NodeIx, NodeIx)>
    ensures some { IfSome result (IsRight (log_of chains.now) step.now) }
    ensures none { IfNone result ((earlier : List Order)
        → IsStep chains.now earlier step.now → ⊥) }
{
    let Some(ends) = ends_of(&step.walk) else {
        return None;
    };
    if !is_order(chains, step.order) {
        return None;
    }
    if !follows(chains, &turned(step.order), ends.1, ends.0) {
        return None;
    }
    Some((ends.1, ends.0))
}

/// A step behind those of these orders, and the edges of its walk; none, where it is not right.
pub fn tell_step(
    alloc: Global,
    chains: &Chains<'_>,
    earlier: &[ChainOrder],
    step: &Step,
) -> Result<Option<Vec<Item>>, AllocError>
    requires clean { IsClean (log_of chains.now) }
    requires orders { All (IsOrder (log_of chains.now)) earlier.now }
    ensures told { IfOk result (λ told. IfSome told (λ items.
        IsStepTold chains.now earlier.now step.now items.items)) }
    ensures none { IfOk result (λ told. IfNone told (IsStep chains.now earlier.now step.now → ⊥)) }
{
    let Some((source, target)) = refuted_edge(chains, step) else {
        return Ok(None);
    };
    let Some(against) = tell_line(alloc, chains, earlier, &[], &step.walk)? else {
        return Ok(None);
    };
    let mut items = Vec::new(alloc);
    items.push(Item::Step {
        number: earlier.len() + 1,
        order: step.order,
        source,
        target,
    })?;
    items.extend_from_slice(&against)?;
    Ok(Some(items))
}
