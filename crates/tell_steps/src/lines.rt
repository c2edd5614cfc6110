//! Lines of nodes, told edge by edge among steps.

ghost use Rattle.std.specs.Prelude.{IsTrue, IfOk, IfSome, IfNone, not};
ghost use Rattle.std.specs.List.{All};
ghost use Rattle.serializability.specs.Reads.{IsClean};
ghost use Rattle.log_definitions.specs.Numbers.{log_of};
ghost use Rattle.tell_steps.specs.Steps.{IsOrder, IsWhy, IsLineTold};
ghost use Rattle.tell_steps.specs.Lines.{IsBetween, Stands, LineStands};

use crate::decided::first_with;
use crate::item::Item;
use reasons::reason_of;
use serializability::NodeIx;
use std::alloc::{AllocError, Global};
use tell_reasons::{ChainOrder, Why};
use write_chains::Chains;

/// Whether this is a node other than node 0.
pub fn is_between(chains: &Chains<'_>, node: NodeIx) -> bool
    ensures yes { IsTrue result → IsBetween chains.now node }
    ensures no { IsTrue (not result) → IsBetween chains.now node → ⊥ }
{
    node.get() != 0 && node.get() <= chains.history().committed()
}

/// Why `a` stands before `b`: where the log does not show it, by the first of these steps that has
/// the edge, and where none has, by the first of the decided orders that has it.
fn why_of(
    alloc: Global,
    chains: &Chains<'_>,
    steps: &[ChainOrder],
    decided: &[ChainOrder],
    a: NodeIx,
    b: NodeIx,
) -> Result<Option<Why>, AllocError>
    requires clean { IsClean (log_of chains.now) }
    requires steps { All (IsOrder (log_of chains.now)) steps.now }
    ensures why { IfOk result (λ why. IfSome why (IsWhy chains.now steps.now decided.now a b)) }
    ensures none { IfOk result (λ why. IfNone why (All (IsOrder (log_of chains.now)) decided.now
        → Stands chains.now steps.now decided.now a b → ⊥)) }
{
    if !is_between(chains, a) {
        return Ok(None);
    }
    if !is_between(chains, b) {
        return Ok(None);
    }
    if let Some(reason) = reason_of(alloc, chains.history(), a, b)? {
        return Ok(Some(Why::Known(reason)));
    }
    if let Some((number, order)) = first_with(chains, steps, a, b) {
        return Ok(Some(Why::Forced { number, order }));
    }
    match first_with(chains, decided, a, b) {
        Some((_, order)) => Ok(Some(Why::Chosen(order))),
        None => Ok(None),
    }
}

/// The edges of a line, each with why it stands among these steps; none, where one does not.
pub fn tell_line(
    alloc: Global,
    chains: &Chains<'_>,
    steps: &[ChainOrder],
    decided: &[ChainOrder],
    line: &[NodeIx],
) -> Result<Option<Vec<Item>>, AllocError>
    requires clean { IsClean (log_of chains.now) }
    requires steps { All (IsOrder (log_of chains.now)) steps.now }
    ensures told { IfOk result (λ told. IfSome told (λ items.
        IsLineTold chains.now steps.now decided.now line.now items.items)) }
    ensures none { IfOk result (λ told. IfNone told (All (IsOrder (log_of chains.now)) decided.now
        → LineStands chains.now steps.now decided.now line.now → ⊥)) }
{
    let mut items = Vec::with_capacity(alloc, line.len())?;
    if line.len() < 1 {
        return Ok(None);
    }
    let mut place = line.len() - 1;
    while place > 0 {
        let (first, second) = (line[place - 1], line[place]);
        let Some(why) = why_of(alloc, chains, steps, decided, first, second)? else {
            return Ok(None);
        };
        items.push(Item::Edge { first, second, why })?;
        place -= 1;
    }
    items.reverse();
    Ok(Some(items))
}
