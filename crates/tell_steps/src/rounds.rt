//! What is told behind steps.

ghost use Rattle.std.specs.Prelude.{IfOk, IfSome, IfNone};
ghost use Rattle.std.specs.List.{All};
ghost use Rattle.serializability.specs.Reads.{IsClean};
ghost use Rattle.log_definitions.specs.Numbers.{log_of};
ghost use Rattle.tell_steps.specs.Steps.{IsOrder};
ghost use Rattle.tell_steps.specs.Told.{IsRoundTold};
ghost use Rattle.tell_steps.specs.Lines.{LineStands, IsRound};
ghost use Rattle.tell_steps.specs.Rounds.{round_view, RoundStands, IsRoundPut};

use crate::item::Item;
use crate::lines::tell_line;
use crate::steps::ends_of;
use serializability::NodeIx;
use std::alloc::{AllocError, Global};
use tell_reasons::ChainOrder;
use write_chains::Chains;

/// Items, and where there is a line, the cycle that it makes, among steps and these decided orders.
#[derive(Drop)]
pub struct Round {
    pub before: Vec<Item>,
    pub decided: Vec<ChainOrder>,
    pub line: Option<Vec<NodeIx>>,
}

/// The cycle that a line makes, and its edges, each with why it stands among these steps; none,
/// where it does not close, or one does not stand.
fn tell_cycle(
    alloc: Global,
    chains: &Chains<'_>,
    steps: &[ChainOrder],
    decided: &[ChainOrder],
    line: &[NodeIx],
) -> Result<Option<Vec<Item>>, AllocError>
    requires clean { IsClean (log_of chains.now) }
    requires steps { All (IsOrder (log_of chains.now)) steps.now }
    ensures told { IfOk result (λ told. IfSome told (λ items.
        IsRoundTold chains.now steps.now decided.now line.now items.items)) }
    ensures none { IfOk result (λ told. IfNone told (All (IsOrder (log_of chains.now)) decided.now
        → IsRound line.now → LineStands chains.now steps.now decided.now line.now → ⊥)) }
{
    let Some(ends) = ends_of(line) else {
        return Ok(None);
    };
    if ends.0.get() != ends.1.get() {
        return Ok(None);
    }
    let Some(told) = tell_line(alloc, chains, steps, decided, line)? else {
        return Ok(None);
    };
    let mut items = Vec::new(alloc);
    items.push(Item::Cycle {
        start: ends.0,
        edges: line.len() - 1,
    })?;
    items.extend_from_slice(&told)?;
    Ok(Some(items))
}

/// What is told of a round behind steps; none, where its line does not close, or does not stand.
pub fn tell_round(
    alloc: Global,
    chains: &Chains<'_>,
    steps: &[ChainOrder],
    round: &Round,
) -> Result<Option<Vec<Item>>, AllocError>
    requires clean { IsClean (log_of chains.now) }
    requires steps { All (IsOrder (log_of chains.now)) steps.now }
    ensures told { IfOk result (λ told. IfSome told (λ items.
        IsRoundPut chains.now steps.now (round_view round.now) items.items)) }
    ensures none { IfOk result (λ told. IfNone told
        (RoundStands chains.now steps.now (round_view round.now) → ⊥)) }
{
    let mut items = Vec::from_slice(alloc, &round.before)?;
    if let Some(line) = &round.line {
        let Some(cycle) = tell_cycle(alloc, chains, steps, &round.decided, line)? else {
            return Ok(None);
        };
        items.extend_from_slice(&cycle)?;
    }
    Ok(Some(items))
}
