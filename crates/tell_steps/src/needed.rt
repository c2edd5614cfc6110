//! The steps that some rounds seem to need.

use crate::decided::{first_with, has_edge};
use crate::rounds::Round;
use crate::shorter::{Walks, shorter_step};
use crate::shown::Shown;
use serializability::NodeIx;
use std::alloc::AllocError;
use tell_proposals::Step;
use tell_reasons::ChainOrder;
use write_chains::Chains;

/// Adds the edges of a line of which the log shows no reason.
fn put_wants(
    wants: &mut Vec<(NodeIx, NodeIx)>,
    shown: &mut Shown<'_>,
    line: &[NodeIx],
) -> Result<(), AllocError> {
    for i in 1..line.len() {
        if shown.shows(line[i - 1], line[i])? == Some(false) {
            wants.push((line[i - 1], line[i]))?;
        }
    }
    Ok(())
}

/// Whether the order is the first to have the edge, behind these orders.
fn is_first(
    chains: &Chains<'_>,
    earlier: &[ChainOrder],
    order: ChainOrder,
    a: NodeIx,
    b: NodeIx,
) -> bool {
    if !has_edge(chains, order, a, b) {
        return false;
    }
    first_with(chains, earlier, a, b).is_none()
}

/// Whether the order is the first to have one of these edges, behind these orders.
fn is_wanted(
    chains: &Chains<'_>,
    earlier: &[ChainOrder],
    order: &ChainOrder,
    wants: &[(NodeIx, NodeIx)],
) -> bool {
    for edge in wants {
        let (a, b) = *edge;
        if is_first(chains, earlier, *order, a, b) {
            return true;
        }
    }
    false
}

/// Those of the steps that these rounds seem to need: from the last to the first, each that is the
/// first to have an edge of a line, or of the walk of a later step, which the log does not show.
pub fn needed_steps(
    shown: &mut Shown<'_>,
    steps: &[Step],
    rounds: &[Round],
    walks: Walks,
) -> Result<Vec<Step>, AllocError> {
    let chains = shown.chains;
    let mut wants = Vec::new(shown.alloc);
    for round in rounds {
        if let Some(line) = &round.line {
            put_wants(&mut wants, shown, line)?;
        }
    }
    let mut earlier = Vec::new(shown.alloc);
    for step in steps {
        earlier.push(step.order)?;
    }
    let mut needed = Vec::new(shown.alloc);
    for step in steps.iter().rev() {
        let _own = earlier.pop();
        if is_wanted(chains, &earlier, &step.order, &wants) {
            let made = shorter_step(shown, step, walks)?;
            put_wants(&mut wants, shown, &made.walk)?;
            needed.push(made)?;
        }
    }
    needed.reverse();
    Ok(needed)
}
