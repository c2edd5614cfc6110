//! Lines of nodes of which each run of one session is told by its ends.

ghost use Rattle.std.specs.Prelude.{◌≡◌, IfOk};
ghost use Rattle.reasons.specs.Runs as spec;

use serializability::NodeIx;
use session_history::History;
use std::alloc::{AllocError, Global};

/// Whether both are of one session, and the first stands before the second in it.
#[tactic(auto, unfolding(log_definitions::specs::Numbers::log_of))]
pub fn is_behind(history: &History, a: NodeIx, b: NodeIx) -> bool
    ensures { result ≡ spec.is_behind history.now a b }
{
    a.get() < b.get() && history.session_of(a) == history.session_of(b)
}

/// Whether a node stands in one session between the one before it and the first behind it.
fn is_between(history: &History, before: NodeIx, node: NodeIx, behind: &[NodeIx]) -> bool
    ensures { result ≡ spec.is_between history.now before node behind.now }
{
    match behind.first() {
        Some(next) => is_behind(history, before, node) && is_behind(history, node, *next),
        None => false,
    }
}

/// A line of nodes of which each run of one session is told by its ends. The one error is that
/// memory runs out.
#[tactic(auto, unfolding(crate::specs::Runs::told_behind))]
pub fn without_runs(
    alloc: Global,
    history: &History,
    line: &[NodeIx],
) -> Result<Vec<NodeIx>, AllocError>
    ensures { IfOk result (λ made. made.items ≡ spec.without_runs history.now line.now) }
{
    let mut made = Vec::with_capacity(alloc, line.len())?;
    let Some((first, rest)) = line.split_first() else {
        return Ok(made);
    };
    made.push(*first)?;
    let (mut last, mut rest) = (*first, rest);
    while let Some((node, behind)) = rest.split_first() {
        if !is_between(history, last, *node, behind) {
            made.push(*node)?;
            last = *node;
        }
        rest = behind;
    }
    Ok(made)
}
