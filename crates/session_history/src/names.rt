//! Names of nodes.

ghost use Rattle.std.specs.Prelude.{◌≡◌, ℕ, ◌+◌, ◌<◌, ◌≤◌, length, IfOk};
ghost use Rattle.std.specs.BTreeMap.{get};
ghost use Rattle.session_history.specs.Naming.{name_cmp, node_among};
ghost use Rattle.serializability.specs.declared.node.TheConstants.{MAX_NODES};

use crate::nodes::{Node, node_at};
use serializability::NodeIx;
use std::alloc::{AllocError, Global};
use std::collections::BTreeMap;

/// The number of a session, and the place of a transaction in it, from 1, where aborted ones count
/// too. Node 0 has 0 and 0.
#[derive(Clone, Copy, Debug, PartialEq, Eq)]
pub struct Name {
    pub session: u16,
    pub place: usize,
}

/// The nodes by session and place.
pub fn names_of(
    alloc: Global,
    nodes: &[Node],
) -> Result<BTreeMap<(usize, usize), NodeIx>, AllocError>
    requires { length nodes.now ≤ MAX_NODES }
    ensures { IfOk result (λ names. (session place : ℕ) →
        get name_cmp names (session, place) ≡ node_among session place 1 nodes.now) }
{
    let mut names = BTreeMap::new(alloc);
    for i in 0..nodes.len() {
        let at = nodes.len() - 1 - i;
        let node = &nodes[at];
        names.insert((usize::from(node.session), node.place), node_at(at + 1))?;
    }
    Ok(names)
}
