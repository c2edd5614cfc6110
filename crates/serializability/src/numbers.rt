//! Nodes by their numbers.

ghost use Rattle.std.specs.Prelude.{◌≡◌, ◌≤◌};
ghost use Rattle.serializability.specs.declared.node.TheConstants.{MAX_NODES};

use crate::node::NodeIx;

/// The node with this number, which is known to be one of 0 to 1,000.
pub fn node(number: usize) -> NodeIx
    requires few { number ≤ MAX_NODES }
    ensures value { result ≡ number }
{
    NodeIx::new(number).unwrap()
}
