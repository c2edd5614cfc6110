//! Places of nodes in an order.

ghost use Rattle.std.specs.Prelude.{◌≡◌, ℕ, ◌≤◌, length, ◌↔◌, nat_lt, IsSome, IfSome, slice_index};
ghost use Rattle.serializability.specs.Replay.{ListsOnce};
ghost use Rattle.polygraph.specs.Places.{ArePlaces};
ghost use Rattle.serializability.specs.declared.node.TheConstants.{MAX_NODES};

use serializability::{MAX_NODES, NodeIx};

/// The place of each node in an order that lists nodes 1 to n once each, where node 0 has place 0.
#[derive(Drop)]
pub struct Places {
    places: [u16; MAX_NODES + 1],
}

impl Places {
    /// Whether u stands before v.
    pub fn before(&self, u: NodeIx, v: NodeIx) -> bool
        ensures { result ≡ nat_lt (slice_index self.now.places u) (slice_index self.now.places v) }
    {
        self.places[u.get()] < self.places[v.get()]
    }
}

/// The place 0 for each node.
fn no_places() -> [u16; MAX_NODES + 1]
    ensures len { length result ≡ 1001 }
    ensures zero { (v : ℕ) → slice_index result v ≡ 0 }
{
    [0; MAX_NODES + 1]
}

/// The places in an order that lists nodes 1 to n once each.
pub fn places_in(n: usize, order: &[NodeIx]) -> Option<Places>
    requires few { n ≤ MAX_NODES }
    ensures once { IsSome result ↔ ListsOnce n order.now }
    ensures places { IfSome result (λ p. ArePlaces n order.now p.places) }
{
    if order.len() != n {
        return None;
    }
    let mut places = no_places();
    for (index, node) in order.iter().enumerate() {
        let number = node.get();
        if number == 0 || number > n || places[number] != 0 {
            return None;
        }
        places[number] = index as u16 + 1;
    }
    Some(Places { places })
}
