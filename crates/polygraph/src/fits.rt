//! The orders that fit a polygraph.

ghost use Rattle.std.specs.Prelude.{◌≡◌, ◌↔◌, IsTrue};
ghost use Rattle.std.specs.List.{list_all};
ghost use Rattle.serializability.specs.Polygraph.{Fits};
ghost use Rattle.polygraph.specs.Places.{keeps, keeps_one, AreKept};

use crate::choice::Choice;
use crate::places::{Places, places_in};
use crate::polygraph::Polygraph;
use known_graph::Known;
use reach_laws::Edge;
use serializability::NodeIx;
use serializability::numbers::node;

/// Whether each of these edges leads to a later place.
fn keeps(places: &Places, edges: &[Edge]) -> bool
    ensures { result ≡ list_all (keeps places.now.places) edges.now }
{
    edges
        .iter()
        .all(|edge| places.before(edge.source(), edge.target()))
}

/// Whether each edge of one side of the choice does.
fn keeps_one(places: &Places, choice: &Choice) -> bool
    ensures { result ≡ keeps_one places.now.places choice.now }
{
    keeps(places, choice.one()) || keeps(places, choice.two())
}

/// Whether of each of these choices it keeps a side.
fn keeps_each(places: &Places, choices: &[Choice]) -> bool
    ensures { result ≡ list_all (keeps_one places.now.places) choices.now }
{
    choices.iter().all(|choice| keeps_one(places, choice))
}

/// Whether each known edge leads to a later place. It takes no memory.
pub fn keeps_known(places: &Places, known: &Known) -> bool
    ensures { IsTrue result ↔ AreKept places.now.places known.now }
{
    let end = known.nodes() + 1;
    for u in 0..end {
        for v in 0..end {
            let (u, v) = (node(u), node(v));
            if known.has_edge(u, v) && !places.before(u, v) {
                return false;
            }
        }
    }
    true
}

/// Whether an order fits a polygraph: it lists nodes 1 to n once each and, where node 0 stands
/// before them, keeps all known edges and of each choice all edges of one side.
///
/// It takes no memory. The time is quadratic in the number of nodes, and linear in the edges of the
/// choices.
pub fn order_fits(polygraph: &Polygraph, order: &[NodeIx]) -> bool
    ensures { IsTrue result ↔ Fits polygraph.now order.now }
{
    match places_in(polygraph.nodes(), order) {
        Some(places) => {
            keeps_known(&places, polygraph.known()) && keeps_each(&places, polygraph.choices())
        }
        None => false,
    }
}
