//! What the cycle of an explanation is called, by what its edges are.

ghost use Rattle.std.specs.Prelude.{◌≡◌, is_some};
ghost use Rattle.serializability.specs.Reads.{external_read};
ghost use Rattle.tell_decision.specs.Names as spec;

use reasons::Reason;
use serializability::{Event, NodeIx};
use session_history::History;
use tell_reasons::names::{
    MISSED, MOMENTS, NO_EDGES, READ, SESSION, Shape, WRITTEN, cycle_name, followed, milder,
};
use tell_reasons::{ChainOrder, Why};
use tell_steps::Item;

/// Whether these operations of a node read the key before they write it.
fn read_first(events: &[Event], key: usize) -> bool
    ensures { result ≡ is_some (external_read key events.now) }
{
    for i in 0..events.len() {
        match events[i] {
            Event::Read { key: read, .. } if read == key => return true,
            Event::Write { key: written, .. } if written == key => return false,
            _ => {}
        }
    }
    false
}

/// Whether a node reads the key before it writes it, if it does.
pub fn reads_first(history: &History, key: usize, node: NodeIx) -> bool
    ensures reads { result ≡ spec.reads_first history.now key node }
{
    read_first(history.events_of(node), key)
}

/// What an edge from this node by an order of two versions of a key is.
fn kind_by_order(history: &History, key: usize, node: NodeIx) -> Shape
    ensures { result ≡ spec.kind_by_order history.now key node }
{
    if reads_first(history, key, node) {
        MISSED
    } else {
        WRITTEN
    }
}

/// What an edge from this node is.
pub fn kind_of(history: &History, first: NodeIx, why: Why) -> Shape
    ensures { result ≡ spec.kind_of history.now first why }
{
    match why {
        Why::Known(Reason::Session) => SESSION,
        Why::Known(Reason::Moments) => MOMENTS,
        Why::Known(Reason::Read { .. }) => READ,
        Why::Known(Reason::Overwritten { .. } | Reason::Initial { .. }) => MISSED,
        Why::Forced { order, .. } => kind_by_order(history, order.key, first),
        Why::Chosen(order) => kind_by_order(history, order.key, first),
    }
}

/// What the edges that stand first among these are.
fn shape_of(history: &History, items: &[Item]) -> Shape
    ensures { result ≡ spec.shape_after history.now NO_EDGES items.now }
{
    let mut line = NO_EDGES;
    for i in 0..items.len() {
        match items[i] {
            Item::Edge { first, why, .. } => line = followed(line, kind_of(history, first, why)),
            _ => return line,
        }
    }
    line
}

/// The name of the cycle that these tell.
pub fn name_of(history: &History, items: &[Item]) -> &'static str
    ensures { result.now ≡ spec.name_of history.now items.now }
{
    cycle_name(shape_of(history, items))
}

/// The milder one of a circle and of what stands behind this item: the cycle, or what refutes the
/// other order of a step, with the edge by that order, which closes a circle.
fn milder_with(history: &History, circle: Shape, item: Item, behind: &[Item]) -> Shape
    ensures { result ≡ spec.milder_with history.now circle item behind.now }
{
    let line = shape_of(history, behind);
    match item {
        Item::Step { order, source, .. } => {
            let last = kind_by_order(history, order.key, source);
            milder(circle, followed(line, last))
        }
        Item::Cycle { .. } => milder(circle, line),
        _ => circle,
    }
}

/// The name of the cycle behind these steps: of the mildest of it and of what refutes the other order
/// of each step. The log does not say which of these orders the store had.
pub fn name_behind(history: &History, items: &[Item]) -> &'static str
    ensures { result.now ≡ spec.name_behind history.now items.now }
{
    let mut circle = NO_EDGES;
    for i in 0..items.len() {
        circle = milder_with(history, circle, items[i], &items[i + 1..]);
    }
    cycle_name(circle)
}
