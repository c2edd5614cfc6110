//! Reading the text of an order.

ghost use Rattle.std.specs.Prelude.{◌≡◌, None, Some, IfOk, IfErr};
ghost use Rattle.std.specs.Option.{option_map};
ghost use Rattle.order_text.specs.Text.{order_text, AreNodes};
ghost use Rattle.order_text.specs.Faults.{words_of, named_by, named, line_fault, order_fault};
ghost use Rattle.order_text.specs.Faults.{IsOrderFault};

use crate::fault::OrderFault;
use session_history::{History, NodeIx, NodeLine};
use session_log::{index_of, is_numeral, next_line, number_of};
use std::alloc::Global;

/// The greatest length of an order's text, in bytes: 1 MiB.
pub const MAX_ORDER_BYTES: usize = 1 << 20;

/// What stands before and behind the first space.
#[tactic(auto, unfolding(crate::specs::Faults::words_of))]
fn words_of(body: &[u8]) -> Option<(&[u8], &[u8])>
    ensures words { option_map (λ words. (words.0.now, words.1.now)) result ≡ words_of body.now }
{
    let i = index_of(body, b' ')?;
    Some((&body[..i], &body[i + 1..]))
}

/// The committed transaction of this session number and place.
#[tactic(auto, unfolding(crate::specs::Faults::named_by))]
fn named_by(history: &History, session: &[u8], place: &[u8]) -> Option<NodeIx>
    ensures node { result ≡ named_by history.now session.now place.now }
{
    history.node_at(number_of(session)? as usize, number_of(place)? as usize)
}

/// The committed transaction that a line names: its text without its LF, whether it has one, and
/// its number.
#[tactic(auto, unfolding(crate::specs::Faults::line_fault))]
fn node_on(history: &History, body: &[u8], ended: bool, line: usize) -> Result<NodeIx, OrderFault>
    ensures named { IfOk result (λ v. named history.now body.now ≡ Some v) }
    ensures accepted { IfOk result (λ _. line_fault history.now line (body.now, ended) ≡ None) }
    ensures fault { IfErr result (λ f. line_fault history.now line (body.now, ended) ≡ Some f) }
{
    let Some((session, place)) = words_of(body) else {
        return Err(OrderFault::BadLine { line });
    };
    if !ended || !is_numeral(session) || !is_numeral(place) {
        return Err(OrderFault::BadLine { line });
    }
    named_by(history, session, place).ok_or(OrderFault::NoSuchTransaction { line })
}

/// The order that a text lists, a committed transaction a line.
///
/// # Errors
/// `TooLong` where the text is longer than [`MAX_ORDER_BYTES`]; else the fault of the first line
/// that has one: `BadLine` where it is not two numbers without leading zeros, with one space
/// between them, ended by a line feed, and `NoSuchTransaction` where they name no committed
/// transaction. `Memory` in place of any of these.
#[tactic(auto, using(crate::proofs::Reading::long_fault, crate::proofs::Reading::nothing_read))]
pub fn read_order(alloc: Global, text: &[u8], history: &History) -> Result<NodeLine, OrderFault>
    ensures order { IfOk result (λ order. text.now ≡ order_text history.now order) }
    ensures nodes { IfOk result (λ order. AreNodes history.now order) }
    ensures accepted { IfOk result (λ _. order_fault history.now text.now ≡ None) }
    ensures fault { IfErr result (λ f. IsOrderFault f (order_fault history.now text.now)) }
{
    if text.len() > MAX_ORDER_BYTES {
        return Err(OrderFault::TooLong);
    }
    let mut nodes = Vec::new(alloc);
    let mut rest = text;
    let mut line = 1;
    while !rest.is_empty() {
        let (body, ended, after) = next_line(rest);
        let node = node_on(history, body, ended, line)?;
        nodes.push(node)?;
        rest = after;
        line += 1;
    }
    Ok(NodeLine::from_nodes(nodes))
}
