//! Explanations as text.

ghost use Rattle.std.specs.Prelude.{◌≡◌, ◌*◌, ◌++◌, false, OnOk};
ghost use Rattle.tell_texts.specs.Texts as spec;

use log_lines::PlacedHistory as Log;
use serializability::NodeIx;
use tell_reasons::{ChainOrder, Said, put_edge, put_since, put_versions, say};
use tell_steps::Item;

/// Appends two blanks for each choice that is decided.
#[tactic(auto, using(std::proofs::Common::append_assoc, crate::proofs::Pieces::indent_more))]
fn put_indent(out: &mut Vec<u8>, depth: usize) -> Said
    ensures text { OnOk result (out.new.items ≡ out.old.items ++ spec.indent depth) }
{
    for _ in 0..depth {
        out.extend_from_slice(b"  ")?;
    }
    Ok(())
}

/// Appends by which read a step's walk ends at this node, where that is not the writer of the
/// second version itself.
fn put_reader(
    out: &mut Vec<u8>,
    log: &Log<'_>,
    order: &ChainOrder,
    source: NodeIx,
    target: NodeIx,
) -> Said
    ensures text { OnOk result (out.new.items
        ≡ out.old.items ++ spec.reader_text log.now order.now source target) }
{
    if source.get() == order.second.get() {
        Ok(())
    } else {
        put_since(out, log, *order, source, target)
    }
}

/// Appends the lines of an item; of several leaves how many, where that is more than are told.
fn put_item(out: &mut Vec<u8>, log: &Log<'_>, item: Item) -> Said
    ensures text { OnOk result (out.new.items ≡ out.old.items ++ spec.item_line log.now item) }
{
    match item {
        Item::Step {
            number,
            order,
            source,
            target,
        } => {
            say!(out, log; Text(b"["), Number(number as u64), Text(b"] "))?;
            put_versions(out, log, order)?;
            say!(out, log; Text(b":\n"))?;
            put_reader(out, log, &order, source, target)
        }
        Item::Edge { first, second, why } => put_edge(out, log, first, second, why),
        Item::Cycle { start, edges: _ } => {
            say!(out, log; Text(b"cycle from "), Node(start), Text(b":\n"))
        }
        Item::Decided { depth: _, order } => {
            say!(out, log; Text(b"suppose "))?;
            put_versions(out, log, order)?;
            say!(out, log; Text(b":\n"))
        }
        Item::Leaves { count } => {
            if 1000 < count {
                say!(out, log;
                    Text(b"proof: whichever of these versions came first, a cycle closes, "),
                    Number(count as u64), Text(b" in all; the first 1000 of them:\n"))
            } else {
                say!(out, log;
                    Text(b"proof: whichever of these versions came first, a cycle closes:\n"))
            }
        }
    }
}

/// How deep an item stands, where so many choices are decided before it.
fn depth_at(before: usize, walks: bool, item: Item) -> usize
    ensures { result ≡ spec.depth_at before walks item }
{
    match item {
        Item::Decided { depth, order: _ } => depth.saturating_sub(1),
        Item::Edge { .. } if walks => 2,
        _ => before,
    }
}

/// How many choices are decided behind an item, where so many were before it, and whether an edge
/// there is of a step's walk, where one in its place is or is not.
fn behind(before: usize, walks: bool, item: Item) -> (usize, bool)
    ensures { result ≡ spec.behind before walks item }
{
    match item {
        Item::Decided { depth, order: _ } => (depth, false),
        Item::Step { .. } => (before, true),
        Item::Edge { .. } => (before, walks),
        _ => (before, false),
    }
}

/// Appends the lines of an explanation, indented by how many choices a cube decides, and the walks
/// of steps by as much as two choices. Where memory runs out, a part of them may have been
/// appended.
pub fn put_items(out: &mut Vec<u8>, log: &Log<'_>, items: &[Item]) -> Said
    ensures text { OnOk result (out.new.items
        ≡ out.old.items ++ spec.items_text log.now 0 false items.now) }
{
    let (mut depth, mut walks) = (0, false);
    for item in items {
        put_indent(out, depth_at(depth, walks, *item))?;
        put_item(out, log, *item)?;
        let next = behind(depth, walks, *item);
        depth = next.0;
        walks = next.1;
    }
    Ok(())
}
