//! Explanations as graphs in the language of Graphviz.

ghost use Rattle.std.specs.Prelude.{◌≡◌, ◌++◌, OnOk};
ghost use Rattle.std.specs.List.{flat_map};
ghost use Rattle.tell_texts.specs.Graphs as spec;

use crate::boxes::{Look, put_boxes};
use log_lines::PlacedHistory as Log;
use reasons::Reason;
use std::alloc::Global;
use tell_reasons::{Said, Why, put_versions, say};
use tell_steps::Item;

/// The kind of a reason, and behind it the colour of an arrow for which there is such a one.
fn reason_look(reason: Reason) -> &'static [u8]
    ensures { result.now ≡ spec.reason_look reason }
{
    match reason {
        Reason::Session => b"session\" color=\"black",
        Reason::Read { .. } => b"read\" color=\"blue",
        Reason::Overwritten { .. } => b"anti-dependency\" color=\"red",
        Reason::Initial { .. } => b"version order\" color=\"darkgreen",
        Reason::Moments => b"moments\" color=\"purple",
    }
}

/// Appends the kind of an edge, and behind it the colour of its arrow.
fn put_look(out: &mut Vec<u8>, log: &Log<'_>, why: Why) -> Said
    ensures text { OnOk result (out.new.items ≡ out.old.items ++ spec.why_look log.now why) }
{
    match why {
        Why::Known(reason) => say!(out, log; Text(reason_look(reason))),
        Why::Forced { number, order: _ } => say!(out, log;
            Text(b"forced ["), Number(number as u64), Text(b"]\" color=\"orange")),
        Why::Chosen(order) => {
            put_versions(out, log, order)?;
            say!(out, log; Text(b"\" color=\"gray"))
        }
    }
}

/// Appends the arrow of an item, where it is an edge.
fn put_arrow(out: &mut Vec<u8>, log: &Log<'_>, item: Item) -> Said
    ensures text { OnOk result (out.new.items ≡ out.old.items ++ spec.arrow log.now item) }
{
    match item {
        Item::Edge { first, second, why } => {
            say!(out, log; Text(b"\""), Node(first), Text(b"\" -> \""), Node(second),
                Text(b"\" [label=\""))?;
            put_look(out, log, why)?;
            say!(out, log; Text(b"\"];\n"))
        }
        _ => Ok(()),
    }
}

/// Appends the arrows of the edges.
fn put_arrows(out: &mut Vec<u8>, log: &Log<'_>, items: &[Item]) -> Said
    ensures text { OnOk result (out.new.items
        ≡ out.old.items ++ flat_map (spec.arrow log.now) items.now) }
{
    for item in items {
        put_arrow(out, log, *item)?;
    }
    Ok(())
}

/// Appends an explanation as a graph: a box for each transaction that takes part, with those of its
/// operations that reasons name, and an arrow for each edge. Where memory runs out, a part of the
/// graph may have been appended.
pub fn put_graph(alloc: Global, out: &mut Vec<u8>, log: &Log<'_>, items: &[Item]) -> Said
    ensures text { OnOk result (out.new.items
        ≡ out.old.items ++ spec.graph_text log.now items.now) }
{
    say!(out, log; Text(b"strict digraph explanation {\nnode [shape=box];\n"))?;
    put_boxes(alloc, out, Look::Box, log, items)?;
    put_arrows(out, log, items)?;
    say!(out, log; Text(b"}\n"))
}
