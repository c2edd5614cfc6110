//! What is told, as text or as a graph.

ghost use Rattle.std.specs.Prelude.{◌≡◌, ◌≤◌, ◌++◌, length, IfOk, OnOk};
ghost use Rattle.std.specs.List.{flat_map};
ghost use Rattle.tell_decision.specs.Explained.{known_as, edges_behind, is_of_step, of_steps};
ghost use Rattle.tell_decision.specs.Explained.{headed_text, forced_text, steps_last, front_text, text_of};
ghost use Rattle.tell_decision.specs.Explained.{told_text, lines_text, label_byte};

use crate::names::{name_behind, name_of};
use crate::short::put_short;
use call_options::Format;
use log_lines::PlacedHistory;
use reason_laws::Crossing;
use std::alloc::{AllocError, Global};
use tell_reasons::put_crossing;
use tell_steps::Item;
use tell_texts::{put_graph, put_items, put_table};

/// What items tell, and the reads that rule out every order, where such were found.
#[derive(Clone, Copy)]
pub enum Told {
    /// The edges of a cycle.
    Cycle,
    /// Steps, and the cycle behind them.
    Dead(Option<Crossing>),
    /// Steps, and the tree behind them.
    Tree(Option<Crossing>),
}

/// Appends a name, where there is one, as a line.
fn put_known_as(out: &mut Vec<u8>, name: &str) -> Result<(), AllocError>
    ensures text { OnOk result (out.new.items ≡ out.old.items ++ known_as name.now) }
{
    match name.as_bytes() {
        [] => Ok(()),
        [_, ..] => {
            out.extend_from_slice(b"known as: ")?;
            out.extend_from_slice(name.as_bytes())?;
            out.extend_from_slice(b"\n")?;
            Ok(())
        }
    }
}

/// How many of these items are of steps, before all else.
fn of_steps(items: &[Item]) -> usize
    ensures count { result ≡ of_steps items.now }
    ensures few { result ≤ length items.now }
{
    items.iter().take_while(|item| is_of_step(**item)).count()
}

/// Whether the item is a step, or an edge of its walk.
fn is_of_step(item: Item) -> bool
    ensures is { result ≡ is_of_step item }
{
    matches!(item, Item::Step { .. } | Item::Edge { .. })
}

/// The edges of the cycle behind steps.
fn edges_behind(items: &[Item]) -> &[Item]
    ensures edges { result.now ≡ edges_behind items.now }
{
    let count = of_steps(items);
    if count < items.len() {
        &items[count + 1..]
    } else {
        &[]
    }
}

/// Appends steps under a heading.
fn put_headed(out: &mut Vec<u8>, log: &PlacedHistory<'_>, steps: &[Item]) -> Result<(), AllocError>
    ensures text { OnOk result (out.new.items ≡ out.old.items ++ headed_text log.now steps.now) }
{
    out.extend_from_slice(b"these orders of versions are forced:\n")?;
    put_items(out, log, steps)
}

/// Appends steps, where there are any.
fn put_forced(out: &mut Vec<u8>, log: &PlacedHistory<'_>, steps: &[Item]) -> Result<(), AllocError>
    ensures text { OnOk result (out.new.items ≡ out.old.items ++ forced_text log.now steps.now) }
{
    match steps {
        [] => Ok(()),
        [_, ..] => put_headed(out, log, steps),
    }
}

/// Appends what closes, its name, and last the steps that it rests on.
fn put_steps_last(
    out: &mut Vec<u8>,
    log: &PlacedHistory<'_>,
    name: &str,
    items: &[Item],
) -> Result<(), AllocError>
    ensures text { OnOk result (out.new.items
        ≡ out.old.items ++ steps_last log.now name.now items.now) }
{
    let (steps, closing) = items.split_at(of_steps(items));
    put_items(out, log, closing)?;
    put_known_as(out, name)?;
    put_forced(out, log, steps)
}

/// Appends reads that rule out every order, where such were found, else what the transactions of a
/// tree did.
fn put_front(
    alloc: Global,
    out: &mut Vec<u8>,
    log: &PlacedHistory<'_>,
    told: &Told,
    items: &[Item],
) -> Result<(), AllocError>
    ensures text { OnOk result (out.new.items
        ≡ out.old.items ++ front_text log.now told.now items.now) }
{
    match told {
        Told::Dead(Some(crossing)) => put_crossing(out, log, *crossing),
        Told::Tree(Some(crossing)) => put_crossing(out, log, *crossing),
        Told::Tree(None) => put_table(alloc, out, log, items),
        _ => Ok(()),
    }
}

/// Appends such reads, or what the transactions did; a cycle, in a sentence and in lines, with its
/// name, or a tree; and the steps that it rests on.
fn put_told(
    alloc: Global,
    out: &mut Vec<u8>,
    log: &PlacedHistory<'_>,
    told: Told,
    items: &[Item],
) -> Result<(), AllocError>
    ensures text { OnOk result (out.new.items ≡ out.old.items ++ text_of log.now told items.now) }
{
    put_front(alloc, out, log, &told, items)?;
    match told {
        Told::Cycle => {
            put_short(alloc, out, log, items)?;
            put_items(out, log, items)?;
            put_known_as(out, name_of(log.history, items))
        }
        Told::Dead(_) => {
            put_short(alloc, out, log, edges_behind(items))?;
            put_steps_last(out, log, name_behind(log.history, items), items)
        }
        Told::Tree(_) => put_steps_last(out, log, "", items),
    }
}

/// What is told, as lines of text, or the items as a graph.
pub fn written(
    alloc: Global,
    log: &PlacedHistory<'_>,
    format: Format,
    told: Told,
    items: &[Item],
) -> Result<Vec<u8>, AllocError>
    ensures text { IfOk result (λ text. text.items ≡ told_text format log.now told items.now) }
{
    let mut out = Vec::new(alloc);
    match format {
        Format::Text => put_told(alloc, &mut out, log, told, items)?,
        Format::Dot => put_graph(alloc, &mut out, log, items)?,
    }
    Ok(out)
}

/// Appends lines as a label, in which a line break is a backslash and `n`.
fn put_label(out: &mut Vec<u8>, lines: &[u8]) -> Result<(), AllocError>
    ensures text { OnOk result (out.new.items ≡ out.old.items ++ flat_map label_byte lines.now) }
{
    for byte in lines {
        if *byte == b'\n' {
            out.extend_from_slice(b"\\n")?;
        } else {
            out.push(*byte)?;
        }
    }
    Ok(())
}

/// Lines as they are, or in the one box of a graph.
pub fn written_lines(alloc: Global, format: Format, lines: Vec<u8>) -> Result<Vec<u8>, AllocError>
    ensures text { IfOk result (λ text. text.items ≡ lines_text format lines.items) }
{
    match format {
        Format::Text => Ok(lines),
        Format::Dot => {
            let mut out = Vec::new(alloc);
            out.extend_from_slice(
                b"strict digraph explanation {\nnode [shape=box];\n\"anomaly\" [label=\"",
            )?;
            put_label(&mut out, &lines)?;
            out.extend_from_slice(b"\"];\n}\n")?;
            Ok(out)
        }
    }
}
