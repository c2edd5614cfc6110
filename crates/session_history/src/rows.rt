//! The keys of a log, each with the nodes that write it and those that read it.

ghost use Rattle.std.specs.Prelude.{◌≡◌, ℕ, ◌+◌, ◌-◌, ◌<◌, ◌≤◌, ◌==◌, false, List, [], ◌∷◌, ◌++◌};
ghost use Rattle.std.specs.Prelude.{length, map, slice_get, All, OnOk, IfOk};
ghost use Rattle.std.specs.Option.{option_map_or};
ghost use Rattle.serializability.specs.declared.event.Event.{Event};
ghost use Rattle.session_history.specs.Rows.{RowView, IsBelow, AreRows, row_after, row_from};
ghost use Rattle.session_history.specs.Rows.{no_row};
ghost use Rattle.serializability.specs.Events.{event_key};
ghost use Rattle.serializability.specs.declared.node.TheConstants.{MAX_NODES};

use crate::nodes::{Node, node_at};
use serializability::{Event, NodeIx};
use std::alloc::{AllocError, Global};

/// A node that reads a key externally, and the identity that it reads first.
#[derive(Clone, Copy)]
pub struct Reader {
    pub node: NodeIx,
    pub wid: u64,
}

/// The nodes that write a key, and those that read it externally, both ascending.
#[derive(Drop)]
pub struct KeyRow {
    pub writers: Vec<NodeIx>,
    pub readers: Vec<Reader>,
}

impl KeyRow {
    ghost use Rattle.session_history.specs.Rows.{RowView, IsBelow, row_view, row_after};
    ghost use Rattle.serializability.specs.Events.{event_key};

    fn is_last_writer(&self, node: NodeIx) -> bool
        ensures { result ≡ option_map_or (λ v. v == node)
            (slice_get self.now.writers.items (length self.now.writers.items - 1)) false }
    {
        match self.writers.last() {
            Some(last) => *last == node,
            None => false,
        }
    }

    fn is_last_reader(&self, node: NodeIx) -> bool
        ensures { result ≡ option_map_or (λ r. r.node == node)
            (slice_get self.now.readers.items (length self.now.readers.items - 1)) false }
    {
        match self.readers.last() {
            Some(last) => last.node == node,
            None => false,
        }
    }

    /// Takes an operation of this node on the key.
    fn enter(&mut self, node: NodeIx, event: Event) -> Result<(), AllocError>
        ensures { OnOk result ((before : RowView) (front : List Event) → IsBelow node before →
            row_view self.old ≡ row_after before (event_key event) node front →
            row_view self.new ≡ row_after before (event_key event) node (front ++ event ∷ [])) }
    {
        match event {
            Event::Write { .. } => {
                if !self.is_last_writer(node) {
                    self.writers.push(node)?;
                }
            }
            Event::Read { wid, .. } => {
                if !self.is_last_writer(node) && !self.is_last_reader(node) {
                    self.readers.push(Reader { node, wid })?;
                }
            }
        }
        Ok(())
    }
}

/// Takes an operation of this node.
fn enter(rows: &mut Vec<KeyRow>, node: NodeIx, event: Event) -> Result<(), AllocError>
    requires { event_key event < length rows.old.items }
    ensures count { length rows.new.items ≡ length rows.old.items }
    ensures entered { OnOk result ((keys : ℕ) (f : ℕ → RowView) (front : List Event) →
        ((x : ℕ) → x < keys → IsBelow node (f x)) →
        AreRows keys (λ x. row_after (f x) x node front) rows.old.items →
        AreRows keys (λ x. row_after (f x) x node (front ++ event ∷ [])) rows.new.items) }
{
    let row = &mut rows[event.key()];
    row.enter(node, event)?;
    Ok(())
}

/// Takes the operations of a node.
fn add_node(rows: &mut Vec<KeyRow>, node: NodeIx, events: &[Event]) -> Result<(), AllocError>
    requires { All (λ event. event_key event < length rows.old.items) events.now }
    ensures { OnOk result ((keys : ℕ) (f : ℕ → RowView) →
        ((x : ℕ) → x < keys → IsBelow node (f x)) →
        AreRows keys f rows.old.items →
        AreRows keys (λ x. row_after (f x) x node events.now) rows.new.items) }
{
    for event in events {
        enter(rows, node, *event)?;
    }
    Ok(())
}

/// Rows of so many keys, with no node.
fn empty_rows(alloc: Global, keys: usize) -> Result<Vec<KeyRow>, AllocError>
    ensures { IfOk result (λ rows. AreRows keys (λ _. no_row) rows.items) }
{
    let mut rows = Vec::with_capacity(alloc, keys)?;
    for i in 0..keys {
        rows.push(KeyRow {
            writers: Vec::new(alloc),
            readers: Vec::new(alloc),
        })?;
    }
    Ok(rows)
}

/// The rows of these keys and nodes.
pub fn rows_of(alloc: Global, keys: usize, nodes: &[Node]) -> Result<Vec<KeyRow>, AllocError>
    requires few { length nodes.now ≤ MAX_NODES }
    requires keys { All (λ node. All (λ event. event_key event < keys) node.events.items)
        nodes.now }
    ensures { IfOk result (λ rows. AreRows keys
        (λ x. row_from no_row x 1 (map (λ node. node.events.items) nodes.now)) rows.items) }
{
    let mut rows = empty_rows(alloc, keys)?;
    for i in 0..nodes.len() {
        add_node(&mut rows, node_at(i + 1), &nodes[i].events)?;
    }
    Ok(rows)
}
