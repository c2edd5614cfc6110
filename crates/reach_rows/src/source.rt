//! What one node of a graph reaches.

ghost use Rattle.std.specs.Prelude.{◌≡◌, ◌↔◌, ℕ, ◌+◌, ◌≤◌, true, length, OnOk};
ghost use Rattle.reach_laws.specs.Reach.{Reaches};
ghost use Rattle.known_graph.specs.Bits.{bit_of, row_len};
ghost use Rattle.known_graph.specs.declared.bits.TheConstants.{NODE_WORDS};
ghost use Rattle.reach_rows.specs.Sources.{Spreads, AreReachRows};

use known_graph::Known;
use known_graph::bits::{NODE_WORDS, NodeBits, first_open, join_words, row_len, set_bit};
use serializability::NodeIx;
use serializability::numbers::node;
use std::alloc::AllocError;

/// Sets in a row the bits of all nodes that its nodes reach.
fn spread(known: &Known, row: &mut [u64])
    requires row { row_len known.now.nodes ≤ length row.old }
    requires few { length row.old ≤ NODE_WORDS }
    requires nodes { (k : ℕ) → bit_of row.old k ≡ true → k ≤ known.now.nodes }
    ensures spread { Spreads known.now.edges row.old row.new }
    ensures len { length row.new ≡ length row.old }
{
    let _invariant = known.nodes();
    let mut done: NodeBits = [0; NODE_WORDS];
    while let Some(number) = first_open(row, &done) {
        set_bit(&mut done, number);
        join_words(row, known.row_words(node(number)));
    }
}

/// The row of a node: the bit of each node that it reaches is set.
fn reach_row(known: &Known, source: NodeIx) -> NodeBits
    requires node { source ≤ known.now.nodes }
    ensures reach { (v : ℕ) → ((bit_of result v ≡ true) ↔ Reaches known.now.edges source v) }
    ensures len { length result ≡ NODE_WORDS }
{
    let _invariant = known.nodes();
    let mut row: NodeBits = [0; NODE_WORDS];
    join_words(&mut row, known.row_words(source));
    spread(known, &mut row);
    row
}

/// Adds the row of a node to the rows of the nodes before it.
pub fn add_source(known: &Known, source: NodeIx, words: &mut Vec<u64>) -> Result<(), AllocError>
    requires node { source ≤ known.now.nodes }
    ensures rows { OnOk result ((first : ℕ) → first ≤ source →
        AreReachRows known.now first source words.old.items →
        AreReachRows known.now first (source + 1) words.new.items) }
{
    let row = reach_row(known, source);
    words.extend_from_slice(&row[..row_len(known.nodes())])?;
    Ok(())
}
