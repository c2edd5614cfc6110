//! What a line says, as a list of words.

ghost use Rattle.std.specs.Prelude.{◌≡◌, ◌++◌, decimal, OnOk};
ghost use Rattle.std.specs.Option.{option_map};
ghost use Rattle.order_text.specs.Text.{name_text};
ghost use Rattle.tell_reasons.specs.Reasons as spec;
ghost use Rattle.tell_reasons.specs.Reasons.{named, in_line, key_and_wid, view_access};
ghost use Rattle.tell_reasons.specs.Words.{word_text, words_text};

use crate::phrases::{Access, key_bytes, key_in, line_of, op_of, place_of, wid_at, wid_in};
use itoa::Buffer;
use log_lines::PlacedHistory as Log;
use serializability::NodeIx;
use std::alloc::AllocError;

/// What saying something gives: nothing, unless memory runs out.
pub type Said = Result<(), AllocError>;

/// A part of what a line says. Operations of a node count from 0.
#[derive(Clone, Copy)]
pub enum Word<'a> {
    Text(&'a [u8]),
    Number(u64),
    /// The identity of a version, or that this is the initial value.
    Base(u64),
    /// A line of the log, as ` (line 12)`.
    Line(usize),
    /// The name of a transaction: its session, and its place there.
    Name(u16, usize),
    /// The name of a node.
    Node(NodeIx),
    /// A key, by its number.
    Key(usize),
    /// The key of a node's operation.
    KeyOf(NodeIx, usize),
    /// The key and the identity of a node's operation, with a space between.
    Operation(NodeIx, usize),
    /// A node's operation as its line has it, as `r x 7`.
    Listed(NodeIx, usize),
    /// The identity that a node's operation names.
    Identity(NodeIx, usize),
    /// The line of a node's operation, as ` (line 12)`.
    AtLine(NodeIx, usize),
    /// What a node does by an operation, as `2.1 reads x 7 (line 12)`.
    Does(NodeIx, &'a [u8], usize),
    /// That a node wrote what was told, as `, which 11.1 wrote (line 54)`.
    Wrote(NodeIx, usize),
}

/// Appends words: `say!(out, log; Node(a), Text(b" before "), Node(b))`.
#[macro_export]
macro_rules! say {
    ($out:expr, $log:expr; $($kind:ident $parts:tt),+) => {
        $crate::put_words($out, $log, &[$($crate::Word::$kind $parts),+])
    };
}

/// Appends a text.
fn put_text(out: &mut Vec<u8>, text: &[u8]) -> Said
    ensures text { OnOk result (out.new.items ≡ out.old.items ++ text.now) }
{
    out.extend_from_slice(text)?;
    Ok(())
}

/// Appends a number.
fn put_number(out: &mut Vec<u8>, number: u64) -> Said
    ensures text { OnOk result (out.new.items ≡ out.old.items ++ decimal number) }
{
    put_text(out, Buffer::new().format(number).as_bytes())
}

/// Appends the name of a transaction.
fn put_name(out: &mut Vec<u8>, session: u16, place: usize) -> Said
    ensures text { OnOk result (out.new.items ≡ out.old.items ++ name_text (session, place)) }
{
    put_number(out, u64::from(session))?;
    put_text(out, b".")?;
    put_number(out, place as u64)
}

/// Appends the name of a node.
#[tactic(auto, unfolding(crate::specs::Reasons::named))]
fn put_node(out: &mut Vec<u8>, log: &Log<'_>, node: NodeIx) -> Said
    ensures text { OnOk result (out.new.items ≡ out.old.items ++ named log.now node) }
{
    put_name(out, log.history.session_of(node), place_of(log, node))
}

/// Appends a line of the log.
#[tactic(auto, unfolding(crate::specs::Reasons::in_line))]
fn put_line(out: &mut Vec<u8>, line: usize) -> Said
    ensures text { OnOk result (out.new.items ≡ out.old.items ++ in_line line) }
{
    put_text(out, b" (line ")?;
    put_number(out, line as u64)?;
    put_text(out, b")")
}

/// Appends the key and the identity of an operation.
#[tactic(auto, unfolding(crate::specs::Reasons::key_and_wid))]
pub fn put_op(out: &mut Vec<u8>, op: Option<Access<'_>>) -> Said
    ensures text { OnOk result (out.new.items
        ≡ out.old.items ++ key_and_wid (option_map view_access op.entry)) }
{
    put_text(out, key_in(op))?;
    put_text(out, b" ")?;
    put_number(out, wid_in(op))
}

/// Appends an operation as its line has it.
#[tactic(auto, unfolding(crate::specs::Reasons::listed_text))]
fn put_listed(out: &mut Vec<u8>, op: Option<Access<'_>>) -> Said
    ensures text { OnOk result (out.new.items
        ≡ out.old.items ++ spec.listed_text (option_map view_access op.entry)) }
{
    match op {
        Some(Access::Write(..)) => put_text(out, b"w ")?,
        _ => put_text(out, b"r ")?,
    }
    put_op(out, op)
}

/// Appends a word.
#[tactic(auto, unfolding(crate::specs::Reasons::base_text, crate::specs::Reasons::does_text, crate::specs::Reasons::wrote_text))]
fn put_word(out: &mut Vec<u8>, log: &Log<'_>, word: &Word<'_>) -> Said
    ensures text { OnOk result (out.new.items ≡ out.old.items ++ word_text log.now word.now) }
{
    match word {
        Word::Text(text) => put_text(out, text),
        Word::Base(0) => put_text(out, b"the initial value"),
        Word::Number(number) | Word::Base(number) => put_number(out, *number),
        Word::Line(line) => put_line(out, *line),
        Word::Name(session, place) => put_name(out, *session, *place),
        Word::Node(node) => put_node(out, log, *node),
        Word::Key(key) => put_text(out, key_bytes(log.history, *key)),
        Word::KeyOf(node, op) => put_text(out, key_in(op_of(log.history, *node, *op))),
        Word::Operation(node, op) => put_op(out, op_of(log.history, *node, *op)),
        Word::Listed(node, op) => put_listed(out, op_of(log.history, *node, *op)),
        Word::Identity(node, op) => put_number(out, wid_at(log.history, *node, *op)),
        Word::AtLine(node, op) => put_line(out, line_of(log, *node, *op)),
        Word::Does(node, does, op) => {
            put_node(out, log, *node)?;
            put_text(out, does)?;
            put_op(out, op_of(log.history, *node, *op))?;
            put_line(out, line_of(log, *node, *op))
        }
        Word::Wrote(node, op) => {
            put_text(out, b", which ")?;
            put_node(out, log, *node)?;
            put_text(out, b" wrote")?;
            put_line(out, line_of(log, *node, *op))
        }
    }
}

/// Appends what words say, one behind the other.
#[tactic(auto, using(crate::proofs::Joined::words_next))]
pub fn put_words(out: &mut Vec<u8>, log: &Log<'_>, words: &[Word<'_>]) -> Said
    ensures text { OnOk result (out.new.items ≡ out.old.items ++ words_text log.now words.now) }
{
    for word in words {
        put_word(out, log, word)?;
    }
    Ok(())
}
