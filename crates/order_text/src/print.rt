//! The text of names and of orders.

ghost use Rattle.std.specs.Prelude.{◌≡◌, ◌≤◌, ◌++◌, length, take, IfOk, OnOk};
ghost use Rattle.log_definitions.specs.Numbers.{log_of};
ghost use Rattle.session_history.specs.Tables.{name_in};
ghost use Rattle.order_text.specs.Text.{joined_by, name_text, name_line, order_text, AreNodes};

use itoa::Buffer;
use session_history::{History, Name, NodeIx, NodeLine};
use std::alloc::{AllocError, Global};

fn put_joined(out: &mut Vec<u8>, byte: u8, name: Name) -> Result<(), AllocError>
    ensures text { OnOk result (out.new.items
        ≡ out.old.items ++ joined_by byte (name.session, name.place)) }
    ensures kept { take (length out.old.items) out.new.items ≡ out.old.items }
{
    let mut digits = Buffer::new();
    out.extend_from_slice(digits.format(name.session).as_bytes())?;
    out.push(byte)?;
    out.extend_from_slice(digits.format(name.place).as_bytes())?;
    Ok(())
}

fn put_line(out: &mut Vec<u8>, name: Name) -> Result<(), AllocError>
    ensures text { OnOk result (out.new.items
        ≡ out.old.items ++ name_line (name.session, name.place)) }
{
    put_joined(out, b' ', name)?;
    out.push(b'\n')?;
    Ok(())
}

/// Appends the name of a node as messages have it: its session number, a dot, and its place in the
/// session, where aborted transactions count. Node 0 is `0.0`. Where memory runs out, a part of the
/// name may have been appended.
pub fn put_name(out: &mut Vec<u8>, history: &History, node: NodeIx) -> Result<(), AllocError>
    requires known { node ≤ (log_of history.now).nodes }
    ensures name { OnOk result (out.new.items
        ≡ out.old.items ++ name_text (name_in history.now node)) }
    ensures kept { take (length out.old.items) out.new.items ≡ out.old.items }
{
    put_joined(out, b'.', history.name_of(node))
}

/// The text of an order of this history: a line for each place, in which a space stands between the
/// node's session number and its place in the session.
#[tactic(auto, unfolding(crate::specs::Text::order_text))]
pub fn print_order(
    alloc: Global,
    history: &History,
    order: &NodeLine,
) -> Result<Vec<u8>, AllocError>
    requires nodes { AreNodes history.now order.now }
    ensures text { IfOk result (λ text. text.items ≡ order_text history.now order.now) }
{
    let mut out = Vec::new(alloc);
    for node in order.nodes() {
        put_line(&mut out, history.name_of(*node))?;
    }
    Ok(out)
}
