//! The text of the points.

ghost use Rattle.std.specs.Prelude.{◌≡◌, ◌++◌, map, IfOk, OnOk};
ghost use Rattle.session_log.specs.Text.{view};
ghost use Rattle.log_laws.specs.Logs.{IsLearntLog};
ghost use Rattle.point_laws.specs.Points.{points_along};
ghost use Rattle.point_orders.specs.Halves.{half_text, half_at, halves_text};
ghost use Rattle.point_orders.specs.Text.{word_line, points_text};

use crate::halves::{Half, halves_in};
use itoa::Buffer;
use session_log::Session;
use std::alloc::{AllocError, Global};

/// Appends a line: a session, a place in it, and a word, each behind a space.
#[tactic(auto, unfolding(crate::specs::Text::word_line))]
fn put_word(out: &mut Vec<u8>, half: Half, word: &[u8]) -> Result<(), AllocError>
    ensures put { OnOk result (out.new.items
        ≡ out.old.items ++ word_line (half.session, half.place) word.now) }
{
    let mut digits = Buffer::new();
    out.extend_from_slice(digits.format(half.session).as_bytes())?;
    out.push(b' ')?;
    out.extend_from_slice(digits.format(half.place).as_bytes())?;
    out.push(b' ')?;
    out.extend_from_slice(word)?;
    out.push(b'\n')?;
    Ok(())
}

/// Appends the lines of the points for which a transaction of the split log stands.
fn put_half(out: &mut Vec<u8>, half: Half) -> Result<(), AllocError>
    ensures put { OnOk result (out.new.items ≡ out.old.items ++ half_text half) }
{
    if half.has_snapshot {
        put_word(out, half, b"snapshot")?;
    }
    if half.has_commit {
        put_word(out, half, b"commit")?;
    }
    Ok(())
}

/// The one of this number, from 1; one of no points where there is none.
fn half_at(halves: &[Half], number: usize) -> Half
    ensures half { result ≡ half_at halves.now number }
{
    if number == 0 || number > halves.len() {
        return Half {
            session: 0,
            place: 0,
            has_snapshot: false,
            has_commit: false,
        };
    }
    halves[number - 1]
}

/// The lines of all that an order names.
fn halves_text(alloc: Global, halves: &[Half], order: &[usize]) -> Result<Vec<u8>, AllocError>
    ensures text { IfOk result (λ text. text.items ≡ halves_text halves.now order.now) }
{
    let mut out = Vec::new(alloc);
    for number in order {
        put_half(&mut out, half_at(halves, *number))?;
    }
    Ok(out)
}

/// The text of the points of these sessions, whose outcomes are known, in an order of the log in which
/// writers are split: a line for each, with the session and the place of its transaction, and its
/// word.
pub fn points_text(
    alloc: Global,
    sessions: &[Session],
    order: &[usize],
) -> Result<Vec<u8>, AllocError>
    requires learnt { IsLearntLog (map view sessions.now) }
    ensures text { let ss = map view sessions.now in
        IfOk result (λ text. text.items ≡ points_text ss (points_along ss order.now)) }
{
    let halves = halves_in(alloc, sessions)?;
    halves_text(alloc, &halves, order)
}
