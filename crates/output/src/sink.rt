//! Where bytes go.

ghost use Rattle.std.specs.Prelude.{◌≡◌, ℕ, ◌+◌, ◌^◌, ◌<◌, ◌≤◌, if◌then◌else◌, List, Option};
ghost use Rattle.std.specs.Prelude.{length, take, is_ok, true, IfOk, IfErr, OnOk};
ghost use Rattle.std.specs.Io.KnownBytes.{Appends, WriteAppends};
ghost use Rattle.output.specs.Sinks.{most_failures, one_more, is_refused, WritesFrom};

use crate::fault::{SinkFailed, WriteFault};
use std::io::Write;

/// A place to put bytes, which counts its failures.
pub trait Sink {
    /// The bytes so far, where the sink tells them.
    ghost bytes: { Self → Option (List ℕ) };

    /// How many calls failed. Once this is at its greatest value, 2^64 - 1, every call fails.
    ghost failures: { Self → ℕ };

    /// Takes some of a piece from its front, and answers how many bytes. To take none of a piece
    /// that has bytes is a failure, whether it is answered as `Ok(0)` or as an error.
    fn put(&mut self, piece: &[u8]) -> Result<usize, SinkFailed>
        ensures bound { IfOk result (λ n. n ≤ length piece.now) }
        ensures bytes { WriteAppends (bytes self.old) (bytes self.new) result piece.now }
        ensures count { failures self.new ≡
            (if is_refused result piece.now
            then one_more (failures self.old) else failures self.old) }
        ensures spent { failures self.old ≡ most_failures → is_refused result piece.now ≡ true };
}

/// Any writer as a sink. Once the count of failures is at its greatest value, every `put` fails.
#[derive(Drop)]
pub struct Counted<W> {
    /// The writer.
    pub writer: W,
    /// How many calls failed.
    pub failures: u64,
}

impl<W> Counted<W> {
    /// A sink that has not failed yet.
    pub fn new(writer: W) -> Counted<W>
        ensures writer { result.writer ≡ writer }
        ensures failures { result.failures ≡ 0 }
    {
        Counted {
            writer,
            failures: 0,
        }
    }
}

impl<W: Write> Sink for Counted<W> {
    ghost bytes = { λ s. W.contents s.writer };

    ghost failures = { λ s. s.failures };

    fn put(&mut self, piece: &[u8]) -> Result<usize, SinkFailed> {
        if self.failures == u64::MAX {
            return Err(SinkFailed);
        }
        match self.writer.write(piece) {
            Ok(taken) => {
                if taken == 0 && !piece.is_empty() {
                    self.failures += 1;
                }
                Ok(taken)
            }
            Err(_) => {
                self.failures += 1;
                Err(SinkFailed)
            }
        }
    }
}

/// Puts a piece of a text of which `written` bytes went out before, and answers how many have gone
/// out with it.
pub fn put_all<W: Sink>(sink: &mut W, written: u64, piece: &[u8]) -> Result<u64, WriteFault>
    requires { written + length piece.now < 2 ^ 64 }
    ensures went { WritesFrom (W.bytes sink.old) (W.bytes sink.new) written piece.now result }
    ensures count { W.failures sink.new ≡
        (if is_ok result then W.failures sink.old else one_more (W.failures sink.old)) }
{
    let mut rest = piece;
    let mut out = written;
    while !rest.is_empty() {
        match sink.put(rest) {
            Ok(0) => return Err(WriteFault { written: out }),
            Ok(taken) => {
                rest = &rest[taken..];
                out += taken as u64;
            }
            Err(_) => return Err(WriteFault { written: out }),
        }
    }
    Ok(out)
}

/// Writes a whole text. Where the sink fails, exactly the first `written` bytes went out, and not
/// all.
pub fn write_all<W: Sink>(sink: &mut W, text: &[u8]) -> Result<(), WriteFault>
    ensures ok { OnOk result (Appends (W.bytes sink.old) (W.bytes sink.new) text.now) }
    ensures err { IfErr result (λ e. (e.written < length text.now) ×
        Appends (W.bytes sink.old) (W.bytes sink.new) (take e.written text.now)) }
    ensures count { W.failures sink.new ≡
        (if is_ok result then W.failures sink.old else one_more (W.failures sink.old)) }
{
    put_all(sink, 0, text)?;
    Ok(())
}
