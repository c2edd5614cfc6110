//! Where bytes come from.

ghost use Rattle.std.specs.Prelude.{◌≡◌, ℕ, ◌+◌, ◌^◌, ◌<◌, ◌≤◌, if◌then◌else◌, List, Option};
ghost use Rattle.std.specs.Prelude.{length, vec_len, is_err, true, IfOk, OnOk, OnErr};
ghost use Rattle.std.specs.Prelude.{IsErrOf};
ghost use Rattle.std.specs.Io.KnownBytes.{ReadConsumes};
ghost use Rattle.output.specs.Sinks.{most_failures, one_more};
ghost use Rattle.cobra_answers.specs.Sources.{TakesPiece, IsReadWhole, IsReadInPart};
ghost use Rattle.cobra_answers.specs.declared.source.ReadFault.TheVariants as fault;

use std::alloc::{AllocError, Global};
use std::io::Read;

/// A source gave nothing.
#[derive(Clone, Copy, Debug, PartialEq, Eq)]
pub struct SourceFailed;

/// A place to get bytes from, which counts its failures.
pub trait Source {
    /// The bytes that are left, where they are known.
    ghost rest: { Self → Option (List ℕ) };

    /// How many calls failed. Once this is at its greatest value, 2^64 - 1, every call fails.
    ghost failures: { Self → ℕ };

    /// Gets some bytes into the front of a buffer. None for a buffer that has room is the end of
    /// input.
    fn get(&mut self, buffer: &mut [u8]) -> Result<usize, SourceFailed>
        ensures bound { IfOk result (λ n. n ≤ length buffer.new) }
        ensures bytes { ReadConsumes (rest self.old) (rest self.new) result buffer.new }
        ensures count { failures self.new
            ≡ (if is_err result then one_more (failures self.old) else failures self.old) }
        ensures spent { failures self.old ≡ most_failures → is_err result ≡ true };
}

/// Any reader as a source, with a count of its failures. Once the count is at its greatest value,
/// each call fails.
#[derive(Drop)]
pub struct CountedRead<R> {
    pub reader: R,
    pub failures: u64,
}

impl<R: Read> Source for CountedRead<R> {
    ghost rest = { λ s. R.remaining s.reader };

    ghost failures = { λ s. s.failures };

    fn get(&mut self, buffer: &mut [u8]) -> Result<usize, SourceFailed> {
        if self.failures == u64::MAX {
            return Err(SourceFailed);
        }
        match self.reader.read(buffer) {
            Ok(given) => Ok(given),
            Err(_) => {
                self.failures += 1;
                Err(SourceFailed)
            }
        }
    }
}

/// Why a source was not read to its end.
#[derive(Clone, Copy, Debug, PartialEq, Eq)]
pub enum ReadFault {
    /// The source failed in this call.
    Device,
    /// Memory was refused.
    Memory,
}

impl From<AllocError> for ReadFault {
    ghost from_gives = { λ _ e. e ≡ fault.Memory };

    fn from(_refused: AllocError) -> ReadFault {
        ReadFault::Memory
    }
}

impl From<SourceFailed> for ReadFault {
    ghost from_gives = { λ _ e. e ≡ fault.Device };

    fn from(_failed: SourceFailed) -> ReadFault {
        ReadFault::Device
    }
}

/// How many bytes are asked of a source at once.
const PIECE: usize = 65536;

/// Puts what a source gives into a buffer behind a text, and says how much it was.
fn take_piece<S: Source>(
    source: &mut S,
    buffer: &mut [u8],
    text: &mut Vec<u8>,
) -> Result<usize, ReadFault>
    ensures taken { IfOk result (λ n. (n ≤ length buffer.old)
        × TakesPiece (S.rest source.old) (S.rest source.new)
        (length buffer.old) text.old.items text.new.items
        × (vec_len text.new ≡ vec_len text.old + n)) }
    ensures part { OnErr result (IsReadInPart (S.rest source.old) (S.rest source.new)
        (length buffer.old)) }
    ensures device { IsErrOf result ReadFault.Device
        → S.failures source.new ≡ one_more (S.failures source.old) }
    ensures count { OnOk result (S.failures source.new ≡ S.failures source.old) }
    ensures memory { IsErrOf result ReadFault.Memory
        → S.failures source.new ≡ S.failures source.old }
{
    let given = source.get(buffer)?;
    text.extend_from_slice(&buffer[..given])?;
    Ok(given)
}

/// All bytes of a source, where they are at most `limit`; else its first `limit + 1` bytes, by
/// which a caller knows that it is too long. What was read stays read where the call is refused.
pub fn read_all<S: Source>(
    alloc: Global,
    source: &mut S,
    limit: usize,
) -> Result<Vec<u8>, ReadFault>
    requires { limit < 2 ^ 63 }
    ensures text { IfOk result (λ text.
        IsReadWhole (S.rest source.old) (S.rest source.new) limit text.items) }
    ensures part { OnErr result (IsReadInPart (S.rest source.old) (S.rest source.new) (limit + 1)) }
    ensures device { IsErrOf result ReadFault.Device
        → S.failures source.new ≡ one_more (S.failures source.old) }
    ensures count { OnOk result (S.failures source.new ≡ S.failures source.old) }
    ensures memory { IsErrOf result ReadFault.Memory
        → S.failures source.new ≡ S.failures source.old }
{
    let mut text = Vec::new(alloc);
    let mut piece = vec![in alloc; 0u8; PIECE]?;
    while text.len() <= limit {
        let room = (limit + 1 - text.len()).min(piece.len());
        if take_piece(source, &mut piece[..room], &mut text)? == 0 {
            return Ok(text);
        }
    }
    Ok(text)
}
