//! The blocks of a log, shared out among workers.

ghost use Rattle.std.specs.Prelude.{◌≡◌, ◌≤◌, IfOk, length};
ghost use Rattle.std.specs.List.{flat_map};

use desk::seat_no::Workers;
use session_log::Block;
use std::alloc::{AllocError, Global};

/// How many of these blocks, from the first on, have their middle before this byte of the log, or
/// at it.
fn count_before(blocks: &[Block], byte: usize) -> usize
    ensures { result ≤ length blocks.now }
{
    for (i, block) in blocks.iter().enumerate() {
        if (block.start / 2).saturating_add(block.stop / 2) > byte {
            return i;
        }
    }
    blocks.len()
}

/// The blocks of a log of so many bytes, in their order and in as many parts as there are workers.
/// The parts have about equally many bytes; some may have no block.
pub fn shares<'b>(
    alloc: Global,
    blocks: &'b [Block],
    bytes: usize,
    workers: Workers,
) -> Result<Vec<&'b [Block]>, AllocError>
    ensures count { IfOk result (λ parts. length parts.items ≡ workers) }
    ensures whole { IfOk result (λ parts. flat_map (λ part. part.now) parts.items ≡ blocks.now) }
{
    let workers = usize::from(workers.get());
    let mut parts = Vec::with_capacity(alloc, workers)?;
    let mut rest = blocks;
    for worker in 1..workers {
        let byte = (bytes / workers).saturating_mul(worker);
        let (part, after) = rest.split_at(count_before(rest, byte));
        parts.push(part)?;
        rest = after;
    }
    parts.push(rest)?;
    Ok(parts)
}
