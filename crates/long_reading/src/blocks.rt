//! A long log, cut into the blocks of its sessions.

ghost use Rattle.std.specs.Prelude.{◌≡◌, None, IfOk, IfErr};
ghost use Rattle.session_log.specs.Faults.{IsFault};
ghost use Rattle.session_log.specs.Version.{version_of};
ghost use Rattle.session_log.specs.Blocks.{blocks_of};
ghost use Rattle.long_log_definitions.specs.LongLog.{size_fault};

use long_log_definitions::MAX_LONG_LOG_BYTES;
use session_log::{Block, LogFault, Version, cut_within};
use std::alloc::Global;

/// Cuts a long log into the blocks of its sessions, and tells its version: the header and the
/// blocks, joined, are the log, and each block but the first begins at a line that begins with the
/// bytes `session`.
///
/// A log with nothing behind its header has no blocks. Refused with `OverLimit` where the log has
/// more than `MAX_LONG_LOG_BYTES` bytes, and with `Memory`.
#[tactic(auto, unfolding(long_log_definitions::specs::LongLog::size_fault))]
pub fn cut_long(alloc: Global, log: &[u8]) -> Result<(Version, Vec<Block>), LogFault>
    ensures accepted { IfOk result (λ _. size_fault log.now ≡ None) }
    ensures version { IfOk result (λ found. found.0 ≡ version_of log.now) }
    ensures blocks { IfOk result (λ found. found.1.items ≡ blocks_of log.now) }
    ensures fault { IfErr result (λ f. IsFault f (size_fault log.now)) }
{
    cut_within(alloc, log, MAX_LONG_LOG_BYTES, None)
}
