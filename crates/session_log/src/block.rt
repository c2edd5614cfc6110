//! A log, cut into the blocks of its sessions.

ghost use Rattle.std.specs.Prelude.{◌≡◌, ◌≢◌, ◌<◌, Some, None, IfOk, IfErr, length, Contains, codes};
ghost use Rattle.std.specs.Prelude.{nat_eq};
ghost use Rattle.std.specs.List.{starts_with};
ghost use Rattle.session_log.specs.Faults.{IsFault, IsSizeFault, IsGrammarFault};
ghost use Rattle.session_log.specs.Text.{view, session_text, IsLegal, IsHeldBy};
ghost use Rattle.session_log.specs.Version.{version_of, body_of};
ghost use Rattle.session_log.specs.Blocks.{blocks_of, block_text, block_fault, size_fault};
ghost use Rattle.session_log.specs.Blocks.{fault_of_size, session_limit_fault};

use crate::fault::{Limit, LogFault};
use crate::limits::{MAX_LOG_BYTES, MAX_SESSIONS};
use crate::parse::parse_lines;
use crate::session::Session;
use crate::version::Version;
use crate::words::next_line;
use std::alloc::Global;

/// Where a session lies in a log of this version: at the bytes `start..stop`, from line `line` on.
#[derive(Clone, Copy, Debug, PartialEq, Eq)]
pub struct Block {
    pub version: Version,
    pub start: usize,
    pub stop: usize,
    pub line: usize,
}

fn starts_session(body: &[u8]) -> bool
    ensures { result ≡ starts_with nat_eq body.now (codes "session") }
{
    body.starts_with(b"session")
}

/// Cuts a log into the blocks of its sessions, and tells its version: the header and the blocks,
/// joined, are the log, and each block but the first begins at a line that begins with the bytes
/// `session`.
///
/// A log with nothing behind its header has no blocks. Refused with `OverLimit` where the log has
/// more than `MAX_LOG_BYTES` bytes, or more than `MAX_SESSIONS` lines that begin so, and with
/// `Memory`.
#[tactic(auto, unfolding(crate::specs::Blocks::size_fault))]
pub fn cut(alloc: Global, log: &[u8]) -> Result<(Version, Vec<Block>), LogFault>
    ensures accepted { IfOk result (λ _. size_fault log.now ≡ None) }
    ensures version { IfOk result (λ found. found.0 ≡ version_of log.now) }
    ensures blocks { IfOk result (λ found. found.1.items ≡ blocks_of log.now) }
    ensures fault { IfErr result (λ f. IsFault f (size_fault log.now)) }
    ensures kind { IfErr result (λ f. IsSizeFault f) }
{
    cut_within(alloc, log, MAX_LOG_BYTES, Some(MAX_SESSIONS))
}

/// The same with other limits: on its bytes, and on the lines that begin with `session`, where
/// there is one.
pub fn cut_within(
    alloc: Global,
    log: &[u8],
    bytes: usize,
    sessions: Option<usize>,
) -> Result<(Version, Vec<Block>), LogFault>
    requires { sessions ≢ Some 0 }
    ensures accepted { IfOk result (λ _. fault_of_size bytes sessions log.now ≡ None) }
    ensures version { IfOk result (λ found. found.0 ≡ version_of log.now) }
    ensures blocks { IfOk result (λ found. found.1.items ≡ blocks_of log.now) }
    ensures fault { IfErr result (λ f. IsFault f (fault_of_size bytes sessions log.now)) }
    ensures kind { IfErr result (λ f. IsSizeFault f) }
{
    if log.len() > bytes {
        return Err(LogFault::OverLimit {
            which: Limit::LogBytes,
        });
    }
    let version = Version::of(log);
    let (_, body) = log.split_at(version.header().len());
    if body.is_empty() {
        return Ok((version, Vec::new(alloc)));
    }
    Ok((version, cut_lines(alloc, log, version, body, sessions)?))
}

/// The blocks of a log that has lines behind its header.
fn cut_lines(
    alloc: Global,
    log: &[u8],
    version: Version,
    body: &[u8],
    most: Option<usize>,
) -> Result<Vec<Block>, LogFault>
    requires version { version ≡ version_of log.now }
    requires body { body.now ≡ body_of log.now }
    requires some { 0 < length body.now }
    requires most { most ≢ Some 0 }
    ensures accepted { IfOk result (λ _. session_limit_fault most log.now ≡ None) }
    ensures blocks { IfOk result (λ blocks. blocks.items ≡ blocks_of log.now) }
    ensures fault { IfErr result (λ f. IsFault f (session_limit_fault most log.now)) }
    ensures kind { IfErr result (λ f. IsSizeFault f) }
{
    let mut found = Vec::new(alloc);
    let (first, _, mut rest) = next_line(body);
    let mut sessions = usize::from(starts_session(first));
    let mut start = version.header().len();
    let mut line = version.first_line();
    let mut at = log.len() - rest.len();
    let mut n = line + 1;
    while !rest.is_empty() {
        let (body, _, after) = next_line(rest);
        if starts_session(body) {
            if most == Some(sessions) {
                return Err(LogFault::OverLimit {
                    which: Limit::Sessions,
                });
            }
            sessions += 1;
            found.push(Block {
                version,
                start,
                stop: at,
                line,
            })?;
            start = at;
            line = n;
        }
        at = log.len() - after.len();
        n += 1;
        rest = after;
    }
    found.push(Block {
        version,
        start,
        stop: at,
        line,
    })?;
    Ok(found)
}

/// Reads one of the log's blocks: the session whose text it is, which the log's version holds.
///
/// Refused with the block's first fault, by its line in the log, and with `Memory`.
pub fn parse_block(alloc: Global, log: &[u8], block: &Block) -> Result<Session, LogFault>
    requires { Contains (blocks_of log.now) block.now }
    ensures accepted { IfOk result (λ _. block_fault log.now block.now ≡ None) }
    ensures legal { IfOk result (λ s. IsLegal (view s)) }
    ensures held { IfOk result (λ s. IsHeldBy block.now.version (view s)) }
    ensures text { IfOk result (λ s. block_text log.now block.now ≡ session_text (view s)) }
    ensures fault { IfErr result (λ f. IsFault f (block_fault log.now block.now)) }
    ensures kind { IfErr result (λ f. IsGrammarFault f) }
{
    parse_lines(
        alloc,
        block.version,
        &log[block.start..block.stop],
        block.line,
    )
}
