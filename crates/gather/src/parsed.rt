//! A piece of a log that was read.

ghost use Rattle.std.specs.Prelude.{◌≡◌, IfOk, IfErr, Ok, Err, Contains};
ghost use Rattle.session_log.specs.Text.{view};
ghost use Rattle.session_log.specs.Blocks.{blocks_of};
ghost use Rattle.gather.specs.Pieces.{IsRead, IsPieceOf};

use session_log::{Block, LogFault, Session, Version, parse_block};
use std::alloc::{AllocError, Global};
use std::marker::Model;

/// A block of a log by its version, its bytes and its first line, with what reading it gave: its
/// session, or its first fault, which is never `Memory`.
///
/// `parse_piece` alone makes one. Contracts see the version, the bytes, the line and the outcome.
#[derive(Drop)]
pub struct Parsed<'a> {
    version: Version,
    slice: &'a [u8],
    line: usize,
    outcome: Result<Session, LogFault>,
}

impl<'a> Model for Parsed<'a> {
    ghost use Rattle.gather.specs.Pieces.{Piece, IsRead, view_outcome};

    ghost Value = { Piece };

    ghost view = { λ p. record {
      version = p.version;
      text = p.slice.now;
      line = p.line;
      outcome = view_outcome p.outcome;
    } };

    ghost invariant = { λ p. IsRead (record {
      version = p.version;
      text = p.slice.now;
      line = p.line;
      outcome = view_outcome p.outcome;
    }) };
}

/// Reads a block of the log. A fault of the block is an outcome; an error is want of memory.
#[tactic(auto, using(session_log::proofs::Lying::lies))]
pub fn parse_piece<'a>(
    alloc: Global,
    log: &'a [u8],
    block: &Block,
) -> Result<Parsed<'a>, AllocError>
    requires { Contains (blocks_of log.now) block.now }
    ensures piece { IfOk result (λ p. IsPieceOf log.now block.now p) }
    ensures read { IfOk result (λ p. IsRead p) }
{
    let outcome = match parse_block(alloc, log, block) {
        Ok(session) => Ok(session),
        Err(LogFault::Memory) => return Err(AllocError),
        Err(fault) => Err(fault),
    };
    Ok(Parsed {
        version: block.version,
        slice: &log[block.start..block.stop],
        line: block.line,
        outcome,
    })
}

impl<'a> Parsed<'a> {
    /// The version of the log.
    pub fn version(&self) -> Version
        ensures { result ≡ self.now.version }
    {
        self.version
    }

    /// The bytes.
    pub fn slice(&self) -> &'a [u8]
        ensures { result.now ≡ self.now.text }
    {
        self.slice
    }

    /// The line of the log that is the first one, from 1.
    pub fn line(&self) -> usize
        ensures { result ≡ self.now.line }
    {
        self.line
    }

    /// The session that the bytes are the text of, which the version holds, or their first fault.
    pub fn into_outcome(self) -> Result<Session, LogFault>
        ensures session { IfOk result (λ s. self.entry.outcome ≡ Ok (view s)) }
        ensures fault { IfErr result (λ f. self.entry.outcome ≡ Err f) }
        ensures read { IsRead self.entry }
    {
        self.outcome
    }
}
