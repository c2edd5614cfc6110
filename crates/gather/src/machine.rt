//! The machine that hands out the blocks of a log.

ghost use Rattle.std.specs.Prelude.{◌≡◌, Some, IfOk, Contains, map, position, slice_get};
ghost use Rattle.session_log.specs.Blocks.{blocks_of};
ghost use Rattle.gather.specs.Pieces.{is_piece, is_piece_of};
ghost use Rattle.gather.specs.declared.messages.BlockState.TheVariants as mark;
ghost use Rattle.gather.specs.Steps.{opening_state, with_marks, is_open, is_kept, is_held_by};
ghost use Rattle.gather.specs.Steps.{handed, hand_out, take_reply, put_reply, marked_kept};
ghost use Rattle.gather.specs.Steps.{released};

use crate::messages::{BlockState, GatherReply};
use crate::parsed::Parsed;
use desk::seat_no::SeatNo;
use session_log::Block;
use std::alloc::{AllocError, Global};
use std::marker::Model;

/// A log whose blocks are handed out, and for each block whether it is open, held by a seat, or
/// kept. Contracts see the log and the blocks' marks.
#[derive(Drop)]
pub struct GatherMachine<'a> {
    log: &'a [u8],
    blocks: Vec<Block>,
    marks: Vec<BlockState>,
}

impl<'a> Model for GatherMachine<'a> {
    ghost use Rattle.std.specs.Prelude.{◌≡◌, length};
    ghost use Rattle.session_log.specs.Blocks.{blocks_of};
    ghost use Rattle.gather.specs.Steps.{State};

    ghost Value = { State };

    ghost view = { λ m. record { log = m.log.now; marks = m.marks.items } };

    ghost invariant = { λ m. m.blocks.items ≡ blocks_of m.log.now };
}

impl<'a> GatherMachine<'a> {
    /// A log with these blocks, each of which is open.
    pub fn opening(
        alloc: Global,
        log: &'a [u8],
        blocks: Vec<Block>,
    ) -> Result<GatherMachine<'a>, AllocError>
        requires { blocks.items ≡ blocks_of log.now }
        ensures { IfOk result (λ m. m ≡ opening_state log.now) }
    {
        let marks = all_open(alloc, &blocks)?;
        Ok(GatherMachine { log, blocks, marks })
    }

    /// Hands out the block that the seat holds, else the least open one.
    pub(crate) fn take(&mut self, seat: SeatNo) -> GatherReply
        ensures reply { result ≡ take_reply (handed self.old.marks seat) }
        ensures state { self.new ≡ with_marks self.old
            (hand_out self.old.marks seat (handed self.old.marks seat)) }
    {
        match handed(&self.marks, seat) {
            Some(block) => {
                self.marks[block] = BlockState::Held(seat);
                GatherReply::Block(block)
            }
            None => GatherReply::NoneLeft,
        }
    }

    /// Keeps a block that the seat holds, where it is what was read.
    pub(crate) fn put(&mut self, seat: SeatNo, block: usize, parsed: &Parsed<'a>) -> GatherReply
        ensures reply { result
            ≡ put_reply seat (is_piece self.old.log block parsed.now)
            (slice_get self.old.marks block) }
        ensures state { self.new
            ≡ with_marks self.old (marked_kept self.old.marks block result) }
    {
        let Some(mark) = self.marks.get(block) else {
            return GatherReply::Stranger;
        };
        if is_kept(*mark) {
            return GatherReply::Double;
        }
        if !is_held_by(*mark, seat) || !self.is_piece(block, parsed) {
            return GatherReply::Stranger;
        }
        self.marks[block] = BlockState::Kept;
        GatherReply::Kept
    }

    /// Opens what the seat holds.
    pub(crate) fn release(&mut self, seat: SeatNo)
        ensures { self.new ≡ with_marks self.old (map (released seat) self.old.marks) }
    {
        release_all(&mut self.marks, seat);
    }

    /// Whether this is what was read of the block.
    fn is_piece(&self, block: usize, parsed: &Parsed<'a>) -> bool
        ensures { result ≡ is_piece self.now.log block parsed.now }
    {
        match self.blocks.get(block) {
            Some(block) => is_piece_of(self.log, block, parsed),
            None => false,
        }
    }
}

/// Whether this is what was read of the block, which is one of the log.
fn is_piece_of<'a>(log: &[u8], block: &Block, parsed: &Parsed<'a>) -> bool
    requires { Contains (blocks_of log.now) block.now }
    ensures { result ≡ is_piece_of log.now parsed.now (Some block.now) }
{
    parsed.slice() == &log[block.start..block.stop]
        && parsed.line() == block.line
        && parsed.version() == block.version
}

fn is_open(mark: BlockState) -> bool
    ensures { result ≡ is_open mark }
{
    matches!(mark, BlockState::Open)
}

fn is_kept(mark: BlockState) -> bool
    ensures { result ≡ is_kept mark }
{
    matches!(mark, BlockState::Kept)
}

fn is_held_by(mark: BlockState, seat: SeatNo) -> bool
    ensures { result ≡ is_held_by seat mark }
{
    matches!(mark, BlockState::Held(holder) if holder.get() == seat.get())
}

fn all_open(alloc: Global, blocks: &[Block]) -> Result<Vec<BlockState>, AllocError>
    ensures { IfOk result (λ v. v.items ≡ map (λ block. mark.Open) blocks.now) }
{
    blocks.iter().map(|_| BlockState::Open).collect(alloc)
}

fn held_block(marks: &[BlockState], seat: SeatNo) -> Option<usize>
    ensures { result ≡ position (is_held_by seat) marks.now }
{
    marks.iter().position(|mark| is_held_by(*mark, seat))
}

fn open_block(marks: &[BlockState]) -> Option<usize>
    ensures { result ≡ position is_open marks.now }
{
    marks.iter().position(|mark| is_open(*mark))
}

/// The block that the seat holds, else the least open one.
fn handed(marks: &[BlockState], seat: SeatNo) -> Option<usize>
    ensures { result ≡ handed marks.now seat }
{
    held_block(marks, seat).or_else(|| open_block(marks))
}

fn released(mark: &BlockState, seat: SeatNo) -> BlockState
    ensures { result ≡ released seat mark.now }
{
    if is_held_by(*mark, seat) {
        BlockState::Open
    } else {
        *mark
    }
}

fn release_all(marks: &mut [BlockState], seat: SeatNo)
    ensures { marks.new ≡ map (released seat) marks.old }
{
    for mark in marks.iter_mut() {
        *mark = released(mark, seat);
    }
}
