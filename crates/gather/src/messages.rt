//! What workers send to the machine that hands out blocks, and what they are answered.

use crate::parsed::Parsed;
use desk::seat_no::SeatNo;

/// What a worker sends. Blocks are numbered from 0 in log order.
#[derive(Drop)]
pub enum GatherEvent<'a> {
    /// Asks for a block.
    Take,
    /// Hands in what was read of a block.
    Put { block: usize, parsed: Parsed<'a> },
    /// Gives back what the seat holds.
    Release,
}

/// What a worker is answered.
#[derive(Clone, Copy, Debug, PartialEq, Eq)]
pub enum GatherReply {
    /// To `Take`: the block that the seat holds from now on.
    Block(usize),
    /// To `Take`: the seat holds no block, and none is open.
    NoneLeft,
    /// To `Put`: the block was kept before.
    Double,
    /// To `Put`: the block is kept from now on.
    Kept,
    /// To `Put`: the seat does not hold the block, or it is not what was read.
    Stranger,
    /// To `Release`.
    Released,
}

/// Where a block is.
#[derive(Clone, Copy, Debug, PartialEq, Eq)]
pub enum BlockState {
    /// To be handed out.
    Open,
    /// With a seat.
    Held(SeatNo),
    /// Read.
    Kept,
}
