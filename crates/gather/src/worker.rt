//! What one thread does.

ghost use Rattle.std.specs.Prelude.{◌≡◌};
ghost use Rattle.session_log.specs.Blocks.{blocks_of};

use crate::machine::GatherMachine;
use crate::messages::{GatherEvent, GatherReply};
use crate::parsed::parse_piece;
use desk::desk::Desk;
use desk::gate::Gate;
use desk::naming::Naming;
use desk::seat::{Left, Seat};
use session_log::Block;
use std::alloc::Global;
use std::sync::Wait;
use std::time::Clock;

/// What a worker has: its seat, and what it is lent.
#[derive(Drop)]
pub struct Job<'b, 'a, J: Naming, G: Gate> {
    pub alloc: Global,
    pub desk: &'b Desk<GatherMachine<'a>, J>,
    pub seat: Seat<GatherMachine<'a>, J>,
    pub log: &'a [u8],
    pub blocks: &'b [Block],
    pub gate: &'b G,
    pub ghost of_the_log: { blocks.now ≡ blocks_of log.now },
}

/// Reads blocks until none is left or memory is wanting, and leaves.
pub fn work<'b, 'a, J: Naming, G: Gate, R: Wait + Clock>(
    rt: &R,
    job: Job<'b, 'a, J, G>,
) -> Left<GatherMachine<'a>, J>
    ensures { result.number ≡ job.entry.seat.number }
{
    let Job {
        alloc,
        desk,
        mut seat,
        log,
        blocks,
        gate,
    } = job;
    let mut turn: u64 = 0;
    for _ in rt.forever() {
        gate.pass(rt, seat.number(), turn);
        if take_turn(rt, alloc, desk, &mut seat, log, blocks).is_none() {
            break;
        }
        turn = turn.saturating_add(1);
    }
    let (_, left) = desk.leave(rt, seat, GatherEvent::Release);
    left
}

/// Takes a block, reads it, and hands in what was read.
fn take_turn<'b, 'a, J: Naming, R: Wait>(
    rt: &R,
    alloc: Global,
    desk: &'b Desk<GatherMachine<'a>, J>,
    seat: &mut Seat<GatherMachine<'a>, J>,
    log: &'a [u8],
    blocks: &'b [Block],
) -> Option<()>
    requires { blocks.now ≡ blocks_of log.now }
    ensures { seat.new.number ≡ seat.old.number }
{
    let Ok(GatherReply::Block(number)) = desk.call(rt, seat, GatherEvent::Take) else {
        return None;
    };
    let block = blocks.get(number)?;
    let parsed = parse_piece(alloc, log, block).ok()?;
    let put = GatherEvent::Put {
        block: number,
        parsed,
    };
    desk.call(rt, seat, put).ok()?;
    Some(())
}
