//! The machine's step, by its table.

use crate::machine::GatherMachine;
use crate::messages::{GatherEvent, GatherReply};
use desk::machine::Machine;
use desk::seat_no::SeatNo;

/// Takes no memory, and never waits.
impl<'a> Machine for GatherMachine<'a> {
    ghost use Rattle.std.specs.Prelude.{⊤};
    ghost use Rattle.gather.specs.Steps.{next_of, reply_of};

    type Event = GatherEvent<'a>;

    type Reply = GatherReply;

    ghost next = { next_of };

    ghost reply_at = { reply_of };

    ghost valid = { λ s. ⊤ };

    fn step(&mut self, seat: SeatNo, event: &GatherEvent<'a>) -> GatherReply {
        match event {
            GatherEvent::Take => self.take(seat),
            GatherEvent::Put { block, parsed } => self.put(seat, *block, parsed),
            GatherEvent::Release => {
                self.release(seat);
                GatherReply::Released
            }
        }
    }

    fn waits(&self, _seat: SeatNo, _event: &GatherEvent<'a>) -> bool {
        false
    }

    ghost keeps = { λ s seat e v. tt };
}
