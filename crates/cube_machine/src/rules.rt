//! The machine's rules.

use crate::machine::CubeMachine;
use cube_laws::{CubeEvent, CubeReply};
use desk::machine::Machine;
use desk::seat_no::SeatNo;

impl<'a> Machine for CubeMachine<'a> {
    ghost use Rattle.std.specs.Prelude.{ℕ, ⊤};
    ghost use Rattle.cube_laws.specs.Steps.{next_of, reply_of, waits_of};

    type Event = CubeEvent;

    type Reply = CubeReply;

    ghost next = { next_of };

    ghost reply_at = { reply_of };

    ghost valid = { λ s. ⊤ };

    ghost waits_at = { waits_of };

    ghost keeps = { λ s seat e v. tt };

    #[tactic(auto, unfolding(cube_laws::specs::Steps::next_of, cube_laws::specs::Steps::reply_of))]
    fn step(&mut self, seat: SeatNo, event: &CubeEvent) -> CubeReply {
        match event {
            CubeEvent::Claim(id) => {
                if self.is_finished() {
                    CubeReply::Finished
                } else {
                    self.claim(seat, *id)
                }
            }
            CubeEvent::TakeAny => {
                if self.is_finished() {
                    CubeReply::Finished
                } else {
                    self.take_any(seat)
                }
            }
            CubeEvent::Split(choice) => {
                if self.is_finished() {
                    CubeReply::Finished
                } else {
                    self.split(seat, *choice)
                }
            }
            CubeEvent::Refute(line) => {
                if self.is_finished() {
                    CubeReply::Finished
                } else {
                    self.refute(seat, line.nodes())
                }
            }
            CubeEvent::Solve(order) => {
                if self.is_finished() {
                    CubeReply::Finished
                } else {
                    self.solve(seat, order.nodes())
                }
            }
            CubeEvent::Release => self.release(seat),
        }
    }

    #[tactic(auto, unfolding(cube_laws::specs::Steps::waits_of))]
    fn waits(&self, seat: SeatNo, event: &CubeEvent) -> bool {
        match event {
            CubeEvent::TakeAny => self.waits_for_any(seat),
            CubeEvent::Claim(_)
            | CubeEvent::Split(_)
            | CubeEvent::Refute(_)
            | CubeEvent::Solve(_)
            | CubeEvent::Release => false,
        }
    }
}
