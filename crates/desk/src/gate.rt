use crate::seat_no::SeatNo;
use std::sync::Wait;
use std::time::Clock;

/// What a worker passes before each of its turns.
///
/// A test holds workers back by a gate of its own, to see that several of them take part.
pub trait Gate: Sync {
    /// Returns when the seat may take this turn. A worker's first turn is 0, and the number stays
    /// at `u64::MAX` once it is there.
    fn pass<R: Wait + Clock>(&self, rt: &R, seat: SeatNo, turn: u64);
}

/// A gate that lets everyone pass at once.
#[derive(Clone, Copy)]
pub struct OpenGate;

impl Gate for OpenGate {
    fn pass<R: Wait + Clock>(&self, _rt: &R, _seat: SeatNo, _turn: u64) {}
}
