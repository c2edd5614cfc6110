//! A gate with which both of two workers take part.

use desk::gate::Gate;
use desk::seat_no::SeatNo;
use std::sync::Wait;
use std::sync::atomic::{AtomicBool, AtomicU64, Ordering};
use std::thread;
use std::time::{Clock, Duration};

/// Holds a seat at its first turn 0 until the other has once come to a turn 1, and counts turns.
#[derive(Drop)]
pub struct Holding {
    held: u8,
    came: AtomicBool,
    missed: AtomicBool,
    held_turns: AtomicU64,
    free_turns: AtomicU64,
}

impl Gate for Holding {
    fn pass<R: Wait + Clock>(&self, rt: &R, seat: SeatNo, turn: u64) {
        if seat.get() == self.held {
            self.held_turns.fetch_add(1, Ordering::SeqCst);
            if turn == 0 {
                self.wait(rt);
            }
            return;
        }
        self.free_turns.fetch_add(1, Ordering::SeqCst);
        if turn == 1 {
            self.came.store(true, Ordering::SeqCst);
        }
    }
}

impl Holding {
    pub fn new(held: u8) -> Holding {
        Holding {
            held,
            came: AtomicBool::new(false),
            missed: AtomicBool::new(false),
            held_turns: AtomicU64::new(0),
            free_turns: AtomicU64::new(0),
        }
    }

    /// Looks at most 10,000 times, a millisecond apart.
    fn wait<R: Clock>(&self, rt: &R) {
        for _ in 0..10_000 {
            if self.came.load(Ordering::SeqCst) {
                return;
            }
            thread::sleep(rt, Duration::from_millis(1));
        }
        self.missed.store(true, Ordering::SeqCst);
    }

    /// Whether the other did not come while the seat was held.
    pub fn has_missed(&self) -> bool {
        self.missed.load(Ordering::SeqCst)
    }

    /// How many turns the seat that was held has begun.
    pub fn held_turns(&self) -> u64 {
        self.held_turns.load(Ordering::SeqCst)
    }

    /// How many turns the other one has begun.
    pub fn free_turns(&self) -> u64 {
        self.free_turns.load(Ordering::SeqCst)
    }
}
