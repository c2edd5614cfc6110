ghost use Rattle.std.specs.Prelude.{◌≡◌, ℕ, ◌+◌, ◌<◌, ◌^◌, Some};

use desk::desk::{Desk, NotAll};
use desk::history::Entry;
use desk::laws;
use desk::machine::Machine;
use desk::naming::Naming;
use desk::opened::Opened;
use desk::seat::{Left, Seat};
use desk::seat_no::{SeatNo, Workers};
use std::alloc::Global;
use std::marker::Brand;
use std::process::Abort;
use std::sync::Wait;
use std::test::*;
use std::thread;
use std::thread::{Threads, join};
use std::time::{Clock, Duration};

/// A sum that wraps. An event is answered with the sum before it.
#[derive(Drop)]
struct Adder {
    sum: u64,
}

/// Adds an amount, once the sum is large enough.
#[derive(Clone, Copy)]
struct Amount {
    amount: u64,
    at_least: u64,
}

impl Machine for Adder {
    ghost use Rattle.std.specs.Prelude.{ℕ, ◌+◌, ◌%◌, ◌^◌, nat_lt};

    type Event = Amount;

    type Reply = u64;

    ghost next = { λ s seat e. record { sum = (s.sum + e.amount) % 2 ^ 64 } };

    ghost reply_at = { λ s seat e. s.sum };

    ghost valid = { λ s. Unit {0} };

    ghost waits_at = { λ s seat e. nat_lt s.sum e.at_least };

    fn step(&mut self, _seat: SeatNo, event: &Amount) -> u64 {
        let before = self.sum;
        self.sum = before.wrapping_add(event.amount);
        before
    }

    fn waits(&self, _seat: SeatNo, event: &Amount) -> bool {
        self.sum < event.at_least
    }

    ghost keeps = { λ s seat e v. tt };
}

#[test]
fn two_threads_make_one_history(rt: HostRuntime) -> Result<(), Fail> {
    let workers = Workers::new(2).ok_or("two workers")?;
    let opened = Opened::new(rt.alloc(), Adder { sum: 5 }, workers)?;
    add_together::<Brand, _>(&rt, rt.alloc(), opened);
    laws::valid_after_every_history::<Adder>();
    Ok(())
}

/// Seat 2 calls at once and has to wait for a sum of 8, which seat 1 makes a little later.
fn add_together<J: Naming + Send + Sync, R: Threads + Wait + Clock + Abort + Sync>(
    rt: &R,
    alloc: Global,
    opened: Opened<Adder>,
)
    requires names { J.names ≡ opened.names }
    requires desk { J.desk ≡ opened.desk }
{
    let (desk, mut seats) = Desk::<Adder, J>::open(alloc, opened).expect(rt, "memory");
    let second = seats.pop().expect(rt, "seat 2");
    let first = seats.pop().expect(rt, "seat 1");
    let (first, second) = join(
        rt,
        || {
            thread::sleep(rt, Duration::from_millis(50));
            add_often(rt, &desk, first, 3, 0)
        },
        || add_often(rt, &desk, second, 4, 8),
    );
    let lefts = Vec::from_array(alloc, [first, second]).expect(rt, "memory");
    let closed = desk.close(lefts).ok().expect(rt, "all have left");
    assert_eq!(rt; closed.history.len(), 202);
    assert_eq!(rt; closed.machine.sum, 5 + 101 * 3 + 101 * 4);
    assert_eq!(rt; sum_after(rt, 5, &closed.history), closed.machine.sum);
}

/// A hundred calls, and a last one, which does not wait.
fn add_often<J: Naming, R: Wait + Abort>(
    rt: &R,
    desk: &Desk<Adder, J>,
    mut seat: Seat<Adder, J>,
    amount: u64,
    at_least: u64,
) -> Left<Adder, J> {
    for _ in 0..100 {
        add(rt, desk, &mut seat, amount, at_least);
    }
    leave(rt, desk, seat, amount)
}

/// The sum after a history, each of whose replies is the sum before it, for which the call did not
/// have to wait.
fn sum_after(rt: &impl Abort, opening: u64, history: &[Entry<Amount, u64>]) -> u64 {
    let mut sum = opening;
    for entry in history {
        assert_eq!(rt; entry.reply, sum);
        assert!(rt; entry.event.at_least <= sum || entry.event.at_least == u64::MAX);
        sum = sum.wrapping_add(entry.event.amount);
    }
    sum
}

#[test]
fn close_names_the_missing_seat(rt: HostRuntime) -> Result<(), Fail> {
    let workers = Workers::new(3).ok_or("three workers")?;
    let opened = Opened::new(rt.alloc(), Adder { sum: 0 }, workers)?;
    close_too_early::<Brand, _>(&rt, rt.alloc(), opened);
    Ok(())
}

fn close_too_early<J: Naming, R: Wait + Abort>(rt: &R, alloc: Global, opened: Opened<Adder>)
    requires names { J.names ≡ opened.names }
    requires desk { J.desk ≡ opened.desk }
{
    let (desk, mut seats) = Desk::<Adder, J>::open(alloc, opened).expect(rt, "memory");
    let third = seats.pop().expect(rt, "seat 3");
    let second = seats.pop().expect(rt, "seat 2");
    let first = seats.pop().expect(rt, "seat 1");
    let first = leave(rt, &desk, first, 20);
    let third = leave(rt, &desk, third, 10);
    let lefts = Vec::from_array(alloc, [third, first]).expect(rt, "memory");
    let NotAll {
        missing,
        desk,
        mut lefts,
    } = desk.close(lefts).err().expect(rt, "seat 2 is still there");
    assert_eq!(rt; (missing.get(), lefts.len()), (2, 2));
    lefts
        .push(leave(rt, &desk, second, 40))
        .expect(rt, "memory");
    let closed = desk.close(lefts).ok().expect(rt, "all have left");
    assert_eq!(rt; sum_after(rt, 0, &closed.history), 70);
    let seats = closed.history.iter().map(|entry| entry.seat.get());
    assert!(rt; seats.eq([1, 3, 2]));
}

/// An event that was refused for memory comes back, and is sent again.
fn add<J: Naming, R: Wait + Abort>(
    rt: &R,
    desk: &Desk<Adder, J>,
    seat: &mut Seat<Adder, J>,
    amount: u64,
    at_least: u64,
) -> u64 {
    match desk.call(rt, seat, Amount { amount, at_least }) {
        Ok(before) => before,
        Err((event, _)) => desk.call(rt, seat, event).ok().expect(rt, "memory"),
    }
}

/// The last call does not wait for the sum.
fn leave<J: Naming, R: Wait>(
    rt: &R,
    desk: &Desk<Adder, J>,
    seat: Seat<Adder, J>,
    amount: u64,
) -> Left<Adder, J> {
    let event = Amount {
        amount,
        at_least: u64::MAX,
    };
    desk.leave(rt, seat, event).1
}
