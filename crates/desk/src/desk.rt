ghost use Rattle.std.specs.Prelude.{◌≡◌, ℕ, ◌+◌, ◌-◌, ◌<◌, ◌≤◌, List, [], ◌∷◌, ◌++◌, ⊤, All, IfOk};
ghost use Rattle.std.specs.Prelude.{IfErr, IfSome, IfNone, OnOk, length, slice_get, true, false};
ghost use Rattle.std.specs.Prelude.{Some, Option};
ghost use Rattle.std.specs.Sync.Mutex.{mutex_guard_value};
ghost use Rattle.desk.specs.History.{part_of, IsEntered, IsReached};
ghost use Rattle.desk.specs.Rows.{AreNamed};
ghost use Rattle.desk.specs.Seats.{has_seat, AreFresh, HasSeatsTo, IsLeastMissing, IsSeat};

use crate::account::Receipt;
use crate::guarded::Guarded;
use crate::history::Entry;
use crate::machine::Machine;
use crate::naming::Naming;
use crate::opened::Opened;
use crate::row::UnnamedSeat;
use crate::seat::{Left, Seat};
use crate::seat_no::{SeatNo, Workers};
use std::alloc::{AllocError, Global};
use std::hint::spin_loop;
use std::marker::{Model, PhantomData};
use std::sync::{Condvar, Mutex, MutexGuard, Wait};

/// A machine that several threads call, one at a time. Contracts see its opening state.
#[derive(Drop)]
pub struct Desk<M: Machine, J: Naming> {
    pub(crate) guarded: Mutex<Guarded<M, J>>,
    pub(crate) changed: Condvar,
    pub(crate) workers: Workers,
    pub(crate) opening: Receipt<M, ()>,
}

impl<M: Machine, J: Naming> Model for Desk<M, J> {
    ghost use Rattle.std.specs.Prelude.{◌≡◌, Option, length};
    ghost use Rattle.desk.specs.History.{opening_of};

    ghost Value = { Option M };

    ghost view = { λ d. opening_of d.opening.calls };

    ghost invariant = { λ d. (d.workers ≡ length J.names) × (d.opening.name ≡ J.desk) };
}

/// The machine of a closed desk, and the history that led to its state.
#[derive(Drop)]
pub struct Closed<M: Machine> {
    pub machine: M,
    pub history: Vec<Entry<M::Event, M::Reply>>,
}

/// A seat has not left. What was handed in comes back.
#[derive(Drop)]
pub struct NotAll<M: Machine, J: Naming> {
    /// The least number of such a seat.
    pub missing: SeatNo,
    pub desk: Desk<M, J>,
    pub lefts: Vec<Left<M, J>>,
}

/// How often a thread looks whether the lock is free before it sleeps.
const LOOKS: u32 = 16;

/// A rest of 2^looks turns, and of no more than 1,024.
fn rest(looks: u32) {
    for _ in 0..1u32 << looks.min(10) {
        spin_loop();
    }
}

impl<M: Machine, J: Naming> Desk<M, J> {
    /// Gives an opened desk its name, and hands out its seats, number 1 first.
    ///
    /// This is the second half of opening a desk; `Opened::new` is the first.
    pub fn open(
        alloc: Global,
        opened: Opened<M>,
    ) -> Result<(Desk<M, J>, Vec<Seat<M, J>>), AllocError>
        requires names { J.names ≡ opened.names }
        requires desk { J.desk ≡ opened.desk }
        ensures desk { IfOk result (λ r. r.0 ≡ Some opened.machine) }
        ensures seats { IfOk result (λ r. AreFresh r.1.items) }
        ensures count { IfOk result (λ r. length r.1.items ≡ length opened.names) }
    {
        let Opened {
            machine,
            history,
            rows,
            seats,
            workers,
            opening_account,
            opening_receipt,
        } = opened;
        let seats = named_seats(alloc, seats)?;
        let desk = Desk {
            guarded: Mutex::new(Guarded::new(machine, history, rows, opening_account)),
            changed: Condvar::new(),
            workers,
            opening: opening_receipt,
        };
        Ok((desk, seats))
    }

    /// Waits while the machine says so, and then makes one step of it.
    ///
    /// At `Err` nothing happened: the history found no memory for a further entry, and the event
    /// comes back.
    pub fn call<R: Wait>(
        &self,
        rt: &R,
        seat: &mut Seat<M, J>,
        event: M::Event,
    ) -> Result<M::Reply, (M::Event, AllocError)>
        ensures number { seat.new.number ≡ seat.old.number }
        ensures ok { IfOk result (λ r. seat.new.calls ≡ seat.old.calls ++ (event, r) ∷ []) }
        ensures err { IfErr result (λ e. (e.0 ≡ event) × (seat.new ≡ seat.old)) }
        // The step was made in a state in which the call does not wait.
        ensures entered { IfOk result (λ r.
            IsEntered M.next M.reply_at (λ s. M.waits_at s seat.old.number event ≡ false)
            seat.old.number event r seat.new.calls) }
    {
        let number = seat.number;
        let mut guarded = self.lock_for(rt, number, &event);
        let result = guarded.call(number, &mut seat.receipt, event);
        self.changed.notify_all();
        result
    }

    /// The lock, in a state in which a call with this event does not wait.
    fn lock_for<R: Wait>(
        &self,
        rt: &R,
        seat: SeatNo,
        event: &M::Event,
    ) -> MutexGuard<'_, Guarded<M, J>>
        ensures { M.waits_at (mutex_guard_value result).machine seat event.now ≡ false }
    {
        self.changed
            .wait_while(rt, self.locked(rt), |guarded| guarded.waits(seat, event))
    }

    /// The lock. A thread that finds it held looks again after rests, each twice as long as the one
    /// before, and sleeps only after the last: a step takes less time than putting a thread to
    /// sleep and waking it.
    fn locked<R: Wait>(&self, rt: &R) -> MutexGuard<'_, Guarded<M, J>> {
        for looks in 0..LOOKS {
            if let Some(guard) = self.guarded.try_lock() {
                return guard;
            }
            rest(looks);
        }
        self.guarded.lock(rt)
    }

    /// The seat's last call. It does not wait for the machine, and takes no memory.
    pub fn leave<R: Wait>(
        &self,
        rt: &R,
        seat: Seat<M, J>,
        event: M::Event,
    ) -> (M::Reply, Left<M, J>)
        ensures number { result.1.number ≡ seat.number }
        ensures calls { result.1.calls ≡ seat.calls ++ (event, result.0) ∷ [] }
        ensures entered { IsEntered M.next M.reply_at (λ s. ⊤) seat.number event result.0
            result.1.calls }
    {
        let Seat {
            number,
            mut receipt,
            desk: _,
        } = seat;
        let mut guarded = self.locked(rt);
        let reply = guarded.leave(number, &mut receipt, event);
        self.changed.notify_all();
        (
            reply,
            Left {
                number,
                receipt,
                desk: PhantomData,
            },
        )
    }

    /// The machine and its history, where every seat has left.
    pub fn close(self, lefts: Vec<Left<M, J>>) -> Result<Closed<M>, NotAll<M, J>>
        ensures all { OnOk result (HasSeatsTo (length J.names) lefts.items) }

        // The history is legal from the opening state, and the machine is its replay.
        ensures legal { IfOk result (λ c.
            IsReached M.next M.reply_at self c.history.items c.machine) }
        ensures parts { IfOk result (λ c.
            All (λ l. part_of l.number c.history.items ≡ l.calls) lefts.items) }
        ensures seats { IfOk result (λ c. All (λ x. IsSeat J.names x.seat) c.history.items) }
        ensures valid { IfOk result (λ c. M.valid c.machine) }

        ensures missing { IfErr result (λ e. IsSeat J.names e.missing) }
        ensures least { IfErr result (λ e. IsLeastMissing lefts.items e.missing) }
        ensures back { IfErr result (λ e. (e.lefts ≡ lefts) × (e.desk ≡ self)) }
    {
        if let Some(missing) = missing_seat(self.workers, &lefts) {
            return Err(NotAll {
                missing,
                desk: self,
                lefts,
            });
        }
        let Desk {
            guarded,
            changed: _,
            workers: _,
            opening,
        } = self;
        let guarded = compare_all(guarded.into_inner(), lefts);
        let (machine, history) = guarded.into_parts(opening);
        Ok(Closed { machine, history })
    }
}

/// The least number of a seat that has not left.
fn missing_seat<M: Machine, J: Naming>(workers: Workers, lefts: &[Left<M, J>]) -> Option<SeatNo>
    ensures none { IfNone result (HasSeatsTo workers lefts.now) }
    ensures some { IfSome result (λ m. (0 < m) × (m ≤ workers)) }
    ensures least { IfSome result (IsLeastMissing lefts.now) }
{
    for before in 0..workers.get() {
        let number = SeatNo::of(before + 1);
        if !has_left(lefts, number) {
            return Some(number);
        }
    }
    None
}

fn has_left<M: Machine, J: Naming>(lefts: &[Left<M, J>], number: SeatNo) -> bool
    ensures { result ≡ has_seat number lefts.now }
{
    lefts.iter().any(|left| left.number().get() == number.get())
}

/// Shows that each seat's list is its part of the history.
fn compare_all<M: Machine, J: Naming>(
    mut guarded: Guarded<M, J>,
    lefts: Vec<Left<M, J>>,
) -> Guarded<M, J>
    ensures same { result ≡ guarded }
    ensures parts { All (λ l. part_of l.number guarded.history ≡ l.calls) lefts.items }
{
    for left in lefts {
        guarded = compare_one(guarded, left);
    }
    guarded
}

fn compare_one<M: Machine, J: Naming>(mut guarded: Guarded<M, J>, left: Left<M, J>) -> Guarded<M, J>
    ensures same { result ≡ guarded }
    ensures part { part_of left.number guarded.history ≡ left.calls }
{
    let Left {
        number,
        mut receipt,
        desk: _,
    } = left;
    guarded.compare(number, &mut receipt);
    guarded
}

fn named_seats<M: Machine, J: Naming>(
    alloc: Global,
    unnamed: Vec<UnnamedSeat<M::Event, M::Reply>>,
) -> Result<Vec<Seat<M, J>>, AllocError>
    requires { AreNamed J.names unnamed.items }
    ensures { IfOk result (λ v. AreFresh v.items × (length v.items ≡ length unnamed.items)) }
{
    let mut seats = Vec::with_capacity(alloc, unnamed.len())?;
    for seat in unnamed {
        seats.push(named_seat(seat))?;
    }
    Ok(seats)
}

fn named_seat<M: Machine, J: Naming>(unnamed: UnnamedSeat<M::Event, M::Reply>) -> Seat<M, J>
    requires name { slice_get J.names (unnamed.number - 1) ≡ Some unnamed.receipt.name }
    requires here { unnamed.receipt.left ≡ false }
    ensures number { result.number ≡ unnamed.number }
    ensures calls { result.calls ≡ unnamed.receipt.calls }
{
    let UnnamedSeat { number, receipt } = unnamed;
    Seat {
        number,
        receipt,
        desk: PhantomData,
    }
}
