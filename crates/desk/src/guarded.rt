// What lies under a desk's lock.
ghost use Rattle.std.specs.Prelude.{◌≡◌, ℕ, ◌+◌, ◌-◌, ◌<◌, ◌≤◌, List, [], ◌∷◌, ◌++◌, false, true};
ghost use Rattle.std.specs.Prelude.{Some, IfOk, IfErr, vec_len, vec_capacity, slice_get, All};
ghost use Rattle.std.specs.Bool.{OnFalse};
ghost use Rattle.desk.specs.declared.history.Entry.{Entry};
ghost use Rattle.desk.specs.declared.row.SeatRow.{SeatRow};
ghost use Rattle.desk.specs.History.{entry, part_of, IsEntered, IsReached, opening_of};
ghost use Rattle.desk.specs.Rows.{AreTied, staying, names_of};
ghost use Rattle.desk.specs.Seats.{IsSeat};

use crate::account::{Account, Receipt, compare};
use crate::history::Entry;
use crate::machine::Machine;
use crate::naming::Naming;
use crate::row::SeatRow;
use crate::seat_no::SeatNo;
use std::alloc::AllocError;
use std::marker::{Model, PhantomData};

/// The machine, its history, and the half of each seat's list that the lock keeps.
/// Contracts see the machine, the history and the opening state.
#[derive(Drop)]
pub struct Guarded<M: Machine, J: Naming> {
    machine: M,
    history: Vec<Entry<M::Event, M::Reply>>,
    rows: Vec<SeatRow<M::Event, M::Reply>>,
    opening: Account<M, ()>,
    desk: PhantomData<J>,
}

impl<M: Machine, J: Naming> Model for Guarded<M, J> {
    ghost use Rattle.std.specs.Prelude.{◌≡◌, ◌+◌, ◌≤◌, vec_len, vec_capacity};
    ghost use Rattle.desk.specs.History.{IsReached, opening_of};
    ghost use Rattle.desk.specs.Rows.{AreTied, staying};
    ghost use Rattle.desk.specs.Views.{GuardedView};

    ghost Value = { GuardedView M M.Event M.Reply };

    ghost view = { λ g. record {
      machine = g.machine;
      history = g.history.items;
      opening = opening_of g.opening.calls;
    } };

    ghost invariant = { λ g.
        IsReached M.next M.reply_at (opening_of g.opening.calls) g.history.items g.machine
        × M.valid g.machine
        × AreTied J.names g.rows.items g.history.items
        × (vec_len g.history + staying g.rows.items ≤ vec_capacity g.history)
        × (g.opening.name ≡ J.desk) };
}

impl<M: Machine, J: Naming> Guarded<M, J> {
    /// A machine in its opening state.
    pub(crate) fn new(
        machine: M,
        history: Vec<Entry<M::Event, M::Reply>>,
        rows: Vec<SeatRow<M::Event, M::Reply>>,
        opening: Account<M, ()>,
    ) -> Guarded<M, J>
        requires valid { M.valid machine }
        requires opening { (opening_of opening.calls ≡ Some machine) × (opening.name ≡ J.desk) }
        requires empty { history.items ≡ [] }
        requires room { vec_len history + vec_len rows ≤ vec_capacity history }
        requires names { J.names ≡ names_of rows.items }
        requires calls { (k : ℕ) (x : SeatRow M.Event M.Reply) → slice_get rows.items k ≡ Some x
            → x.account.calls ≡ [] }
        ensures machine { result.machine ≡ machine }
        ensures history { result.history ≡ [] }
        ensures opening { result.opening ≡ Some machine }
    {
        Guarded {
            machine,
            history,
            rows,
            opening,
            desk: PhantomData,
        }
    }

    /// Whether a call waits.
    pub(crate) fn waits(&self, seat: SeatNo, event: &M::Event) -> bool
        ensures { result ≡ M.waits_at self.now.machine seat event.now }
    {
        self.machine.waits(seat, event)
    }

    /// One step of the machine, entered into the history and into the seat's list.
    /// For each seat that has not left a place in the history stays reserved.
    pub(crate) fn call(
        &mut self,
        seat: SeatNo,
        receipt: &mut Receipt<M::Event, M::Reply>,
        event: M::Event,
    ) -> Result<M::Reply, (M::Event, AllocError)>
        requires named { slice_get J.names (seat - 1) ≡ Some receipt.old.name }
        requires here { receipt.old.left ≡ false }
        ensures ok { IfOk result (λ r. receipt.new.calls ≡ receipt.old.calls ++ (event, r) ∷ []) }
        ensures err { IfErr result (λ e. (e.0 ≡ event) × (receipt.new ≡ receipt.old)
            × (self.new ≡ self.old)) }
        ensures receipt { (receipt.new.name ≡ receipt.old.name) × (receipt.new.left ≡ false) }
        ensures entered { IfOk result (λ r.
            IsEntered M.next M.reply_at (λ s. s ≡ self.old.machine)
            seat event r receipt.new.calls) }
    {
        let Guarded {
            machine,
            history,
            rows,
            opening: _,
            desk: _,
        } = self;
        if history.reserve(rows.len() + 1).is_err() {
            return Err((event, AllocError));
        }
        let reply = machine.step(seat, &event);
        enter::<M::Event, M::Reply, J>(history, rows, seat, receipt, event, reply, false);
        Ok(reply)
    }

    /// The last step of a seat, for which a place is reserved.
    pub(crate) fn leave(
        &mut self,
        seat: SeatNo,
        receipt: &mut Receipt<M::Event, M::Reply>,
        event: M::Event,
    ) -> M::Reply
        requires named { slice_get J.names (seat - 1) ≡ Some receipt.old.name }
        requires here { receipt.old.left ≡ false }
        ensures calls { receipt.new.calls ≡ receipt.old.calls ++ (event, result) ∷ [] }
        ensures receipt { (receipt.new.name ≡ receipt.old.name) × (receipt.new.left ≡ true) }
        ensures entered { IsEntered M.next M.reply_at (λ s. s ≡ self.old.machine)
            seat event result receipt.new.calls }
    {
        let Guarded {
            machine,
            history,
            rows,
            opening: _,
            desk: _,
        } = self;
        let reply = machine.step(seat, &event);
        enter::<M::Event, M::Reply, J>(history, rows, seat, receipt, event, reply, true);
        reply
    }

    /// Shows that the seat's list is its part of the history.
    pub(crate) fn compare(&mut self, seat: SeatNo, receipt: &mut Receipt<M::Event, M::Reply>)
        requires named { slice_get J.names (seat - 1) ≡ Some receipt.old.name }
        ensures part { part_of seat self.old.history ≡ receipt.old.calls }
        ensures same { self.new ≡ self.old }
        ensures receipt { receipt.new ≡ receipt.old }
    {
        let row = &mut self.rows[usize::from(seat.get()) - 1];
        row.compare(receipt);
    }

    /// The machine and its history, which is legal from the state that the desk was opened with.
    pub(crate) fn into_parts(
        self,
        mut opening: Receipt<M, ()>,
    ) -> (M, Vec<Entry<M::Event, M::Reply>>)
        requires { opening.name ≡ J.desk }
        ensures same { (result.0 ≡ self.machine) × (result.1.items ≡ self.history) }
        ensures legal { IsReached M.next M.reply_at (opening_of opening.calls)
            result.1.items result.0 }
        ensures seats { All (λ x. IsSeat J.names x.seat) result.1.items }
        ensures valid { M.valid result.0 }
    {
        let Guarded {
            machine,
            history,
            rows: _,
            opening: mut account,
            desk: _,
        } = self;
        compare(&mut account, &mut opening);
        (machine, history)
    }
}

/// Enters one step into the history, and into both halves of the seat's list.
fn enter<E, R: Copy, J: Naming>(
    history: &mut Vec<Entry<E, R>>,
    rows: &mut Vec<SeatRow<E, R>>,
    seat: SeatNo,
    receipt: &mut Receipt<E, R>,
    event: E,
    reply: R,
    last: bool,
)
    requires tied { AreTied J.names rows.old.items history.old.items }
    requires named { slice_get J.names (seat - 1) ≡ Some receipt.old.name }
    requires here { receipt.old.left ≡ false }
    requires room { vec_len history.old + staying rows.old.items ≤ vec_capacity history.old }
    requires more { OnFalse last
        (vec_len history.old + staying rows.old.items < vec_capacity history.old) }
    ensures tied { AreTied J.names rows.new.items history.new.items }
    ensures room { vec_len history.new + staying rows.new.items ≤ vec_capacity history.new }
    ensures history { history.new.items ≡ history.old.items ++ entry seat event reply ∷ [] }
    ensures receipt { (receipt.new.name ≡ receipt.old.name) × (receipt.new.left ≡ last)
        × (receipt.new.calls ≡ receipt.old.calls ++ (event, reply) ∷ []) }
    ensures part { part_of seat history.new.items ≡ receipt.new.calls }
{
    let row = &mut rows[usize::from(seat.get()) - 1];
    row.add(receipt, &event, &reply, last);
    history.push_reserved(Entry { seat, event, reply });
}
