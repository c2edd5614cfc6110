ghost use Rattle.std.specs.Prelude.{◌≡◌, ℕ, ◌+◌, ◌≤◌, List, [], ◌∷◌, length, vec_len, vec_capacity};
ghost use Rattle.std.specs.Prelude.{IfOk, OnOk};
ghost use Rattle.desk.specs.Rows.{AreSeated, names_of};
ghost use Rattle.desk.specs.Views.{OpenedView};

use crate::account::{Account, Receipt, add, pair};
use crate::history::Entry;
use crate::machine::Machine;
use crate::row::{SeatRow, UnnamedSeat};
use crate::seat_no::{SeatNo, Workers};
use std::alloc::{AllocError, Global};
use std::marker::Model;

/// A desk and its seats, before the desk has a name.
///
/// Contracts see the opening state of the machine, the ghost names of the seats, and the ghost name
/// of that state.
#[derive(Drop)]
pub struct Opened<M: Machine> {
    pub(crate) machine: M,
    pub(crate) history: Vec<Entry<M::Event, M::Reply>>,
    pub(crate) rows: Vec<SeatRow<M::Event, M::Reply>>,
    pub(crate) seats: Vec<UnnamedSeat<M::Event, M::Reply>>,
    pub(crate) workers: Workers,
    pub(crate) opening_account: Account<M, ()>,
    pub(crate) opening_receipt: Receipt<M, ()>,
}

impl<M: Machine> Model for Opened<M> {
    ghost Value = { OpenedView M };

    ghost view = { λ o. record {
      machine = o.machine;
      names = names_of o.rows.items;
      desk = o.opening_account.name;
    } };

    ghost invariant = { λ o. M.valid o.machine
        × (o.history.items ≡ [])
        × (vec_len o.history + vec_len o.rows ≤ vec_capacity o.history)
        × AreSeated o.rows.items o.seats.items
        × (o.workers ≡ vec_len o.rows)
        × (o.opening_receipt.name ≡ o.opening_account.name)
        × (o.opening_account.calls ≡ (o.machine, tt) ∷ [])
        × (o.opening_receipt.calls ≡ (o.machine, tt) ∷ []) };
}

impl<M: Machine> Opened<M> {
    /// A machine in its opening state, an empty history, and as many seats as workers.
    ///
    /// This is the first half of opening a desk; `Desk::open` is the second.
    pub fn new(alloc: Global, machine: M, workers: Workers) -> Result<Opened<M>, AllocError>
        requires { M.valid machine }
        ensures machine { IfOk result (λ o. o.machine ≡ machine) }
        ensures seats { IfOk result (λ o. length o.names ≡ workers) }
    {
        let history = Vec::with_capacity(alloc, usize::from(workers.get()))?;
        let (rows, seats) = halves(alloc, workers)?;
        let (mut opening_account, mut opening_receipt) = pair();
        add(
            &mut opening_account,
            &mut opening_receipt,
            &machine,
            &(),
            false,
        );
        Ok(Opened {
            machine,
            history,
            rows,
            seats,
            workers,
            opening_account,
            opening_receipt,
        })
    }
}

/// The two halves of each seat's list.
fn halves<E, R>(
    alloc: Global,
    workers: Workers,
) -> Result<(Vec<SeatRow<E, R>>, Vec<UnnamedSeat<E, R>>), AllocError>
    ensures { IfOk result (λ r. AreSeated r.0.items r.1.items × (vec_len r.0 ≡ workers)) }
{
    let count = usize::from(workers.get());
    let mut rows = Vec::with_capacity(alloc, count)?;
    let mut seats = Vec::with_capacity(alloc, count)?;
    for before in 0..workers.get() {
        add_seat(&mut rows, &mut seats, SeatNo::of(before + 1))?;
    }
    Ok((rows, seats))
}

fn add_seat<E, R>(
    rows: &mut Vec<SeatRow<E, R>>,
    seats: &mut Vec<UnnamedSeat<E, R>>,
    number: SeatNo,
) -> Result<(), AllocError>
    requires seated { AreSeated rows.old.items seats.old.items }
    requires number { number ≡ vec_len rows.old + 1 }
    ensures seated { OnOk result (AreSeated rows.new.items seats.new.items) }
    ensures count { OnOk result (vec_len rows.new ≡ vec_len rows.old + 1) }
{
    let (account, receipt) = pair();
    rows.push(SeatRow {
        left: false,
        account,
    })?;
    seats.push(UnnamedSeat { number, receipt })?;
    Ok(())
}
