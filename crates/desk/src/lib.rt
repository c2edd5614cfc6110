//! One lock, one history: a machine that several threads call, and what each of them may know.
//!
//! Called by every crate with a machine: `gather`, `prune_ledger`, `cube_machine`,
//! `branch_search`; and by the commands for gates and numbers of workers. It knows no machine, no
//! log and no graph.
//!
//! A `Machine` is a state that takes one event at a time and answers it. A `Desk` holds one behind
//! a lock, together with the history of all steps so far, and hands out numbered seats, one for
//! each worker thread.
//!
//! ```text
//! let opened = Opened::new(alloc, machine, workers)?;
//! let (desk, seats) = Desk::<M, J>::open(alloc, opened)?;    // in a function generic in J: Naming
//! let reply = desk.call(rt, &mut seat, event)?;              // by each seat's thread, many times
//! let (reply, left) = desk.leave(rt, seat, event);           // by each seat's thread, once
//! let Closed { machine, history } = desk.close(lefts)?;      // when every seat has left
//! ```
//!
//! # What is promised
//!
//! It is proved once, for every machine, every number of seats and every schedule:
//!
//! - Whenever the lock is free, the machine's state is what the stored history leads to.
//! - `call` and `leave` add the event and its reply to the seat's list of calls, once, at its end,
//!   and the reply is the machine's own in a state that a legal history reaches. A call steps only
//!   in a state in which it does not wait. An event that finds no memory comes back.
//! - `close` answers exactly where every seat has left. Its history is legal from the state with
//!   which the desk was opened, each seat's part of it is that seat's list, and the machine is its
//!   replay. Else it names the least missing seat, and hands everything back.
//!
//! Nothing is promised of time: not that a call returns, nor that a waiting call wakes up, nor in
//! which order the calls of two seats are made. Tests look at the waiting.
//!
//! How a thread's proof can know this, and what room a seat keeps for its last call: docs/DESK.md.
#![tactic(auto)]

mod account;
pub mod desk;
pub mod gate;
mod guarded;
pub mod history;
pub mod laws;
pub mod machine;
pub mod naming;
pub mod opened;
mod row;
pub mod seat;
pub mod seat_no;

pub use desk::{Closed, Desk, NotAll};
pub use gate::{Gate, OpenGate};
pub use history::Entry;
pub use machine::Machine;
pub use naming::Naming;
pub use opened::Opened;
pub use seat::{Left, Seat};
pub use seat_no::{SeatNo, Workers};
