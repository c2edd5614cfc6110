//! The calls of the program, over bytes and sinks: what the command of a request tells of a log, and
//! why a call ends without an answer.
//!
//! Called by `cobra_program`; `cobra_poly` makes its worlds. It opens no file, and reads no word of the command line.
#![tactic(auto)]

mod answering;
mod audits;
mod calls;
mod censuses;
mod ending;
mod explains;
mod reading;
mod sources;
mod splits;
mod world;

pub use answering::{answer, tell_ending};
pub use audits::{audit_log, hand_on};
pub use calls::{is_plain, run_on};
pub use ending::{Ending, USAGE};
pub use reading::read_log;
pub use sources::read_up_to;
pub use splits::log_name;
pub use world::{Errors, Inputs, NewFiles, Outlet, Unread, World, failures_after, one_more};
