//! The sessions of a log, read by several threads at once.
//!
//! Called by `cobra_formulas`, where a log is read into its history. It knows no history, and no
//! node.
//!
//! A log is cut into blocks, one for each session. A `GatherMachine` behind a desk hands them out;
//! each worker takes a block, reads it outside the lock, and puts what it read. The desk's history
//! keeps what was put, and `collect` puts it together in log order.
//!
//! ```text
//! let (version, sessions) = collect(rt, alloc, log, workers, &OpenGate)?;
//! ```
//!
//! # What is promised
//!
//! For every schedule and every number of workers, `collect` answers what one thread that reads
//! block after block does: the log's version and the one list of sessions whose text in it the log
//! is, or the log's first fault of size or grammar. A faulty block stops no other one; the first in
//! log order decides. Memory may be wanting in place of any answer, as where a worker left before
//! it had put its block.
//!
//! # Why it holds
//!
//! What a worker puts is a `Parsed`, whose type keeps that its outcome is that of reading its own
//! bytes in its own version. The machine keeps it only for a block of this version with these bytes
//! and this first line. So each piece that a legal history of the machine kept for a block is that
//! block, read (`laws`), whoever sent it; and the history of a closed desk is legal.
#![tactic(auto)]

mod collecting;
pub mod laws;
mod machine;
mod messages;
mod parsed;
mod rules;
mod worker;

pub use collecting::collect;
pub use machine::GatherMachine;
pub use messages::{BlockState, GatherEvent, GatherReply};
pub use parsed::{Parsed, parse_piece};
