//! Long logs, read by several threads at once.
//!
//! Called by `audit_command`, `split_command` and `census_command`. It knows no history and no verdict.
//!
//! A log is cut into blocks, one for each session. Each worker gets some that follow one another,
//! about an equal share of the bytes, and reads them in a thread of its own; what they read is put
//! together in log order. No thread asks another one for anything, and there is no queue, so that
//! many sessions cost no more than few.
//!
//! ```text
//! let (version, sessions) = read_long_log(rt, alloc, log, workers)?;
//! ```
//!
//! # What is promised
//!
//! Exactly the long logs are read, as the sessions whose text in the log's version they are; every
//! other text is refused with its first fault: its size, else the first fault of the grammar by
//! line, else the first session number that stood before, else the first identity that was written
//! before. `Memory` may come in place of any answer.
//!
//! Reading takes time in proportion to the text; the numbers and identities are sorted besides.
//! Whatever keys, identities, numbers and sizes a log has, it takes no longer. An operation takes
//! 32 bytes of memory, and 80 more where its key has more than 14 bytes.
#![tactic(auto)]

mod blocks;
mod reading;
mod repeats;
mod shares;
mod stated;

pub use reading::read_long_log;
