//! The log of client sessions: what it holds, its text, and its faults.
//!
//! Called wherever a log is read, cut or printed, and by `session_history` and the crates that
//! tell for the operations of its sessions. It knows no node, no order and no file.
#![tactic(auto)]

mod block;
mod fault;
mod key;
mod key_bytes;
pub mod laws;
mod limits;
mod line;
mod parse;
mod print;
mod session;
mod short_bytes;
mod version;
mod words;

pub use block::{Block, cut, cut_within, parse_block};
pub use fault::{Limit, LogFault};
pub use key::Key;
pub use limits::{MAX_KEYS, MAX_LOG_BYTES, MAX_OPERATIONS, MAX_SESSIONS};
pub use line::Line;
pub use parse::parse_lines;
pub use print::print_log;
pub use session::{Op, Outcome, Session, Txn, is_earlier, line_count};
pub use version::Version;
pub use words::{all_digits, index_of, is_numeral, next_line, number_of, value_of};
