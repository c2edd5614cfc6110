//! How a command ends: its status, why it is refused, and what it has to write. Here are also the
//! texts of `check`, and where bytes come from.
//!
//! Called by `cobra_cli`, `audit_command`, `audit_report`, `refute_command`, `solve_command` and `cobra_poly`. It
//! knows no formula of a history, no search and no file.
#![tactic(auto)]

mod fault;
mod reply;
mod source;
mod status;
mod stop;
mod verdict;

pub use fault::Fault;
pub use reply::{Reply, tell};
pub use source::{CountedRead, ReadFault, Source, SourceFailed, read_all};
pub use status::Status;
pub use stop::Stop;
pub use verdict::{anomaly_text, cycle_text, read_title, serial_text, spent_text};
