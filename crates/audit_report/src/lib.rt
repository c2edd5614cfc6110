//! What `audit` tells of a log, and how it is written: as text, as an object, as a graph below
//! comments, and into files beside it. Each text is exactly that of its definition.
//!
//! Called by `audit_command`; `cobra_calls` hands on its files, and `cobra_program` tells by an object
//! that a log could not be read. It judges nothing, and does not know why a part has no order.
#![tactic(auto)]

mod codes;
mod counts;
mod files;
mod graph;
mod lines;
mod object;
mod refusals;
mod report;
mod told;

pub use codes::is_kept;
pub use counts::{LogCounts, counts_of};
pub use files::{PartFile, order_file, part_file};
pub use graph::graph_text;
pub use object::{parts_of, report_object};
pub use refusals::{failure_object, refusal_object};
pub use report::report_text;
pub use told::{Answer, Lower, Told, ToldPart, ToldTxn, Totals, Word};
