//! The history of a log: its committed and taken transactions as nodes, with numbered keys, who
//! wrote what and who read it from whom.
//!
//! Called by every crate that looks at the transactions of a log. It knows no graph, no command,
//! and not which anomaly a history has; an order is a list of nodes to it.
#![tactic(auto)]

mod count;
mod key_set;
mod line;
mod log;
mod names;
mod nodes;
mod numbers;
mod reads;
mod rows;
mod scan;
mod taken;
mod writes;

pub use count::{Counts, Tally};
pub use line::NodeLine;
pub use log::History;
pub use names::Name;
pub use nodes::is_node;
pub use reads::ReadFrom;
pub use serializability::{Anomaly, Event, NodeIx, ReadAnomaly};
pub use taken::taken_among;
pub use writes::Written;
