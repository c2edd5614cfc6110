//! Why a part of a log has no order of the level at which it was judged: in lines, or as a graph, in
//! the names and the lines of the whole log.
//!
//! Called by `audit_command`. It knows no report and no object.
//!
//! At serializability it says what `explain` says of a decision about the part. At levels of points it
//! tells a refutation by points, and below prefix evidence; both are checked before they are told.
//! Else it says that a search shows it. If a weaker level has another name for it, that is told.
#![tactic(auto)]

mod apart;
mod crossed;
mod drawing;
mod explaining;
mod overlooked;
mod own;
mod serial;
mod shown;
mod snapshots;
mod timed;
mod weaker;
mod whys;

pub use apart::is_serial_apart;
pub use drawing::draw_where;
pub use explaining::Explained;
pub use whys::explain_part;
