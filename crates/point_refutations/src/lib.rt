//! Refutations by points: why the snapshots and commits of a part's transactions have no order. One
//! is checked by a look at the places that it names, so that nothing is promised of who finds it.
//!
//! Called by `part_reasons` and `part_graphs`; cited by `point_proposals`, which finds refutations, and
//! by `tell_points`. It knows no split log, no text and no line.
//!
//! An edge leads from the commit of one transaction to the snapshot of another; or from the snapshot
//! of one that misses a write to the commit of the other. A step says which of two transactions that
//! write one key commits before the other takes its snapshot. Its definitions stand in `specs/`.
#![tactic(auto)]

mod edges;
mod needs;
mod refutation;
mod refuting;

pub use edges::{edge_from, edge_to, is_same_read, op_of};
pub use refutation::{
    Against, Both, Edge, Ending, Missed, Overwritten, PointAt, Refutation, Since, Step, Why,
};
pub use refuting::refutes;
