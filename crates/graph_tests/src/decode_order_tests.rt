use crate::logs::{IN_TURN, history_of};
use crate::node::node;
use decode_order::{ReplayFault, replay};
use serializability::NodeIx;
use session_history::{History, NodeLine};
use std::alloc::Global;
use std::process::Abort;

/// The order of these nodes has this fault.
fn refuses(
    rt: &impl Abort,
    alloc: Global,
    history: &History,
    nodes: [NodeIx; 3],
    fault: ReplayFault,
) {
    let order = NodeLine::from_nodes(Vec::from_array(alloc, nodes).expect(rt, "memory"));
    assert_eq!(rt; replay(alloc, history, &order), Err(fault));
}

/// Moments are looked at before reads, and the first listed node is named that stands before one
/// that ended before it began.
#[test]
fn replayed_orders(rt: HostRuntime) {
    let rt = &rt;
    let alloc = rt.alloc();
    let history = history_of(rt, alloc, IN_TURN);
    let (one, two, three) = (node(rt, 1), node(rt, 2), node(rt, 3));
    let late_one = ReplayFault::MomentOrder { node: two };
    refuses(rt, alloc, &history, [two, one, three], late_one);
    let late_two = ReplayFault::MomentOrder { node: three };
    refuses(rt, alloc, &history, [one, three, two], late_two);
    let unread = ReplayFault::ReadMismatch { node: three, op: 1 };
    refuses(rt, alloc, &history, [one, two, three], unread);
}
