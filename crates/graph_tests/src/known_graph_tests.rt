use crate::logs::{IN_TURN, READ_BEFORE_WRITTEN, clean, history_of};
use crate::node::{join, node};
use known_graph::Known;
use serializability::NodeIx;
use std::alloc::Global;
use std::process::Abort;
use std::sync::Wait;
use std::thread::Threads;
use std::time::Clock;

/// As in turn, where the third begins at the moment at which the second ends.
const AT_ONCE: &str =
    "log 3\nsession 1\nbegin 1\nw x 1\ncommit 2\nsession 2\nbegin 3\nw x 2\ncommit 4\n\
    session 3\nbegin 4\nr x 1\ncommit 6\n";

/// The arcs of a log without an anomaly.
fn arcs<R: Threads + Wait + Clock + Abort + Sync>(rt: &R, alloc: Global, log: &str) -> Known {
    Known::of(alloc, &clean(rt, alloc, log)).expect(rt, "memory")
}

fn see_edges(rt: &impl Abort, alloc: Global, known: &Known, want: &[(usize, usize)]) {
    let edges = known.edges(alloc).expect(rt, "memory");
    assert_eq!(rt; edges.len(), want.len());
    for (edge, ends) in edges.iter().zip(want) {
        assert_eq!(rt; (edge.source().get(), edge.target().get()), *ends);
    }
}

fn see_arcs<R: Threads + Wait + Clock + Abort + Sync>(
    rt: &R,
    alloc: Global,
    log: &str,
    want: &[(usize, usize)],
) {
    see_edges(rt, alloc, &arcs(rt, alloc, log), want);
}

#[test]
fn arcs_of_logs(rt: HostRuntime) {
    let rt = &rt;
    let alloc = rt.alloc();
    let want = [(0, 1), (0, 2), (1, 2), (2, 1)];
    see_arcs(rt, alloc, READ_BEFORE_WRITTEN, &want);
    let want = [(0, 1), (0, 2), (0, 3), (1, 2), (1, 3), (2, 3)];
    see_arcs(rt, alloc, IN_TURN, &want);
    let want = [(0, 1), (0, 2), (0, 3), (1, 2), (1, 3)];
    see_arcs(rt, alloc, AT_ONCE, &want);
}

#[test]
fn cycle_of_a_log(rt: HostRuntime) {
    let known = arcs(&rt, rt.alloc(), READ_BEFORE_WRITTEN);
    let want = [node(&rt, 1), node(&rt, 2), node(&rt, 1)];
    assert_eq!(rt; cycle(&rt, rt.alloc(), &known).as_slice(), want.as_slice());
}

fn see_moment(rt: &impl Abort, moment: Option<u64>, want: Option<u64>) {
    assert_eq!(rt; moment, want);
}

#[test]
fn moments_of_nodes(rt: HostRuntime) {
    let rt = &rt;
    let history = history_of(rt, rt.alloc(), IN_TURN);
    see_moment(rt, history.begun_of(node(rt, 2)), Some(3));
    see_moment(rt, history.ended_of(node(rt, 2)), Some(4));
    see_moment(rt, history.begun_of(node(rt, 0)), None);
}

/// The cycle that is found, or nothing.
fn cycle(rt: &impl Abort, alloc: Global, known: &Known) -> Vec<NodeIx> {
    match known.find_cycle(alloc).expect(rt, "memory") {
        Some(line) => line,
        None => Vec::new(alloc),
    }
}

/// The walk that is found, or nothing.
fn walk(rt: &impl Abort, alloc: Global, known: &Known, u: NodeIx, v: NodeIx) -> Vec<NodeIx> {
    assert!(rt; u.get() <= known.nodes() && v.get() <= known.nodes());
    match known.walk(alloc, u, v).expect(rt, "memory") {
        Some(line) => line,
        None => Vec::new(alloc),
    }
}

fn longer(rt: &impl Abort, line: &Vec<NodeIx>, next: NodeIx) -> Vec<NodeIx> {
    let mut whole = line.clone().expect(rt, "memory");
    whole.push(next).expect(rt, "memory");
    whole
}

/// The walk that the rule names: with the fewest edges, the lexicographically least, found among
/// all walks through nodes 0 to 3; nothing where there is none.
fn least_walk(rt: &impl Abort, alloc: Global, known: &Known, u: NodeIx, v: NodeIx) -> Vec<NodeIx> {
    let first = vec![in alloc; u].expect(rt, "memory");
    let mut lines = vec![in alloc; first].expect(rt, "memory");
    for _ in 0..4 {
        let mut more = Vec::new(alloc);
        for line in &lines {
            let whole = longer(rt, line, v);
            if known.check_walk(&whole) {
                return whole;
            }
            for next in 0..4 {
                let extended = longer(rt, line, node(rt, next));
                if known.check_walk(&extended) {
                    more.push(extended).expect(rt, "memory");
                }
            }
        }
        lines = more;
    }
    Vec::new(alloc)
}

/// The cycle that the rule names: of the least node that lies on one, the least walk.
fn least_cycle(rt: &impl Abort, alloc: Global, known: &Known) -> Vec<NodeIx> {
    for start in 0..4 {
        let line = least_walk(rt, alloc, known, node(rt, start), node(rt, start));
        if !line.is_empty() {
            return line;
        }
    }
    Vec::new(alloc)
}

/// A graph of nodes 0 to 3, of which each bit of the code is an edge.
fn coded(rt: &impl Abort, alloc: Global, code: u32) -> Known {
    let mut known = Known::new(alloc, 3).expect(rt, "memory");
    let mut rest = code;
    for u in 1..4 {
        for v in 0..4 {
            if rest % 2 == 1 {
                join(rt, &mut known, u, v);
            }
            rest /= 2;
        }
    }
    known
}

fn see_cycle(rt: &impl Abort, alloc: Global, known: &Known, code: u32) {
    let least = least_cycle(rt, alloc, known);
    let found = cycle(rt, alloc, known);
    assert_eq!(rt; found.as_slice(), least.as_slice(), "{code}");
}

/// The walk from node 1 to this one.
fn see_walk(rt: &impl Abort, alloc: Global, known: &Known, v: usize, code: u32) {
    let (first, last) = (node(rt, 1), node(rt, v));
    let least = least_walk(rt, alloc, known, first, last);
    let found = walk(rt, alloc, known, first, last);
    assert_eq!(rt; found.as_slice(), least.as_slice(), "{code} {v}");
}

#[test]
fn cycle_and_walks_by_the_rule(rt: HostRuntime) {
    let rt = &rt;
    let alloc = rt.alloc();
    for code in 0..4096 {
        let known = coded(rt, alloc, code);
        see_cycle(rt, alloc, &known, code);
        for v in 0..4 {
            see_walk(rt, alloc, &known, v, code);
        }
    }
}

/// A graph of 70 nodes with 60 edges more, from a fixed sequence of numbers.
fn scattered(rt: &impl Abort, alloc: Global, number: &mut u32) -> Known {
    let mut known = Known::new(alloc, 70).expect(rt, "memory");
    for _ in 0..60 {
        *number = number.wrapping_mul(1_664_525).wrapping_add(1_013_904_223);
        let (u, v) = (*number >> 8 & 63, *number >> 16 & 63);
        join(rt, &mut known, u as usize + 1, v as usize + 1);
    }
    known
}

/// The walk from the first node that reaches itself.
fn first_cycle(rt: &impl Abort, alloc: Global, known: &Known) -> Vec<NodeIx> {
    for v in 0..71 {
        let line = walk(rt, alloc, known, node(rt, v), node(rt, v));
        if !line.is_empty() {
            return line;
        }
    }
    Vec::new(alloc)
}

/// The least node that lies on a cycle is the first from which a walk leads back.
#[test]
fn cycles_of_larger_graphs(rt: HostRuntime) {
    let rt = &rt;
    let alloc = rt.alloc();
    let mut number = 1;
    let (mut some, mut none) = (false, false);
    for _ in 0..60 {
        let known = scattered(rt, alloc, &mut number);
        let first = first_cycle(rt, alloc, &known);
        assert_eq!(rt; cycle(rt, alloc, &known).as_slice(), first.as_slice());
        some = some || !first.is_empty();
        none = none || first.is_empty();
    }
    assert!(rt; some && none);
}
