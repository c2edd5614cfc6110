use crate::logs::workers;
use crate::node::{join, node};
use desk::gate::{Gate, OpenGate};
use desk::seat_no::SeatNo;
use known_graph::Known;
use reach_rows::Rows;
use std::alloc::Global;
use std::process::Abort;
use std::sync::Wait;
use std::sync::atomic::{AtomicBool, AtomicUsize, Ordering};
use std::thread;
use std::thread::Threads;
use std::time::{Clock, Duration};

fn join_rows(rt: &impl Abort, rows: &mut Rows, u: usize, v: usize) {
    let (u, v) = (node(rt, u), node(rt, v));
    assert!(rt; u.get() <= rows.nodes() && v.get() <= rows.nodes());
    rows.add_edge(u, v);
}

/// The arcs of six transactions: the first is read by the second, which writes before the fifth
/// reads; the third is read by the fourth, which the sixth reads. Node 0 stands before each.
fn arcs(rt: &impl Abort, alloc: Global) -> Known {
    let mut known = Known::new(alloc, 6).expect(rt, "memory");
    for (u, v) in [(1, 2), (3, 4), (2, 5), (4, 6)] {
        join(rt, &mut known, u, v);
    }
    known
}

/// The pairs of nodes of which the first reaches the second, as numbers of two digits; two nodes
/// more are asked.
fn pairs(rt: &impl Abort, alloc: Global, rows: &Rows) -> Vec<usize> {
    let mut found = Vec::new(alloc);
    for u in 0..9 {
        for v in 0..9 {
            if rows.reaches(node(rt, u), node(rt, v)) {
                found.push(u * 10 + v).expect(rt, "memory");
            }
        }
    }
    found
}

const OF_ARCS: [usize; 12] = [1, 2, 3, 4, 5, 6, 12, 15, 25, 34, 36, 46];

/// With an edge more, from 5 to 3.
const OF_ONE_MORE: [usize; 21] = [
    1, 2, 3, 4, 5, 6, 12, 13, 14, 15, 16, 23, 24, 25, 26, 34, 36, 46, 53, 54, 56,
];

/// These are the pairs, and none of a node with itself.
fn see_pairs(rt: &impl Abort, alloc: Global, rows: &Rows, want: &[usize]) {
    assert_eq!(rt; pairs(rt, alloc, rows).as_slice(), want);
    assert!(rt; !rows.has_cycle());
}

/// A cycle through all but node 0.
fn see_cyclic(rt: &impl Abort, alloc: Global, rows: &Rows) {
    assert_eq!(rt; pairs(rt, alloc, rows).len(), 42);
    assert!(rt; rows.has_cycle());
}

/// The rows of the arcs, and what two edges more make of them: the second closes a cycle through
/// all but node 0.
fn see_rows(rt: &impl Abort, alloc: Global, mut rows: Rows) {
    assert_eq!(rt; rows.nodes(), 6);
    see_pairs(rt, alloc, &rows, &OF_ARCS);
    let before = rows.copy(alloc).expect(rt, "memory");
    join_rows(rt, &mut rows, 5, 3);
    see_pairs(rt, alloc, &rows, &OF_ONE_MORE);
    join_rows(rt, &mut rows, 6, 1);
    see_cyclic(rt, alloc, &rows);
    see_pairs(rt, alloc, &before, &OF_ARCS);
}

/// The rows of a graph, by so many workers.
fn rows_by<R: Threads + Wait + Clock + Abort + Sync>(
    rt: &R,
    alloc: Global,
    known: &Known,
    count: u8,
    gate: &impl Gate,
) -> Rows {
    let rows = Rows::compute(rt, alloc, known, workers(rt, count), gate);
    rows.expect(rt, "memory")
}

#[test]
fn one_worker_or_several_see_the_same(rt: HostRuntime) {
    let alloc = rt.alloc();
    let known = arcs(&rt, alloc);
    for count in [1, 4, 16] {
        see_rows(&rt, alloc, rows_by(&rt, alloc, &known, count, &OpenGate));
    }
}

/// Seats 1 and 2 wait for each other before their first source.
#[derive(Drop)]
struct Meeting {
    first: AtomicBool,
    second: AtomicBool,
    missed: AtomicBool,
}

impl Meeting {
    /// Looks at most 10,000 times, a millisecond apart.
    fn wait_for<R: Clock>(&self, rt: &R, other: &AtomicBool) {
        for _ in 0..10_000 {
            if other.load(Ordering::SeqCst) {
                return;
            }
            thread::sleep(rt, Duration::from_millis(1));
        }
        self.missed.store(true, Ordering::SeqCst);
    }
}

impl Gate for Meeting {
    fn pass<R: Wait + Clock>(&self, rt: &R, seat: SeatNo, turn: u64) {
        match (seat.get(), turn) {
            (1, 0) => {
                self.first.store(true, Ordering::SeqCst);
                self.wait_for(rt, &self.second);
            }
            (2, 0) => {
                self.second.store(true, Ordering::SeqCst);
                self.wait_for(rt, &self.first);
            }
            _ => {}
        }
    }
}

fn gate_of_two() -> Meeting {
    Meeting {
        first: AtomicBool::new(false),
        second: AtomicBool::new(false),
        missed: AtomicBool::new(false),
    }
}

#[test]
fn two_workers_meet(rt: HostRuntime) {
    let alloc = rt.alloc();
    let known = arcs(&rt, alloc);
    for count in [2, 16] {
        let gate = gate_of_two();
        let rows = rows_by(&rt, alloc, &known, count, &gate);
        assert!(rt; !gate.missed.load(Ordering::SeqCst));
        see_rows(&rt, alloc, rows);
    }
}

/// How often each of two seats passes.
#[derive(Drop)]
struct Counted {
    first: AtomicUsize,
    second: AtomicUsize,
}

impl Gate for Counted {
    fn pass<R: Wait + Clock>(&self, _rt: &R, seat: SeatNo, _turn: u64) {
        let passes = if seat.get() == 1 {
            &self.first
        } else {
            &self.second
        };
        passes.fetch_add(1, Ordering::SeqCst);
    }
}

fn see_passes(rt: &impl Abort, passes: &AtomicUsize, want: usize) {
    assert_eq!(rt; passes.load(Ordering::SeqCst), want);
}

/// Node 0 has an edge to each other node, and these have none: so it is as much work as all of
/// them.
#[test]
fn two_workers_have_half_the_work_each(rt: HostRuntime) {
    let alloc = rt.alloc();
    let known = Known::new(alloc, 400).expect(&rt, "memory");
    let gate = Counted {
        first: AtomicUsize::new(0),
        second: AtomicUsize::new(0),
    };
    let rows = rows_by(&rt, alloc, &known, 2, &gate);
    see_passes(&rt, &gate.first, 1);
    see_passes(&rt, &gate.second, 400);
    assert!(rt; !rows.has_cycle());
}
