//! Rows computed by several workers.

ghost use Rattle.std.specs.Prelude.{◌≡◌, ℕ, ◌+◌, ◌<◌, ◌≤◌, IfOk, length, slice_index_or};
ghost use Rattle.known_graph.specs.Bits.{row_len};
ghost use Rattle.reach_rows.specs.Parts.{ArePartStarts, IsPart};
ghost use Rattle.reach_rows.specs.Sources.{AreReachRows};

use crate::source::add_source;
use desk::gate::Gate;
use desk::seat_no::{SeatNo, Workers};
use known_graph::Known;
use known_graph::bits::row_len;
use serializability::NodeIx;
use serializability::numbers::node;
use std::alloc::{AllocError, Global};
use std::sync::Wait;
use std::thread;
use std::thread::Threads;
use std::time::Clock;

/// About how much work a source is: one, and one more for each of its edges.
fn work_of(known: &Known, source: NodeIx) -> usize
    requires node { source ≤ known.now.nodes }
    ensures few { result ≤ 1_100 }
{
    let _invariant = known.nodes();
    let mut work = 1;
    for word in known.row_words(source) {
        work += word.count_ones() as usize;
    }
    work
}

/// How much work all sources are.
fn whole_work(known: &Known) -> usize
    ensures few { result ≤ 1_101_100 }
{
    let mut work = 0;
    for source in 0..known.nodes() + 1 {
        work += work_of(known, node(source));
    }
    work
}

/// The first source, from one on, before which so much work lies, or one past the last; `before` is
/// the work that lies before the one, and then before the other.
fn source_after(known: &Known, from: usize, before: &mut usize, work: usize) -> usize
    requires from { from ≤ known.now.nodes + 1 }
    requires few { work ≤ 1_101_100 }
    ensures forth { from ≤ result }
    ensures within { result ≤ known.now.nodes + 1 }
{
    let mut source = from;
    while source <= known.nodes() && *before < work {
        *before += work_of(known, node(source));
        source += 1;
    }
    source
}

/// Where the sources of each worker begin, and in the end one past the last source. Each worker has
/// about the same work.
fn part_starts(alloc: Global, known: &Known, workers: usize) -> Result<Vec<usize>, AllocError>
    requires workers { (0 < workers) × (workers ≤ 16) }
    ensures starts { IfOk result (λ starts. ArePartStarts (known.now.nodes + 1) starts.items) }
    ensures len { IfOk result (λ starts. length starts.items ≡ workers + 1) }
{
    let whole = whole_work(known);
    let mut starts = Vec::with_capacity(alloc, workers + 1)?;
    starts.push(0)?;
    let mut start = 0;
    let mut before = 0;
    for worker in 1..workers {
        start = source_after(known, start, &mut before, whole * worker / workers);
        starts.push(start)?;
    }
    starts.push(known.nodes() + 1)?;
    Ok(starts)
}

/// The seat of a worker, where workers count from 0.
fn seat(worker: usize) -> SeatNo
    requires { worker < 16 }
    ensures { result ≡ worker + 1 }
{
    SeatNo::new(worker as u8 + 1).unwrap()
}

/// The rows of all nodes, one behind the other, computed by workers in threads of their own.
pub fn rows_by_workers<R: Threads + Wait + Clock + Sync, G: Gate>(
    rt: &R,
    alloc: Global,
    known: &Known,
    workers: Workers,
    gate: &G,
) -> Result<Vec<u64>, AllocError>
    ensures rows { IfOk result (λ words.
        AreReachRows known.now 0 (known.now.nodes + 1) words.items) }
{
    let count = usize::from(workers.get());
    let starts = part_starts(alloc, known, count)?;
    let starts = starts.as_slice();
    let part = |worker: usize| -> Result<Vec<u64>, AllocError>
        requires { (worker < 16) × (worker + 1 < length starts.now)
            × ArePartStarts (known.now.nodes + 1) starts.now }
        ensures { IfOk result (λ part. IsPart known.entry.now starts.entry.now worker part.items) }
    { part_rows(rt, alloc, known, starts, worker, gate) };
    let parts = thread::map_indices(rt, alloc, count, &part)?;
    joined(alloc, known, starts, parts)
}

/// What the workers computed, one behind the other.
fn joined(
    alloc: Global,
    known: &Known,
    starts: &[usize],
    parts: Vec<Result<Vec<u64>, AllocError>>,
) -> Result<Vec<u64>, AllocError>
    requires starts { ArePartStarts (known.now.nodes + 1) starts.now }
    requires count { length starts.now ≡ length parts.items + 1 }
    requires parts { (i : ℕ) (d : _) → i < length parts.items →
        IfOk (slice_index_or parts.items i d)
        (λ part. IsPart known.now starts.now i part.items) }
    ensures rows { IfOk result (λ words.
        AreReachRows known.now 0 (known.now.nodes + 1) words.items) }
{
    let nodes = known.nodes();
    let mut words = Vec::with_capacity(alloc, (nodes + 1) * row_len(nodes))?;
    for part in parts {
        words.extend_from_slice(&part?)?;
    }
    Ok(words)
}

/// The rows of a worker's sources, where workers count from 0. It passes the gate before each
/// source, and once where it has none.
fn part_rows<R: Wait + Clock, G: Gate>(
    rt: &R,
    alloc: Global,
    known: &Known,
    starts: &[usize],
    worker: usize,
    gate: &G,
) -> Result<Vec<u64>, AllocError>
    requires starts { ArePartStarts (known.now.nodes + 1) starts.now }
    requires worker { (worker < 16) × (worker + 1 < length starts.now) }
    ensures part { IfOk result (λ part. IsPart known.now starts.now worker part.items) }
{
    let (first, last) = (starts[worker], starts[worker + 1]);
    let seat = seat(worker);
    if first == last {
        gate.pass(rt, seat, 0);
    }
    let mut words = Vec::with_capacity(alloc, (last - first) * row_len(known.nodes()))?;
    for source in first..last {
        gate.pass(rt, seat, (source - first) as u64);
        add_source(known, node(source), &mut words)?;
    }
    Ok(words)
}
