ghost use Rattle.std.specs.Prelude.{◌≡◌, IfOk, IfSome};

use crate::logs::{TWO_CHAINS, WRITE_SKEW};
use anomalies::classify;
use cobra_cli::read_log;
use desk::{OpenGate, Workers};
use headline::laws::anomalies_decide;
use reach_laws::Edge;
use session_history::{History, NodeIx};
use std::alloc::{AllocError, Global};
use std::process::Abort;
use std::sync::Wait;
use std::thread::Threads;
use std::time::Clock;
use write_chains::{Chain, Chains, chains};

/// The chains of a history, or one that closes on itself; nothing where the history has an anomaly.
fn found<'a>(
    alloc: Global,
    history: &'a History,
) -> Result<Option<Result<Chains<'a>, Vec<NodeIx>>>, AllocError>
    ensures { IfOk result (λ found. IfSome found (λ some. IfOk some (λ c. c ≡ history.now))) }
{
    let _invariant = history.committed();
    if classify(alloc, history)?.is_some() {
        return Ok(None);
    }
    anomalies_decide();
    Ok(Some(chains(alloc, history)?))
}

/// The chains of a history without an anomaly in which none closes on itself.
fn chained<'a>(rt: &impl Abort, alloc: Global, history: &'a History) -> Chains<'a>
    ensures { result ≡ history.now }
{
    found(alloc, history)
        .expect(rt, "memory")
        .expect(rt, "the log has no anomaly")
        .expect(rt, "no chain closes on itself")
}

/// The chain of a history without an anomaly that closes on itself.
fn closed(rt: &impl Abort, alloc: Global, history: &History) -> Vec<NodeIx> {
    found(alloc, history)
        .expect(rt, "memory")
        .expect(rt, "the log has no anomaly")
        .err()
        .expect(rt, "a chain closes on itself")
}

/// The history of a log that is well-formed, read by two workers.
fn history_of<R: Threads + Wait + Clock + Sync + Abort>(
    rt: &R,
    alloc: Global,
    log: &str,
) -> History {
    let workers = Workers::new(2).expect(rt, "two workers are few");
    read_log(rt, alloc, log.as_bytes(), workers, &OpenGate).expect(rt, "the log is well-formed")
}

/// A chain has this head and this tail, whose one reader is this.
fn see_chain(rt: &impl Abort, chain: &Chain, head: usize, tail: usize, reader: usize) {
    assert_eq!(rt; (chain.head.get(), chain.tail.get()), (head, tail));
    let readers = chain.readers.iter().map(|node| node.get());
    assert!(rt; readers.eq([reader]));
}

const CLOSED: &str =
    "session 1\nbegin\nr x 2\nw x 1\ncommit\nsession 2\nbegin\nr x 1\nw x 2\ncommit\n";

/// A line leads from one of two nodes to the other and back.
fn see_closed(rt: &impl Abort, line: &[NodeIx]) {
    let one = NodeIx::new(1).expect(rt, "1 is few");
    let two = NodeIx::new(2).expect(rt, "2 is few");
    assert!(rt; line == [one, two, one].as_slice() || line == [two, one, two].as_slice());
}

#[test]
fn a_chain_that_closes_on_itself(rt: HostRuntime) {
    let rt = &rt;
    let history = history_of(rt, rt.alloc(), CLOSED);
    let line = closed(rt, rt.alloc(), &history);
    see_closed(rt, &line);
}

fn see_heads_and_tails(rt: &impl Abort, chains: &Chains<'_>) {
    assert_eq!(rt; chains.history().keys(), 1);
    let others = chains.chains_of(0);
    assert_eq!(rt; others.len(), 2);
    see_chain(rt, &others[0], 1, 2, 5);
    see_chain(rt, &others[1], 3, 4, 6);
    let initial = chains.initial_chain(0);
    assert_eq!(rt; initial.tail.get(), 0);
    assert_eq!(rt; initial.readers.len(), 0);
}

fn see_readers(rt: &impl Abort, chains: &Chains<'_>) {
    assert_eq!(rt; chains.history().keys(), 1);
    assert_eq!(rt; chains.history().committed(), 6);
    let two = NodeIx::new(2).expect(rt, "2 is few");
    assert_eq!(rt; chains.readers(0, two).len(), 1);
    assert_eq!(rt; chains.inner_edges().len(), 0);
}

#[test]
fn heads_tails_and_readers(rt: HostRuntime) {
    let rt = &rt;
    let history = history_of(rt, rt.alloc(), TWO_CHAINS);
    let chains = chained(rt, rt.alloc(), &history);
    see_heads_and_tails(rt, &chains);
    see_readers(rt, &chains);
}

fn see_edge(rt: &impl Abort, edge: &Edge, ends: (usize, usize)) {
    assert_eq!(rt; (edge.source().get(), edge.target().get()), ends);
}

/// Each reads what the other overwrites.
fn see_inner_edges(rt: &impl Abort, chains: &Chains<'_>) {
    let inner = chains.inner_edges();
    assert_eq!(rt; inner.len(), 2);
    see_edge(rt, &inner[0], (2, 1));
    see_edge(rt, &inner[1], (1, 2));
}

#[test]
fn inner_edges_of_write_skew(rt: HostRuntime) {
    let rt = &rt;
    let history = history_of(rt, rt.alloc(), WRITE_SKEW);
    let chains = chained(rt, rt.alloc(), &history);
    see_inner_edges(rt, &chains);
}
