//! What is told of evidence that is right, and its name at the level that it breaks.

use crate::reading::{earlier, op, places_of, reads, sessions_of, txn};
use level_laws::Level;
use level_refutations::{Edge, Evidence, Fault, Hop, OpAt, Overlooked, Why, refutes};
use std::alloc::Global;
use std::process::Abort;
use std::test::*;
use tell_evidence::{evidence_name, evidence_text};

/// A log, evidence that is right against a level of it, what is told of that, and its name.
fn tells(
    rt: &impl Abort,
    log: &str,
    alloc: Global,
    level: Level,
    evidence: &Evidence,
    text: &str,
    name: Option<&'static str>,
) {
    let sessions = sessions_of(rt, alloc, log);
    let places = places_of(rt, alloc, &sessions);
    assert!(rt; refutes(level, &sessions, evidence), "{log}");
    let told = evidence_text(alloc, &sessions, &places, evidence).expect(rt, "memory");
    assert_eq!(rt; told.as_slice(), text.as_bytes());
    assert_eq!(rt; evidence_name(level, evidence), name);
}

fn fault(read: OpAt, why: Why) -> Evidence {
    Evidence::Fault(Fault { read, why })
}

fn overlooked(rt: &impl Abort, alloc: Global, read: OpAt, write: OpAt, hops: &[Hop]) -> Overlooked {
    let path = hops.to_vec(alloc).expect(rt, "memory");
    Overlooked { read, write, path }
}

fn circle(rt: &impl Abort, alloc: Global, first: Edge, second: Edge) -> Evidence {
    let mut edges = Vec::new(alloc);
    edges.push(first).expect(rt, "memory");
    edges.push(second).expect(rt, "memory");
    Evidence::Circle(edges)
}

#[test]
fn faults(rt: HostRuntime) {
    let (rt, alloc) = (&rt, rt.alloc());
    let level = Level::ReadCommitted;
    tells(
        rt,
        "session 1\nbegin\nr x 5\ncommit\n",
        alloc,
        level,
        &fault(op(0, 0, 0), Why::Unwritten),
        "in short: 1.1 reads what nobody wrote\n\
        1.1 reads x 5 (line 3), which nobody wrote\n",
        None,
    );
    tells(
        rt,
        "session 3\nbegin\nw x 1\nr x 0\ncommit\n",
        alloc,
        level,
        &fault(op(0, 0, 1), Why::MissesOwn { write: 0 }),
        "in short: 3.1 does not read its own last write\n\
        3.1 reads x 0 (line 4), but wrote x 1 before (line 3)\n",
        Some("own write missed (internal)"),
    );
    tells(
        rt,
        "session 1\nbegin\nr x 1\nw x 1\ncommit\n",
        alloc,
        level,
        &fault(op(0, 0, 0), Why::OwnLater { write: 1 }),
        "in short: 1.1 reads what it writes itself only later\n\
        1.1 reads x 1 (line 3), which it writes itself only later (line 4)\n",
        Some("future read (internal)"),
    );
}

#[test]
fn faults_of_writers(rt: HostRuntime) {
    let (rt, alloc) = (&rt, rt.alloc());
    let level = Level::ReadCommitted;
    let (read, write) = (op(1, 0, 0), op(0, 0, 0));
    tells(
        rt,
        "session 1\nbegin\nw x 1\nabort\nsession 2\nbegin\nr x 1\ncommit\n",
        alloc,
        level,
        &fault(read, Why::Aborted { write }),
        "in short: 2.1 reads what 1.1 wrote, which did not commit\n\
        2.1 reads x 1 (line 7), which 1.1 wrote (line 3), and 1.1 was aborted (line 4)\n",
        Some("aborted read (G1a)"),
    );
    tells(
        rt,
        "session 1\nbegin\nw x 1\nw x 2\ncommit\nsession 2\nbegin\nr x 1\ncommit\n",
        alloc,
        level,
        &fault(read, Why::Overwritten { write, later: 1 }),
        "in short: 2.1 reads a version that its writer overwrote before committing\n\
        2.1 reads x 1 (line 8), which 1.1 wrote (line 3) and overwrote with 2 (line 4)\n",
        Some("intermediate read (G1b)"),
    );
}

/// A log, and evidence of a read that no level allows, whose reason is false.
fn refuses(rt: &impl Abort, log: &str, alloc: Global, read: OpAt, why: Why) {
    let sessions = sessions_of(rt, alloc, log);
    let evidence = fault(read, why);
    assert!(rt;
        !refutes(Level::ReadCommitted, &sessions, &evidence),
        "{log}"
    );
}

#[test]
fn false_reasons(rt: HostRuntime) {
    let (rt, alloc) = (&rt, rt.alloc());
    let log = "session 1\nbegin\nw x 7\nw x 8\nr x 7\ncommit\n";
    let (read, write) = (op(0, 0, 2), op(0, 0, 0));
    refuses(rt, log, alloc, read, Why::MissesOwn { write: 0 });
    refuses(rt, log, alloc, read, Why::Overwritten { write, later: 1 });
    tells(
        rt,
        log,
        alloc,
        Level::ReadCommitted,
        &fault(read, Why::MissesOwn { write: 1 }),
        "in short: 1.1 does not read its own last write\n\
        1.1 reads x 7 (line 5), but wrote x 8 before (line 4)\n",
        Some("own write missed (internal)"),
    );
    let log = "session 1\nbegin\nw y 4\nr y 0\ncommit\n";
    refuses(rt, log, alloc, op(0, 0, 1), Why::Unwritten);
    let log = "session 1\nbegin\nr y 4\nw y 4\nw y 5\ncommit\n";
    let (read, write) = (op(0, 0, 0), op(0, 0, 1));
    refuses(rt, log, alloc, read, Why::Overwritten { write, later: 2 });
}

#[test]
fn circles_of_known_hops(rt: HostRuntime) {
    let (rt, alloc) = (&rt, rt.alloc());
    let level = Level::ReadCommitted;
    let (one, two) = (txn(0, 0), txn(1, 0));
    let first = Edge::Known(reads(one, 1, two, 0));
    let second = Edge::Known(reads(two, 1, one, 0));
    tells(
        rt,
        "session 1\nbegin\nr y 2\nw x 1\ncommit\nsession 2\nbegin\nr x 1\nw y 2\ncommit\n",
        alloc,
        level,
        &circle(rt, alloc, first, second),
        "in short: by sessions and reads alone 1.1 comes before itself\n\
        2.1 reads x 1 (line 8), which 1.1 wrote (line 4)\n\
        1.1 reads y 2 (line 3), which 2.1 wrote (line 9)\n\
        so 1.1 comes before 2.1, and 2.1 comes before 1.1\n",
        Some("circular information flow (G1c)"),
    );
    let (one, two) = (txn(0, 0), txn(0, 1));
    let first = Edge::Known(earlier(one, two));
    let second = Edge::Known(reads(two, 0, one, 0));
    tells(
        rt,
        "session 1\nbegin\nr x 1\ncommit\nbegin\nw x 1\ncommit\n",
        alloc,
        level,
        &circle(rt, alloc, first, second),
        "in short: by sessions and reads alone 1.1 comes before itself\n\
        1.2 comes after 1.1 in session 1\n\
        1.1 reads x 1 (line 3), which 1.2 wrote (line 6)\n\
        so 1.1 comes before 1.2, and 1.2 comes before 1.1\n",
        Some("a read from the future (G1c-process)"),
    );
}

#[test]
fn circles_with_a_forced_edge(rt: HostRuntime) {
    let (rt, alloc) = (&rt, rt.alloc());
    let log = "session 1\nbegin\nw x 4\ncommit\nbegin\nw x 5\nw y 9\ncommit\n\
        session 2\nbegin\nr y 9\nr x 4\ncommit\n";
    let text = "in short: 2.1 sees 1.2, which wrote x, but reads the older x of 1.1\n\
        1.2 wrote x 5 (line 6)\n\
        2.1 reads y 9 (line 11), which 1.2 wrote (line 7)\n\
        2.1 reads x 4 (line 12), which 1.1 wrote (line 3)\n\
        so this level needs the x of 1.2 to be older than the x of 1.1\n\
        1.2 comes after 1.1 in session 1\n\
        so 1.2 comes before 1.1, and 1.1 comes before 1.2\n";
    let hops = [reads(txn(0, 1), 1, txn(1, 0), 0)];
    let first = Edge::Forced {
        overlooked: overlooked(rt, alloc, op(1, 0, 1), op(0, 1, 0), &hops),
        found: op(0, 0, 0),
    };
    let evidence = circle(rt, alloc, first, Edge::Known(earlier(txn(0, 0), txn(0, 1))));
    let name = Some("read skew by way of sessions (G-single-process)");
    tells(
        rt,
        log,
        alloc,
        Level::MonotonicAtomicView,
        &evidence,
        text,
        name,
    );
    tells(rt, log, alloc, Level::ReadAtomic, &evidence, text, name);
    let hops = [reads(txn(0, 1), 0, txn(1, 0), 0)];
    let first = Edge::Forced {
        overlooked: overlooked(rt, alloc, op(1, 0, 1), op(0, 1, 0), &hops),
        found: op(0, 0, 0),
    };
    tells(
        rt,
        "session 1\nbegin\nw x 4\ncommit\nbegin\nw x 5\ncommit\n\
        session 2\nbegin\nr x 5\nr x 4\ncommit\n",
        alloc,
        Level::MonotonicAtomicView,
        &circle(rt, alloc, first, Edge::Known(earlier(txn(0, 0), txn(0, 1)))),
        "in short: 2.1 reads two versions of x: that of 1.2, and the older one of 1.1\n\
        2.1 reads x 5 (line 10), which 1.2 wrote (line 6)\n\
        2.1 reads x 4 (line 11), which 1.1 wrote (line 3)\n\
        so this level needs the x of 1.2 to be older than the x of 1.1\n\
        1.2 comes after 1.1 in session 1\n\
        so 1.2 comes before 1.1, and 1.1 comes before 1.2\n",
        Some("non-repeatable read (internal)"),
    );
}

#[test]
fn initial_values(rt: HostRuntime) {
    let (rt, alloc) = (&rt, rt.alloc());
    let hops = [reads(txn(0, 0), 0, txn(1, 0), 0)];
    tells(
        rt,
        "session 1\nbegin\nw x 1\ncommit\nsession 2\nbegin\nr x 1\nr x 0\ncommit\n",
        alloc,
        Level::MonotonicAtomicView,
        &Evidence::Initial(overlooked(rt, alloc, op(1, 0, 1), op(0, 0, 0), &hops)),
        "in short: 2.1 sees 1.1, which wrote x, but reads the initial value of x\n\
        2.1 reads x 1 (line 7), which 1.1 wrote (line 3)\n\
        2.1 reads x 0 (line 8), the initial value\n\
        so 2.1 should read the x of 1.1 or a later one\n",
        Some("non-repeatable read (internal)"),
    );
    let hops = [reads(txn(0, 0), 1, txn(1, 0), 1)];
    tells(
        rt,
        "session 1\nbegin\nw x 1\nw y 2\ncommit\nsession 2\nbegin\nr x 0\nr y 2\ncommit\n",
        alloc,
        Level::ReadAtomic,
        &Evidence::Initial(overlooked(rt, alloc, op(1, 0, 0), op(0, 0, 0), &hops)),
        "in short: 2.1 sees 1.1, which wrote x, but reads the initial value of x\n\
        1.1 wrote x 1 (line 3)\n\
        2.1 reads y 2 (line 9), which 1.1 wrote (line 4)\n\
        2.1 reads x 0 (line 8), the initial value\n\
        so 2.1 should read the x of 1.1 or a later one\n",
        Some("read skew (G-single)"),
    );
}

#[test]
fn paths_by_sessions(rt: HostRuntime) {
    let (rt, alloc) = (&rt, rt.alloc());
    let hops = [earlier(txn(0, 0), txn(0, 1))];
    tells(
        rt,
        "session 1\nbegin\nw x 1\ncommit\nbegin\nr x 0\ncommit\n",
        alloc,
        Level::ReadAtomic,
        &Evidence::Initial(overlooked(rt, alloc, op(0, 1, 0), op(0, 0, 0), &hops)),
        "in short: 1.2 comes after 1.1, which wrote x, but reads the initial value of x\n\
        1.1 wrote x 1 (line 3)\n\
        1.2 comes after 1.1 in session 1\n\
        1.2 reads x 0 (line 6), the initial value\n\
        so 1.2 should read the x of 1.1 or a later one\n",
        Some("a session misses its own write (G-single-process)"),
    );
    let hops = [
        earlier(txn(0, 0), txn(0, 1)),
        reads(txn(0, 1), 0, txn(1, 0), 0),
    ];
    tells(
        rt,
        "session 1\nbegin\nw x 1\ncommit\nbegin\nw y 2\ncommit\n\
        session 7\nbegin\nr y 2\nr x 0\ncommit\n",
        alloc,
        Level::Causal,
        &Evidence::Initial(overlooked(rt, alloc, op(1, 0, 1), op(0, 0, 0), &hops)),
        "in short: 7.1 comes after 1.1, which wrote x, but reads the initial value of x\n\
        1.1 wrote x 1 (line 3)\n\
        1.2 comes after 1.1 in session 1\n\
        7.1 reads y 2 (line 10), which 1.2 wrote (line 6)\n\
        7.1 reads x 0 (line 11), the initial value\n\
        so 7.1 should read the x of 1.1 or a later one\n",
        Some("cycle with one missed write and sessions (G-single-process)"),
    );
}
