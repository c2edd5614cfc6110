use census::{Census, KeyFaults, census, census_text};
use session_log::{Key, Session, cut, parse_block};
use std::alloc::Global;
use std::process::Abort;
use std::test::*;

/// The sessions of a log.
fn sessions_of(rt: &impl Abort, alloc: Global, log: &str) -> Vec<Session> {
    let (_, blocks) = cut(alloc, log.as_bytes()).expect(rt, "a log");
    let mut sessions = Vec::new(alloc);
    for block in &blocks {
        let session = parse_block(alloc, log.as_bytes(), block).expect(rt, "a session");
        sessions.push(session).expect(rt, "memory");
    }
    sessions
}

/// Whether these are the numbers of the log, in the order of the anomalies.
fn see(rt: &impl Abort, alloc: Global, log: &str, want: [usize; 7]) {
    let sessions = sessions_of(rt, alloc, log);
    let found = census(alloc, &sessions).expect(rt, "memory");
    assert_eq!(rt; found.unknown_reads, want[0]);
    assert_eq!(rt; found.aborted_reads, want[1]);
    assert_eq!(rt; found.intermediate_reads, want[2]);
    assert_eq!(rt; found.own_writes_missed, want[3]);
    assert_eq!(rt; found.future_reads, want[4]);
    assert_eq!(rt; found.split_reads, want[5]);
    assert_eq!(rt; found.lost_updates, want[6]);
}

/// One read of each kind; the second session's own reads of z name 0 and then what it wrote.
#[test]
fn each_kind_once(rt: HostRuntime) {
    see(
        &rt,
        rt.alloc(),
        "session 1\nbegin\nw x 1\nw x 2\ncommit\nbegin\nw y 3\nabort\nsession 2\nbegin\nr x 9\nr y 3\nr x 1\nr x 2\nw z 4\nr z 0\nr z 4\nr u 5\nw u 5\ncommit\n",
        [1, 1, 1, 1, 1, 1, 0],
    );
}

/// Three update x from its first value and one from another; an aborted one does not count, and two
/// reads of one transaction are one.
#[test]
fn updates_are_counted_by_transaction(rt: HostRuntime) {
    see(
        &rt,
        rt.alloc(),
        "session 1\nbegin\nr x 0\nw x 1\ncommit\nbegin\nr y 0\nr y 0\nw y 2\ncommit\nsession 2\nbegin\nr x 0\nr x 0\nw x 3\ncommit\nsession 3\nbegin\nr x 0\nw x 4\ncommit\nbegin\nr x 0\nw x 5\nabort\nsession 4\nbegin\nr x 1\nw x 6\ncommit\nbegin\nr x 0\ncommit\n",
        [0, 0, 0, 0, 0, 0, 3],
    );
}

/// Whether this is the text of the keys with the most faults of the log.
fn see_worst(rt: &impl Abort, alloc: Global, log: &str, want: &str) {
    let sessions = sessions_of(rt, alloc, log);
    let found = census(alloc, &sessions).expect(rt, "memory");
    let mut lines = Vec::new(alloc);
    for line in &found.worst_keys {
        lines
            .extend_from_slice(line.key.as_bytes())
            .expect(rt, "memory");
        lines.push(b' ').expect(rt, "memory");
    }
    assert_eq!(rt; lines.as_slice(), want.as_bytes());
}

/// The most faults first, of as many the lesser name, and ten at most.
#[test]
fn ten_worst_keys(rt: HostRuntime) {
    see_worst(
        &rt,
        rt.alloc(),
        "session 1\nbegin\nr k9 1\nr k8 1\nr k7 1\nr k6 1\nr k5 1\nr k4 1\nr k3 1\nr k2 1\nr k10 1\nr k1 1\nr k0 1\nr good 0\ncommit\nbegin\nr k5 1\nr a 1\ncommit\n",
        "k5 a k0 k1 k10 k2 k3 k4 k6 k7 ",
    );
}

/// A transaction that is in a lost update of two keys counts at each.
#[test]
fn lost_updates_count_at_each_key(rt: HostRuntime) {
    see_worst(
        &rt,
        rt.alloc(),
        "session 1\nbegin\nr x 0\nr x 0\nr y 0\nw x 1\nw y 2\ncommit\nsession 2\nbegin\nr y 0\nr x 0\nw x 3\nw y 4\ncommit\nsession 3\nbegin\nr y 0\nw y 5\ncommit\n",
        "y x ",
    );
}

/// Whether this is the text of the numbers, in the order of the anomalies.
fn see_text(
    rt: &impl Abort,
    alloc: Global,
    numbers: [usize; 7],
    keys: &[(&str, usize)],
    want: &str,
) {
    let mut worst_keys = Vec::new(alloc);
    for (name, faults) in keys {
        let key = Key::new(alloc, name.as_bytes()).expect(rt, "memory");
        let key = key.expect(rt, "a key");
        let faults = *faults;
        worst_keys
            .push(KeyFaults { key, faults })
            .expect(rt, "memory");
    }
    let told = Census {
        unknown_reads: numbers[0],
        aborted_reads: numbers[1],
        intermediate_reads: numbers[2],
        own_writes_missed: numbers[3],
        future_reads: numbers[4],
        split_reads: numbers[5],
        lost_updates: numbers[6],
        worst_keys,
    };
    let text = census_text(alloc, &told).expect(rt, "memory");
    assert_eq!(rt; text.as_slice(), want.as_bytes());
}

#[test]
fn numbers_are_told(rt: HostRuntime) {
    see_text(
        &rt,
        rt.alloc(),
        [0, 12, 0, 1, 0, 0, 8941],
        &[("price/6", 41), ("x", 1)],
        "census: 8954 faults\nA1 unknown read: 0 reads\nA2 aborted read: 12 reads\nA3 intermediate read: 0 reads\nA4 own write missed: 1 read\nA5 future read: 0 reads\nA6 split read: 0 reads\nA7 lost update: 8941 transactions\nkey price/6: 41 faults\nkey x: 1 fault\n",
    );
    see_text(
        &rt,
        rt.alloc(),
        [0, 0, 0, 0, 0, 0, 0],
        &[],
        "census: no fault of A1 to A7\nA1 unknown read: 0 reads\nA2 aborted read: 0 reads\nA3 intermediate read: 0 reads\nA4 own write missed: 0 reads\nA5 future read: 0 reads\nA6 split read: 0 reads\nA7 lost update: 0 transactions\n",
    );
}
