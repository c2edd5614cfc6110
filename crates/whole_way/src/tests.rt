use crate::commands::{Command, ended, options, see};
use crate::logs::{
    AT_ONCE, DEAD, EACH_PAIR_READ, IN_TURN, LATER_WRITE_READ, LOST_UPDATE, SETTLED, TWO_CHAINS,
    TWO_WRITERS, WRITE_SKEW,
};
use cobra_cli::{Fault, Format};
use desk::OpenGate;
use std::alloc::Global;
use std::process::Abort;

const ABORTED_WRITE: &str = "session 1\nbegin\nw x 1\nabort\n";

const ABORTED_READ: &str = "session 1\nbegin\nr x 9\nabort\n";

/// The client of session 1 was never told how its transaction ended; session 2 read what it wrote.
const UNKNOWN_WRITE_READ: &str =
    "log 2\nsession 1\nbegin\nw x 1\nunknown\nsession 2\nbegin\nr x 1\ncommit\n";

/// Nobody read what the transaction of unknown outcome wrote.
const UNKNOWN_WRITE_UNREAD: &str =
    "log 2\nsession 1\nbegin\nw x 1\nunknown\nsession 2\nbegin\nr x 0\ncommit\n";

/// A transaction of unknown outcome reads what another one wrote, and what it wrote is read.
const UNKNOWN_IN_TURN: &str =
    "log 2\nsession 1\nbegin\nw x 1\nunknown\nsession 2\nbegin\nr x 1\nw y 2\nunknown\n\
    session 3\nbegin\nr y 2\ncommit\n";

/// Two writers of a key that nobody reads.
const UNREAD: &str = "session 1\nbegin\nw x 1\ncommit\nsession 2\nbegin\nw x 2\ncommit\n";

/// Each transaction reads what the one before wrote.
const ONE_CHAIN: &str = "session 1\nbegin\nr x 0\nw x 1\ncommit\nbegin\nr x 1\nw x 2\ncommit\n\
    begin\nr x 2\nw x 3\ncommit\nbegin\nr x 3\nw x 4\ncommit\nbegin\nr x 4\nw x 5\ncommit\n";

/// Ten transactions of two sessions in turn, each of which began when the one before it had ended.
const TEN_IN_TURN: &str = "log 3\nsession 1\nbegin 2\nw k1 1\ncommit 3\nbegin 6\nw k3 3\ncommit 7\n\
    begin 10\nw k5 5\ncommit 11\nbegin 14\nw k7 7\ncommit 15\nbegin 18\nw k9 9\ncommit 19\n\
    session 2\nbegin 4\nw k2 2\ncommit 5\nbegin 8\nw k4 4\ncommit 9\n\
    begin 12\nw k6 6\ncommit 13\nbegin 16\nw k8 8\ncommit 17\nbegin 20\nw k10 10\ncommit 21\n";

const TWO_WRITERS_FORMULA: &str =
    "p cnf 6 13\n1 0\n2 0\n3 0\n5 0\n-4 -6 0\n-1 -4 2 0\n1 4 -2 0\n-1 -5 3 0\n1 5 -3 0\n-2 -6 3 0\n2 6 -3 0\n-4 -6 5 0\n4 6 -5 0\n";

const TWO_CHAINS_FORMULA: &str =
    "p cnf 10 20\n-4 1 0\n-5 2 0\n-6 3 0\n-1 2 0\n1 7 0\n-1 3 0\n2 8 0\n-2 3 0\n\
    -9 3 0\n-4 5 0\n4 7 0\n-4 6 0\n5 8 0\n-5 6 0\n-9 6 0\n-8 7 0\n7 9 0\n8 9 0\n-10 -7 0\n10 -3 0\n";

const CONTRADICTION: &str = "p cnf 1 2\n1 0\n-1 0\n";

#[test]
fn formulas(rt: HostRuntime) {
    let rt = &rt;
    let alloc = rt.alloc();
    let plain = options(rt, true, 4);
    for (log, text) in [
        (TWO_WRITERS, TWO_WRITERS_FORMULA),
        (
            IN_TURN,
            "p cnf 6 15\n1 0\n2 0\n3 0\n4 0\n5 0\n6 0\n-4 -6 0\n-1 -4 2 0\n1 4 -2 0\n-1 -5 3 0\n1 5 -3 0\n-2 -6 3 0\n2 6 -3 0\n-4 -6 5 0\n4 6 -5 0\n",
        ),
        (
            WRITE_SKEW,
            "p cnf 3 6\n1 0\n2 0\n-2 3 0\n-1 -3 0\n-1 -3 2 0\n1 3 -2 0\n",
        ),
        (
            LATER_WRITE_READ,
            "p cnf 3 6\n1 0\n2 0\n3 0\n-3 0\n-1 -3 2 0\n1 3 -2 0\n",
        ),
        (LOST_UPDATE, CONTRADICTION),
    ] {
        see(rt, alloc, &plain, Command::Encode, log, 0, text);
    }
    let reduced = options(rt, false, 4);
    for (log, text) in [
        (TWO_WRITERS, "p cnf 3 3\n1 2 0\n-3 -2 0\n3 -1 0\n"),
        (UNREAD, "p cnf 2 2\n-2 1 0\n2 -1 0\n"),
        (WRITE_SKEW, CONTRADICTION),
        (LOST_UPDATE, CONTRADICTION),
        (DEAD, CONTRADICTION),
        ("", "p cnf 0 0\n"),
        (ABORTED_WRITE, "p cnf 0 0\n"),
        (ABORTED_READ, "p cnf 0 0\n"),
        (ONE_CHAIN, "p cnf 0 0\n"),
        (SETTLED, "p cnf 0 0\n"),
        (UNKNOWN_WRITE_READ, "p cnf 0 0\n"),
        (UNKNOWN_WRITE_UNREAD, "p cnf 0 0\n"),
        (AT_ONCE, "p cnf 0 0\n"),
        (TEN_IN_TURN, "p cnf 0 0\n"),
    ] {
        see(rt, alloc, &reduced, Command::Encode, log, 0, text);
    }
}

#[test]
fn counts(rt: HostRuntime) {
    let rt = &rt;
    let alloc = rt.alloc();
    let plain = options(rt, true, 4);
    for (log, text) in [
        (
            LOST_UPDATE,
            "sessions 2\ncommitted 2\naborted 0\nkeys 1\noperations 4\nanomaly A7\nvariables 1\nclauses 2\n",
        ),
        (
            TWO_WRITERS,
            "sessions 3\ncommitted 3\naborted 0\nkeys 1\noperations 3\nchoices 1\nvariables 6\nclauses 13\n",
        ),
    ] {
        see(rt, alloc, &plain, Command::Stats, log, 0, text);
    }
    let reduced = options(rt, false, 4);
    for (log, text) in [
        (
            WRITE_SKEW,
            "sessions 2\ncommitted 2\naborted 0\nkeys 2\noperations 6\nanomaly A8\nvariables 1\nclauses 2\n",
        ),
        (
            DEAD,
            "sessions 4\ncommitted 5\naborted 0\nkeys 4\noperations 11\nanomaly A9\nvariables 1\nclauses 2\n",
        ),
        (
            SETTLED,
            "sessions 4\ncommitted 5\naborted 0\nkeys 3\noperations 9\nchoices 3\nforced 3\nopen 0\nvariables 0\nclauses 0\n",
        ),
        (
            EACH_PAIR_READ,
            "sessions 8\ncommitted 8\naborted 0\nkeys 2\noperations 12\nchoices 2\nforced 0\nopen 2\nvariables 22\nclauses 72\n",
        ),
        (
            UNKNOWN_WRITE_READ,
            "sessions 2\ncommitted 1\naborted 0\nunknown 1\ntaken 1\nkeys 1\noperations 2\nchoices 0\nforced 0\nopen 0\nvariables 0\nclauses 0\n",
        ),
        (
            UNKNOWN_WRITE_UNREAD,
            "sessions 2\ncommitted 1\naborted 0\nunknown 1\ntaken 0\nkeys 1\noperations 2\nchoices 0\nforced 0\nopen 0\nvariables 0\nclauses 0\n",
        ),
        (
            AT_ONCE,
            "sessions 3\ncommitted 3\naborted 0\nunknown 0\ntaken 0\nkeys 1\noperations 3\nchoices 1\nforced 1\nopen 0\nvariables 0\nclauses 0\n",
        ),
    ] {
        see(rt, alloc, &reduced, Command::Stats, log, 0, text);
    }
}

#[test]
fn explained(rt: HostRuntime) {
    let rt = &rt;
    let alloc = rt.alloc();
    let options = options(rt, false, 4);
    for (format, log, status, text) in [
        (
            Format::Text,
            LOST_UPDATE,
            1,
            "not serializable: A7 lost update of x from 0.0 by 1.1 and 2.1\n\
            in short: 1.1 and 2.1 read one version of x and both overwrote it; neither saw the other's\n\
            1.1 reads x 0 (line 3), the initial value\n1.1 overwrites it with 1 (line 4)\n\
            2.1 reads x 0 (line 8), the initial value\n2.1 overwrites it with 2 (line 9)\n",
        ),
        (
            Format::Text,
            WRITE_SKEW,
            1,
            "not serializable: A8 cycle of known edges\ncycle 1.1 2.1 1.1\n\
            in short: 1.1 did not see 2.1's y; 2.1 did not see 1.1's x\n\
            1.1 before 2.1: 1.1 reads y 0 (line 4), the initial value, and 2.1, which reads it too, overwrites it with 2 (line 11)\n\
            2.1 before 1.1: 2.1 reads x 0 (line 9), the initial value, and 1.1, which reads it too, overwrites it with 1 (line 5)\n\
            known as: write skew (G2-item)\n",
        ),
        (
            Format::Dot,
            WRITE_SKEW,
            1,
            "// not serializable: A8 cycle of known edges\n\
            strict digraph explanation {\nnode [shape=box];\n\
            \"1.1\" [label=\"1.1\\nr y 0 (line 4)\\nw x 1 (line 5)\"];\n\
            \"2.1\" [label=\"2.1\\nr x 0 (line 9)\\nw y 2 (line 11)\"];\n\
            \"1.1\" -> \"2.1\" [label=\"anti-dependency\" color=\"red\"];\n\
            \"2.1\" -> \"1.1\" [label=\"anti-dependency\" color=\"red\"];\n}\n",
        ),
        (
            Format::Text,
            ONE_CHAIN,
            0,
            "serializable\n1 1\n1 2\n1 3\n1 4\n1 5\n",
        ),
    ] {
        see(
            rt,
            alloc,
            &options,
            Command::Explain(format),
            log,
            status,
            text,
        );
    }
}

#[test]
fn decoded(rt: HostRuntime) {
    let rt = &rt;
    let alloc = rt.alloc();
    let plain = options(rt, true, 4);
    let reduced = options(rt, false, 4);
    let found = "1 1\n3 1\n2 1\n";
    let model = Command::Decode("s SATISFIABLE\nv 1 2 3 4 5 -6 0\n");
    see(rt, alloc, &plain, model, TWO_WRITERS, 0, found);
    for answer in [
        "s SATISFIABLE\nv 1 -2 3 0\n",
        "s SATISFIABLE\nv 1 3 0\n",
        "v 1\r\nv -2 3 0\r\ns SATISFIABLE\r\n",
    ] {
        let model = Command::Decode(answer);
        see(rt, alloc, &reduced, model, TWO_WRITERS, 0, found);
    }
    for (log, order) in [
        ("", ""),
        (ONE_CHAIN, "1 1\n1 2\n1 3\n1 4\n1 5\n"),
        (UNKNOWN_WRITE_READ, "1 1\n2 1\n"),
        (UNKNOWN_WRITE_UNREAD, "2 1\n"),
        (UNKNOWN_IN_TURN, "1 1\n2 1\n3 1\n"),
        (
            TEN_IN_TURN,
            "1 1\n2 1\n1 2\n2 2\n1 3\n2 3\n1 4\n2 4\n1 5\n2 5\n",
        ),
    ] {
        let model = Command::Decode("s SATISFIABLE\nv 0\n");
        see(rt, alloc, &reduced, model, log, 0, order);
    }
    for (answer, text) in [
        ("s UNSATISFIABLE\n", "unsatisfiable claimed, not checked\n"),
        ("s UNKNOWN\n", "unknown\n"),
    ] {
        let claim = Command::Decode(answer);
        see(rt, alloc, &reduced, claim, TWO_WRITERS, 3, text);
    }
}

#[test]
fn refused_answers(rt: HostRuntime) {
    let rt = &rt;
    let alloc = rt.alloc();
    let plain = options(rt, true, 4);
    let reduced = options(rt, false, 4);
    for (log, answer, line) in [
        (
            TWO_WRITERS,
            "s SATISFIABLE\nv 1 2 3 4 5 6 0\n",
            "refused: E1 clause 5",
        ),
        (TWO_WRITERS, "s SATISFIABLE\nv 0\n", "refused: E1 clause 1"),
        (TWO_WRITERS, "s SATISFIABLE\nv 7 0\n", "refused: M4 line 2"),
        (
            LOST_UPDATE,
            "s SATISFIABLE\nv 1 0\n",
            "refused: E1 clause 2",
        ),
    ] {
        see(rt, alloc, &plain, Command::Decode(answer), log, 2, line);
    }
    for (answer, line) in [
        ("s SATISFIABLE\nv 1 2 3 0\n", "refused: E1 clause 2"),
        ("s SATISFIABLE\nv 1 -1 0\n", "refused: M5 line 2"),
        ("s SATISFIABLE\nv 4 0\n", "refused: M4 line 2"),
        ("s SATISFIABLE\nv 1 -2 3\n", "refused: M6"),
        ("v 1 -2 3 0\n", "refused: M3"),
        ("s UNKNOWN\ns UNKNOWN\n", "refused: M2 line 2"),
    ] {
        let answer = Command::Decode(answer);
        see(rt, alloc, &reduced, answer, TWO_WRITERS, 2, line);
    }
}

#[test]
fn verified(rt: HostRuntime) {
    let options = options(&rt, false, 4);
    for (log, order, status, text) in [
        (TWO_WRITERS, "1 1\n3 1\n2 1\n", 0, "accepted\n"),
        (UNKNOWN_WRITE_UNREAD, "2 1\n", 0, "accepted\n"),
        (TWO_WRITERS, "1 1\n2 1\n3 1\n", 2, "refused: P3 3.1 op 1"),
        (TWO_WRITERS, "1 1\n3 1\n", 2, "refused: P1"),
        (TWO_WRITERS, "4 1\n", 2, "refused: O2 line 1"),
        (LATER_WRITE_READ, "1 2\n1 1\n", 2, "refused: P2 1.2"),
        (IN_TURN, "2 1\n1 1\n3 1\n", 2, "refused: P5 2.1"),
    ] {
        let order = Command::Verify(order);
        see(&rt, rt.alloc(), &options, order, log, status, text);
    }
}

#[test]
fn each_number_of_workers(rt: HostRuntime) {
    for workers in [1, 4, 16] {
        let options = options(&rt, false, workers);
        for (command, text) in [
            (Command::Encode, TWO_CHAINS_FORMULA),
            (
                Command::Stats,
                "sessions 6\ncommitted 6\naborted 0\nkeys 1\noperations 8\nchoices 1\nforced 0\nopen 1\nvariables 10\nclauses 20\n",
            ),
            (
                Command::Decode("s SATISFIABLE\nv 1 2 3 4 5 6 -7 -8 9 10 0\n"),
                "1 1\n2 1\n5 1\n3 1\n4 1\n6 1\n",
            ),
        ] {
            see(&rt, rt.alloc(), &options, command, TWO_CHAINS, 0, text);
        }
    }
}

#[test]
fn refused_logs(rt: HostRuntime) {
    let options = options(&rt, false, 4);
    for (log, line) in [
        ("session 1\nbegin\nw x 1\n", "refused: L4 line 2"),
        (
            "session 1\nbegin\nw x 1\ncommit\nsession 2\nbegin\nw x 1\ncommit\n",
            "refused: L6 line 7",
        ),
        (
            "log 2\nsession 1\nbegin\nw x 1\ncommit\nsession 2\nbegin\nw x 1\ncommit\n",
            "refused: L6 line 8",
        ),
        ("session 1\nbegin\nw x 01\ncommit\n", "refused: L1 line 3"),
        ("session 1\nbegin\nunknown\n", "refused: L1 line 3"),
        ("session 1\nbegin\nw x 0\ncommit\n", "refused: L5 line 3"),
        ("session 1\nr x 0\n", "refused: L3 line 2"),
        ("session 1\nsession 1\n", "refused: L2 line 2"),
        (
            "log 2\nsession 1\nbegin\nunknown\nbegin\ncommit\n",
            "refused: L9 line 5",
        ),
        (
            "log 3\nsession 1\nbegin 5\ncommit 4\n",
            "refused: L10 line 4",
        ),
    ] {
        see(&rt, rt.alloc(), &options, Command::Encode, log, 2, line);
    }
}

/// A session of so many transactions without operations.
fn transactions(rt: &impl Abort, alloc: Global, count: usize) -> String {
    let mut log = String::from_str(alloc, "session 1\n").expect(rt, "memory");
    for _ in 0..count {
        log.push_str("begin\ncommit\n").expect(rt, "memory");
    }
    log
}

/// 101 transactions are too many for the plain formula alone, 1,001 are too many for a log.
#[test]
fn too_many_transactions(rt: HostRuntime) {
    let rt = &rt;
    let alloc = rt.alloc();
    let plain = options(rt, true, 4);
    let reduced = options(rt, false, 4);
    let log = transactions(rt, alloc, 101);
    see(rt, alloc, &plain, Command::Encode, &log, 2, "refused: G2");
    see(rt, alloc, &reduced, Command::Encode, &log, 0, "p cnf 0 0\n");
    let log = transactions(rt, alloc, 1_000);
    see(
        rt,
        alloc,
        &reduced,
        Command::Verify(""),
        &log,
        2,
        "refused: P1",
    );
    let log = transactions(rt, alloc, 1_001);
    let line = "refused: L7 committed";
    see(rt, alloc, &reduced, Command::Encode, &log, 2, line);
}

#[test]
fn each_put_fails_in_turn(rt: HostRuntime) {
    let rt = &rt;
    let alloc = rt.alloc();
    let options = options(rt, true, 4);
    let command = Command::Encode;
    let text = TWO_WRITERS_FORMULA.as_bytes();
    for good in 0..text.len() {
        let (result, taken) = ended(rt, alloc, &options, command, TWO_WRITERS, &OpenGate, good);
        let written = good as u64;
        assert_eq!(rt; result, Err(Fault::Device { written }));
        assert_eq!(rt; taken.as_slice(), &text[..good]);
    }
}

/// An operation on each of so many keys, with identities of the session's own.
fn push_ops(
    rt: &impl Abort,
    alloc: Global,
    log: &mut String,
    word: &str,
    session: usize,
    keys: usize,
) {
    for key in 0..keys {
        let line = format!(in alloc; "{word} k{key} {session}{key:03}\n").expect(rt, "memory");
        log.push_str(&line).expect(rt, "memory");
    }
}

/// 50 sessions, each with a transaction that writes so many keys and one that reads these writes.
fn many_bipaths(rt: &impl Abort, alloc: Global, keys: usize) -> String {
    let mut log = String::new(alloc);
    for session in 1..51usize {
        let line = format!(in alloc; "session {session}\nbegin\n").expect(rt, "memory");
        log.push_str(&line).expect(rt, "memory");
        push_ops(rt, alloc, &mut log, "w", session, keys);
        log.push_str("commit\nbegin\n").expect(rt, "memory");
        push_ops(rt, alloc, &mut log, "r", session, keys);
        log.push_str("commit\n").expect(rt, "memory");
    }
    log
}

#[test]
fn choices_at_the_limit(rt: HostRuntime) {
    let rt = &rt;
    let alloc = rt.alloc();
    let options = options(rt, true, 4);
    let log = many_bipaths(rt, alloc, 40);
    let counts =
        "sessions 50\ncommitted 100\naborted 0\nkeys 40\noperations 4000\nchoices 98000\nvariables 5050\nclauses 431450\n";
    see(rt, alloc, &options, Command::Stats, &log, 0, counts);
    let log = many_bipaths(rt, alloc, 41);
    see(rt, alloc, &options, Command::Encode, &log, 2, "refused: G1");
}

/// 64 sessions, each with so many transactions that write one key and read nothing.
fn blind_writers(rt: &impl Abort, alloc: Global, each: usize) -> String {
    let mut log = String::new(alloc);
    for session in 1..65usize {
        let line = format!(in alloc; "session {session}\n").expect(rt, "memory");
        log.push_str(&line).expect(rt, "memory");
        for place in 0..each {
            let lines = format!(in alloc; "begin\nw x {session}{place:02}\ncommit\n").expect(
                rt, "memory",
            );
            log.push_str(&lines).expect(rt, "memory");
        }
    }
    log
}

/// Each two of 448 chains of a key are a choice, which is 100,128.
#[test]
fn too_many_choices_of_chains(rt: HostRuntime) {
    let rt = &rt;
    let alloc = rt.alloc();
    let options = options(rt, false, 4);
    let log = blind_writers(rt, alloc, 7);
    for command in [Command::Encode, Command::Stats, Command::Check] {
        see(rt, alloc, &options, command, &log, 2, "refused: G1");
    }
}
