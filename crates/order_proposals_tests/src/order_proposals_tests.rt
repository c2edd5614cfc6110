use desk::seat_no::Workers;
use numbered_log::NumberedLog;
use order_proposals::{Flags, Proposal, ProposeMeans, propose};
use progress::{Progress, Stage};
use serial_checks::is_serial;
use session_log::{Key, Op, Outcome, Session, Txn};
use std::alloc::Global;
use std::io::Eprint;
use std::process::Abort;
use std::test::*;
use std::thread::Threads;
use std::time::Clock;

/// Nobody is told anything.
#[derive(Drop)]
struct Silence;

impl Progress for Silence {
    fn tell<R: Eprint + Clock>(&mut self, _rt: &R, _stage: Stage) {}
}

fn key(rt: &impl Abort, alloc: Global, name: &str) -> Key {
    let made = Key::new(alloc, name.as_bytes()).expect(rt, "memory");
    made.expect(rt, "a key")
}

fn read(rt: &impl Abort, alloc: Global, name: &str, wid: u64) -> Op {
    Op::Read {
        key: key(rt, alloc, name),
        wid,
    }
}

fn write(rt: &impl Abort, alloc: Global, name: &str, wid: u64) -> Op {
    Op::Write {
        key: key(rt, alloc, name),
        wid,
    }
}

fn txn(rt: &impl Abort, alloc: Global, one: Op, other: Op, outcome: Outcome) -> Txn {
    let mut ops = Vec::new(alloc);
    ops.push(one).expect(rt, "memory");
    ops.push(other).expect(rt, "memory");
    Txn {
        ops,
        outcome,
        begun: None,
        ended: None,
    }
}

fn session(rt: &impl Abort, alloc: Global, number: u16, txn: Txn) -> Session {
    let mut txns = Vec::new(alloc);
    txns.push(txn).expect(rt, "memory");
    Session { number, txns }
}

fn both(rt: &impl Abort, alloc: Global, one: Txn, other: Txn) -> Vec<Session> {
    let mut all = Vec::new(alloc);
    all.push(session(rt, alloc, 3, one)).expect(rt, "memory");
    all.push(session(rt, alloc, 7, other)).expect(rt, "memory");
    all
}

/// What two workers propose of these, with these left out.
fn proposed<R: Abort + Threads + Clock + Eprint + Sync>(
    rt: &R,
    alloc: Global,
    sessions: &[Session],
    left_out: &[Vec<bool>],
) -> Proposal {
    let means = ProposeMeans {
        workers: Workers::new(2).expect(rt, "a number of workers"),
        deadline: None,
        greatest: u64::MAX,
    };
    let log = NumberedLog::of(alloc, sessions).expect(rt, "a small log");
    propose(rt, alloc, sessions, &log, left_out, &means, &mut Silence).expect(rt, "memory")
}

/// No transaction.
fn none(alloc: Global) -> Flags {
    Vec::new(alloc)
}

/// The transaction of the first session.
fn the_first(rt: &impl Abort, alloc: Global) -> Flags {
    let mut flags = Vec::new(alloc);
    flags
        .push(vec![in alloc; true; 1].expect(rt, "memory"))
        .expect(rt, "memory");
    flags
}

/// Whether this is an order that explains the sessions.
fn is_right_order(
    rt: &impl Abort,
    alloc: Global,
    sessions: &[Session],
    proposal: &Proposal,
) -> bool {
    match proposal {
        Proposal::Order(order) => {
            let log = NumberedLog::of(alloc, sessions).expect(rt, "a small log");
            is_serial(alloc, &log, order).expect(rt, "memory")
        }
        _ => false,
    }
}

/// Whether this is a part of these transactions of the two sessions.
fn is_part(proposal: &Proposal, first: bool, second: bool) -> bool {
    match proposal {
        Proposal::Part(flags) => {
            flags.len() == 2
                && flags[0].as_slice() == [first].as_slice()
                && flags[1].as_slice() == [second].as_slice()
        }
        _ => false,
    }
}

/// The first reads what the second writes, and the second reads 0.
fn chain(rt: &impl Abort, alloc: Global, wid: u64, outcome: Outcome) -> Vec<Session> {
    let (x, y) = (read(rt, alloc, "x", wid), write(rt, alloc, "y", 2));
    let reader = txn(rt, alloc, x, y, Outcome::Commit);
    let (y, x) = (read(rt, alloc, "y", 0), write(rt, alloc, "x", 1));
    let writer = txn(rt, alloc, y, x, outcome);
    both(rt, alloc, reader, writer)
}

/// Both read 0 of x and write it.
fn lost_update(rt: &impl Abort, alloc: Global) -> Vec<Session> {
    let (x, y) = (read(rt, alloc, "x", 0), write(rt, alloc, "x", 1));
    let one = txn(rt, alloc, x, y, Outcome::Commit);
    let (x, y) = (read(rt, alloc, "x", 0), write(rt, alloc, "x", 2));
    let other = txn(rt, alloc, x, y, Outcome::Commit);
    both(rt, alloc, one, other)
}

/// Adds a transaction alone in its session.
fn add(rt: &impl Abort, alloc: Global, all: &mut Vec<Session>, number: u16, one: Op, other: Op) {
    let new = txn(rt, alloc, one, other, Outcome::Commit);
    all.push(session(rt, alloc, number, new))
        .expect(rt, "memory");
}

/// Adds one that writes a key.
fn add_writer(
    rt: &impl Abort,
    alloc: Global,
    all: &mut Vec<Session>,
    number: u16,
    name: &str,
    wid: u64,
) {
    let (one, other) = (write(rt, alloc, name, wid), read(rt, alloc, "z", 0));
    add(rt, alloc, all, number, one, other);
}

/// Adds one that reads x and y.
fn add_reader(rt: &impl Abort, alloc: Global, all: &mut Vec<Session>, number: u16, x: u64, y: u64) {
    let (one, other) = (read(rt, alloc, "x", x), read(rt, alloc, "y", y));
    add(rt, alloc, all, number, one, other);
}

/// Four that read all four pairs of two versions of x and two of y, behind one that writes another
/// key.
fn crossed(rt: &impl Abort, alloc: Global) -> Vec<Session> {
    let mut all = Vec::new(alloc);
    add_writer(rt, alloc, &mut all, 1, "w", 5);
    add_writer(rt, alloc, &mut all, 2, "x", 1);
    add_writer(rt, alloc, &mut all, 3, "x", 2);
    add_writer(rt, alloc, &mut all, 4, "y", 3);
    add_writer(rt, alloc, &mut all, 5, "y", 4);
    add_reader(rt, alloc, &mut all, 6, 1, 3);
    add_reader(rt, alloc, &mut all, 7, 1, 4);
    add_reader(rt, alloc, &mut all, 8, 2, 3);
    add_reader(rt, alloc, &mut all, 9, 2, 4);
    all
}

/// Whether this is the part of all transactions but the first.
fn is_all_but_first(proposal: &Proposal) -> bool {
    match proposal {
        Proposal::Part(flags) => {
            flags.len() == 9
                && flags[0].as_slice() == [false].as_slice()
                && flags[1..]
                    .iter()
                    .all(|list| list.as_slice() == [true].as_slice())
        }
        _ => false,
    }
}

#[test]
fn crossed_reads_are_a_part(rt: HostRuntime) {
    let alloc = rt.alloc();
    let all = crossed(&rt, alloc);
    let proposal = proposed(&rt, alloc, &all, &none(alloc));
    assert!(rt; is_all_but_first(&proposal));
}

#[test]
fn an_order_is_found(rt: HostRuntime) {
    let alloc = rt.alloc();
    let all = chain(&rt, alloc, 1, Outcome::Commit);
    let proposal = proposed(&rt, alloc, &all, &none(alloc));
    assert!(rt; is_right_order(&rt, alloc, &all, &proposal));
}

#[test]
fn a_read_from_an_aborted_transaction_is_a_part(rt: HostRuntime) {
    let alloc = rt.alloc();
    let all = chain(&rt, alloc, 1, Outcome::Abort);
    let proposal = proposed(&rt, alloc, &all, &none(alloc));
    assert!(rt; is_part(&proposal, true, true));
}

#[test]
fn a_read_of_what_nobody_wrote_is_a_part_of_its_own(rt: HostRuntime) {
    let alloc = rt.alloc();
    let all = chain(&rt, alloc, 7, Outcome::Commit);
    let proposal = proposed(&rt, alloc, &all, &none(alloc));
    assert!(rt; is_part(&proposal, true, false));
}

#[test]
fn a_lost_update_is_a_part_unless_one_is_left_out(rt: HostRuntime) {
    let alloc = rt.alloc();
    let all = lost_update(&rt, alloc);
    let proposal = proposed(&rt, alloc, &all, &none(alloc));
    assert!(rt; is_part(&proposal, true, true));
    let proposal = proposed(&rt, alloc, &all, &the_first(&rt, alloc));
    assert!(rt; matches!(proposal, Proposal::Order(_)));
}
