ghost use Rattle.std.specs.Prelude.{◌≡◌, map};
ghost use Rattle.std.specs.List.{AllByRecursion};
ghost use Rattle.session_log.specs.Text.{view, IsLegal};
ghost use Rattle.log_laws.specs.Logs.{IsSoundLog, IsLog};

use cube_machine::{Budget, StrategyName};
use deciding::Means;
use desk::seat_no::Workers;
use judging::{
    Finding, JudgeMeans, Level, LevelLog, Tried, Verdict, Why, judge, judge_known_log, judge_whole,
    leave_out_moments,
};
use known_outcomes::resolve;
use long_reading::read_long_log;
use numbered_log::NumberedLog;
use order_proposals::{NotTried, Proposal, Stuck};
use progress::{Deadline, Progress, Stage};
use session_log::{Limit, Session, Txn};
use std::alloc::{AllocError, Global};
use std::fmt::Write;
use std::io::Eprint;
use std::process::Abort;
use std::sync::Wait;
use std::test::*;
use std::thread::Threads;
use std::time::{Clock, Instant};

/// Nobody is told.
#[derive(Drop)]
struct Quiet;

impl Progress for Quiet {
    fn tell<R: Eprint + Clock>(&mut self, _rt: &R, _stage: Stage) {}
}

/// The sessions of this log.
fn read_log<R: Threads + Abort + Sync>(rt: &R, alloc: Global, text: &str) -> Vec<Session>
    ensures legal { AllByRecursion IsLegal (map view result.items) }
    ensures sound { IsSoundLog (map view result.items) }
{
    let one = Workers::new(1).expect(rt, "a worker");
    let (_, sessions) = read_long_log(rt, alloc, text.as_bytes(), one).expect(rt, "a log");
    sessions
}

/// The sessions of this log, with their outcomes known.
fn known_log<R: Threads + Abort + Sync>(rt: &R, alloc: Global, text: &str) -> Vec<Session>
    ensures log { IsLog (map view result.items) }
{
    let sessions = read_log(rt, alloc, text);
    resolve(alloc, sessions).expect(rt, "memory")
}

/// The text of so many sessions, each of which writes what the one before wrote, and is read by the
/// next; the last two read the same where they are to lose an update.
fn chain_text(alloc: Global, count: u64, lost: bool) -> Result<String, AllocError> {
    let mut text = String::new(alloc);
    for i in 0..count {
        let wid = i.saturating_add(1);
        let back = if lost && wid == count { 2 } else { 1 };
        let read = wid.saturating_sub(back);
        write!(
            text,
            "session {wid}\nbegin\nr x {read}\nw x {wid}\ncommit\n"
        )?;
    }
    Ok(text)
}

fn chain<R: Threads + Abort + Sync>(rt: &R, alloc: Global, count: u64, lost: bool) -> Vec<Session>
    ensures log { IsLog (map view result.items) }
{
    let text = chain_text(alloc, count, lost).expect(rt, "memory");
    known_log(rt, alloc, &text)
}

fn means(rt: &impl Abort, deadline: Option<Deadline>) -> JudgeMeans
    ensures level { result.level ≡ Level.Serializable }
{
    JudgeMeans {
        level: Level::Serializable,
        deciding: Means {
            workers: Workers::new(1).expect(rt, "a worker"),
            strategy: StrategyName::Forced,
            budget: Budget::new(100).expect(rt, "a budget"),
        },
        deadline,
    }
}

fn order(rt: &impl Abort, alloc: Global, count: usize) -> Proposal {
    let mut order = Vec::new(alloc);
    for i in 0..count {
        order.push(i + 1).expect(rt, "memory");
    }
    Proposal::Order(order)
}

fn flags(rt: &impl Abort, alloc: Global, count: usize, from: usize) -> Vec<Vec<bool>> {
    let mut all = Vec::new(alloc);
    for i in 0..count {
        let mut one = Vec::new(alloc);
        one.push(i >= from).expect(rt, "memory");
        all.push(one).expect(rt, "memory");
    }
    all
}

fn part(rt: &impl Abort, alloc: Global, count: usize, from: usize) -> Proposal {
    Proposal::Part(flags(rt, alloc, count, from))
}

fn stuck(rt: &impl Abort, alloc: Global, count: usize, from: usize) -> Proposal {
    Proposal::Stuck(Stuck {
        around: flags(rt, alloc, count, from),
        against: None,
        placed: 0,
        nodes: count,
        waiting: Vec::new(alloc),
    })
}

fn nothing() -> Proposal {
    Proposal::NotTried(NotTried::TimeIsUp)
}

fn said<R: Threads + Wait + Clock + Eprint + Abort + Sync>(
    rt: &R,
    alloc: Global,
    log: &[Session],
    proposal: &Proposal,
) -> Verdict
    requires log { IsLog (map view log.now) }
{
    let numbered = NumberedLog::of(alloc, log).expect(rt, "a small log");
    judge(
        rt,
        alloc,
        log,
        &LevelLog::Itself,
        &numbered,
        proposal,
        &means(rt, None),
        &mut Quiet,
    )
    .expect(rt, "memory")
}

fn see_serial(rt: &impl Abort, verdict: &Verdict, nodes: usize) {
    match verdict {
        Verdict::Serializable(order) => assert_eq!(rt; order.len(), nodes),
        _ => panic!(rt; "no order"),
    }
}

fn see_part(rt: &impl Abort, verdict: &Verdict, sessions: usize) {
    match verdict {
        Verdict::NotSerializable(told) => {
            assert_eq!(rt; told.part.len(), sessions);
            assert!(rt; told.flags.is_some());
            assert!(rt; matches!(told.finding, Finding::Anomaly(_)));
        }
        _ => panic!(rt; "no part"),
    }
}

fn see_open(rt: &impl Abort, verdict: &Verdict, want: Why, became: Tried) {
    match verdict {
        Verdict::Undecided { why, tried } => {
            assert_eq!(rt; *why, want);
            assert_eq!(rt; *tried, became);
        }
        _ => panic!(rt; "decided"),
    }
}

const LARGE: Why = Why::TooLarge {
    which: Limit::Committed,
};

/// Whatever is proposed, a small log is decided; and what is told is the lost update with whom it
/// read from.
#[test]
fn small_logs(rt: HostRuntime) {
    let alloc = rt.alloc();
    let good = chain(&rt, alloc, 5, false);
    see_serial(&rt, &said(&rt, alloc, &good, &order(&rt, alloc, 5)), 5);
    see_serial(&rt, &said(&rt, alloc, &good, &order(&rt, alloc, 3)), 5);
    see_serial(&rt, &said(&rt, alloc, &good, &nothing()), 5);
    let bad = chain(&rt, alloc, 5, true);
    see_part(&rt, &said(&rt, alloc, &bad, &order(&rt, alloc, 5)), 3);
    see_part(&rt, &said(&rt, alloc, &bad, &part(&rt, alloc, 5, 1)), 3);
    see_part(&rt, &said(&rt, alloc, &bad, &part(&rt, alloc, 5, 4)), 3);
}

#[test]
fn large_logs_with_an_order(rt: HostRuntime) {
    let alloc = rt.alloc();
    let good = chain(&rt, alloc, 1_100, false);
    see_serial(
        &rt,
        &said(&rt, alloc, &good, &order(&rt, alloc, 1_100)),
        1_100,
    );
    let verdict = said(&rt, alloc, &good, &order(&rt, alloc, 1_099));
    see_open(&rt, &verdict, LARGE, Tried::NotSerial);
    let verdict = said(&rt, alloc, &good, &part(&rt, alloc, 1_100, 1_090));
    see_open(&rt, &verdict, LARGE, Tried::PartSerial);
    let verdict = said(&rt, alloc, &good, &stuck(&rt, alloc, 1_100, 10));
    see_open(&rt, &verdict, LARGE, Tried::PartOpen(LARGE));
}

/// A lost update among the last of them; and a read of what nobody wrote, which stays in the part of
/// its transaction.
#[test]
fn large_logs_with_none(rt: HostRuntime) {
    let alloc = rt.alloc();
    let bad = chain(&rt, alloc, 1_100, true);
    see_part(
        &rt,
        &said(&rt, alloc, &bad, &part(&rt, alloc, 1_100, 1_090)),
        3,
    );
    see_part(
        &rt,
        &said(&rt, alloc, &bad, &stuck(&rt, alloc, 1_100, 1_050)),
        3,
    );
    let mut text = chain_text(alloc, 1_099, false).expect(&rt, "memory");
    text.push_str("session 1100\nbegin\nr x 7777\ncommit\n")
        .expect(&rt, "memory");
    let log = known_log(&rt, alloc, &text);
    see_part(
        &rt,
        &said(&rt, alloc, &log, &part(&rt, alloc, 1_100, 1_090)),
        1,
    );
}

/// A write whose client was not told, and a reader of it that had ended before.
const LATE: &str =
    "log 3\nsession 1\nbegin 3\nw x 1\nunknown\nsession 2\nbegin 1\nr x 1\ncommit 2\n";

/// The same without moments.
const TIMELESS: &str = "log 2\nsession 1\nbegin\nw x 1\nunknown\nsession 2\nbegin\nr x 1\ncommit\n";

#[test]
fn moments_are_left_out(rt: HostRuntime) {
    let alloc = rt.alloc();
    let log = read_log(&rt, alloc, LATE);
    let means = means(&rt, None);
    let judged = judge_whole(&rt, alloc, log, &means, &mut Quiet).expect(&rt, "memory");
    assert!(rt; matches!(&judged.verdict, Verdict::NotSerializable(_)));
    let mut sessions = known_log(&rt, alloc, LATE);
    leave_out_moments(&mut sessions);
    let states = |txn: &Txn| txn.begun.is_some() || txn.ended.is_some();
    let any = sessions
        .iter()
        .any(|session| session.txns.iter().any(states));
    assert!(rt; !any);
    let timeless = known_log(&rt, alloc, TIMELESS);
    let verdict = judge_known_log(&rt, alloc, &timeless, None, &means, &mut Quiet);
    see_serial(&rt, &verdict.expect(&rt, "memory"), 2);
}

/// Nothing is begun once the time is up; an order that is proposed is looked at all the same.
#[test]
fn no_time(rt: HostRuntime) {
    let alloc = rt.alloc();
    let start = Instant::now(&rt).expect(&rt, "a clock");
    let means = means(&rt, Some(Deadline { start, seconds: 0 }));
    let good = chain(&rt, alloc, 5, false);
    let numbered = NumberedLog::of(alloc, &good).expect(&rt, "a small log");
    let verdict = judge(
        &rt,
        alloc,
        &good,
        &LevelLog::Itself,
        &numbered,
        &nothing(),
        &means,
        &mut Quiet,
    );
    see_open(
        &rt,
        &verdict.expect(&rt, "memory"),
        Why::NotBegun,
        Tried::Nothing,
    );
    let verdict = judge(
        &rt,
        alloc,
        &good,
        &LevelLog::Itself,
        &numbered,
        &order(&rt, alloc, 5),
        &means,
        &mut Quiet,
    );
    see_serial(&rt, &verdict.expect(&rt, "memory"), 5);
}
