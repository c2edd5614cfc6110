//! Commands over bytes in memory.

use crate::tape::Tape;
use branch_search::Budget;
use cobra_cli::{
    Fault, Format, Options, Status, Stop, StrategyName, check, decode, encode, explain, stats,
    verify,
};
use desk::{Gate, OpenGate, Workers};
use output::Counted;
use std::alloc::Global;
use std::process::Abort;
use std::sync::Wait;
use std::thread::Threads;
use std::time::Clock;

/// A command, with the text of its second file where it has one.
#[derive(Clone, Copy)]
pub enum Command<'a> {
    Encode,
    Stats,
    Check,
    Explain(Format),
    Decode(&'a str),
    Verify(&'a str),
}

/// The options for one of the two formulas, with so many workers.
pub fn options(rt: &impl Abort, plain: bool, workers: u8) -> Options {
    Options {
        plain,
        workers: Workers::new(workers).expect(rt, "workers"),
        strategy: StrategyName::First,
        budget: Budget::new(10_000).expect(rt, "a budget"),
    }
}

/// What a command answers, and what it put into a sink that takes a byte a call and fails after
/// `good` calls.
pub fn ended<G: Gate, R: Threads + Wait + Clock + Sync>(
    rt: &R,
    alloc: Global,
    options: &Options,
    command: Command<'_>,
    log: &str,
    gate: &G,
    good: usize,
) -> (Result<Status, Fault>, Vec<u8>) {
    let mut sink = Counted::new(Tape {
        taken: Vec::new(alloc),
        good,
    });
    let log = log.as_bytes();
    let result = match command {
        Command::Encode => encode(rt, alloc, log, options, gate, &mut sink),
        Command::Stats => stats(rt, alloc, log, options, gate, &mut sink),
        Command::Check => check(rt, alloc, log, options, gate, &mut sink),
        Command::Explain(format) => explain(rt, alloc, log, options, format, gate, &mut sink),
        Command::Decode(answer) => {
            decode(rt, alloc, log, answer.as_bytes(), options, gate, &mut sink)
        }
        Command::Verify(order) => {
            verify(rt, alloc, log, order.as_bytes(), options, gate, &mut sink)
        }
    };
    (result, sink.writer.taken)
}

/// A command over a log ends with this exit status and prints this.
pub fn see<R: Threads + Wait + Clock + Sync + Abort>(
    rt: &R,
    alloc: Global,
    options: &Options,
    command: Command<'_>,
    log: &str,
    status: u8,
    text: &str,
) {
    let (result, taken) = ended(rt, alloc, options, command, log, &OpenGate, 1 << 20);
    match result {
        Ok(done) => {
            assert_eq!(rt; done.code(), status, "{text:?}");
            assert_eq!(rt; taken.as_slice(), text.as_bytes());
        }
        Err(fault) => {
            let stop = Stop::from(fault);
            assert_eq!(rt; stop.code(), status, "{text:?}");
            let line = format!(in alloc; "{stop}").expect(rt, "memory");
            assert_eq!(rt; line.as_str(), text);
        }
    }
}
