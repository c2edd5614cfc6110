//! That commands pass the gate that their caller gave.

use crate::commands::{Command, ended, options};
use crate::logs::{LOST_UPDATE, SETTLED};
use desk::{Gate, SeatNo};
use std::alloc::Global;
use std::process::Abort;
use std::sync::Wait;
use std::sync::atomic::{AtomicU64, Ordering};
use std::thread::Threads;
use std::time::Clock;

/// Counts how often it is passed.
#[derive(Drop)]
struct Counting {
    passed: AtomicU64,
}

impl Gate for Counting {
    fn pass<R: Wait + Clock>(&self, _rt: &R, _seat: SeatNo, _turn: u64) {
        self.passed.fetch_add(1, Ordering::SeqCst);
    }
}

/// How often one worker passes the gate in a command over a log.
fn passes<R: Threads + Wait + Clock + Sync + Abort>(
    rt: &R,
    alloc: Global,
    command: Command<'_>,
    log: &str,
) -> u64 {
    let gate = Counting {
        passed: AtomicU64::new(0),
    };
    let options = options(rt, false, 1);
    let (result, _taken) = ended(rt, alloc, &options, command, log, &gate, 1 << 20);
    assert!(rt; result.is_ok());
    gate.passed.load(Ordering::SeqCst)
}

/// A log is read by one pass for each block and one that finds none left. Where an anomaly stands
/// nothing is pruned; else whoever prunes passes the gate too.
#[test]
fn reading_and_pruning(rt: HostRuntime) {
    for command in [
        Command::Encode,
        Command::Decode("s UNKNOWN\n"),
        Command::Stats,
        Command::Check,
    ] {
        assert_eq!(rt; passes(&rt, rt.alloc(), command, LOST_UPDATE), 3);
        assert!(rt; passes(&rt, rt.alloc(), command, SETTLED) > 5);
    }
}
