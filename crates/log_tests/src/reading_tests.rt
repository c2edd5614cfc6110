use crate::gather_tests::{MOMENTS, UNKNOWN, see_read};
use crate::session_log_tests::THREE;
use desk::seat_no::Workers;
use long_reading::read_long_log;
use session_log::{LogFault, Version};
use std::alloc::Global;
use std::process::Abort;
use std::test::*;
use std::thread::Threads;

/// Reads a log with 1, 2 and 16 workers, and sees the same each time: this fault, or the log's own
/// text.
fn reads_as<R: Threads + Abort + Sync>(rt: &R, alloc: Global, log: &str, fault: Option<LogFault>) {
    for count in [1, 2, 16] {
        let workers = Workers::new(count).expect(rt, "workers");
        let read = read_long_log(rt, alloc, log.as_bytes(), workers);
        if let Ok((version, _)) = &read {
            assert_eq!(rt; *version, Version::of(log.as_bytes()));
        }
        see_read(rt, alloc, read.map(|read| read.1), log, fault);
    }
}

#[test]
fn logs_are_read(rt: HostRuntime) {
    let alloc = rt.alloc();
    for log in ["", "session 1\n", THREE, UNKNOWN, MOMENTS] {
        reads_as(&rt, alloc, log, None);
    }
}

#[test]
fn faults_of_the_grammar_stand_first(rt: HostRuntime) {
    let alloc = rt.alloc();
    let log = "session 1\nbegin\nw x 1\nw x 1\ncommit\nsession 1\nbegin\nw x 0\n";
    reads_as(&rt, alloc, log, Some(LogFault::WriteZero { line: 8 }));
    let log = "session 1\nbegin\nsession 2\nbegin\nw x 01\n";
    reads_as(&rt, alloc, log, Some(LogFault::OpenTransaction { line: 2 }));
    let log = "log 2\nsession 1\nbegin\nunknown\nbegin\ncommit";
    reads_as(&rt, alloc, log, Some(LogFault::UnknownNotLast { line: 5 }));
    reads_as(&rt, alloc, "\n", Some(LogFault::BadLine { line: 1 }));
}

#[test]
fn numbers_that_stand_twice_are_named(rt: HostRuntime) {
    let alloc = rt.alloc();
    let log = "session 1\nbegin\nw x 1\nw x 1\ncommit\nsession 2\nsession 1\n";
    reads_as(&rt, alloc, log, Some(LogFault::SessionTwice { line: 7 }));
    let log =
        "log 3\nsession 1\nbegin\nw x 3\nw x 9\nw y 9\nw x 3\nabort\nsession 2\nbegin 5\nw x 9\ncommit\n";
    reads_as(&rt, alloc, log, Some(LogFault::WriteTwice { line: 6 }));
    let log = "log 2\nsession 9\nbegin\nw x 7\nabort\nsession 8\nbegin\nr x 7\nw y 7\nunknown\n";
    reads_as(&rt, alloc, log, Some(LogFault::WriteTwice { line: 9 }));
}

/// A log of so many sessions, each with as many operations of its own.
fn many(alloc: Global, sessions: u64, operations: u64) -> Result<String, Fail> {
    let mut log = String::new(alloc);
    for session in 0..sessions {
        let number = session.saturating_add(1);
        let text = format!(in alloc; "session {number}\nbegin\n")?;
        log.push_str(&text)?;
        for operation in 0..operations {
            let wid = session
                .wrapping_mul(operations)
                .wrapping_add(operation)
                .saturating_add(1);
            let text = format!(in alloc; "w key{wid} {wid}\n")?;
            log.push_str(&text)?;
        }
        log.push_str("commit\n")?;
    }
    Ok(log)
}

/// More sessions, transactions and keys than a log may have.
#[test]
fn there_is_no_limit_but_the_size(rt: HostRuntime) -> Result<(), Fail> {
    let alloc = rt.alloc();
    let mut log = many(alloc, 1_100, 10)?;
    reads_as(&rt, alloc, &log, None);
    log.push_str("session 7\n")?;
    reads_as(
        &rt,
        alloc,
        &log,
        Some(LogFault::SessionTwice { line: 14_301 }),
    );
    Ok(())
}
