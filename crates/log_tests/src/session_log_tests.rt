use session_log::{LogFault, Session, Version, cut, is_earlier, parse_block, print_log};
use std::alloc::Global;
use std::process::Abort;
use std::test::*;

pub const THREE: &str =
    "session 1\nbegin\nw x 1\ncommit\nsession 2\nbegin\nw x 2\ncommit\nsession 3\nbegin\nr x 1\ncommit\n";

/// With the longest key, of each byte that a key may have.
const EVERY_FORM: &str =
    "session 65535\nbegin\nr -./0123456789:ABCDEFGHIJKLMNOPQRSTUVWXYZ_abcdefghijklmnopqrstuvw 0\n\
    w -./0123456789:ABCDEFGHIJKLMNOPQRSTUVWXYZ_abcdefghijklmnopqrstuvw 1\nabort\nbegin\ncommit\n\
    session 1\nbegin\nr x 18446744073709551615\ncommit\n";

const UNKNOWN: &str = "log 2\nsession 1\nbegin\nw x 1\nunknown\n";

const MOMENTS: &str =
    "log 3\nsession 1\nbegin 0\nr x 0\ncommit 18446744073709551615\nbegin 5\ncommit 5\n\
    begin 7\nabort\nbegin\ncommit 8\nbegin 9\nw x 1\nunknown\nsession 2\nbegin\ncommit\n";

pub fn read(alloc: Global, log: &[u8]) -> Result<Vec<Session>, LogFault> {
    let (_, blocks) = cut(alloc, log)?;
    let mut sessions = Vec::with_capacity(alloc, blocks.len())?;
    for block in &blocks {
        sessions.push(parse_block(alloc, log, block)?)?;
    }
    Ok(sessions)
}

fn refuses(rt: &impl Abort, alloc: Global, log: &str, fault: LogFault) {
    assert_eq!(rt; read(alloc, log.as_bytes()).err(), Some(fault), "{log:?}");
}

#[test]
fn refused_logs(rt: HostRuntime) {
    let rt = &rt;
    let alloc = rt.alloc();
    for (log, line) in [
        ("session 65536\n", 1),
        ("session 1\n\n", 2),
        ("session 1\nbegin\nr x 18446744073709551616\ncommit\n", 3),
        ("session 1\nbegin\nr  1\ncommit\n", 3),
        (
            "session 1\nbegin\nr -./0123456789:ABCDEFGHIJKLMNOPQRSTUVWXYZ_abcdefghijklmnopqrstuvwx 1\ncommit\n",
            3,
        ),
        ("session 1\nbegin\ncommit\r\n", 3),
        ("session 1\nbegin\nunknown\n", 3),
        ("log 2", 1),
        ("log 2\nlog 2\n", 2),
        ("log 2\nsession 1\nbegin 1\ncommit\n", 3),
        ("log 3\nsession 1\nbegin 01\ncommit\n", 3),
        ("log 3\nsession 1\nbegin \ncommit\n", 3),
        ("log 3\nsession 1\nbegin 18446744073709551616\ncommit\n", 3),
        ("log 3\nsession 1\nbegin 1 2\ncommit\n", 3),
        ("log 3\nsession 1\nbegin 1\nabort 1\n", 4),
    ] {
        refuses(rt, alloc, log, LogFault::BadLine { line });
    }
    let outside = LogFault::OutsideTransaction { line: 5 };
    refuses(
        rt,
        alloc,
        "log 2\nsession 1\nbegin\nunknown\nr x 0\n",
        outside,
    );
    let open = LogFault::OpenTransaction { line: 2 };
    refuses(rt, alloc, "session 1\nbegin\nsession x", open);
    let ended = LogFault::EndsBeforeBegin { line: 4 };
    refuses(rt, alloc, "log 3\nsession 1\nbegin 5\ncommit 4\n", ended);
}

/// What the log of three sessions gives when it is cut after some bytes.
fn fault_of_cut(length: usize) -> Option<LogFault> {
    match length {
        0 | 10 | 29 | 39 | 58 | 68 | 87 => None,
        16 | 22 => Some(LogFault::OpenTransaction { line: 2 }),
        45 | 51 => Some(LogFault::OpenTransaction { line: 6 }),
        74 | 80 => Some(LogFault::OpenTransaction { line: 10 }),
        1..=9 => Some(LogFault::BadLine { line: 1 }),
        11..=15 => Some(LogFault::BadLine { line: 2 }),
        17..=21 => Some(LogFault::BadLine { line: 3 }),
        23..=28 => Some(LogFault::BadLine { line: 4 }),
        30..=38 => Some(LogFault::BadLine { line: 5 }),
        40..=44 => Some(LogFault::BadLine { line: 6 }),
        46..=50 => Some(LogFault::BadLine { line: 7 }),
        52..=57 => Some(LogFault::BadLine { line: 8 }),
        59..=67 => Some(LogFault::BadLine { line: 9 }),
        69..=73 => Some(LogFault::BadLine { line: 10 }),
        75..=79 => Some(LogFault::BadLine { line: 11 }),
        _ => Some(LogFault::BadLine { line: 12 }),
    }
}

#[test]
fn logs_are_cut(rt: HostRuntime) {
    let log = THREE.as_bytes();
    assert_eq!(rt; log.len(), 87);
    for length in 0..=87 {
        let read = read(rt.alloc(), &log[..length]);
        assert_eq!(rt; read.err(), fault_of_cut(length));
    }
}

/// The sessions of a log are printed as this text.
fn prints(rt: &impl Abort, alloc: Global, log: &str, want: &str) {
    let sessions = read(alloc, log.as_bytes()).expect(rt, "a log");
    let text = print_log(alloc, &sessions).expect(rt, "memory");
    assert_eq!(rt; text.as_slice(), want.as_bytes(), "{log:?}");
}

#[test]
fn printed(rt: HostRuntime) {
    let rt = &rt;
    let alloc = rt.alloc();
    for log in ["", THREE, EVERY_FORM, UNKNOWN, MOMENTS] {
        prints(rt, alloc, log, log);
    }
    let known = "session 1\nbegin\ncommit\n";
    prints(rt, alloc, "log 2\nsession 1\nbegin\ncommit\n", known);
    prints(rt, alloc, "log 3\nsession 1\nbegin\ncommit\n", known);
    prints(
        rt,
        alloc,
        "log 3\nsession 1\nbegin\nw x 1\nunknown\n",
        UNKNOWN,
    );
    let ended = "log 3\nsession 1\nbegin\ncommit 0\n";
    prints(rt, alloc, ended, ended);
}

#[test]
fn versions_and_moments(rt: HostRuntime) {
    assert!(rt; Version::of(b"log 3\n") == Version::Three && Version::of(b"log 3") == Version::One);
    assert!(rt; Version::Three.has_moments() && !Version::Two.has_moments());
    assert!(rt; is_earlier(Some(1), Some(2)) && !is_earlier(Some(2), Some(2)));
    assert!(rt; !is_earlier(None, Some(2)) && !is_earlier(Some(1), None));
}
