use desk::seat_no::Workers;
use fault_words::{refusal, words_of};
use long_log_definitions::MAX_LONG_LOG_BYTES;
use long_reading::read_long_log;
use session_log::{Limit, LogFault, MAX_LOG_BYTES};
use std::alloc::Global;
use std::process::Abort;
use std::test::*;
use std::thread::Threads;

/// What is told of a log that is refused.
fn is_told<R: Threads + Abort + Sync>(rt: &R, alloc: Global, log: &[u8], want: &str) {
    let workers = Workers::new(1).expect(rt, "a worker");
    let fault = read_long_log(rt, alloc, log, workers)
        .err()
        .expect(rt, "a fault");
    let told = refusal(alloc, "a.log", log, fault, MAX_LONG_LOG_BYTES).expect(rt, "memory");
    assert_eq!(rt; told.as_str(), want, "{log:?}");
}

#[test]
fn what_is_wrong_with_a_whole_line(rt: HostRuntime) {
    let alloc = rt.alloc();
    for (log, want) in [
        (
            b"\xef\xbb\xbfsession 1\n".as_slice(),
            "a.log:1: the log begins with a byte order mark, which it may not have (L1)",
        ),
        (
            b"\xff\xfes\0",
            "a.log:1: the log is in UTF-16: it has to be in ASCII (L1)",
        ),
        (
            b"\xfd7zXZ\0\0\x04",
            "a.log:1: the log is compressed by xz: xz -dc FILE | cobra_poly audit - with the same options (L1)",
        ),
        (
            b"\x1f\x8b\x08\0\n",
            "a.log:1: the log is compressed by gzip: gzip -dc FILE | cobra_poly audit - with the same options (L1)",
        ),
        (
            b"\x28\xb5\x2f\xfd\x04",
            "a.log:1: the log is compressed by zstd: zstd -dc FILE | cobra_poly audit - with the same options (L1)",
        ),
        (
            b"BZh91AY",
            "a.log:1: the log is compressed by bzip2: bzip2 -dc FILE | cobra_poly audit - with the same options (L1)",
        ),
        (
            b"PK\x03\x04\x14",
            "a.log:1: the log is compressed by zip: unzip -p FILE | cobra_poly audit - with the same options (L1)",
        ),
        (
            b"session 1\nBZh\n",
            "a.log:2: words are written in small letters (L1)",
        ),
        (
            b"session 1\r\n",
            "a.log:1: the line ends in CR LF: lines end in LF alone (L1)",
        ),
        (
            b"session 1\n\n",
            "a.log:2: an empty line: a log has none (L1)",
        ),
        (
            b"session 1\nbegin\ncommit",
            "a.log:3: the last line has no line feed: the log may have been cut off (L1)",
        ),
        (
            b"# a log\nsession 1\n",
            "a.log:1: a comment: a log has none (L1)",
        ),
        (
            b"session\t1\n",
            "a.log:1: a tab: words are separated by one blank (L1)",
        ),
        (
            b"session 1\n begin\n",
            "a.log:2: the line begins with a blank (L1)",
        ),
        (
            b"session 1\nbegin \n",
            "a.log:2: the line ends with a blank (L1)",
        ),
        (
            b"session  1\n",
            "a.log:1: two blanks in a row: words are separated by one (L1)",
        ),
        (
            b"log 4\n",
            "a.log:1: no version of a log: it begins with `log 2`, with `log 3`, or with its first session (L1)",
        ),
        (
            b"log 2\nlog 2\n",
            "a.log:2: a header can only be the first line of a log (L1)",
        ),
    ] {
        is_told(&rt, alloc, log, want);
    }
}

#[test]
fn what_is_wrong_with_words(rt: HostRuntime) {
    let alloc = rt.alloc();
    for (log, want) in [
        (
            "session\n",
            "a.log:1: the number of the session is missing (L1)",
        ),
        (
            "session 01\n",
            "a.log:1: the number of the session has a leading zero (L1)",
        ),
        (
            "session 65536\n",
            "a.log:1: the number of the session is not 1 to 65535 (L1)",
        ),
        ("session 1 2\n", "a.log:1: the line has too many words (L1)"),
        ("session 1\nbegin\nr\n", "a.log:3: the key is missing (L1)"),
        (
            "session 1\nbegin\nr x\n",
            "a.log:3: the identity is missing (L1)",
        ),
        (
            "session 1\nbegin\nr x -1\n",
            "a.log:3: the identity has a sign, which numbers have not (L1)",
        ),
        (
            "session 1\nbegin\nr x v1\n",
            "a.log:3: the identity is no decimal number (L1)",
        ),
        (
            "session 1\nbegin\nr x 18446744073709551616\n",
            "a.log:3: the identity is more than 18446744073709551615 (L1)",
        ),
        (
            "session 1\nbegin\nw x=y 1\n",
            "a.log:3: the key has the byte `=`: keys have A-Z a-z 0-9 _ . : / - alone (L1)",
        ),
        (
            "session 1\nbegin\nw \u{e9} 1\n",
            "a.log:3: the key has the byte `\\xc3`: keys have A-Z a-z 0-9 _ . : / - alone (L1)",
        ),
        (
            "session 1\nbegin 5\n",
            "a.log:2: `begin` states a moment: that needs the header `log 3` (L1)",
        ),
        (
            "session 1\nbegin\nabort 5\n",
            "a.log:3: something stands behind `abort`, which stands alone (L1)",
        ),
        (
            "session 1\nbegin\nunknown\n",
            "a.log:3: `unknown` needs the header `log 2` or `log 3` (L1)",
        ),
        (
            "session 1\nBEGIN\n",
            "a.log:2: words are written in small letters (L1)",
        ),
        (
            "session 1\nbegin\nread x 1\n",
            "a.log:3: no line of a log begins with `read` (L1)",
        ),
    ] {
        is_told(&rt, alloc, log.as_bytes(), want);
    }
}

#[test]
fn what_is_wrong_with_a_log(rt: HostRuntime) {
    let alloc = rt.alloc();
    for (log, want) in [
        (
            "session 1\nsession 2\nsession 1\n",
            "a.log:3: this session began before, in line 1 (L2)",
        ),
        (
            "begin\n",
            "a.log:1: the line stands before the first session (L3)",
        ),
        (
            "session 1\nr x 0\n",
            "a.log:2: no transaction is open here: a `begin` is missing (L3)",
        ),
        (
            "session 1\nbegin\n",
            "a.log:2: the transaction that begins here has no `commit`, `abort` or `unknown` (L4)",
        ),
        (
            "session 1\nbegin\nw x 0\n",
            "a.log:3: identity 0 is that of the initial value, and no write can have it (L5)",
        ),
        (
            "session 1\nbegin\nw x 7\nr x 7\nw y 7\ncommit\n",
            "a.log:5: identity `7` was written before, in line 3 (L6)",
        ),
        (
            "log 2\nsession 1\nbegin\nunknown\nbegin\nabort\n",
            "a.log:5: the transaction stands behind one whose outcome is unknown: it needs a session of its own (L9)",
        ),
        (
            "log 3\nsession 1\nbegin 5\ncommit 4\n",
            "a.log:4: the transaction ends at an earlier moment than it begins (L10)",
        ),
    ] {
        is_told(&rt, alloc, log.as_bytes(), want);
    }
}

#[test]
fn limits_and_memory(rt: HostRuntime) -> Result<(), Fail> {
    let alloc = rt.alloc();
    for (which, code, want) in [
        (
            Limit::LogBytes,
            "L7 log-bytes",
            "the log has more than 16777216 bytes",
        ),
        (
            Limit::Sessions,
            "L7 sessions",
            "the log has more than 64 sessions",
        ),
        (
            Limit::Operations,
            "L7 operations",
            "the log has more than 200000 reads and writes",
        ),
        (
            Limit::Committed,
            "L7 committed",
            "the log has more than 1000 transactions that are committed or unknown",
        ),
        (Limit::Keys, "L7 keys", "the log has more than 10000 keys"),
    ] {
        let fault = LogFault::OverLimit { which };
        assert_eq!(rt; fault.code(), code);
        assert_eq!(rt; fault.line(), None);
        assert_eq!(rt; words_of(alloc, b"", fault, MAX_LOG_BYTES)?.as_str(), want);
    }
    let told = refusal(alloc, "-", b"", LogFault::Memory, MAX_LOG_BYTES)?;
    assert_eq!(rt; told.as_str(), "-: out of memory (L8)");
    Ok(())
}
