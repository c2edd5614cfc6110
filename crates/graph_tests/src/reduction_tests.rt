use crate::logs::{READ_BEFORE_WRITTEN, history_of, workers};
use desk::gate::OpenGate;
use reduction::{Reduction, reduce};
use std::alloc::Global;
use std::process::Abort;
use std::sync::Wait;
use std::test::*;
use std::thread::Threads;
use std::time::Clock;

const WRITE_SKEW: &str = "session 1\nbegin\nr x 0\nr y 0\nw x 1\ncommit\n\
    session 2\nbegin\nr x 0\nr y 0\nw y 2\ncommit\n";

const LOST_UPDATE: &str =
    "session 1\nbegin\nr x 0\nw x 1\ncommit\nsession 2\nbegin\nr x 0\nw x 2\ncommit\n";

/// Each of three choices is settled in turn, the first by the session, each other by what was kept
/// before.
const SETTLED: &str = "session 1\nbegin\nw a 1\ncommit\nbegin\nw a 2\nw b 3\nw c 4\ncommit\n\
    session 2\nbegin\nr a 1\nw b 5\ncommit\nsession 3\nbegin\nr b 5\nw c 6\ncommit\n\
    session 4\nbegin\nr c 6\ncommit\n";

/// The same, where the last transaction also reads what the second one writes.
const DEAD: &str = "session 1\nbegin\nw a 1\ncommit\nbegin\nw a 2\nw b 3\nw c 4\nw d 7\ncommit\n\
    session 2\nbegin\nr a 1\nw b 5\ncommit\nsession 3\nbegin\nr b 5\nw c 6\ncommit\n\
    session 4\nbegin\nr c 6\nr d 7\ncommit\n";

/// What the steps make of a log with one worker and with four, by its name.
fn reduces_to<R: Threads + Wait + Clock + Abort + Sync>(
    rt: &R,
    alloc: Global,
    log: &str,
    want: &str,
) {
    let history = history_of(rt, alloc, log);
    for count in [1, 4] {
        let name = match reduce(rt, alloc, &history, workers(rt, count), &OpenGate) {
            Ok(Reduction::Anomalous(_)) => "anomaly",
            Ok(Reduction::Cyclic(_)) => "cycle",
            Ok(Reduction::Dead(_)) => "dead",
            Ok(Reduction::Open { .. }) => "open",
            Err(_) => "no answer",
        };
        assert_eq!(rt; name, want);
    }
}

#[test]
fn one_worker_or_several_make_the_same(rt: HostRuntime) {
    reduces_to(&rt, rt.alloc(), LOST_UPDATE, "anomaly");
    reduces_to(&rt, rt.alloc(), READ_BEFORE_WRITTEN, "cycle");
    reduces_to(&rt, rt.alloc(), WRITE_SKEW, "cycle");
    reduces_to(&rt, rt.alloc(), DEAD, "dead");
    reduces_to(&rt, rt.alloc(), SETTLED, "open");
}
