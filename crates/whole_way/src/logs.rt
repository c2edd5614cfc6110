//! Logs that several tests take.

/// Two writers of a key, and a reader of the first.
pub const TWO_WRITERS: &str =
    "session 1\nbegin\nw x 1\ncommit\nsession 2\nbegin\nw x 2\ncommit\nsession 3\nbegin\nr x 1\ncommit\n";

/// The same, where each began when the one before it had ended.
pub const IN_TURN: &str =
    "log 3\nsession 1\nbegin 1\nw x 1\ncommit 2\nsession 2\nbegin 3\nw x 2\ncommit 4\n\
    session 3\nbegin 5\nr x 1\ncommit 6\n";

/// The same, where the reader began at the moment at which the second writer ended.
pub const AT_ONCE: &str =
    "log 3\nsession 1\nbegin 1\nw x 1\ncommit 2\nsession 2\nbegin 3\nw x 2\ncommit 4\n\
    session 3\nbegin 4\nr x 1\ncommit 6\n";

pub const WRITE_SKEW: &str =
    "session 1\nbegin\nr x 0\nr y 0\nw x 1\ncommit\nsession 2\nbegin\nr x 0\nr y 0\nw y 2\ncommit\n";

pub const LOST_UPDATE: &str =
    "session 1\nbegin\nr x 0\nw x 1\ncommit\nsession 2\nbegin\nr x 0\nw x 2\ncommit\n";

pub const LATER_WRITE_READ: &str = "session 1\nbegin\nr x 1\ncommit\nbegin\nw x 1\ncommit\n";

/// Each of three choices is settled in turn.
pub const SETTLED: &str = "session 1\nbegin\nw a 1\ncommit\nbegin\nw a 2\nw b 3\nw c 4\ncommit\n\
    session 2\nbegin\nr a 1\nw b 5\ncommit\nsession 3\nbegin\nr b 5\nw c 6\ncommit\n\
    session 4\nbegin\nr c 6\ncommit\n";

/// The same, where the last transaction also reads what the second one writes.
pub const DEAD: &str =
    "session 1\nbegin\nw a 1\ncommit\nbegin\nw a 2\nw b 3\nw c 4\nw d 7\ncommit\n\
    session 2\nbegin\nr a 1\nw b 5\ncommit\nsession 3\nbegin\nr b 5\nw c 6\ncommit\n\
    session 4\nbegin\nr c 6\nr d 7\ncommit\n";

/// Two writers of each of two keys, and a reader of each pair of what they wrote.
pub const EACH_PAIR_READ: &str =
    "session 1\nbegin\nw x 1\ncommit\nsession 2\nbegin\nw x 2\ncommit\n\
    session 3\nbegin\nw y 3\ncommit\nsession 4\nbegin\nw y 4\ncommit\n\
    session 5\nbegin\nr x 1\nr y 3\ncommit\nsession 6\nbegin\nr x 1\nr y 4\ncommit\n\
    session 7\nbegin\nr x 2\nr y 3\ncommit\nsession 8\nbegin\nr x 2\nr y 4\ncommit\n";

/// Two chains of a key, each with a reader of its last write.
pub const TWO_CHAINS: &str =
    "session 1\nbegin\nw x 1\ncommit\nsession 2\nbegin\nr x 1\nw x 2\ncommit\n\
    session 3\nbegin\nw x 3\ncommit\nsession 4\nbegin\nr x 3\nw x 4\ncommit\n\
    session 5\nbegin\nr x 2\ncommit\nsession 6\nbegin\nr x 4\ncommit\n";
