use crate::commands::{Command, options, see};
use crate::logs::{
    AT_ONCE, DEAD, EACH_PAIR_READ, IN_TURN, LATER_WRITE_READ, LOST_UPDATE, SETTLED, TWO_WRITERS,
    WRITE_SKEW,
};
use branch_search::Budget;
use cobra_cli::{Options, StrategyName};
use std::process::Abort;

/// With a budget of seven cubes a search finds an order by the choices with the most edges, and
/// none by those with the least.
const BY_SIZES: &str = "session 1\nbegin\nw y 1\ncommit\nsession 2\nbegin\nw x 2\ncommit\n\
    session 3\nbegin\nr x 2\nr y 1\ncommit\nsession 4\nbegin\nr y 1\nr x 2\ncommit\n\
    session 5\nbegin\nw x 3\ncommit\nsession 6\nbegin\nw x 4\ncommit\n\
    session 7\nbegin\nr y 1\nr x 4\ncommit\nsession 8\nbegin\nw y 5\ncommit\n\
    session 9\nbegin\nr x 3\nr y 5\ncommit\n";

/// With a budget of six cubes a search finds an order by the first choices, and none by those with
/// the most edges.
const BY_PLACES: &str = "session 1\nbegin\nw x 1\ncommit\nsession 2\nbegin\nw y 2\nw x 3\ncommit\n\
    session 3\nbegin\nw x 4\nw y 5\ncommit\nsession 4\nbegin\nw y 6\ncommit\n\
    session 5\nbegin\nr y 6\nr x 1\ncommit\nsession 6\nbegin\nr y 6\nr x 3\ncommit\n";

/// With a budget of three cubes a search finds an order where it first takes the choices that its
/// cube forces, and none else.
const BY_FORCE: &str = "session 1\nbegin\nw x 1\nr y 2\ncommit\n\
    session 2\nbegin\nw y 2\nr x 4\ncommit\nsession 3\nbegin\nw x 3\ncommit\n\
    session 4\nbegin\nw x 4\ncommit\nsession 5\nbegin\nr x 4\nr y 2\ncommit\n\
    session 6\nbegin\nr x 1\nw y 5\ncommit\n";

fn searching(rt: &impl Abort, workers: u8, strategy: StrategyName, budget: usize) -> Options {
    Options {
        strategy,
        budget: Budget::new(budget).expect(rt, "a budget"),
        ..options(rt, false, workers)
    }
}

#[test]
fn not_serializable(rt: HostRuntime) {
    for (log, text) in [
        (
            WRITE_SKEW,
            "not serializable: A8 cycle of known edges\ncycle 1.1 2.1 1.1\n",
        ),
        (
            LATER_WRITE_READ,
            "not serializable: A8 cycle of known edges\ncycle 1.1 1.2 1.1\n",
        ),
        (
            "log 3\nsession 1\nbegin 5\ncommit 6\nbegin 1\ncommit 2\n",
            "not serializable: A8 cycle of known edges\ncycle 1.1 1.2 1.1\n",
        ),
        (
            LOST_UPDATE,
            "not serializable: A7 lost update of x from 0.0 by 1.1 and 2.1\n",
        ),
        (
            "session 1\nbegin\nw x 1\nabort\nsession 2\nbegin\nr x 1\ncommit\n",
            "not serializable: A2 aborted read at 2.1 op 1\n",
        ),
        (
            "session 1\nbegin\nw x 1\nw x 2\ncommit\nsession 2\nbegin\nr x 1\ncommit\n",
            "not serializable: A3 intermediate read at 2.1 op 1\n",
        ),
        (
            "session 1\nbegin\nw x 1\nw x 2\ncommit\nsession 2\nbegin\nr x 0\nr x 1\ncommit\n",
            "not serializable: A3 intermediate read at 2.1 op 2\n",
        ),
        (
            "session 1\nbegin\nw x 1\ncommit\nsession 2\nbegin\nr x 0\nr x 1\ncommit\n",
            "not serializable: A6 split read at 2.1 op 2\n",
        ),
        (
            "session 1\nbegin\nw x 1\nr x 0\ncommit\n",
            "not serializable: A4 own write missed at 1.1 op 2\n",
        ),
        (
            "session 1\nbegin\nr x 1\nw x 1\ncommit\n",
            "not serializable: A5 future read at 1.1 op 1\n",
        ),
        (
            "session 1\nbegin\nw x 1\ncommit\nsession 2\nbegin\nr y 1\ncommit\n",
            "not serializable: A1 unknown read at 2.1 op 1\n",
        ),
        (
            "session 1\nbegin\nr x 5\ncommit\nsession 2\nbegin\nw x 1\nr x 0\ncommit\n",
            "not serializable: A1 unknown read at 1.1 op 1\n",
        ),
        (
            "log 2\nsession 1\nbegin\nr z 9\nw x 1\nunknown\nsession 2\nbegin\nr x 1\ncommit\n",
            "not serializable: A1 unknown read at 1.1 op 1\n",
        ),
        (DEAD, "not serializable: A9 pruning ends in a cycle\n"),
        (IN_TURN, "not serializable: A9 pruning ends in a cycle\n"),
    ] {
        for workers in [1, 4] {
            let options = options(&rt, false, workers);
            see(&rt, rt.alloc(), &options, Command::Check, log, 1, text);
        }
    }
}

/// By which choice and which side a search goes on, with one worker, shows in what it prints.
#[test]
fn by_strategy(rt: HostRuntime) {
    let found = "serializable\n1 1\n3 1\n2 1\n";
    for (strategy, log, budget, status, text) in [
        (StrategyName::First, TWO_WRITERS, 2, 0, found),
        (StrategyName::Most, TWO_WRITERS, 2, 0, found),
        (StrategyName::Least, TWO_WRITERS, 2, 0, found),
        (
            StrategyName::Most,
            BY_SIZES,
            7,
            0,
            "serializable\n1 1\n2 1\n3 1\n4 1\n6 1\n7 1\n5 1\n8 1\n9 1\n",
        ),
        (StrategyName::Least, BY_SIZES, 7, 3, "unknown: 7 closed\n"),
        (
            StrategyName::First,
            BY_PLACES,
            6,
            0,
            "serializable\n2 1\n4 1\n6 1\n1 1\n5 1\n3 1\n",
        ),
        (StrategyName::Most, BY_PLACES, 6, 3, "unknown: 6 closed\n"),
        (
            StrategyName::Forced,
            BY_FORCE,
            3,
            0,
            "serializable\n3 1\n4 1\n2 1\n5 1\n1 1\n6 1\n",
        ),
        (StrategyName::First, BY_FORCE, 3, 3, "unknown: 3 closed\n"),
        (StrategyName::Most, BY_FORCE, 3, 3, "unknown: 3 closed\n"),
        (StrategyName::Least, BY_FORCE, 3, 3, "unknown: 3 closed\n"),
    ] {
        let options = searching(&rt, 1, strategy, budget);
        see(&rt, rt.alloc(), &options, Command::Check, log, status, text);
    }
}

#[test]
fn searched(rt: HostRuntime) {
    for strategy in [
        StrategyName::First,
        StrategyName::Most,
        StrategyName::Least,
        StrategyName::Forced,
    ] {
        for (log, budget, status, text) in [
            ("", 1, 0, "serializable\n"),
            (
                "log 2\nsession 1\nbegin\nr z 9\nw x 1\nunknown\n",
                1,
                0,
                "serializable\n",
            ),
            (SETTLED, 1, 0, "serializable\n1 1\n2 1\n3 1\n4 1\n1 2\n"),
            (AT_ONCE, 1, 0, "serializable\n1 1\n3 1\n2 1\n"),
            (TWO_WRITERS, 1, 3, "unknown: 1 closed\n"),
            (EACH_PAIR_READ, 6, 3, "unknown: 6 closed\n"),
            (
                EACH_PAIR_READ,
                7,
                1,
                "not serializable: every cube is refuted\n",
            ),
        ] {
            for workers in [1, 2, 4, 16] {
                let options = searching(&rt, workers, strategy, budget);
                see(&rt, rt.alloc(), &options, Command::Check, log, status, text);
            }
        }
    }
}
