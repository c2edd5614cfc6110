ghost use Rattle.serializability.specs.Reads.{IsClean};
ghost use Rattle.log_definitions.specs.Numbers.{log_of};

use crate::logs::clean;
use crate::node::node;
use coalesce::coalesce;
use known_graph::Known;
use polygraph::{Polygraph, bipaths, order_fits};
use reach_laws::Edge;
use session_history::History;
use std::alloc::Global;
use std::process::Abort;
use std::sync::Wait;
use std::thread::Threads;
use std::time::Clock;
use write_chains::chains;

const TWO_CHAINS: &str = "session 1\nbegin\nw x 1\ncommit\nsession 2\nbegin\nr x 1\nw x 2\ncommit\n\
    session 3\nbegin\nw x 3\ncommit\nsession 4\nbegin\nr x 3\nw x 4\ncommit\n\
    session 5\nbegin\nr x 2\ncommit\nsession 6\nbegin\nr x 4\ncommit\n";

const TWO_WRITERS: &str = "session 1\nbegin\nw x 1\ncommit\nsession 2\nbegin\nw x 2\ncommit\n";

const READER_OF_ONE: &str =
    "session 1\nbegin\nw x 1\ncommit\nsession 2\nbegin\nw x 2\ncommit\nsession 3\nbegin\nr x 1\ncommit\n";

/// The polygraph of a history's bipaths.
fn plain(rt: &impl Abort, alloc: Global, history: &History) -> Polygraph
    requires { IsClean (log_of history.now) }
{
    bipaths(alloc, history).ok().expect(rt, "a polygraph")
}

/// The polygraph of a history's chains.
fn coalesced(rt: &impl Abort, alloc: Global, history: &History) -> Polygraph
    requires { IsClean (log_of history.now) }
{
    let chains = chains(alloc, history).expect(rt, "memory").ok();
    let chains = chains.expect(rt, "no chain that closes");
    let known = Known::of(alloc, history).expect(rt, "memory");
    coalesce(alloc, history, &chains, known)
        .ok()
        .expect(rt, "a polygraph")
}

/// The side has one edge.
fn see_side(rt: &impl Abort, side: &[Edge], want: (usize, usize)) {
    assert_eq!(rt; side.len(), 1);
    let edge = side.first().expect(rt, "an edge");
    assert_eq!(rt; (edge.source().get(), edge.target().get()), want);
}

/// There is one choice, with one edge a side.
fn see_choice(rt: &impl Abort, polygraph: &Polygraph, one: (usize, usize), two: (usize, usize)) {
    assert_eq!(rt; polygraph.choices().len(), 1);
    let choice = polygraph.choices().first().expect(rt, "a choice");
    see_side(rt, choice.one(), one);
    see_side(rt, choice.two(), two);
}

fn see_order(rt: &impl Abort, alloc: Global, polygraph: &Polygraph, order: &[usize], fits: bool) {
    let mut nodes = Vec::new(alloc);
    for number in order {
        nodes.push(node(rt, *number)).expect(rt, "memory");
    }
    assert_eq!(rt; order_fits(polygraph, &nodes), fits);
}

/// The order of the two chains, and one that parts them.
fn see_orders(rt: &impl Abort, alloc: Global, polygraph: &Polygraph) {
    see_order(rt, alloc, polygraph, &[1, 2, 5, 3, 4, 6], true);
    see_order(rt, alloc, polygraph, &[1, 3, 2, 5, 4, 6], false);
}

/// The polygraph of the bipaths, of which there are ten.
fn see_bipaths(rt: &impl Abort, alloc: Global, polygraph: &Polygraph) {
    assert_eq!(rt; polygraph.choices().len(), 10);
    see_orders(rt, alloc, polygraph);
}

#[test]
fn chains_for_their_writers(rt: HostRuntime) {
    let rt = &rt;
    let alloc = rt.alloc();
    let history = clean(rt, alloc, TWO_CHAINS);
    see_bipaths(rt, alloc, &plain(rt, alloc, &history));
    see_orders(rt, alloc, &coalesced(rt, alloc, &history));
}

/// The log's bipaths have a polygraph, and its chains leave one choice.
fn see_chains<R: Threads + Wait + Clock + Abort + Sync>(
    rt: &R,
    alloc: Global,
    log: &str,
    one: (usize, usize),
    two: (usize, usize),
) {
    let history = clean(rt, alloc, log);
    plain(rt, alloc, &history);
    see_choice(rt, &coalesced(rt, alloc, &history), one, two);
}

#[test]
fn a_choice_of_two_chains(rt: HostRuntime) {
    let rt = &rt;
    let alloc = rt.alloc();
    see_chains(rt, alloc, TWO_CHAINS, (5, 3), (6, 1));
    see_chains(rt, alloc, TWO_WRITERS, (1, 2), (2, 1));
    see_chains(rt, alloc, READER_OF_ONE, (3, 2), (2, 1));
}
