//! Times the crates of graphs, for `bench/graphs.sh`: `graph_bench made` takes graphs of 1,000
//! nodes, dense and sparse ones, `graph_bench log FILE` the history of a log, and `graph_bench
//! prune FILE` lists what pruning keeps.
#![tactic(auto)]

ghost use Rattle.std.specs.Prelude.{◌≡◌};
ghost use Rattle.known_graph.specs.Graphs.{arc_graph};
ghost use Rattle.serializability.specs.Reads.{IsClean};
ghost use Rattle.log_definitions.specs.Numbers.{log_of};

use anomalies::classify;
use coalesce::coalesce;
use cobra_cli::{CountedRead, read_all, read_log};
use desk::gate::OpenGate;
use desk::seat_no::Workers;
use known_graph::Known;
use ledger_checks::check_ledger;
use polygraph::{Polygraph, bipaths};
use prune_ledger::{Ledger, Pruned, prune};
use pruning_laws::Side;
use reach_rows::Rows;
use serializability::{MAX_NODES, NodeIx};
use session_history::History;
use session_log::MAX_LOG_BYTES;
use std::alloc::Global;
use std::io::Print;
use std::rt::Runtime;
use std::sync::Wait;
use std::thread::Threads;
use std::time::{Clock, Instant};
use std::{env, fs, io};
use write_chains::{Chains, chains};

/// Prints how long something took.
fn told<R: Print + Clock>(rt: &R, what: &str, start: Instant) -> io::Result<()> {
    let micros = start.elapsed(rt)?.as_micros();
    println!(rt; "{what}: {micros} us")
}

fn add(known: &mut Known, u: usize, v: usize) {
    if let (Some(u), Some(v)) = (NodeIx::new(u), NodeIx::new(v)) {
        if u.get() <= known.nodes() && v.get() <= known.nodes() {
            known.add_edge(u, v);
        }
    }
}

/// A graph with an edge from each node to each greater one.
fn dense(alloc: Global) -> io::Result<Known> {
    let mut known = Known::new(alloc, MAX_NODES)?;
    for u in 1..MAX_NODES + 1 {
        for v in u + 1..MAX_NODES + 1 {
            add(&mut known, u, v);
        }
    }
    Ok(known)
}

/// A graph with an edge from each node but node 0 to each other one.
fn complete(alloc: Global) -> io::Result<Known> {
    let mut known = dense(alloc)?;
    for u in 1..MAX_NODES + 1 {
        for v in 1..u {
            add(&mut known, u, v);
        }
    }
    Ok(known)
}

/// A graph with edges from each node to the next one, and to those 7 and 50 behind it.
fn sparse(alloc: Global) -> io::Result<Known> {
    let mut known = Known::new(alloc, MAX_NODES)?;
    for u in 1..MAX_NODES + 1 {
        for step in [1, 7, 50] {
            add(&mut known, u, u + step);
        }
    }
    Ok(known)
}

/// A graph with edges from each node to the one before it, and to those 7 and 50 before it.
fn sparse_backwards(alloc: Global) -> io::Result<Known> {
    let mut known = Known::new(alloc, MAX_NODES)?;
    for u in 1..MAX_NODES + 1 {
        for step in [1, 7, 50] {
            add(&mut known, u + step, u);
        }
    }
    Ok(known)
}

/// The same graph with an edge from the last node to the one before it.
fn with_a_late_cycle(made: io::Result<Known>) -> io::Result<Known> {
    let mut known = made?;
    add(&mut known, MAX_NODES, MAX_NODES - 1);
    Ok(known)
}

fn time_cycle<R: Print + Clock>(rt: &R, alloc: Global, known: &Known) -> io::Result<()> {
    let start = Instant::now(rt)?;
    let found = known.find_cycle(alloc)?;
    let what = if found.is_some() {
        "find_cycle, one there"
    } else {
        "find_cycle, none there"
    };
    told(rt, what, start)
}

fn time_walk<R: Print + Clock>(
    rt: &R,
    alloc: Global,
    known: &Known,
    ends: (usize, usize),
) -> io::Result<()> {
    let (Some(u), Some(v)) = (NodeIx::new(ends.0), NodeIx::new(ends.1)) else {
        return Ok(());
    };
    if u.get() > known.nodes() || v.get() > known.nodes() {
        return Ok(());
    }
    let start = Instant::now(rt)?;
    let found = known.walk(alloc, u, v)?;
    let what = if found.is_some() {
        "walk, one there"
    } else {
        "walk, none there"
    };
    told(rt, what, start)
}

/// Times the rows of a graph that so many workers compute.
fn time_computed<R: Runtime + Threads + Wait + Sync>(
    rt: &R,
    alloc: Global,
    known: &Known,
    count: u8,
) -> io::Result<()> {
    let Some(workers) = Workers::new(count) else {
        return Ok(());
    };
    let start = Instant::now(rt)?;
    let rows = Rows::compute(rt, alloc, known, workers, &OpenGate)?;
    println!(rt; "workers: {count}")?;
    told(rt, "rows, computed", start)?;
    time_copy(rt, alloc, &rows)
}

fn time_copy<R: Print + Clock>(rt: &R, alloc: Global, rows: &Rows) -> io::Result<()> {
    let start = Instant::now(rt)?;
    let copy = rows.copy(alloc)?;
    let _ = copy.has_cycle();
    told(rt, "rows, copied", start)
}

fn time_rows<R: Runtime + Threads + Wait + Sync>(
    rt: &R,
    alloc: Global,
    known: &Known,
) -> io::Result<()> {
    for count in [1, 2, 4] {
        time_computed(rt, alloc, known, count)?;
    }
    Ok(())
}

/// Times what is done with a graph, where it could be made.
fn time_graph<R: Runtime + Threads + Wait + Sync>(
    rt: &R,
    alloc: Global,
    what: &str,
    made: io::Result<Known>,
) -> io::Result<()> {
    let known = made?;
    println!(rt; "{what}:")?;
    time_cycle(rt, alloc, &known)?;
    time_walk(rt, alloc, &known, (1, MAX_NODES))?;
    time_walk(rt, alloc, &known, (2, 1))?;
    time_rows(rt, alloc, &known)
}

/// Times how a cycle is looked for in a graph, where it could be made.
fn time_cycle_of<R: Print + Clock>(
    rt: &R,
    alloc: Global,
    what: &str,
    made: io::Result<Known>,
) -> io::Result<()> {
    let known = made?;
    println!(rt; "{what}:")?;
    time_cycle(rt, alloc, &known)
}

fn time_graphs<R: Runtime + Threads + Wait + Sync>(rt: &R, alloc: Global) -> io::Result<()> {
    time_graph(rt, alloc, "each to each greater one", dense(alloc))?;
    time_graph(rt, alloc, "each to each other one", complete(alloc))?;
    time_graph(rt, alloc, "three edges from each", sparse(alloc))?;
    let backwards = sparse_backwards(alloc);
    time_cycle_of(rt, alloc, "three edges from each, backwards", backwards)?;
    let late = with_a_late_cycle(dense(alloc));
    time_cycle_of(
        rt,
        alloc,
        "each to each greater one, and a late cycle",
        late,
    )?;
    let late = with_a_late_cycle(sparse(alloc));
    time_cycle_of(rt, alloc, "three edges from each, and a late cycle", late)
}

fn time_bipaths<R: Print + Clock>(rt: &R, alloc: Global, history: &History) -> io::Result<()>
    requires clean { IsClean (log_of history.now) }
{
    let start = Instant::now(rt)?;
    match bipaths(alloc, history) {
        Ok(found) => {
            let count = found.choices().len();
            println!(rt; "choices: {count}")?;
        }
        Err(_) => println!(rt; "no bipaths within the limits")?,
    }
    told(rt, "bipaths", start)
}

fn time_chains<R: Print + Clock>(rt: &R, alloc: Global, history: &History) -> io::Result<()>
    requires clean { IsClean (log_of history.now) }
{
    let start = Instant::now(rt)?;
    let known = Known::of(alloc, history)?;
    told(rt, "arcs", start)?;
    let start = Instant::now(rt)?;
    let found = chains(alloc, history)?;
    told(rt, "chains", start)?;
    match found {
        Ok(found) => time_coalescing(rt, alloc, history, &found, known),
        Err(_) => println!(rt; "a chain closes on itself"),
    }
}

fn time_coalescing<R: Print + Clock>(
    rt: &R,
    alloc: Global,
    history: &History,
    chains: &Chains<'_>,
    known: Known,
) -> io::Result<()>
    requires clean { IsClean (log_of history.now) }
    requires chains { chains.now ≡ history.now }
    requires arcs { known ≡ arc_graph (log_of history.now) }
{
    let start = Instant::now(rt)?;
    match coalesce(alloc, history, chains, known) {
        Ok(poly) => {
            let count = poly.choices().len();
            println!(rt; "choices: {count}")?;
        }
        Err(_) => println!(rt; "no coalesced choices within the limits")?,
    }
    told(rt, "coalesce", start)
}

/// The chain polygraph; nothing where there is none.
fn chain_polygraph(alloc: Global, history: &History) -> io::Result<Option<Polygraph>>
    requires clean { IsClean (log_of history.now) }
{
    let known = Known::of(alloc, history)?;
    let Ok(found) = chains(alloc, history)? else {
        return Ok(None);
    };
    Ok(coalesce(alloc, history, &found, known).ok())
}

/// What pruning by so many workers leaves of the chain polygraph; nothing where there is none.
fn pruned<R: Threads + Wait + Clock + Sync>(
    rt: &R,
    alloc: Global,
    history: &History,
    count: u8,
) -> io::Result<Option<Pruned>>
    requires clean { IsClean (log_of history.now) }
{
    match (Workers::new(count), chain_polygraph(alloc, history)?) {
        (Some(workers), Some(poly)) => Ok(Some(prune(rt, alloc, poly, workers, &OpenGate)?)),
        _ => Ok(None),
    }
}

fn time_pruning<R: Print + Threads + Wait + Clock + Sync>(
    rt: &R,
    alloc: Global,
    history: &History,
    count: u8,
) -> io::Result<()>
    requires clean { IsClean (log_of history.now) }
{
    let start = Instant::now(rt)?;
    match pruned(rt, alloc, history, count)? {
        Some(found) => tell_pruned(rt, count, &found)?,
        None => return println!(rt; "not pruned"),
    }
    told(rt, "arcs, chains, coalesce and prune", start)
}

/// Prints how much pruning by so many workers keeps and leaves.
fn tell_pruned<R: Print>(rt: &R, count: u8, found: &Pruned) -> io::Result<()> {
    println!(rt; "workers: {count}")?;
    match found {
        Pruned::Open(reduced) => {
            let open = reduced.poly().choices().len();
            let kept = reduced.ledger().entries.len();
            println!(rt; "open: {open}, kept: {kept}")
        }
        Pruned::Dead(_ledger) => println!(rt; "dead"),
    }
}

/// Prints what pruning keeps: the number of a choice, and which side of it.
fn list_ledger<R: Print>(rt: &R, ledger: &Ledger) -> io::Result<()> {
    for entry in &ledger.entries {
        let number = entry.post.choice.get();
        let side = match entry.post.side {
            Side::One => 2,
            Side::Two => 1,
        };
        println!(rt; "kept {number} {side}")?;
    }
    Ok(())
}

/// Lists what pruning keeps, and how many choices it leaves.
fn list_pruned<R: Print>(rt: &R, found: &Pruned) -> io::Result<()> {
    match found {
        Pruned::Open(reduced) => {
            list_ledger(rt, reduced.ledger())?;
            let open = reduced.poly().choices().len();
            println!(rt; "open {open}")
        }
        Pruned::Dead(_ledger) => println!(rt; "dead"),
    }
}

fn list_pruning<R: Print + Threads + Wait + Clock + Sync>(
    rt: &R,
    alloc: Global,
    history: &History,
    count: u8,
) -> io::Result<()>
    requires clean { IsClean (log_of history.now) }
{
    println!(rt; "workers {count}")?;
    match pruned(rt, alloc, history, count)? {
        Some(found) => list_pruned(rt, &found),
        None => println!(rt; "not pruned"),
    }
}

/// The ledger of what pruning keeps.
fn ledger_of(found: &Pruned) -> &Ledger {
    match found {
        Pruned::Open(reduced) => reduced.ledger(),
        Pruned::Dead(ledger) => ledger,
    }
}

fn time_check<R: Print + Clock>(rt: &R, whole: &Polygraph, ledger: &Ledger) -> io::Result<()> {
    let start = Instant::now(rt)?;
    let valid = check_ledger(whole, ledger);
    println!(rt; "ledger valid: {valid}")?;
    told(rt, "check_ledger", start)
}

/// Times the check of what pruning by one worker keeps of a polygraph.
fn time_check_of<R: Print + Threads + Wait + Clock + Sync>(
    rt: &R,
    alloc: Global,
    history: &History,
    whole: &Polygraph,
) -> io::Result<()>
    requires clean { IsClean (log_of history.now) }
{
    match pruned(rt, alloc, history, 1)? {
        Some(found) => time_check(rt, whole, ledger_of(&found)),
        None => Ok(()),
    }
}

fn time_ledger<R: Print + Threads + Wait + Clock + Sync>(
    rt: &R,
    alloc: Global,
    history: &History,
) -> io::Result<()>
    requires clean { IsClean (log_of history.now) }
{
    match chain_polygraph(alloc, history)? {
        Some(whole) => time_check_of(rt, alloc, history, &whole),
        None => Ok(()),
    }
}

/// Times the bipaths, the chains and pruning of a clean history.
fn time_each<R: Print + Threads + Wait + Clock + Sync>(
    rt: &R,
    alloc: Global,
    history: &History,
) -> io::Result<()>
    requires clean { IsClean (log_of history.now) }
{
    time_bipaths(rt, alloc, history)?;
    time_chains(rt, alloc, history)?;
    time_pruning(rt, alloc, history, 1)?;
    time_pruning(rt, alloc, history, 2)?;
    time_pruning(rt, alloc, history, 4)?;
    time_ledger(rt, alloc, history)
}

/// Lists what pruning keeps with 1, 2 and 16 workers.
fn list_with_each<R: Print + Threads + Wait + Clock + Sync>(
    rt: &R,
    alloc: Global,
    history: &History,
) -> io::Result<()>
    requires clean { IsClean (log_of history.now) }
{
    list_pruning(rt, alloc, history, 1)?;
    list_pruning(rt, alloc, history, 2)?;
    list_pruning(rt, alloc, history, 16)
}

fn with_clean<R: Print + Threads + Wait + Clock + Sync>(
    rt: &R,
    alloc: Global,
    history: &History,
    timed: bool,
) -> io::Result<()>
    requires clean { IsClean (log_of history.now) }
{
    if timed {
        time_each(rt, alloc, history)
    } else {
        list_with_each(rt, alloc, history)
    }
}

fn with_history<R: Print + Threads + Wait + Clock + Sync>(
    rt: &R,
    alloc: Global,
    history: &History,
    timed: bool,
) -> io::Result<()> {
    if history.committed() > MAX_NODES {
        return Ok(());
    }
    match classify(alloc, history)? {
        Some(_) => println!(rt; "the history has an anomaly"),
        None => with_clean(rt, alloc, history, timed),
    }
}

/// Times how the history of a log is read, and what is made of it.
fn time_history<R: Print + Threads + Wait + Clock + Sync>(
    rt: &R,
    alloc: Global,
    log: &[u8],
    timed: bool,
) -> io::Result<()> {
    let Some(workers) = Workers::new(4) else {
        return Ok(());
    };
    let start = Instant::now(rt)?;
    let Ok(history) = read_log(rt, alloc, log, workers, &OpenGate) else {
        return println!(rt; "the log is refused");
    };
    if timed {
        told(rt, "log read", start)?;
    }
    with_history(rt, alloc, &history, timed)
}

fn time_log<R: Runtime + Threads + Wait + Sync>(
    rt: &R,
    alloc: Global,
    path: &str,
    timed: bool,
) -> io::Result<()> {
    let mut source = CountedRead {
        reader: fs::open(rt, path)?,
        failures: 0,
    };
    match read_all(alloc, &mut source, MAX_LOG_BYTES) {
        Ok(log) => time_history(rt, alloc, &log, timed),
        Err(_) => println!(rt; "the log cannot be read"),
    }
}

fn main(rt: HostRuntime) -> io::Result<()> {
    let words: Vec<String> = env::args(&rt)?.collect(rt.alloc())?;
    match words.get(1) {
        None => Ok(()),
        Some(word) => match words.get(2) {
            Some(path) => time_log(&rt, rt.alloc(), path, word.as_str() == "log"),
            None => time_graphs(&rt, rt.alloc()),
        },
    }
}
