ghost use Rattle.std.specs.Prelude.{◌≡◌, ◌≤◌, ◌≢◌};
ghost use Rattle.polygraph.specs.Polygraphs.{JoinsBoth};

use crate::graphs::{PATHS, double, eight_nodes, either, index, known, single};
use branching::turns::turn;
use branching::{Alternate, ByWords, CubeView, FirstOpen, Forced, LeastEdges, MostEdges, Strategy};
use cube_laws::CubeEvent;
use desk::gate::OpenGate;
use desk::seat_no::Workers;
use polygraph::{Choice, Polygraph};
use prune_ledger::{Pruned, Reduced, prune};
use pruning_laws::Side;
use session_history::NodeLine;
use std::alloc::Global;
use std::process::Abort;
use std::sync::Wait;
use std::thread::Threads;
use std::time::Clock;

/// What pruning leaves, where that is not dead.
fn reduced<R: Threads + Wait + Clock + Abort + Sync>(
    rt: &R,
    alloc: Global,
    polygraph: Polygraph,
) -> Reduced {
    let workers = Workers::new(1).expect(rt, "one worker");
    match prune(rt, alloc, polygraph, workers, &OpenGate).expect(rt, "memory") {
        Pruned::Open(reduced) => reduced,
        Pruned::Dead(_) => panic!(rt; "dead"),
    }
}

fn decide(rt: &impl Abort, view: &mut CubeView<'_>, number: usize, side: Side)
    ensures { view.new.polygraph ≡ view.old.polygraph }
{
    let choice = index(rt, number);
    assert!(rt; view.is_open(choice));
    view.decide(choice, side);
    assert!(rt; number < view.count());
    assert!(rt; view.side_of(choice) == Some(side));
}

/// The strategy picks this choice and this side first.
fn see(rt: &impl Abort, view: &CubeView<'_>, strategy: &impl Strategy, number: usize, side: Side) {
    let picked = strategy.pick(view);
    let choice = picked.expect(rt, "an open choice");
    assert_eq!(rt; choice.get(), number);
    assert!(rt; number < view.count());
    assert!(rt; strategy.first_side(view, choice) == side);
}

fn see_line(rt: &impl Abort, line: &NodeLine, want: &[usize]) {
    assert_eq!(rt; line.nodes().len(), want.len());
    for (node, number) in line.nodes().iter().zip(want) {
        assert_eq!(rt; node.get(), *number);
    }
}

fn words(rt: &impl Abort, alloc: Global) -> ByWords {
    let mut words = Vec::new(alloc);
    words.push(5).expect(rt, "memory");
    words.push(2).expect(rt, "memory");
    ByWords::new(words)
}

/// Two strategies, before a choice is decided and after it.
fn see_in_turn(
    rt: &impl Abort,
    view: &mut CubeView<'_>,
    by_words: &impl Strategy,
    both: &impl Strategy,
) {
    see(rt, view, by_words, 1, Side::Two);
    see(rt, view, both, 0, Side::One);
    decide(rt, view, 0, Side::One);
    see(rt, view, by_words, 1, Side::One);
    see(rt, view, both, 1, Side::One);
    view.restart();
    assert_eq!(rt; view.depth(), 0);
}

#[test]
fn strategies_by_words_and_in_turn(rt: HostRuntime) {
    let rt = &rt;
    let alloc = rt.alloc();
    let reduced = reduced(rt, alloc, eight_nodes(rt, alloc));
    let mut view = CubeView::new(alloc, &reduced).expect(rt, "memory");
    see(rt, &view, &ByWords::new(Vec::new(alloc)), 0, Side::One);
    let both = Alternate::new(MostEdges, words(rt, alloc));
    see_in_turn(rt, &mut view, &words(rt, alloc), &both);
}

/// A choice of more edges.
fn of_more(rt: &impl Abort, alloc: Global) -> Choice
    ensures { JoinsBoth 6 result }
{
    Choice::new(double(rt, alloc, 6, (4, 5), (4, 6)), single(rt, 6, (5, 4)))
}

/// Six nodes and choices of one edge a side between nodes 1 and 2, 2 and 3, 1 and 3, 3 and 1 again,
/// and one of more edges between 4, 5 and 6.
fn six_nodes(rt: &impl Abort, alloc: Global) -> Polygraph {
    let mut choices = Vec::new(alloc);
    choices.push(either(rt, 6, (1, 2))).expect(rt, "memory");
    choices.push(either(rt, 6, (2, 3))).expect(rt, "memory");
    choices.push(either(rt, 6, (1, 3))).expect(rt, "memory");
    choices.push(either(rt, 6, (3, 1))).expect(rt, "memory");
    choices.push(of_more(rt, alloc)).expect(rt, "memory");
    Polygraph::new(known(rt, alloc, 6, &[]), choices)
}

/// Decides a choice for side one; the strategy by forced choices then picks another one.
fn see_forced(rt: &impl Abort, view: &mut CubeView<'_>, decided: usize, forced: usize, side: Side)
    ensures { view.new.polygraph ≡ view.old.polygraph }
{
    decide(rt, view, decided, Side::One);
    see(rt, view, &Forced, forced, side);
}

/// Decides one choice more, and goes back to what was saved before it.
fn see_restored(rt: &impl Abort, alloc: Global, view: &mut CubeView<'_>) {
    let saved = view.save(alloc).expect(rt, "memory");
    see_forced(rt, view, 2, 3, Side::Two);
    view.restore(&saved);
    assert_eq!(rt; view.depth(), 2);
    see(rt, view, &Forced, 2, Side::One);
}

#[test]
fn forced_choices_are_picked_first(rt: HostRuntime) {
    let rt = &rt;
    let alloc = rt.alloc();
    let reduced = reduced(rt, alloc, six_nodes(rt, alloc));
    let mut view = CubeView::new(alloc, &reduced).expect(rt, "memory");
    see_forced(rt, &mut view, 1, 4, Side::One);
    see_forced(rt, &mut view, 0, 2, Side::One);
    see_restored(rt, alloc, &mut view);
}

fn see_split(rt: &impl Abort, event: &CubeEvent, number: usize) {
    match event {
        CubeEvent::Split(choice) => assert_eq!(rt; choice.get(), number),
        _ => panic!(rt; "no split"),
    }
}

fn see_cycle(rt: &impl Abort, event: &CubeEvent, want: &[usize]) {
    match event {
        CubeEvent::Refute(line) => see_line(rt, line, want),
        _ => panic!(rt; "no cycle"),
    }
}

fn see_order(rt: &impl Abort, event: &CubeEvent, want: &[usize]) {
    match event {
        CubeEvent::Solve(line) => see_line(rt, line, want),
        _ => panic!(rt; "no order"),
    }
}

#[test]
fn a_turn_splits_and_refutes(rt: HostRuntime) {
    let rt = &rt;
    let alloc = rt.alloc();
    let reduced = reduced(rt, alloc, eight_nodes(rt, alloc));
    let mut view = CubeView::new(alloc, &reduced).expect(rt, "memory");
    let event = turn(alloc, &reduced, &view, &FirstOpen).expect(rt, "memory");
    see_split(rt, &event, 0);
    decide(rt, &mut view, 0, Side::One);
    decide(rt, &mut view, 1, Side::Two);
    let event = turn(alloc, &reduced, &view, &FirstOpen).expect(rt, "memory");
    see_cycle(rt, &event, &[2, 8, 3, 5, 2]);
}

#[test]
fn nodes_that_reach_as_many_go_by_number(rt: HostRuntime) {
    let rt = &rt;
    let alloc = rt.alloc();
    let polygraph = Polygraph::new(known(rt, alloc, 8, &PATHS), Vec::new(alloc));
    let reduced = reduced(rt, alloc, polygraph);
    let view = CubeView::new(alloc, &reduced).expect(rt, "memory");
    let event = turn(alloc, &reduced, &view, &FirstOpen).expect(rt, "memory");
    see_order(rt, &event, &[1, 2, 3, 4, 5, 6, 7, 8]);
}

#[test]
fn words_of_the_strategies(rt: HostRuntime) {
    for (name, want) in [
        (<FirstOpen as Strategy>::NAME, "first"),
        (<MostEdges as Strategy>::NAME, "most"),
        (<LeastEdges as Strategy>::NAME, "least"),
        (<Forced as Strategy>::NAME, "forced"),
        (<ByWords as Strategy>::NAME, "words"),
        (
            <Alternate<FirstOpen, MostEdges> as Strategy>::NAME,
            "alternate",
        ),
    ] {
        assert_eq!(rt; name, want);
    }
}
