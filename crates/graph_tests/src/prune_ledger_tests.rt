ghost use Rattle.std.specs.Prelude.{◌≡◌};
ghost use Rattle.polygraph.specs.Polygraphs.{JoinsBoth};

use crate::logs::workers;
use crate::node::{join, node};
use desk::desk::Desk;
use desk::gate::{Gate, OpenGate};
use desk::machine::Machine;
use desk::naming::Naming;
use desk::opened::Opened;
use desk::seat_no::SeatNo;
use known_graph::Known;
use ledger_checks::check_ledger;
use log_tests::holding::Holding;
use polygraph::{Choice, ChoiceIx, Edges, Polygraph};
use prune_ledger::laws::{RowedGraph, Task, work};
use prune_ledger::machine::PruneMachine;
use prune_ledger::messages::{PruneEvent, PruneReply, Refutation};
use prune_ledger::{Ledger, Pruned, judge, prune};
use pruning_laws::Side;
use reach_laws::Edge;
use reach_rows::Rows;
use std::alloc::Global;
use std::marker::Brand;
use std::process::Abort;
use std::sync::Wait;
use std::sync::atomic::{AtomicU64, Ordering};
use std::test::*;
use std::thread;
use std::thread::Threads;
use std::time::Clock;

fn edge(rt: &impl Abort, ends: (usize, usize)) -> Edge
    ensures { result ≡ (ends.0, ends.1) }
{
    Edge::new(node(rt, ends.0), node(rt, ends.1))
}

fn choice(rt: &impl Abort, one: (usize, usize), two: (usize, usize)) -> Choice
    ensures { JoinsBoth 5 result }
{
    assert!(rt; one.0 <= 5 && one.1 <= 5 && one.0 != one.1);
    assert!(rt; two.0 <= 5 && two.1 <= 5 && two.0 != two.1);
    Choice::new(Edges::single(edge(rt, one)), Edges::single(edge(rt, two)))
}

/// Five transactions: the first stands before the second and is read by the third, which the fourth
/// reads, which the fifth reads. Where `dead`, the fifth also reads the second.
fn polygraph(rt: &impl Abort, alloc: Global, dead: bool) -> Polygraph {
    let mut known = Known::new(alloc, 5).expect(rt, "memory");
    for (u, v) in [(1, 2), (1, 3), (3, 4), (4, 5)] {
        join(rt, &mut known, u, v);
    }
    if dead {
        join(rt, &mut known, 2, 5);
    }
    assert_eq!(rt; known.nodes(), 5);
    let first = choice(rt, (3, 2), (2, 1));
    let second = choice(rt, (2, 3), (4, 2));
    let third = choice(rt, (2, 4), (5, 2));
    let choices = Vec::from_array(alloc, [first, second, third]);
    Polygraph::new(known, choices.expect(rt, "memory"))
}

fn machine(rt: &impl Abort, alloc: Global, dead: bool) -> PruneMachine {
    let (known, choices) = polygraph(rt, alloc, dead).into_parts();
    PruneMachine::opening(alloc, choices, known).expect(rt, "memory")
}

fn index(rt: &impl Abort, number: usize) -> ChoiceIx {
    ChoiceIx::new(number).expect(rt, "a choice")
}

fn post(
    rt: &impl Abort,
    alloc: Global,
    choice: usize,
    side: Side,
    ends: (usize, usize),
) -> PruneEvent {
    let edge = edge(rt, ends);
    let walk = vec![in alloc; edge.target(), edge.source()].expect(rt, "memory");
    PruneEvent::Post(Refutation {
        choice: index(rt, choice),
        side,
        edge,
        walk,
    })
}

fn see(rt: &impl Abort, machine: &mut PruneMachine, seat: u8, event: PruneEvent, want: PruneReply) {
    let seat = SeatNo::new(seat).expect(rt, "a seat");
    assert!(rt; machine.step(seat, &event) == want);
}

/// The seat takes this choice to judge.
fn see_judged(rt: &impl Abort, machine: &mut PruneMachine, seat: u8, choice: usize) {
    let judged = PruneReply::Judge(index(rt, choice));
    see(rt, machine, seat, PruneEvent::Take, judged);
}

#[test]
fn steps_of_two_seats(rt: HostRuntime) {
    let rt = &rt;
    let alloc = rt.alloc();
    let mut machine = machine(rt, alloc, false);
    let machine = &mut machine;
    see_judged(rt, machine, 1, 0);
    see_judged(rt, machine, 2, 1);
    let early = post(rt, alloc, 1, Side::One, (2, 3));
    see(rt, machine, 2, early, PruneReply::BadWalk);
    let first = post(rt, alloc, 0, Side::Two, (2, 1));
    see(rt, machine, 1, first, PruneReply::Entered);
    let second = post(rt, alloc, 1, Side::One, (2, 3));
    see(rt, machine, 2, second, PruneReply::Entered);
    let again = post(rt, alloc, 0, Side::Two, (2, 1));
    see(rt, machine, 2, again, PruneReply::AlreadyIn);
    see_judged(rt, machine, 1, 2);
    see(
        rt,
        machine,
        1,
        PruneEvent::Pass(index(rt, 2)),
        PruneReply::Noted,
    );
    see(rt, machine, 2, PruneEvent::Take, PruneReply::NoneLeft);
    let stranger = post(rt, alloc, 3, Side::One, (2, 4));
    see(rt, machine, 2, stranger, PruneReply::BadWalk);
}

#[test]
fn steps_of_a_seat_until_it_is_dead(rt: HostRuntime) {
    let rt = &rt;
    let alloc = rt.alloc();
    let mut machine = machine(rt, alloc, true);
    let machine = &mut machine;
    for (number, side, ends) in [
        (2, Side::Two, (5, 2)),
        (0, Side::Two, (2, 1)),
        (1, Side::One, (2, 3)),
        (1, Side::Two, (4, 2)),
    ] {
        let event = post(rt, alloc, number, side, ends);
        see(rt, machine, 1, event, PruneReply::Entered);
    }
    see(rt, machine, 1, PruneEvent::Take, PruneReply::Dead);
    see(rt, machine, 1, PruneEvent::Release, PruneReply::Released);
}

/// Counts the rounds, by turn 0 of seat 1.
#[derive(Drop)]
struct Counting {
    rounds: AtomicU64,
}

impl Gate for Counting {
    fn pass<R: Wait + Clock>(&self, _rt: &R, seat: SeatNo, turn: u64) {
        if seat.get() == 1 && turn == 0 {
            self.rounds.fetch_add(1, Ordering::SeqCst);
        }
    }
}

/// The ledger of what is open, with its polygraph's choices counted.
fn ledger_of(rt: &impl Abort, pruned: Pruned, open: bool) -> Ledger {
    match pruned {
        Pruned::Dead(ledger) => {
            assert!(rt; !open);
            ledger
        }
        Pruned::Open(reduced) => {
            assert!(rt; open);
            let (poly, rows, ledger) = reduced.into_parts();
            assert_eq!(rt; poly.choices().len(), 0);
            assert!(rt; !rows.has_cycle());
            ledger
        }
    }
}

/// The choice of each entry, and whether its side one is refused.
fn see_refused(rt: &impl Abort, ledger: &Ledger, wanted: &[(usize, bool)]) {
    assert_eq!(rt; ledger.entries.len(), wanted.len());
    for (entry, want) in ledger.entries.iter().zip(wanted) {
        assert_eq!(rt; entry.post.choice.get(), want.0);
        assert_eq!(rt; entry.post.side == Side::One, want.1);
    }
}

/// Whether the ledger is valid, and is not once its first walk is reversed.
fn see_ledger(rt: &impl Abort, polygraph: &Polygraph, ledger: Ledger) {
    assert!(rt; check_ledger(polygraph, &ledger));
    let Ledger { mut entries, cycle } = ledger;
    assert!(rt; entries.len() > 0);
    entries[0].post.walk.reverse();
    assert!(rt; !check_ledger(polygraph, &Ledger { entries, cycle }));
}

#[test]
fn two_rounds_keep_three_sides(rt: HostRuntime) -> Result<(), Fail> {
    let alloc = rt.alloc();
    let gate = Counting {
        rounds: AtomicU64::new(0),
    };
    let all = polygraph(&rt, alloc, false);
    let pruned = prune(&rt, alloc, all, workers(&rt, 1), &gate)?;
    let ledger = ledger_of(&rt, pruned, true);
    assert_eq!(rt; gate.rounds.load(Ordering::SeqCst), 2);
    see_refused(&rt, &ledger, &[(0, false), (1, true), (2, true)]);
    assert!(rt; ledger.cycle.is_none());
    see_ledger(&rt, &polygraph(&rt, alloc, false), ledger);
    Ok(())
}

#[test]
fn dead_with_any_number_of_workers(rt: HostRuntime) -> Result<(), Fail> {
    let alloc = rt.alloc();
    for count in [1, 2, 16] {
        let all = polygraph(&rt, alloc, true);
        let pruned = prune(&rt, alloc, all, workers(&rt, count), &OpenGate)?;
        let ledger = ledger_of(&rt, pruned, false);
        assert!(rt; ledger.cycle.is_some());
        see_ledger(&rt, &polygraph(&rt, alloc, true), ledger);
    }
    Ok(())
}

#[test]
fn each_of_two_workers_takes_part(rt: HostRuntime) -> Result<(), Fail> {
    let alloc = rt.alloc();
    for held in [1, 2] {
        let gate = Holding::new(held);
        let all = polygraph(&rt, alloc, false);
        let pruned = prune(&rt, alloc, all, workers(&rt, 2), &gate)?;
        let ledger = ledger_of(&rt, pruned, true);
        assert!(rt; !gate.has_missed());
        assert_eq!(rt; ledger.entries.len(), 3);
        assert!(rt; ledger.entries[0].seat.get() != held);
        let free = ledger
            .entries
            .iter()
            .filter(|entry| entry.seat.get() != held);
        assert!(rt; free.count() as u64 / 2 <= gate.free_turns());
    }
    Ok(())
}

#[test]
fn two_threads_work_at_a_desk(rt: HostRuntime) -> Result<(), Fail> {
    let alloc = rt.alloc();
    let opened = Opened::new(alloc, machine(&rt, alloc, false), workers(&rt, 2))?;
    let polygraph = polygraph(&rt, alloc, false);
    let known = polygraph.known().copy(alloc)?;
    let rows = Rows::compute(&rt, alloc, &known, workers(&rt, 1), &OpenGate)?;
    let start = RowedGraph::new(known, rows);
    let first = polygraph.choice(index(&rt, 0)).ok_or("a choice")?;
    let verdict = judge(start.rows(), first);
    assert!(rt; verdict.one.is_none() && verdict.two.is_some());
    work_together::<Brand, _>(&rt, alloc, opened, &polygraph, &start);
    Ok(())
}

fn work_together<'x, J: Naming + Send + Sync, R: Threads + Wait + Clock + Abort + Sync>(
    rt: &'x R,
    alloc: Global,
    opened: Opened<PruneMachine>,
    polygraph: &'x Polygraph,
    start: &'x RowedGraph,
)
    requires names { J.names ≡ opened.names }
    requires desk { J.desk ≡ opened.desk }
    requires nodes { start.now.nodes ≡ polygraph.now.nodes }
{
    let (desk, seats) = Desk::<PruneMachine, J>::open(alloc, opened).expect(rt, "memory");
    let task = &Task {
        rt,
        alloc,
        desk: &desk,
        polygraph,
        start,
        gate: &OpenGate,
    };
    let done = thread::map_vec(
        rt,
        seats,
        &|seat|
            requires { task.now.start.now.nodes ≡ task.now.polygraph.now.nodes }
        { work(task, seat) },
    )
    .expect(rt, "memory");
    let mut passed: usize = 0;
    let mut lefts = Vec::new(alloc);
    for (left, list) in done {
        passed = passed.wrapping_add(list.expect(rt, "memory").len());
        lefts.push(left).expect(rt, "memory");
    }
    let closed = desk.close(lefts).ok().expect(rt, "each seat has left");
    let entered = closed
        .history
        .iter()
        .filter(|step| step.reply == PruneReply::Entered);
    assert_eq!(rt; passed.wrapping_add(entered.count()), 3);
}
