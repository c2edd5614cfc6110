use crate::graphs::{eight_nodes, either, index, known, node};
use cube_laws::{CubeEvent, CubeReply};
use cube_machine::{Budget, CubeMachine, Origin, OriginRow};
use desk::machine::Machine;
use desk::seat_no::SeatNo;
use polygraph::Polygraph;
use pruning_laws::Side;
use session_history::NodeLine;
use std::alloc::Global;
use std::process::Abort;
use std::test::*;

fn budget(rt: &impl Abort, number: usize) -> Budget {
    Budget::new(number).expect(rt, "a budget")
}

fn line(rt: &impl Abort, alloc: Global, numbers: &[usize]) -> NodeLine {
    let mut nodes = Vec::new(alloc);
    for &number in numbers {
        nodes.push(node(rt, number)).expect(rt, "memory");
    }
    NodeLine::from_nodes(nodes)
}

fn see(rt: &impl Abort, machine: &mut CubeMachine, seat: u8, event: CubeEvent, want: CubeReply) {
    let seat = SeatNo::new(seat).expect(rt, "a seat");
    let reply = machine.step(seat, &event);
    assert_eq!(rt; reply, want);
}

fn splits(rt: &impl Abort, machine: &mut CubeMachine, seat: u8, choice: usize, want: CubeReply) {
    see(rt, machine, seat, CubeEvent::Split(index(rt, choice)), want);
}

fn waits(rt: &impl Abort, machine: &CubeMachine, seat: u8, event: CubeEvent) -> bool {
    let seat = SeatNo::new(seat).expect(rt, "a seat");
    machine.waits(seat, &event)
}

#[test]
fn steps_until_a_side_is_refuted(rt: HostRuntime) {
    let rt = &rt;
    let alloc = rt.alloc();
    let polygraph = eight_nodes(rt, alloc);
    let few = budget(rt, 7);
    let row = OriginRow::new(alloc, few).expect(rt, "memory");
    let machine = &mut CubeMachine::opening(alloc, &polygraph, few, &row).expect(rt, "memory");
    see(rt, machine, 1, CubeEvent::TakeAny, CubeReply::Cube(0));
    see(rt, machine, 1, CubeEvent::Claim(0), CubeReply::HasCube);
    see(rt, machine, 2, CubeEvent::Claim(0), CubeReply::NotOpen);
    splits(rt, machine, 2, 0, CubeReply::NoCube);
    splits(rt, machine, 1, 2, CubeReply::BadChoice);
    splits(rt, machine, 1, 0, CubeReply::Children(1, 2));
    see(rt, machine, 1, CubeEvent::Claim(1), CubeReply::Cube(1));
    splits(rt, machine, 1, 0, CubeReply::BadChoice);
    splits(rt, machine, 1, 1, CubeReply::Children(3, 4));
    see(rt, machine, 2, CubeEvent::TakeAny, CubeReply::Cube(4));
    let not_here = CubeEvent::Refute(line(rt, alloc, &[2, 7, 4, 6, 2]));
    see(rt, machine, 2, not_here, CubeReply::BadCycle);
    let cycle = CubeEvent::Refute(line(rt, alloc, &[2, 8, 3, 5, 2]));
    see(rt, machine, 2, cycle, CubeReply::Closed);
    see(rt, machine, 1, CubeEvent::Claim(3), CubeReply::Cube(3));
    let cycle = CubeEvent::Refute(line(rt, alloc, &[2, 7, 4, 6, 2]));
    see(rt, machine, 1, cycle, CubeReply::Closed);
    assert_eq!(rt; machine.closed(), 4);
    assert!(rt; row.origin(4).is_some() && row.origin(5).is_none());
    assert_eq!(rt;
        row.origin(3),
        Some(Origin {
            parent: 1,
            choice: index(rt, 1),
            side: Side::One
        })
    );
}

#[test]
fn steps_with_a_release(rt: HostRuntime) {
    let rt = &rt;
    let alloc = rt.alloc();
    let polygraph = eight_nodes(rt, alloc);
    let few = budget(rt, 7);
    let row = OriginRow::new(alloc, few).expect(rt, "memory");
    let machine = &mut CubeMachine::opening(alloc, &polygraph, few, &row).expect(rt, "memory");
    see(rt, machine, 1, CubeEvent::Claim(0), CubeReply::Cube(0));
    see(rt, machine, 1, CubeEvent::Release, CubeReply::Released);
    see(rt, machine, 2, CubeEvent::Claim(0), CubeReply::Cube(0));
    see(rt, machine, 1, CubeEvent::Claim(0), CubeReply::NotOpen);
    splits(rt, machine, 2, 1, CubeReply::Children(1, 2));
    splits(rt, machine, 2, 0, CubeReply::NoCube);
    see(rt, machine, 1, CubeEvent::Claim(9), CubeReply::NotOpen);
    see(rt, machine, 1, CubeEvent::TakeAny, CubeReply::Cube(2));
    let order = CubeEvent::Solve(line(rt, alloc, &[1, 2, 3, 4, 5, 6, 7, 8]));
    see(rt, machine, 1, order, CubeReply::BadOrder);
}

/// Two transactions with no edge between them, and a choice of either order.
fn either_order(rt: &impl Abort, alloc: Global) -> Polygraph {
    let choices = Vec::from_array(alloc, [either(rt, 2, (1, 2))]).expect(rt, "memory");
    Polygraph::new(known(rt, alloc, 2, &[]), choices)
}

#[test]
fn steps_until_a_cube_is_solved(rt: HostRuntime) {
    let rt = &rt;
    let alloc = rt.alloc();
    let polygraph = either_order(rt, alloc);
    let few = budget(rt, 3);
    let row = OriginRow::new(alloc, few).expect(rt, "memory");
    let machine = &mut CubeMachine::opening(alloc, &polygraph, few, &row).expect(rt, "memory");
    assert!(rt; !waits(rt, machine, 2, CubeEvent::TakeAny));
    see(rt, machine, 1, CubeEvent::TakeAny, CubeReply::Cube(0));
    assert!(rt; waits(rt, machine, 2, CubeEvent::TakeAny));
    assert!(rt; !waits(rt, machine, 2, CubeEvent::Claim(0)));
    splits(rt, machine, 1, 0, CubeReply::Children(1, 2));
    see(rt, machine, 1, CubeEvent::TakeAny, CubeReply::Cube(2));
    let order = CubeEvent::Solve(line(rt, alloc, &[2, 1]));
    see(rt, machine, 1, order, CubeReply::Solved);
    assert!(rt; machine.is_finished() && !machine.is_exhausted());
    assert_eq!(rt; machine.closed(), 2);
    see(rt, machine, 2, CubeEvent::TakeAny, CubeReply::Finished);
    assert!(rt; !waits(rt, machine, 2, CubeEvent::TakeAny));
    assert!(rt; row.origin(2).is_some() && row.origin(3).is_none());
}

#[test]
fn a_row_gives_back_what_was_noted(rt: HostRuntime) {
    let row = OriginRow::new(rt.alloc(), budget(&rt, 1_000_000)).expect(&rt, "memory");
    for (node, parent, choice, side) in [
        (1, 0, 0, Side::One),
        (3, 2, 99_999, Side::Two),
        (2_000_000, 1_999_999, 99_999, Side::One),
        (1_048_577, 1_048_576, 65_536, Side::Two),
    ] {
        let choice = index(&rt, choice);
        let origin = Origin {
            parent,
            choice,
            side,
        };
        assert!(rt; row.origin(node).is_none());
        row.note(node, origin);
        let noted = row.origin(node).expect(&rt, "an origin");
        assert_eq!(rt; noted, origin);
    }
    for (node, parent) in [(0, 0), (7, 7), (8, 9), (9, 1 << 21), (2_000_001, 1)] {
        let choice = index(&rt, 5);
        let origin = Origin {
            parent,
            choice,
            side: Side::One,
        };
        row.note(node, origin);
        assert!(rt; row.origin(node).is_none());
    }
}
