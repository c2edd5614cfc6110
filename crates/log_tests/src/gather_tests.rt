ghost use Rattle.std.specs.Prelude.{◌≡◌};
ghost use Rattle.session_log.specs.Blocks.{blocks_of};

use crate::holding::Holding;
use crate::session_log_tests::{THREE, read};
use desk::desk::Desk;
use desk::gate::OpenGate;
use desk::machine::Machine;
use desk::naming::Naming;
use desk::opened::Opened;
use desk::seat_no::{SeatNo, Workers};
use gather::{GatherEvent, GatherMachine, GatherReply, collect, parse_piece};
use session_log::{Block, LogFault, Session, cut, print_log};
use std::alloc::Global;
use std::marker::Brand;
use std::process::Abort;
use std::sync::Wait;
use std::test::*;
use std::thread::Threads;
use std::time::Clock;

/// A session whose client was not told how its transaction ended, and one that reads what it wrote.
pub const UNKNOWN: &str =
    "log 2\nsession 1\nbegin\nw x 1\nunknown\nsession 2\nbegin\nr x 1\ncommit\n";

pub const MOMENTS: &str = "log 3\nsession 1\nbegin 1\ncommit 1\nsession 2\nbegin 0\nabort\n";

fn see<'a>(
    rt: &impl Abort,
    machine: &mut GatherMachine<'a>,
    seat: u8,
    event: &GatherEvent<'a>,
    want: GatherReply,
) {
    let seat = SeatNo::new(seat).expect(rt, "a seat");
    let reply = machine.step(seat, event);
    assert_eq!(rt; reply, want);
}

#[test]
fn each_event_has_its_reply(rt: HostRuntime) -> Result<(), Fail> {
    let alloc = rt.alloc();
    let log = THREE.as_bytes();
    let (_, blocks) = cut(alloc, log).ok().ok_or("three blocks")?;
    let first = blocks.first().ok_or("a block")?;
    let put = GatherEvent::Put {
        block: 0,
        parsed: parse_piece(alloc, log, first)?,
    };
    let elsewhere = GatherEvent::Put {
        block: 7,
        parsed: parse_piece(alloc, log, first)?,
    };
    let mut machine = GatherMachine::opening(alloc, log, Vec::from_slice(alloc, &blocks)?)?;
    let machine = &mut machine;
    see(&rt, machine, 1, &GatherEvent::Take, GatherReply::Block(0));
    see(&rt, machine, 2, &GatherEvent::Take, GatherReply::Block(1));
    see(&rt, machine, 1, &GatherEvent::Take, GatherReply::Block(0));
    see(&rt, machine, 2, &put, GatherReply::Stranger);
    see(&rt, machine, 1, &put, GatherReply::Kept);
    see(&rt, machine, 1, &put, GatherReply::Double);
    see(
        &rt,
        machine,
        2,
        &GatherEvent::Release,
        GatherReply::Released,
    );
    see(&rt, machine, 1, &GatherEvent::Take, GatherReply::Block(1));
    see(&rt, machine, 2, &GatherEvent::Take, GatherReply::Block(2));
    see(&rt, machine, 2, &elsewhere, GatherReply::Stranger);
    Ok(())
}

#[test]
fn a_second_put_is_double(rt: HostRuntime) -> Result<(), Fail> {
    let alloc = rt.alloc();
    let log = THREE.as_bytes();
    let (_, blocks) = cut(alloc, log).ok().ok_or("three blocks")?;
    let workers = Workers::new(1).ok_or("one worker")?;
    let machine = GatherMachine::opening(alloc, log, Vec::from_slice(alloc, &blocks)?)?;
    let opened = Opened::new(alloc, machine, workers)?;
    put_twice::<Brand, _>(&rt, alloc, log, &blocks, opened);
    Ok(())
}

fn put_twice<'a, J: Naming, R: Wait + Abort>(
    rt: &R,
    alloc: Global,
    log: &'a [u8],
    blocks: &[Block],
    opened: Opened<GatherMachine<'a>>,
)
    requires names { J.names ≡ opened.names }
    requires desk { J.desk ≡ opened.desk }
    requires blocks { blocks.now ≡ blocks_of log.now }
{
    let (desk, mut seats) = Desk::<GatherMachine<'a>, J>::open(alloc, opened).expect(rt, "memory");
    let mut seat = seats.pop().expect(rt, "a seat");
    let block = blocks.first().expect(rt, "a block");
    for want in [GatherReply::Kept, GatherReply::Double] {
        let taken = desk.call(rt, &mut seat, GatherEvent::Take);
        assert!(rt; taken.is_ok());
        let put = GatherEvent::Put {
            block: 0,
            parsed: parse_piece(alloc, log, block).expect(rt, "memory"),
        };
        let reply = desk.call(rt, &mut seat, put).ok().expect(rt, "memory");
        assert_eq!(rt; reply, want);
    }
    let (reply, left) = desk.leave(rt, seat, GatherEvent::Release);
    assert_eq!(rt; reply, GatherReply::Released);
    let lefts = Vec::from_array(alloc, [left]).expect(rt, "memory");
    let closed = desk.close(lefts).ok().expect(rt, "all have left");
    assert_eq!(rt; closed.history.len(), 5);
}

/// What was read is this fault, or the sessions of this text.
pub fn see_read(
    rt: &impl Abort,
    alloc: Global,
    read: Result<Vec<Session>, LogFault>,
    text: &str,
    fault: Option<LogFault>,
) {
    match read {
        Ok(sessions) => {
            let printed = print_log(alloc, &sessions).expect(rt, "memory");
            assert_eq!(rt; printed.as_slice(), text.as_bytes());
            assert!(rt; fault.is_none());
        }
        Err(found) => assert_eq!(rt; Some(found), fault),
    }
}

/// Reads a log alone and with 1, 3 and 16 workers, and sees the same each time: this fault, or the
/// log's own text.
fn reads_as<R: Threads + Wait + Clock + Abort + Sync>(
    rt: &R,
    alloc: Global,
    log: &str,
    fault: Option<LogFault>,
) {
    see_read(rt, alloc, read(alloc, log.as_bytes()), log, fault);
    for count in [1, 3, 16] {
        let workers = Workers::new(count).expect(rt, "workers");
        let together = collect(rt, alloc, log.as_bytes(), workers, &OpenGate);
        see_read(rt, alloc, together.map(|read| read.1), log, fault);
    }
}

#[test]
fn logs_are_read_as_by_one_thread(rt: HostRuntime) {
    let rt = &rt;
    let alloc = rt.alloc();
    for log in [
        "",
        THREE,
        UNKNOWN,
        MOMENTS,
        "session 1\nsession 1\n",
        "session 1\nbegin\nw x 1\ncommit\nsession 2\nbegin\nw x 1\ncommit\n",
    ] {
        reads_as(rt, alloc, log, None);
    }
    for (log, fault) in [
        (
            "session 1\nbegin\nw x 1\n",
            LogFault::OpenTransaction { line: 2 },
        ),
        (
            "session 1\nbegin\nw x 01\ncommit\n",
            LogFault::BadLine { line: 3 },
        ),
        (
            "session 1\nbegin\nw x 0\ncommit\n",
            LogFault::WriteZero { line: 3 },
        ),
        (
            "session 1\nr x 0\n",
            LogFault::OutsideTransaction { line: 2 },
        ),
        (
            "session 1\nbegin\nw x 1\ncommit",
            LogFault::BadLine { line: 4 },
        ),
        (
            "session 1\nsession 2\nbegin\nw x 0\ncommit\nsession 3\nr x 0\n",
            LogFault::WriteZero { line: 4 },
        ),
        (
            "log 2\nsession 1\nbegin\nunknown\nbegin\ncommit\n",
            LogFault::UnknownNotLast { line: 5 },
        ),
        (
            "log 3\nsession 1\nsession 2\nbegin 5\ncommit 4\n",
            LogFault::EndsBeforeBegin { line: 5 },
        ),
    ] {
        reads_as(rt, alloc, log, Some(fault));
    }
}

#[test]
fn both_workers_take_part(rt: HostRuntime) -> Result<(), Fail> {
    let alloc = rt.alloc();
    let workers = Workers::new(2).ok_or("two workers")?;
    for held in [1, 2] {
        let gate = Holding::new(held);
        let read = collect(&rt, alloc, THREE.as_bytes(), workers, &gate);
        see_read(&rt, alloc, read.map(|read| read.1), THREE, None);
        assert!(rt; !gate.has_missed());
    }
    Ok(())
}
