use dimacs::{AnswerFault, SolverAnswer, read_answer, write_formula};
use order_cnf::{Formula, contradiction};
use output::{Counted, WriteFault};
use std::alloc::Global;
use std::io;
use std::io::{ErrorKind, Write};
use std::process::Abort;
use std::test::Fail;

/// A writer that takes a byte a call, and none from call `good` on.
#[derive(Drop)]
struct Drip {
    taken: Vec<u8>,
    good: usize,
}

impl Write for Drip {
    fn write(&mut self, buf: &[u8]) -> io::Result<usize> {
        if self.good == 0 {
            return if self.taken.len() % 2 == 0 {
                Ok(0)
            } else {
                Err(io::Error::from(ErrorKind::Other))
            };
        }
        self.good -= 1;
        let taken = buf.len().min(1);
        self.taken.extend_from_slice(&buf[..taken])?;
        Ok(taken)
    }

    fn flush(&mut self) -> io::Result<()> {
        Ok(())
    }
}

fn sink_of(alloc: Global, good: usize) -> Counted<Drip> {
    Counted::new(Drip {
        taken: Vec::new(alloc),
        good,
    })
}

const CONTRADICTION: &str = "p cnf 1 2\n1 0\n-1 0\n";

/// As much of the text goes out as was put before the sink failed.
fn see_failing(rt: &impl Abort, alloc: Global, formula: &Formula, good: usize) {
    let text = CONTRADICTION.as_bytes();
    assert!(rt; good < text.len());
    let mut sink = sink_of(alloc, good);
    let written = good as u64;
    assert_eq!(rt;
        write_formula(&mut sink, formula),
        Err(WriteFault { written })
    );
    assert_eq!(rt; sink.writer.taken.as_slice(), &text[..good]);
    assert_eq!(rt; sink.failures, 1);
}

/// All of the text goes out.
fn see_sound(rt: &impl Abort, alloc: Global, formula: &Formula) {
    let text = CONTRADICTION.as_bytes();
    let mut sink = sink_of(alloc, text.len());
    assert_eq!(rt; write_formula(&mut sink, formula), Ok(()));
    assert_eq!(rt; sink.writer.taken.as_slice(), text);
}

#[test]
fn each_put_fails_in_turn(rt: HostRuntime) {
    let rt = &rt;
    let alloc = rt.alloc();
    let formula = contradiction(alloc).expect(rt, "memory");
    for good in 0..CONTRADICTION.len() {
        see_failing(rt, alloc, &formula, good);
    }
    see_sound(rt, alloc, &formula);
}

const FIRST: &str = "s SATISFIABLE\nv 1 -2 3 0\n";

/// An answer of this text for three variables is refused.
fn refuses(rt: &impl Abort, alloc: Global, text: &str, fault: AnswerFault) {
    assert_eq!(rt; read_answer(alloc, text.as_bytes(), 3), Err(fault));
}

fn gives(rt: &impl Abort, alloc: Global, text: &str, values: &[bool]) {
    let model = match read_answer(alloc, text.as_bytes(), values.len()) {
        Ok(SolverAnswer::Model(model)) => model.as_slice() == values,
        _ => false,
    };
    assert!(rt; model);
}

#[test]
fn answers_are_read(rt: HostRuntime) {
    let rt = &rt;
    let alloc = rt.alloc();
    let values = [true, false, true];
    gives(rt, alloc, "s SATISFIABLE\nv 1 3 0", &values);
    gives(rt, alloc, "v 1\r\nv -2 3 0\r\ns SATISFIABLE\r\n", &values);
    let padded = "c of 3\n\n \t\ns \tSATISFIABLE \nv 001 0 1 3 -0\t\n";
    gives(rt, alloc, padded, &values);
    gives(rt, alloc, "s SATISFIABLE\n", &[]);
    let unknown = read_answer(alloc, b"v 1\ns INDETERMINATE\n", 3);
    assert_eq!(rt; unknown, Ok(SolverAnswer::Unknown));
    let bad_line = AnswerFault::BadLine { line: 1 };
    refuses(rt, alloc, " s SATISFIABLE\n", bad_line);
    refuses(rt, alloc, "v 1 0\r", bad_line);
    refuses(rt, alloc, "v 1 -1 x\n", AnswerFault::BothSigns { line: 1 });
    refuses(rt, alloc, "v 9 x\n", AnswerFault::OutOfRange { line: 1 });
}

/// What the first answer gives when it is cut after some bytes.
fn fault_of_cut(length: usize) -> Option<AnswerFault> {
    match length {
        0 => Some(AnswerFault::NoStatus),
        1..=12 => Some(AnswerFault::BadLine { line: 1 }),
        19 => Some(AnswerFault::BadLine { line: 2 }),
        13..=23 => Some(AnswerFault::Unclosed),
        _ => None,
    }
}

#[test]
fn answers_are_cut(rt: HostRuntime) -> Result<(), Fail> {
    let text = FIRST.as_bytes();
    assert_eq!(rt; text.len(), 25);
    for length in 0..=25 {
        let result = read_answer(rt.alloc(), &text[..length], 3);
        assert_eq!(rt; result.err(), fault_of_cut(length));
    }
    Ok(())
}
