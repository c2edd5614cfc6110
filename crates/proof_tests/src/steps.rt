use refutation::{Checker, Shown, take_step};
use serializability::Literal;
use std::process::Abort;
use std::test::*;

fn literal(number: i32) -> Literal {
    Literal {
        variable: number.unsigned_abs(),
        positive: number > 0,
    }
}

/// What the clause with this number shows: -1 that the step is closed, 0 nothing, a variable else.
fn shows(rt: &impl Abort, checker: &mut Checker, index: usize) -> i64 {
    match checker.show(index).expect(rt, "memory") {
        Shown::Closed => -1,
        Shown::Nothing => 0,
        Shown::Forced(literal) => literal.variable as i64,
    }
}

/// The four clauses over two variables.
fn give_all(rt: &impl Abort, checker: &mut Checker) {
    for [first, second] in [[1, 2], [1, -2], [-1, 2], [-1, -2]] {
        checker
            .give(&[literal(first), literal(second)])
            .expect(rt, "memory");
    }
}

/// The steps 1 (by clauses 0 and 1) and the empty clause (by 4, 2 and 3).
fn take_steps(rt: &impl Abort, checker: &mut Checker) {
    checker.begin(&[literal(1)]).expect(rt, "memory");
    assert_eq!(rt; shows(rt, checker, 2), 0);
    assert_eq!(rt; shows(rt, checker, 0), 2);
    assert_eq!(rt; shows(rt, checker, 1), -1);
    checker.begin(&[]).expect(rt, "memory");
    assert_eq!(rt; shows(rt, checker, 4), 1);
    assert_eq!(rt; shows(rt, checker, 2), 2);
    assert_eq!(rt; shows(rt, checker, 3), -1);
}

#[test]
fn four_clauses_are_refuted(rt: HostRuntime) {
    let mut checker = Checker::new(rt.alloc(), 3).expect(&rt, "memory");
    give_all(&rt, &mut checker);
    assert!(rt; !checker.is_refuted());
    take_steps(&rt, &mut checker);
    assert!(rt; checker.is_refuted());
}

/// Whether a step by hints is taken.
fn takes(rt: &impl Abort, checker: &mut Checker, step: &[Literal], hints: &[usize]) -> bool {
    take_step(checker, step, hints).expect(rt, "memory")
}

#[test]
fn steps_by_hints(rt: HostRuntime) {
    let mut checker = Checker::new(rt.alloc(), 3).expect(&rt, "memory");
    give_all(&rt, &mut checker);
    assert!(rt; !takes(&rt, &mut checker, &[], &[0, 1]));
    assert!(rt; !takes(&rt, &mut checker, &[literal(1)], &[0]));
    assert!(rt; !takes(&rt, &mut checker, &[literal(1)], &[0, 4]));
    assert_eq!(rt; checker.len(), 4);
    assert!(rt; takes(&rt, &mut checker, &[literal(1)], &[0, 1]));
    assert!(rt; takes(&rt, &mut checker, &[], &[4, 2, 3]));
    assert!(rt; checker.is_refuted());
}

#[test]
fn forgotten_clauses_show_nothing(rt: HostRuntime) {
    let mut checker = Checker::new(rt.alloc(), 3).expect(&rt, "memory");
    give_all(&rt, &mut checker);
    checker.forget(0);
    checker.forget(7);
    assert!(rt; !takes(&rt, &mut checker, &[literal(1)], &[0, 1]));
    assert!(rt; takes(&rt, &mut checker, &[literal(-1)], &[2, 3]));
    assert_eq!(rt; checker.len(), 5);
}

#[test]
fn memory_is_reclaimed(rt: HostRuntime) {
    let mut checker = Checker::new(rt.alloc(), 3).expect(&rt, "memory");
    for _ in 0..8u8 {
        give_all(&rt, &mut checker);
    }
    for number in 4..32 {
        checker.forget(number);
        checker.reclaim().expect(&rt, "memory");
    }
    assert_eq!(rt; checker.len(), 32);
    assert!(rt; takes(&rt, &mut checker, &[literal(1)], &[0, 1]));
    assert!(rt; takes(&rt, &mut checker, &[], &[32, 2, 3]));
    assert!(rt; checker.is_refuted());
}
