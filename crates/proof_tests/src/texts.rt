use proof_text::{DratAction, DratSteps, Form, LratAction, LratSteps, StepFault, form_of};
use std::process::Abort;
use std::test::*;

#[test]
fn forms_are_told_apart(rt: HostRuntime) {
    assert_eq!(rt; form_of(b""), Form::Drat);
    assert_eq!(rt; form_of(b"0\n"), Form::Drat);
    assert_eq!(rt; form_of(b"1 -2 0\n"), Form::Drat);
    assert_eq!(rt; form_of(b"d 1 -2 0\n"), Form::Drat);
    assert_eq!(rt; form_of(b"% head\n5 0 1 2 0\n"), Form::Lrat);
    assert_eq!(rt; form_of(b"5 d 1 0\n"), Form::Lrat);
    assert_eq!(rt; form_of(b"5 1 0 3 0\n"), Form::Lrat);
    assert_eq!(rt; form_of(b"a\x02\x00"), Form::BinaryDrat);
    assert_eq!(rt; form_of(b"d\x20\x0a\x00"), Form::BinaryDrat);
    assert_eq!(rt; form_of(b"d\x90\x01\x00"), Form::BinaryDrat);
}

#[test]
fn forms_at_the_corners(rt: HostRuntime) {
    assert_eq!(rt; form_of(b"d\t1\r\t0"), Form::Drat);
    assert_eq!(rt; form_of(b"d 1 0 2\n"), Form::BinaryDrat);
    assert_eq!(rt; form_of(b"d1 0\n"), Form::BinaryDrat);
    assert_eq!(rt; form_of(b"-5 d 1 0\n"), Form::Lrat);
    assert_eq!(rt; form_of(b"5 1 0\r\n3 0\n"), Form::Drat);
    assert_eq!(rt; form_of(b"\n \t\r\nc note\n7 x 0 1\n"), Form::Drat);
}

/// The line of the next step of a DRAT proof, what it does, and how many literals it has.
fn next_drat(
    rt: &(impl Abort + AllocGlobal),
    steps: &mut DratSteps<'_>,
) -> Option<(usize, DratAction, usize)> {
    let mut literals = Vec::new(rt.alloc());
    let (line, action) = steps.read(&mut literals).expect(rt, "a step")?;
    Some((line, action, literals.len()))
}

#[test]
fn drat_as_text(rt: HostRuntime) {
    let mut steps = DratSteps::new(b"1 -2 0\n\nd 3 0\r\n0", 3, false);
    assert_eq!(rt; next_drat(&rt, &mut steps), Some((1, DratAction::Add, 2)));
    assert_eq!(rt;
        next_drat(&rt, &mut steps),
        Some((3, DratAction::Delete, 1))
    );
    assert_eq!(rt; next_drat(&rt, &mut steps), Some((4, DratAction::Add, 0)));
    assert_eq!(rt; next_drat(&rt, &mut steps), None);
}

#[test]
fn drat_in_its_binary_form(rt: HostRuntime) {
    let mut steps = DratSteps::new(b"a\x02\x05\x00d\x06\x00a\x00", 3, true);
    assert_eq!(rt; next_drat(&rt, &mut steps), Some((1, DratAction::Add, 2)));
    assert_eq!(rt;
        next_drat(&rt, &mut steps),
        Some((2, DratAction::Delete, 1))
    );
    assert_eq!(rt; next_drat(&rt, &mut steps), Some((3, DratAction::Add, 0)));
    assert_eq!(rt; next_drat(&rt, &mut steps), None);
}

#[test]
fn comments_and_blanks_are_passed(rt: HostRuntime) {
    let mut steps = DratSteps::new(b"c 1 0\n%\n \t\r\n\t-3\t0\r\n c\n", 3, false);
    assert_eq!(rt; next_drat(&rt, &mut steps), Some((4, DratAction::Add, 1)));
    assert_eq!(rt; next_drat(&rt, &mut steps), None);
}

/// The fault of the first step of a DRAT proof over three variables.
fn drat_fault(rt: &(impl Abort + AllocGlobal), text: &[u8], binary: bool) -> StepFault {
    let mut literals = Vec::new(rt.alloc());
    DratSteps::new(text, 3, binary)
        .read(&mut literals)
        .expect_err(rt, "a step")
}

#[test]
fn lines_of_no_form(rt: HostRuntime) {
    let bad = StepFault::BadLine { line: 1 };
    assert_eq!(rt; drat_fault(&rt, b"1 4 0\n", false), bad);
    assert_eq!(rt; drat_fault(&rt, b"1 2\n0\n", false), bad);
    assert_eq!(rt; drat_fault(&rt, b"1 0 2\n", false), bad);
    assert_eq!(rt; drat_fault(&rt, b"d1 0\n", false), bad);
    assert_eq!(rt; drat_fault(&rt, b"d\n", false), bad);
    assert_eq!(rt; drat_fault(&rt, b"1 -0\n", false), bad);
    assert_eq!(rt; drat_fault(&rt, b"1 - 0\n", false), bad);
    assert_eq!(rt; drat_fault(&rt, b"18446744073709551617 0\n", false), bad);
}

#[test]
fn bytes_of_no_form(rt: HostRuntime) {
    let bad = StepFault::BadLine { line: 1 };
    assert_eq!(rt; drat_fault(&rt, b"a\x08\x00", true), bad);
    assert_eq!(rt; drat_fault(&rt, b"a\x01\x00", true), bad);
    assert_eq!(rt; drat_fault(&rt, b"a\x02", true), bad);
    assert_eq!(rt; drat_fault(&rt, b"a\x82", true), bad);
    assert_eq!(rt; drat_fault(&rt, b"b\x02\x00", true), bad);
    assert_eq!(rt; drat_fault(&rt, b"\x00", true), bad);
    assert_eq!(rt;
        drat_fault(&rt, b"a\x82\x80\x80\x80\x80\x00\x00", true),
        bad
    );
}

#[test]
fn numbers_of_five_bytes(rt: HostRuntime) {
    let mut steps = DratSteps::new(b"a\x82\x80\x80\x80\x00\x80\x00", 3, true);
    assert_eq!(rt; next_drat(&rt, &mut steps), Some((1, DratAction::Add, 1)));
    assert_eq!(rt; next_drat(&rt, &mut steps), None);
}

/// The line of the next step of an LRAT proof, what it does, and how many literals and IDs it has.
fn next_lrat(
    rt: &(impl Abort + AllocGlobal),
    steps: &mut LratSteps<'_>,
) -> Option<(usize, LratAction, usize, usize)> {
    let mut literals = Vec::new(rt.alloc());
    let mut ids = Vec::new(rt.alloc());
    let (line, action) = steps.read(&mut literals, &mut ids).expect(rt, "a step")?;
    Some((line, action, literals.len(), ids.len()))
}

#[test]
fn lrat_as_text(rt: HostRuntime) {
    let mut steps = LratSteps::new(b"5 1 -2 0 3 -4 2 0\n5 d 1 2 0\n\n6 0 5 0", 3);
    assert_eq!(rt;
        next_lrat(&rt, &mut steps),
        Some((1, LratAction::Add(5), 2, 3))
    );
    assert_eq!(rt;
        next_lrat(&rt, &mut steps),
        Some((2, LratAction::Delete, 0, 2))
    );
    assert_eq!(rt;
        next_lrat(&rt, &mut steps),
        Some((4, LratAction::Add(6), 0, 1))
    );
    assert_eq!(rt; next_lrat(&rt, &mut steps), None);
}

#[test]
fn numbers_of_eighteen_digits(rt: HostRuntime) {
    let mut steps = LratSteps::new(b"999999999999999999 0 000000000000000007 0\n", 3);
    assert_eq!(rt;
        next_lrat(&rt, &mut steps),
        Some((1, LratAction::Add(999_999_999_999_999_999), 0, 1))
    );
}

/// The fault of the first step of an LRAT text over three variables.
fn lrat_fault(rt: &(impl Abort + AllocGlobal), text: &[u8]) -> StepFault {
    let mut literals = Vec::new(rt.alloc());
    let mut ids = Vec::new(rt.alloc());
    LratSteps::new(text, 3)
        .read(&mut literals, &mut ids)
        .expect_err(rt, "a step")
}

#[test]
fn lrat_of_no_form(rt: HostRuntime) {
    let bad = StepFault::BadLine { line: 2 };
    assert_eq!(rt; lrat_fault(&rt, b"\n0 1 0 2 0"), bad);
    assert_eq!(rt; lrat_fault(&rt, b"\n-5 1 0 2 0"), bad);
    assert_eq!(rt; lrat_fault(&rt, b"\n5 1 0"), bad);
    assert_eq!(rt; lrat_fault(&rt, b"\n5 1 0 2 0 0"), bad);
    assert_eq!(rt; lrat_fault(&rt, b"\n5 d -1 0"), bad);
    assert_eq!(rt; lrat_fault(&rt, b"\n5 4 0 2 0"), bad);
    assert_eq!(rt; lrat_fault(&rt, b"\n1000000000000000000 0 1 0"), bad);
}
