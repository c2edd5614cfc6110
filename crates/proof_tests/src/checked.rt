use proof_checks::check_proof;
use proof_text::ProofFault;
use refutation::Checker;
use serializability::Literal;
use std::process::Abort;
use std::test::*;

fn literal(number: i32) -> Literal {
    Literal {
        variable: number.unsigned_abs(),
        positive: number > 0,
    }
}

/// What a proof shows of the four clauses over two variables.
fn shown(rt: &(impl Abort + AllocGlobal), proof: &[u8]) -> Result<(), ProofFault> {
    let mut checker = Checker::new(rt.alloc(), 3).expect(rt, "memory");
    for clause in [[1, 2], [1, -2], [-1, 2], [-1, -2]] {
        checker
            .give(&[literal(clause[0]), literal(clause[1])])
            .expect(rt, "memory");
    }
    check_proof(rt.alloc(), &mut checker, 2, proof)
}

fn bad_line(line: usize) -> Result<(), ProofFault> {
    Err(ProofFault::BadLine { line })
}

fn not_implied(line: usize) -> Result<(), ProofFault> {
    Err(ProofFault::NotImplied { line })
}

#[test]
fn drat(rt: HostRuntime) {
    assert_eq!(rt; shown(&rt, b"1 0\n0\n"), Ok(()));
    assert_eq!(rt; shown(&rt, b"1 1 0\n0\n"), Ok(()));
    assert_eq!(rt; shown(&rt, b"1 -1 0\n2 0\nd 1 2 0\nd 2 1 0\n0\n"), Ok(()));
    assert_eq!(rt; shown(&rt, b"a\x02\x00a\x00"), Ok(()));
    assert_eq!(rt; shown(&rt, b"0\n"), not_implied(1));
    assert_eq!(rt; shown(&rt, b"1 0\n"), Err(ProofFault::NoEmptyClause));
    assert_eq!(rt; shown(&rt, b"1 0\n3 0\n"), bad_line(2));
    assert_eq!(rt; shown(&rt, b"d 1 2 0\n0\n"), not_implied(2));
    assert_eq!(rt;
        shown(&rt, b"d 1 2 0\n1 0\n"),
        Err(ProofFault::NoEmptyClause)
    );
    assert_eq!(rt; shown(&rt, b"d 1 2 0\n-1 0\n0\n"), Ok(()));
    assert_eq!(rt; shown(&rt, b"1 0\nd -1 2 0\nd 1 0\n0\n"), Ok(()));
}

#[test]
fn lrat(rt: HostRuntime) {
    assert_eq!(rt; shown(&rt, b"5 1 0 1 2 0\n6 0 5 3 4 0\n"), Ok(()));
    assert_eq!(rt;
        shown(&rt, b"7 1 0 1 2 0\n7 d 1 2 0\n9 0 7 3 4 0\n"),
        Ok(())
    );
    assert_eq!(rt;
        shown(&rt, b"5 1 0 1 2 0\n"),
        Err(ProofFault::NoEmptyClause)
    );
    assert_eq!(rt; shown(&rt, b"5 1 0 1 3 0\n"), not_implied(1));
    assert_eq!(rt; shown(&rt, b"5 1 0 1 5 0\n"), bad_line(1));
    assert_eq!(rt; shown(&rt, b"4 1 0 1 2 0\n"), bad_line(1));
    assert_eq!(rt; shown(&rt, b"4 d 1 0\n5 1 0 1 2 0\n"), bad_line(2));
    assert_eq!(rt; shown(&rt, b"5 1 0 -1 2 0\n"), not_implied(1));
}

#[test]
fn lrat_ids(rt: HostRuntime) {
    assert_eq!(rt;
        shown(&rt, b"5 1 0 1 2 0\n9 -1 0 3 4 0\n12 0 5 9 0\n"),
        Ok(())
    );
    assert_eq!(rt; shown(&rt, b"5 1 1 0 1 2 0\n6 0 5 3 4 0\n"), Ok(()));
    assert_eq!(rt; shown(&rt, b"5 1 0 1 2 0\n5 0 5 3 4 0\n"), bad_line(2));
    assert_eq!(rt; shown(&rt, b"5 1 0 1 2 0\n9 0 8 3 4 0\n"), bad_line(2));
    assert_eq!(rt; shown(&rt, b"c\n\n5 1 0 1 -2 0\n"), not_implied(3));
}
