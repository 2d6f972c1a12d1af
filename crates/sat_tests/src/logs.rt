//! Tables of accepted and refused logs, and what the trimmer leaves.
use cnf_form::{Clause, Cnf, Hints, Line, Lines, Lit, Log, Refuted};
use proof_check::{Verdict, certify, check, trim};
use std::alloc::{AllocError, Global};
use std::process::Abort;
use std::test::Fail;

/// `x or y`, `x or not y`, `not x or z`, `not x or not z`.
fn formula(alloc: Global) -> Result<Cnf, AllocError> {
    let mut cnf = Cnf::new(alloc, 3);
    cnf.push(Clause::from_slice(alloc, &[Lit::positive(0), Lit::positive(1)])?)?;
    cnf.push(Clause::from_slice(alloc, &[Lit::positive(0), Lit::negative(1)])?)?;
    cnf.push(Clause::from_slice(alloc, &[Lit::negative(0), Lit::positive(2)])?)?;
    cnf.push(Clause::from_slice(alloc, &[Lit::negative(0), Lit::negative(2)])?)?;
    Ok(cnf)
}

/// `x` and `not x`, and `y`.
fn units(alloc: Global) -> Result<Cnf, AllocError> {
    let mut cnf = Cnf::new(alloc, 3);
    cnf.push(Clause::from_slice(alloc, &[Lit::positive(0)])?)?;
    cnf.push(Clause::from_slice(alloc, &[Lit::negative(0)])?)?;
    cnf.push(Clause::from_slice(alloc, &[Lit::positive(1)])?)?;
    Ok(cnf)
}

/// The line of the literals of these codes and these hints.
fn line(alloc: Global, codes: &[usize], ids: &[usize]) -> Result<Line, AllocError> {
    let mut clause = Clause::new(alloc);
    for code in codes {
        clause.push(Lit::new(*code))?;
    }
    let mut hints = Hints::new(alloc);
    for id in ids {
        hints.push(*id)?;
    }
    Ok(Line { clause, hints })
}

fn one(alloc: Global, first: Line) -> Result<Log, AllocError> {
    let mut lines = Lines::new(alloc);
    lines.push(first)?;
    Ok(Log { lines })
}

fn two(alloc: Global, first: Line, second: Line) -> Result<Log, AllocError> {
    let mut lines = Lines::new(alloc);
    lines.push(first)?;
    lines.push(second)?;
    Ok(Log { lines })
}

#[test]
fn the_empty_line_of_two_opposite_units(rt: HostRuntime) -> Result<(), Fail> {
    let alloc = rt.alloc();
    let cnf = units(alloc)?;
    let whole = one(alloc, line(alloc, &[], &[0, 1])?)?;
    assert_eq!(rt; check(alloc, &cnf, &whole)?, Verdict::Refutes);
    let half = one(alloc, line(alloc, &[], &[0])?)?;
    assert_eq!(rt; check(alloc, &cnf, &half)?, Verdict::BadLine { index: 0 });
    Ok(())
}

/// What the checker says of a log of the formula with these two lines.
fn judged(alloc: Global, first: Line, second: Line) -> Result<Verdict, AllocError> {
    check(alloc, &formula(alloc)?, &two(alloc, first, second)?)
}

#[test]
fn lines_that_follow(rt: HostRuntime) -> Result<(), Fail> {
    let alloc = rt.alloc();
    let x = line(alloc, &[0], &[0, 1])?;
    assert_eq!(rt;
        judged(alloc, x, line(alloc, &[], &[4, 2, 3])?)?,
        Verdict::Refutes
    );
    let x = line(alloc, &[0], &[1, 0])?;
    assert_eq!(rt;
        judged(alloc, x, line(alloc, &[1], &[2, 3])?)?,
        Verdict::Derives
    );
    Ok(())
}

#[test]
fn a_second_line_that_does_not_follow(rt: HostRuntime) -> Result<(), Fail> {
    let alloc = rt.alloc();
    let bad = Verdict::BadLine { index: 1 };
    // The last hint isn't false.
    let x = line(alloc, &[0], &[0, 1])?;
    assert_eq!(rt; judged(alloc, x, line(alloc, &[], &[4, 2])?)?, bad);
    // The line names itself.
    let x = line(alloc, &[0], &[0, 1])?;
    assert_eq!(rt; judged(alloc, x, line(alloc, &[], &[5])?)?, bad);
    Ok(())
}

/// What the checker says of a log of the formula with this line alone.
fn judged_alone(alloc: Global, only: Line) -> Result<Verdict, AllocError> {
    check(alloc, &formula(alloc)?, &one(alloc, only)?)
}

#[test]
fn a_first_line_that_does_not_follow(rt: HostRuntime) -> Result<(), Fail> {
    let alloc = rt.alloc();
    let bad = Verdict::BadLine { index: 0 };
    // A hint names a later line; a tautology; no hint; a hint after a false clause.
    assert_eq!(rt; judged_alone(alloc, line(alloc, &[], &[4, 2, 3])?)?, bad);
    assert_eq!(rt; judged_alone(alloc, line(alloc, &[0, 1], &[0, 1])?)?, bad);
    assert_eq!(rt; judged_alone(alloc, line(alloc, &[0], &[])?)?, bad);
    assert_eq!(rt; judged_alone(alloc, line(alloc, &[0], &[0, 1, 2])?)?, bad);
    Ok(())
}

#[test]
fn a_hint_that_is_neither_unit_nor_false(rt: HostRuntime) -> Result<(), Fail> {
    let alloc = rt.alloc();
    let bad = Verdict::BadLine { index: 0 };
    assert_eq!(rt; judged_alone(alloc, line(alloc, &[0], &[2, 0, 1])?)?, bad);
    Ok(())
}

fn is_line(rt: &impl Abort, line: &Line, codes: &[Lit], ids: &[usize]) {
    assert!(rt; line.clause.as_slice() == codes);
    assert!(rt; line.hints.as_slice() == ids);
}

fn trimmed(alloc: Global, cnf: Cnf, log: Log) -> Result<Option<Refuted>, AllocError> {
    match certify(alloc, cnf, log)? {
        None => Ok(None),
        Some(proof) => Ok(Some(trim(alloc, proof)?)),
    }
}

#[test]
fn a_line_that_nothing_needs_goes(rt: HostRuntime) -> Result<(), Fail> {
    let alloc = rt.alloc();
    let log = two(
        alloc,
        line(alloc, &[2, 4], &[2])?,
        line(alloc, &[], &[0, 1])?,
    )?;
    let proof = trimmed(alloc, units(alloc)?, log)?.ok_or("refutes")?;
    let lines = proof.log.lines.as_slice();
    assert_eq!(rt; lines.len(), 1);
    is_line(&rt, &lines[0], &[], &[0, 1]);
    Ok(())
}

#[test]
fn hints_are_renumbered(rt: HostRuntime) -> Result<(), Fail> {
    let alloc = rt.alloc();
    let mut lines = Lines::new(alloc);
    lines.push(line(alloc, &[0, 4], &[0, 1])?)?;
    lines.push(line(alloc, &[0], &[0, 1])?)?;
    lines.push(line(alloc, &[], &[5, 2, 3])?)?;
    lines.push(line(alloc, &[], &[6])?)?;
    let proof = trimmed(alloc, formula(alloc)?, Log { lines })?.ok_or("refutes")?;
    let lines = proof.log.lines.as_slice();
    assert_eq!(rt; lines.len(), 2);
    is_line(&rt, &lines[0], &[Lit::positive(0)], &[0, 1]);
    is_line(&rt, &lines[1], &[], &[4, 2, 3]);
    Ok(())
}
