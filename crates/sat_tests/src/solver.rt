//! The plain store on two clauses, and the solver on small formulas with known answers.
ghost use Rattle.std.specs.Prelude.{◌≡◌, [], ◌∷◌, IfOk, true};
ghost use Rattle.cnf_form.specs.Literal.{clause_in_range};

use cnf_form::{Clause, ClauseStore, Cnf, Line, Lit, Seen};
use proof_check::{Verdict, check};
use sat_core::{Answer, Order, ScanStore, solve};
use std::alloc::{AllocError, Global};
use std::process::Abort;
use std::test::Fail;

/// `x or y`, `not x`.
fn two_clauses(alloc: Global) -> Result<ScanStore, AllocError>
    ensures clauses { IfOk result (λ s. s.clauses ≡ (0 ∷ 2 ∷ []) ∷ (1 ∷ []) ∷ []) }
    ensures assigned { IfOk result (λ s. s.trail ≡ []) }
{
    let mut store = ScanStore::new(alloc)?;
    store.add(Clause::from_slice(alloc, &[Lit::positive(0), Lit::positive(1)])?)?;
    store.add(Clause::from_slice(alloc, &[Lit::negative(0)])?)?;
    Ok(store)
}

#[test]
fn a_scan_goes_on_and_round(rt: HostRuntime) -> Result<(), Fail> {
    let mut store = two_clauses(rt.alloc())?;
    assert_eq!(rt;
        store.next()?,
        Seen::Unit {
            lit: Lit::negative(0),
            clause: 1
        }
    );
    store.assign(Lit::negative(0))?;
    assert_eq!(rt;
        store.next()?,
        Seen::Unit {
            lit: Lit::positive(1),
            clause: 0
        }
    );
    store.assign(Lit::positive(1))?;
    assert_eq!(rt; store.next()?, Seen::Nothing);
    Ok(())
}

#[test]
fn a_false_clause_is_named(rt: HostRuntime) -> Result<(), Fail> {
    let mut store = two_clauses(rt.alloc())?;
    store.assign(Lit::positive(0))?;
    assert_eq!(rt; store.next()?, Seen::Falsified { clause: 1 });
    store.cut_to(0);
    assert_eq!(rt;
        store.next()?,
        Seen::Unit {
            lit: Lit::negative(0),
            clause: 1
        }
    );
    assert!(rt; store.clause(1).as_slice() == [Lit::negative(0)].as_slice());
    Ok(())
}

#[test]
fn variables_come_in_their_order_and_once(rt: HostRuntime) -> Result<(), Fail> {
    let mut order = Order::new(rt.alloc(), 2)?;
    order.enter(0)?;
    assert_eq!(rt; order.pop(), Some(0));
    assert_eq!(rt; order.pop(), Some(1));
    assert_eq!(rt; order.pop(), None);
    order.enter(1)?;
    order.enter(1)?;
    assert_eq!(rt; order.pop(), Some(1));
    assert_eq!(rt; order.pop(), None);
    Ok(())
}

#[test]
fn the_more_active_variable_comes_first(rt: HostRuntime) -> Result<(), Fail> {
    let mut order = Order::new(rt.alloc(), 4)?;
    order.raise(&[Lit::positive(2), Lit::negative(1)]);
    order.raise(&[Lit::positive(3)]);
    order.enter(1)?;
    order.enter(2)?;
    order.enter(3)?;
    // The later conflict weighs more, and of two variables of the same one the lesser comes first.
    assert_eq!(rt; order.pop(), Some(3));
    assert_eq!(rt; order.pop(), Some(1));
    assert_eq!(rt; order.pop(), Some(2));
    assert_eq!(rt; order.pop(), Some(0));
    assert_eq!(rt; order.pop(), None);
    Ok(())
}

#[test]
fn stale_entries_are_removed(rt: HostRuntime) -> Result<(), Fail> {
    let mut order = Order::new(rt.alloc(), 2)?;
    for _ in 0..20 {
        order.raise(&[Lit::positive(1)]);
        order.enter(1)?;
        assert!(rt; order.entries() <= 12);
    }
    assert_eq!(rt; order.pop(), Some(1));
    assert_eq!(rt; order.pop(), Some(0));
    assert_eq!(rt; order.pop(), None);
    Ok(())
}

/// A formula of the clauses with the literals of these codes, but for those out of range.
fn formula(alloc: Global, variables: usize, clauses: &[&[usize]]) -> Result<Cnf, AllocError> {
    let mut cnf = Cnf::new(alloc, variables);
    for codes in clauses {
        push_clause(alloc, &mut cnf, codes)?;
    }
    Ok(cnf)
}

/// Whether each literal of the clause is of a variable below the number.
fn is_in_range(variables: usize, clause: &Clause) -> bool
    ensures { result ≡ clause_in_range variables clause.now }
{
    clause
        .as_slice()
        .iter()
        .all(|lit| lit.variable() < variables)
}

/// Adds the clause of the literals of these codes, unless one is out of range.
fn push_clause(alloc: Global, cnf: &mut Cnf, codes: &[usize]) -> Result<(), AllocError> {
    let mut clause = Clause::new(alloc);
    for code in codes {
        clause.push(Lit::new(*code))?;
    }
    if is_in_range(cnf.variables, &clause) {
        cnf.push(clause)?;
    }
    Ok(())
}

/// What the solver answers on the formula.
fn solved(alloc: Global, cnf: &Cnf) -> Result<Answer, AllocError> {
    let mut store = ScanStore::of_cnf(alloc, cnf)?;
    Ok(solve(alloc, cnf.variables, &mut store))
}

/// Whether the solver answers Sat.
fn is_satisfiable(
    alloc: Global,
    variables: usize,
    clauses: &[&[usize]],
) -> Result<bool, AllocError> {
    let cnf = formula(alloc, variables, clauses)?;
    match solved(alloc, &cnf)? {
        Answer::Sat(values) => Ok(values.len() == variables),
        Answer::Unsat(_) => Ok(false),
        Answer::NoMemory => Ok(false),
    }
}

/// Whether the solver answers Unsat with a log that the checker accepts.
fn is_refuted(alloc: Global, variables: usize, clauses: &[&[usize]]) -> Result<bool, AllocError> {
    let cnf = formula(alloc, variables, clauses)?;
    match solved(alloc, &cnf)? {
        Answer::Unsat(log) => Ok(check(alloc, &cnf, &log)? == Verdict::Refutes),
        Answer::Sat(_) => Ok(false),
        Answer::NoMemory => Ok(false),
    }
}

/// Each of four pigeons sits in one of three holes, and no two in one: variable 3i + j says that
/// the pigeon i sits in the hole j.
const PIGEONS: &[&[usize]] = &[
    &[0, 2, 4],
    &[6, 8, 10],
    &[12, 14, 16],
    &[18, 20, 22],
    &[1, 7],
    &[1, 13],
    &[1, 19],
    &[7, 13],
    &[7, 19],
    &[13, 19],
    &[3, 9],
    &[3, 15],
    &[3, 21],
    &[9, 15],
    &[9, 21],
    &[15, 21],
    &[5, 11],
    &[5, 17],
    &[5, 23],
    &[11, 17],
    &[11, 23],
    &[17, 23],
];

#[test]
fn four_pigeons_sit_in_three_holes(rt: HostRuntime) -> Result<(), Fail> {
    let alloc = rt.alloc();
    assert!(rt; is_satisfiable(alloc, 12, &PIGEONS[..4])?);
    assert!(rt; is_refuted(alloc, 12, PIGEONS)?);
    Ok(())
}

#[test]
fn small_formulas_with_a_satisfying_list(rt: HostRuntime) -> Result<(), Fail> {
    let alloc = rt.alloc();
    // No variable; no clause; a tautology; a literal twice; a chain of units; a choice that fails.
    assert!(rt; is_satisfiable(alloc, 0, &[])?);
    assert!(rt; is_satisfiable(alloc, 2, &[])?);
    assert!(rt; is_satisfiable(alloc, 1, &[&[0, 1]])?);
    assert!(rt; is_satisfiable(alloc, 1, &[&[0, 0]])?);
    assert!(rt; is_satisfiable(alloc, 3, &[&[0], &[1, 2], &[3, 4]])?);
    assert!(rt; is_satisfiable(alloc, 2, &[&[0, 2], &[0, 3]])?);
    Ok(())
}

#[test]
fn small_formulas_that_are_refuted(rt: HostRuntime) -> Result<(), Fail> {
    let alloc = rt.alloc();
    // The empty clause; opposite units; a chain of units; all clauses over two variables.
    assert!(rt; is_refuted(alloc, 0, &[&[]])?);
    assert!(rt; is_refuted(alloc, 1, &[&[0], &[1]])?);
    assert!(rt; is_refuted(alloc, 3, &[&[0], &[1, 2], &[3, 4], &[5]])?);
    assert!(rt; is_refuted(alloc, 2, &[&[0, 2], &[0, 3], &[1, 2], &[1, 3]])?);
    Ok(())
}

/// The decision `not x` makes the second clause false, and `x` the fourth.
const TWO_CONFLICTS: &[&[usize]] = &[&[0, 2], &[0, 3], &[1, 4], &[1, 5]];

#[test]
fn the_log_has_the_learnt_line_and_the_empty_one(rt: HostRuntime) -> Result<(), Fail> {
    let alloc = rt.alloc();
    let cnf = formula(alloc, 3, TWO_CONFLICTS)?;
    if let Answer::Unsat(log) = solved(alloc, &cnf)? {
        let lines = log.lines.as_slice();
        assert!(rt; lines.len() == 2);
        is_line(&rt, &lines[0], &[Lit::positive(0)], &[0, 1]);
        is_line(&rt, &lines[1], &[], &[4, 2, 3]);
        return Ok(());
    }
    Err("not refuted".into())
}

fn is_line(rt: &impl Abort, line: &Line, literals: &[Lit], ids: &[usize]) {
    assert!(rt; line.clause.as_slice() == literals);
    assert!(rt; line.hints.as_slice() == ids);
}
