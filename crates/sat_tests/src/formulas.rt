//! Each call once, on small formulas.
ghost use Rattle.std.specs.Prelude.{◌≡◌, [], ◌∷◌, IfOk};

use cnf_form::{
    Clause, Cnf, Hints, Line, Lines, Lit, LiteralSet, Log, Look, Refuted, Trail, look_at,
};
use std::alloc::{AllocError, Global};
use std::process::Abort;
use std::test::Fail;

/// The variable 0 alone, and its negation alone.
fn contradiction(alloc: Global) -> Result<Cnf, AllocError>
    ensures { IfOk result (λ c. c.clauses ≡ (0 ∷ []) ∷ (1 ∷ []) ∷ []) }
{
    let mut cnf = Cnf::new(alloc, 1);
    cnf.push(Clause::from_slice(alloc, &[Lit::positive(0)])?)?;
    cnf.push(Clause::from_slice(alloc, &[Lit::negative(0)])?)?;
    Ok(cnf)
}

/// The empty line, by the clauses 0 and 1.
fn empty_line(alloc: Global) -> Result<Log, AllocError>
    ensures { IfOk result (λ l. l.lines ≡ record { clause = []; hints = 0 ∷ 1 ∷ [] } ∷ []) }
{
    let mut hints = Hints::new(alloc);
    hints.push(0)?;
    hints.push(1)?;
    let mut lines = Lines::new(alloc);
    lines.push(Line {
        clause: Clause::new(alloc),
        hints,
    })?;
    Ok(Log { lines })
}

fn is_empty_line(rt: &impl Abort, log: &Log) {
    let lines = log.lines.as_slice();
    assert_eq!(rt; lines.len(), 1);
    assert!(rt; lines[0].clause.is_empty());
    assert_eq!(rt; lines[0].hints.as_slice(), [0, 1].as_slice());
}

#[test]
fn a_literal_is_a_variable_and_a_sign(rt: HostRuntime) {
    for variable in [0, 1, 7] {
        let lit = Lit::positive(variable);
        assert_eq!(rt; lit.code(), 2 * variable);
        assert_eq!(rt; lit.variable(), variable);
        assert!(rt; !lit.is_negated());
        assert!(rt; lit.negated() == Lit::negative(variable));
        assert!(rt; lit.negated().is_negated());
        assert!(rt; lit.negated().negated() == lit);
    }
}

#[test]
fn a_clause_is_copied(rt: HostRuntime) -> Result<(), Fail> {
    let literals = [
        Lit::new(4),
        Lit::new(1),
        Lit::new(2),
        Lit::new(7),
        Lit::new(8),
    ];
    let clause = Clause::from_slice(rt.alloc(), &literals)?;
    assert!(rt; clause.copy(rt.alloc())?.as_slice() == literals.as_slice());
    Ok(())
}

#[test]
fn a_formula_is_copied(rt: HostRuntime) -> Result<(), Fail> {
    let cnf = contradiction(rt.alloc())?.copy(rt.alloc())?;
    assert_eq!(rt; cnf.variables, 1);
    assert_eq!(rt; cnf.clauses.len(), 2);
    assert!(rt; cnf.clauses.get(1).as_slice() == [Lit::new(1)].as_slice());
    Ok(())
}

#[test]
fn a_log_is_copied(rt: HostRuntime) -> Result<(), Fail> {
    is_empty_line(&rt, &empty_line(rt.alloc())?.copy(rt.alloc())?);
    Ok(())
}

/// The two together.
fn refuted(alloc: Global) -> Result<Refuted, AllocError> {
    Ok(Refuted {
        cnf: contradiction(alloc)?,
        log: empty_line(alloc)?,
    })
}

#[test]
fn a_refuted_formula_is_copied(rt: HostRuntime) -> Result<(), Fail> {
    let same = refuted(rt.alloc())?.copy(rt.alloc())?;
    assert_eq!(rt; same.cnf.clauses.len(), 2);
    is_empty_line(&rt, &same.log);
    Ok(())
}

#[test]
fn looks_at_clauses(rt: HostRuntime) -> Result<(), Fail> {
    let alloc = rt.alloc();
    let mut set = LiteralSet::new(alloc);
    set.add(Lit::negative(0))?;
    set.add(Lit::positive(1))?;
    let mut trail = Trail::new(alloc);
    trail.push(Lit::positive(0))?;
    trail.push(Lit::negative(1))?;
    let cases = [
        ([Lit::negative(0), Lit::positive(1)], Look::Falsified),
        (
            [Lit::positive(1), Lit::negative(2)],
            Look::Unit(Lit::negative(2)),
        ),
        (
            [Lit::negative(2), Lit::negative(2)],
            Look::Unit(Lit::negative(2)),
        ),
        ([Lit::positive(0), Lit::positive(1)], Look::Other),
        ([Lit::positive(2), Lit::negative(3)], Look::Other),
    ];
    for (literals, expected) in cases {
        let clause = Clause::from_slice(alloc, &literals)?;
        assert_eq!(rt; look_at(&set, &clause), expected);
        assert_eq!(rt; look_at(&trail, &clause), expected);
    }
    trail.cut_to(1);
    assert_eq!(rt; trail.len(), 1);
    assert!(rt; trail.is_true(Lit::positive(0)));
    set.clear();
    assert!(rt; !set.has(Lit::positive(1)));
    Ok(())
}
