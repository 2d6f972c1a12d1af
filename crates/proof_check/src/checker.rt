//! The checker of logs.
ghost use Rattle.std.specs.Prelude.{◌≡◌, ℕ, List, ◌+◌, ◌<◌, ◌≤◌, [], ◌∷◌, ◌++◌, length, take, IfOk, IfSome, slice_get, Some, None, true};
ghost use Rattle.std.specs.Option.{option_copied};
ghost use Rattle.cnf_form.specs.Lines.{follows, refutes, clauses_of};
ghost use Rattle.cnf_form.specs.Literal.{Satisfiable};
ghost use Rattle.proof_check.specs.Verdict.{IsVerdict, IsCertificate};
ghost use Rattle.cnf_form.specs.declared.log.Line.{Line};

use cnf_form::{
    Clause, Clauses, Cnf, FalseLiterals, Line, LiteralSet, Log, Look, Refuted, look_at,
};
use std::alloc::{AllocError, Global};

/// What the checker says of a log.
#[derive(Clone, Copy, Debug, PartialEq, Eq)]
pub enum Verdict {
    /// Each line follows, and some line is empty.
    Refutes,
    /// Each line follows, and none is empty.
    Derives,
    /// The line of this number, counted from 0, doesn't follow, and each line before it does.
    BadLine { index: usize },
}

/// The clause of this number: those of the formula first and then those of the earlier lines.
fn clause_at<'a>(clauses: &'a Clauses, earlier: &'a [Line], id: usize) -> Option<&'a Clause>
    ensures { option_copied result ≡ slice_get (clauses.now ++ clauses_of earlier.now) id }
{
    if id < clauses.len() {
        Some(clauses.get(id))
    } else {
        let place = id - clauses.len();
        if place < earlier.len() {
            Some(&earlier[place].clause)
        } else {
            None
        }
    }
}

/// Whether the line follows from the clauses and the earlier lines. The set is working memory.
fn check_line(
    falses: &mut LiteralSet,
    clauses: &Clauses,
    earlier: &[Line],
    line: &Line,
) -> Result<bool, AllocError>
    ensures { IfOk result (λ yes. yes ≡ follows (clauses.now ++ clauses_of earlier.now) line.now) }
{
    falses.clear();
    let literals = line.clause.as_slice();
    for lit in literals {
        falses.add(*lit)?;
    }
    for lit in literals {
        if falses.is_false(lit.negated()) {
            return Ok(false);
        }
    }
    let hints = line.hints.as_slice();
    for (i, id) in hints.iter().enumerate() {
        match clause_at(clauses, earlier, *id) {
            None => return Ok(false),
            Some(clause) => match look_at(falses, clause) {
                Look::Falsified => return Ok(i + 1 == hints.len()),
                Look::Unit(lit) => falses.add(lit.negated())?,
                Look::Other => return Ok(false),
            },
        }
    }
    Ok(false)
}

/// Checks each line of the log by its hints.
///
/// Takes time linear in the literals of the lines and of the clauses that their hints name, and
/// one flag of memory per literal code.
#[tactic(auto, using(cnf_form::proofs::Accepting::accepts_push))]
pub fn check(alloc: Global, cnf: &Cnf, log: &Log) -> Result<Verdict, AllocError>
    ensures { IfOk result (IsVerdict cnf.now.clauses log.now.lines) }
{
    let mut falses = LiteralSet::new(alloc);
    let mut empty = false;
    let lines = log.lines.as_slice();
    for (i, line) in lines.iter().enumerate() {
        if !check_line(&mut falses, &cnf.clauses, &lines[..i], line)? {
            return Ok(Verdict::BadLine { index: i });
        }
        if line.clause.as_slice().is_empty() {
            empty = true;
        }
    }
    if empty {
        Ok(Verdict::Refutes)
    } else {
        Ok(Verdict::Derives)
    }
}

/// A formula whose log refutes it is not satisfiable, whatever the number of its variables.
pub fn refutation_is_sound()
    ensures { (variables : ℕ) (clauses : List (List ℕ)) (lines : List Line) → refutes clauses lines ≡ true → Satisfiable variables clauses → ⊥ }
{}

/// The formula and the log together exactly where the log refutes the formula.
pub fn certify(alloc: Global, cnf: Cnf, log: Log) -> Result<Option<Refuted>, AllocError>
    ensures { IfOk result (IsCertificate cnf log) }
{
    match check(alloc, &cnf, &log)? {
        Verdict::Refutes => Ok(Some(Refuted { cnf, log })),
        Verdict::Derives => Ok(None),
        Verdict::BadLine { .. } => Ok(None),
    }
}
