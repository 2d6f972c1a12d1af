//! The solver on random clauses of three literals.

ghost use Rattle.std.specs.Prelude.{◌≡◌};
ghost use Rattle.cnf_form.specs.Literal.{clause_in_range};

use cnf_form::{Clause, Cnf, Lit};
use sat_core::{Answer, solve};
use sat_watch::WatchStore;
use std::alloc::{AllocError, Global};

/// How many clauses there are for each variable; with so many, next to all instances are unsatisfiable.
const CLAUSES_PER_VARIABLE: usize = 6;

/// What the solver did.
#[derive(Clone, Copy)]
pub struct Counts {
    /// The clauses.
    pub clauses: usize,
    /// The lines of the log, one for each conflict; none where the clauses are satisfiable.
    pub conflicts: usize,
    /// Whether the clauses are refuted.
    pub refuted: bool,
}

/// Numbers that look random (the constants are those of Knuth's MMIX).
#[derive(Drop)]
struct Numbers {
    state: u64,
}

impl Numbers {
    /// A number below the bound, or 0 where that is 0.
    fn below(&mut self, bound: usize) -> usize {
        self.state = self
            .state
            .wrapping_mul(6_364_136_223_846_793_005)
            .wrapping_add(1_442_695_040_888_963_407);
        let high = (self.state >> 33) as usize;
        high.checked_rem(bound).unwrap_or(0)
    }

    /// A literal of one of so many variables.
    fn literal(&mut self, variables: usize) -> Lit {
        Lit::new(self.below(variables.saturating_mul(2)))
    }
}

/// Whether each literal of the clause is of a variable below the number.
fn is_in_range(variables: usize, clause: &Clause) -> bool
    ensures { result ≡ clause_in_range variables clause.now }
{
    clause
        .as_slice()
        .iter()
        .all(|lit| lit.variable() < variables)
}

/// Clauses of three literals each, of so many variables.
fn formula(alloc: Global, variables: usize) -> Result<Cnf, AllocError> {
    let mut numbers = Numbers {
        state: variables as u64,
    };
    let mut cnf = Cnf::new(alloc, variables);
    for _ in 0..variables.saturating_mul(CLAUSES_PER_VARIABLE) {
        let literals = [
            numbers.literal(variables),
            numbers.literal(variables),
            numbers.literal(variables),
        ];
        let clause = Clause::from_slice(alloc, &literals)?;
        if is_in_range(cnf.variables, &clause) {
            cnf.push(clause)?;
        }
    }
    Ok(cnf)
}

/// Solves clauses of so many variables.
pub fn decide(alloc: Global, variables: u64) -> Result<Counts, AllocError> {
    let cnf = formula(alloc, variables as usize)?;
    let clauses = cnf.clauses.len();
    let mut store = WatchStore::of_cnf(alloc, &cnf)?;
    match solve(alloc, cnf.variables, &mut store) {
        Answer::Sat(_) => Ok(Counts {
            clauses,
            conflicts: 0,
            refuted: false,
        }),
        Answer::Unsat(log) => Ok(Counts {
            clauses,
            conflicts: log.lines.len(),
            refuted: true,
        }),
        Answer::NoMemory => Err(AllocError),
    }
}
