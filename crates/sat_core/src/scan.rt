//! The plain store, which looks at one clause after another.
ghost use Rattle.std.specs.Prelude.{◌≡◌, ◌+◌, ◌<◌, ◌≤◌, [], ◌∷◌, ◌++◌, length, take, map, IfOk, OnOk, OnErr};
ghost use Rattle.sat_core.specs.Scan.{IsSeenBetween};

use cnf_form::{Clause, ClauseStore, Clauses, Cnf, Lit, Look, Seen, Trail, look_at};
use std::alloc::{AllocError, Global};

/// The plain store, which looks at one clause after another.
///
/// `next` goes on behind the clause that it named last, and says Nothing after a whole round
/// without a clause that is unit or false.
#[derive(Drop)]
pub struct ScanStore {
    clauses: Clauses,
    trail: Trail,
    at: usize,
}

impl ScanStore {
    /// A store with no clause and no literal.
    pub fn new(alloc: Global) -> Result<Self, AllocError>
        ensures clauses { IfOk result (λ s. s.clauses ≡ []) }
        ensures assigned { IfOk result (λ s. s.trail ≡ []) }
    {
        Ok(ScanStore {
            clauses: Clauses::new(alloc),
            trail: Trail::new(alloc),
            at: 0,
        })
    }

    /// A store of exactly the clauses of the formula, by their numbers, with no literal. `AllocError` comes where memory
    /// runs out.
    pub fn of_cnf(alloc: Global, cnf: &Cnf) -> Result<Self, AllocError>
        ensures clauses { IfOk result (λ s. s.clauses ≡ cnf.now.clauses) }
        ensures assigned { IfOk result (λ s. s.trail ≡ []) }
    {
        Ok(ScanStore {
            clauses: cnf.clauses.copy(alloc)?,
            trail: Trail::new(alloc),
            at: 0,
        })
    }

    /// Looks at the clauses from one number up to another, and goes on behind the one that it names.
    fn scan(&mut self, from: usize, to: usize) -> Seen
        requires { to ≤ length self.old.clauses }
        ensures seen { IsSeenBetween self.old.clauses self.old.trail from to result }
        ensures clauses { self.new.clauses ≡ self.old.clauses }
        ensures trail { self.new.trail ≡ self.old.trail }
    {
        for id in from..to {
            match look_at(&self.trail, self.clauses.get(id)) {
                Look::Unit(lit) => {
                    self.at = id + 1;
                    return Seen::Unit { lit, clause: id };
                }
                Look::Falsified => {
                    self.at = id + 1;
                    return Seen::Falsified { clause: id };
                }
                Look::Other => {}
            }
        }
        Seen::Nothing
    }
}

impl ClauseStore for ScanStore {
    ghost clauses = { λ s. s.clauses };

    ghost assigned = { λ s. s.trail };

    fn add(&mut self, clause: Clause) -> Result<usize, AllocError> {
        let id = self.clauses.len();
        self.clauses.push(clause)?;
        Ok(id)
    }

    fn assign(&mut self, lit: Lit) -> Result<(), AllocError> {
        self.trail.push(lit)
    }

    fn cut_to(&mut self, count: usize) {
        self.trail.cut_to(count);
    }

    fn next(&mut self) -> Result<Seen, AllocError> {
        let count = self.clauses.len();
        let start = self.at.min(count);
        match self.scan(start, count) {
            Seen::Unit { lit, clause } => Ok(Seen::Unit { lit, clause }),
            Seen::Falsified { clause } => Ok(Seen::Falsified { clause }),
            Seen::Nothing => Ok(self.scan(0, start)),
        }
    }

    fn clause(&self, id: usize) -> &Clause {
        self.clauses.get(id)
    }
}
