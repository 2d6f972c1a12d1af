//! Formulas in conjunctive normal form.
ghost use Rattle.std.specs.Prelude.{◌≡◌, [], ◌∷◌, ◌++◌, IsTrue, IfOk, OnOk, OnErr};
ghost use Rattle.cnf_form.specs.Literal.{clause_in_range, clauses_in_range};

use crate::clause::{Clause, Clauses};
use std::alloc::{AllocError, Global};

/// A conjunction of clauses over the variables from 0 up to `variables`, which is not among them.
#[derive(Drop)]
pub struct Cnf {
    /// How many variables there are.
    pub variables: usize,
    /// The clauses, all of whose literals are of these variables.
    pub clauses: Clauses,
    pub ghost in_range: { IsTrue (clauses_in_range variables clauses) },
}

impl Cnf {
    /// No clause over so many variables.
    pub fn new(alloc: Global, variables: usize) -> Self
        ensures variables { result.variables ≡ variables }
        ensures clauses { result.clauses ≡ [] }
    {
        Cnf {
            variables,
            clauses: Clauses::new(alloc),
        }
    }

    /// Adds a clause behind the others. After an error the formula is as before.
    pub fn push(&mut self, clause: Clause) -> Result<(), AllocError>
        requires { IsTrue (clause_in_range self.old.variables clause) }
        ensures variables { self.new.variables ≡ self.old.variables }
        ensures ok { OnOk result (self.new.clauses ≡ self.old.clauses ++ clause ∷ []) }
        ensures err { OnErr result (self.new.clauses ≡ self.old.clauses) }
    {
        self.clauses.push(clause)
    }

    /// An equal formula.
    pub fn copy(&self, alloc: Global) -> Result<Self, AllocError>
        ensures variables { IfOk result (λ c. c.variables ≡ self.now.variables) }
        ensures clauses { IfOk result (λ c. c.clauses ≡ self.now.clauses) }
    {
        Ok(Cnf {
            variables: self.variables,
            clauses: self.clauses.copy(alloc)?,
        })
    }
}
