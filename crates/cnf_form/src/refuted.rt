//! Formulas with a log that refutes them.
ghost use Rattle.std.specs.Prelude.{◌≡◌, IsTrue, IfOk};
ghost use Rattle.cnf_form.specs.Lines.{refutes};

use crate::cnf::Cnf;
use crate::log::Log;
use std::alloc::{AllocError, Global};

/// A formula with a log that refutes it: each line of the log follows, and some line is empty.
#[derive(Drop)]
pub struct Refuted {
    /// The formula.
    pub cnf: Cnf,
    /// The log that refutes it.
    pub log: Log,
    pub ghost refutes: { IsTrue (refutes cnf.clauses log.lines) },
}

impl Refuted {
    /// An equal formula with an equal log.
    pub fn copy(&self, alloc: Global) -> Result<Self, AllocError>
        ensures variables { IfOk result (λ r. r.cnf.variables ≡ self.now.cnf.variables) }
        ensures clauses { IfOk result (λ r. r.cnf.clauses ≡ self.now.cnf.clauses) }
        ensures log { IfOk result (λ r. r.log ≡ self.now.log) }
    {
        Ok(Refuted {
            cnf: self.cnf.copy(alloc)?,
            log: self.log.copy(alloc)?,
        })
    }
}
