//! Terms without maps.
ghost use Rattle.std.specs.Prelude.{◌≡◌, IfOk, IsTrue};
ghost use Rattle.hy_term.specs.TermSorts.{are_plain};

use crate::terms::Terms;
use std::alloc::{AllocError, Global};
use std::marker::Model;

/// Terms without maps: literals, variables of scalar sorts, operators and ifs. Contracts see the same as of `Terms`.
#[derive(Drop)]
pub struct Reduced {
    terms: Terms,
}

impl Model for Reduced {
    ghost use Rattle.std.specs.Prelude.{IsTrue};
    ghost use Rattle.hy_term.specs.Formula.{Formula};
    ghost use Rattle.hy_term.specs.TermSorts.{are_plain};

    ghost Value = { Formula };

    ghost view = { λ r. r.terms };

    ghost invariant = { λ r. IsTrue (are_plain r.terms.nodes) };
}

impl Reduced {
    /// These terms, which have no maps.
    pub fn new(terms: Terms) -> Reduced
        requires { IsTrue (are_plain terms.nodes) }
        ensures { result ≡ terms }
    {
        Reduced { terms }
    }

    /// The terms, which have no maps.
    pub fn terms(&self) -> &Terms
        ensures value { result.now ≡ self.now }
        ensures kept { IsTrue (are_plain self.now.nodes) }
    {
        &self.terms
    }

    /// Equal terms.
    pub fn copy(&self, alloc: Global) -> Result<Reduced, AllocError>
        ensures { IfOk result (λ r. r ≡ self.now) }
    {
        let terms = self.terms.copy(alloc)?;
        Ok(Reduced { terms })
    }
}
