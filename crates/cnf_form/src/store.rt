//! The store of clauses and assigned literals that a solver works over.
ghost use Rattle.std.specs.Prelude.{◌≡◌, ℕ, List, ◌<◌, [], ◌∷◌, ◌++◌, length, take, IfOk, OnOk, OnErr, slice_get, Some, false};
ghost use Rattle.cnf_form.specs.Literal.{negation, is_among};
ghost use Rattle.cnf_form.specs.Store.{IsSeen};

use crate::clause::Clause;
use crate::lit::Lit;
use std::alloc::AllocError;

/// What a store says of its clauses under the assigned literals.
#[derive(Clone, Copy, Debug, PartialEq, Eq)]
pub enum Seen {
    /// All literals but this one are false in the clause of this number, and this one is free.
    Unit { lit: Lit, clause: usize },
    /// All literals of the clause of this number are false.
    Falsified { clause: usize },
    /// No clause is unit or false.
    Nothing,
}

/// Clauses, numbered from 0, and the literals that are assigned, in the order of assignment.
pub trait ClauseStore {
    ghost clauses: { Self → List (List ℕ) };

    ghost assigned: { Self → List ℕ };

    /// Puts the clause behind the others and answers its number. After an error the store has
    /// the same clauses and literals.
    fn add(&mut self, clause: Clause) -> Result<usize, AllocError>
        ensures id { IfOk result (λ id. id ≡ length (clauses self.old)) }
        ensures ok { OnOk result (clauses self.new ≡ clauses self.old ++ clause ∷ []) }
        ensures err { OnErr result (clauses self.new ≡ clauses self.old) }
        ensures assigned { assigned self.new ≡ assigned self.old };

    /// Puts the literal, whose variable is free, behind the others. After an error the store has
    /// the same clauses and literals.
    fn assign(&mut self, lit: Lit) -> Result<(), AllocError>
        requires not_true { is_among (assigned self.old) lit ≡ false }
        requires not_false { is_among (assigned self.old) (negation lit) ≡ false }
        ensures ok { OnOk result (assigned self.new ≡ assigned self.old ++ lit ∷ []) }
        ensures err { OnErr result (assigned self.new ≡ assigned self.old) }
        ensures clauses { clauses self.new ≡ clauses self.old };

    /// Keeps the first `count` literals.
    fn cut_to(&mut self, count: usize)
        ensures assigned { assigned self.new ≡ take count (assigned self.old) }
        ensures clauses { clauses self.new ≡ clauses self.old };

    /// Names a clause that is unit or false, and says Nothing exactly where there is none. In any
    /// case the store has the same clauses and literals.
    fn next(&mut self) -> Result<Seen, AllocError>
        ensures seen { IfOk result (IsSeen (clauses self.old) (assigned self.old)) }
        ensures assigned { assigned self.new ≡ assigned self.old }
        ensures clauses { clauses self.new ≡ clauses self.old };

    /// The clause of this number.
    fn clause(&self, id: usize) -> &Clause
        requires { id < length (clauses self.now) }
        ensures { slice_get (clauses self.now) id ≡ Some result.now };
}
