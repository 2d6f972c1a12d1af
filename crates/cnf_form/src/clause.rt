//! Clauses, which contracts see as lists of literals.
ghost use Rattle.std.specs.Prelude.{◌≡◌, ◌+◌, ◌<◌, ◌==◌, [], ◌∷◌, ◌++◌, length, IfOk, OnOk, OnErr, slice_get, Some};

use crate::lit::Lit;
use smallvec::SmallVec;
use std::alloc::{AllocError, Global};
use std::marker::Model;

/// A disjunction of literals, read as the set of them. Up to four are kept without an allocation.
#[derive(Drop)]
pub struct Clause {
    literals: SmallVec<Lit, 4>,
}

impl Model for Clause {
    ghost use Rattle.std.specs.Prelude.{ℕ, List};

    ghost Value = { List ℕ };

    ghost view = { λ c. c.literals.items };
}

impl Clause {
    /// The empty clause, which is false.
    pub fn new(alloc: Global) -> Self
        ensures { result ≡ [] }
    {
        Clause {
            literals: SmallVec::new(alloc),
        }
    }

    /// The clause of these literals.
    pub fn from_slice(alloc: Global, literals: &[Lit]) -> Result<Self, AllocError>
        ensures { IfOk result (λ c. c ≡ literals.now) }
    {
        Ok(Clause {
            literals: SmallVec::from_slice(alloc, literals)?,
        })
    }

    /// The literals, in the order in which they were added.
    pub fn as_slice(&self) -> &[Lit]
        ensures { result.now ≡ self.now }
    {
        self.literals.as_slice()
    }

    /// Whether the clause has no literal.
    pub fn is_empty(&self) -> bool
        ensures { result ≡ (length self.now == 0) }
    {
        self.as_slice().is_empty()
    }

    /// Adds a literal behind the others. After an error the clause is as before.
    pub fn push(&mut self, lit: Lit) -> Result<(), AllocError>
        ensures ok { OnOk result (self.new ≡ self.old ++ lit ∷ []) }
        ensures err { OnErr result (self.new ≡ self.old) }
    {
        self.literals.push(lit)?;
        Ok(())
    }

    /// An equal clause.
    pub fn copy(&self, alloc: Global) -> Result<Self, AllocError>
        ensures { IfOk result (λ c. c ≡ self.now) }
    {
        Clause::from_slice(alloc, self.as_slice())
    }
}

/// A list of clauses, numbered from 0.
#[derive(Drop)]
pub struct Clauses {
    items: Vec<Clause>,
}

impl Model for Clauses {
    ghost use Rattle.std.specs.Prelude.{ℕ, List};

    ghost Value = { List (List ℕ) };

    ghost view = { λ c. c.items.items };
}

impl Clauses {
    /// No clause.
    pub fn new(alloc: Global) -> Self
        ensures { result ≡ [] }
    {
        Clauses {
            items: Vec::new(alloc),
        }
    }

    /// The clauses of a vector. Takes no memory.
    pub fn from_vec(items: Vec<Clause>) -> Self
        ensures { result ≡ items.items }
    {
        Clauses { items }
    }

    /// The vector of the clauses. Takes no memory.
    pub fn into_vec(self) -> Vec<Clause>
        ensures { result.items ≡ self }
    {
        self.items
    }

    /// The number of clauses.
    pub fn len(&self) -> usize
        ensures { result ≡ length self.now }
    {
        self.items.len()
    }

    /// Whether there is no clause.
    pub fn is_empty(&self) -> bool
        ensures { result ≡ (length self.now == 0) }
    {
        self.items.is_empty()
    }

    /// The clauses, in order.
    pub fn as_slice(&self) -> &[Clause]
        ensures { result.now ≡ self.now }
    {
        self.items.as_slice()
    }

    /// The clause of this number.
    pub fn get(&self, id: usize) -> &Clause
        requires { id < length self.now }
        ensures { slice_get self.now id ≡ Some result.now }
    {
        &self.items[id]
    }

    /// Adds a clause behind the others. After an error the list is as before.
    pub fn push(&mut self, clause: Clause) -> Result<(), AllocError>
        ensures ok { OnOk result (self.new ≡ self.old ++ clause ∷ []) }
        ensures err { OnErr result (self.new ≡ self.old) }
    {
        self.items.push(clause)?;
        Ok(())
    }

    /// An equal list.
    pub fn copy(&self, alloc: Global) -> Result<Self, AllocError>
        ensures { IfOk result (λ c. c ≡ self.now) }
    {
        let mut items = Vec::new(alloc);
        for clause in &self.items {
            items.push(clause.copy(alloc)?)?;
        }
        Ok(Clauses { items })
    }
}
