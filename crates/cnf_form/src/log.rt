//! Logs: clauses that are derived one after another, each with the hints that show it.
ghost use Rattle.std.specs.Prelude.{◌≡◌, ◌<◌, ◌==◌, [], ◌∷◌, ◌++◌, length, IfOk, OnOk, OnErr, slice_get, Some, reverse};

use crate::clause::Clause;
use std::alloc::{AllocError, Global};
use std::marker::Model;

/// Numbers of clauses: those of the formula count first, and then the earlier lines.
#[derive(Drop)]
pub struct Hints {
    ids: Vec<usize>,
}

impl Model for Hints {
    ghost use Rattle.std.specs.Prelude.{ℕ, List};

    ghost Value = { List ℕ };

    ghost view = { λ h. h.ids.items };
}

impl Hints {
    /// No hint.
    pub fn new(alloc: Global) -> Self
        ensures { result ≡ [] }
    {
        Hints {
            ids: Vec::new(alloc),
        }
    }

    /// The hints of a vector. Takes no memory.
    pub fn from_vec(ids: Vec<usize>) -> Self
        ensures { result ≡ ids.items }
    {
        Hints { ids }
    }

    /// The vector of the hints. Takes no memory.
    pub fn into_vec(self) -> Vec<usize>
        ensures { result.items ≡ self }
    {
        self.ids
    }

    /// The hints, in order.
    pub fn as_slice(&self) -> &[usize]
        ensures { result.now ≡ self.now }
    {
        self.ids.as_slice()
    }

    /// Turns the order round.
    pub fn reverse(&mut self)
        ensures { self.new ≡ reverse self.old }
    {
        self.ids.reverse();
    }

    /// Adds a hint behind the others. After an error they are as before.
    pub fn push(&mut self, id: usize) -> Result<(), AllocError>
        ensures ok { OnOk result (self.new ≡ self.old ++ id ∷ []) }
        ensures err { OnErr result (self.new ≡ self.old) }
    {
        self.ids.push(id)?;
        Ok(())
    }

    /// Equal hints.
    pub fn copy(&self, alloc: Global) -> Result<Self, AllocError>
        ensures { IfOk result (λ c. c ≡ self.now) }
    {
        Ok(Hints {
            ids: self.ids.as_slice().to_vec(alloc)?,
        })
    }
}

/// A derived clause and the hints that show it.
#[derive(Drop)]
pub struct Line {
    /// The clause that is derived.
    pub clause: Clause,
    /// The clauses that become unit one after another where it is false, and the one that then is
    /// false.
    pub hints: Hints,
}

impl Line {
    /// An equal line.
    pub fn copy(&self, alloc: Global) -> Result<Self, AllocError>
        ensures { IfOk result (λ c. c ≡ self.now) }
    {
        Ok(Line {
            clause: self.clause.copy(alloc)?,
            hints: self.hints.copy(alloc)?,
        })
    }
}

/// A list of lines, numbered from 0.
#[derive(Drop)]
pub struct Lines {
    items: Vec<Line>,
}

impl Model for Lines {
    ghost use Rattle.std.specs.Prelude.{List};
    ghost use Rattle.cnf_form.specs.declared.log.Line.{Line};

    ghost Value = { List Line };

    ghost view = { λ l. l.items.items };
}

impl Lines {
    /// No line.
    pub fn new(alloc: Global) -> Self
        ensures { result ≡ [] }
    {
        Lines {
            items: Vec::new(alloc),
        }
    }

    /// The lines of a vector. Takes no memory.
    pub fn from_vec(items: Vec<Line>) -> Self
        ensures { result ≡ items.items }
    {
        Lines { items }
    }

    /// The vector of the lines. Takes no memory.
    pub fn into_vec(self) -> Vec<Line>
        ensures { result.items ≡ self }
    {
        self.items
    }

    /// The number of lines.
    pub fn len(&self) -> usize
        ensures { result ≡ length self.now }
    {
        self.items.len()
    }

    /// Whether there is no line.
    pub fn is_empty(&self) -> bool
        ensures { result ≡ (length self.now == 0) }
    {
        self.items.is_empty()
    }

    /// The lines, in order.
    pub fn as_slice(&self) -> &[Line]
        ensures { result.now ≡ self.now }
    {
        self.items.as_slice()
    }

    /// Adds a line behind the others. After an error the list is as before.
    pub fn push(&mut self, line: Line) -> Result<(), AllocError>
        ensures ok { OnOk result (self.new ≡ self.old ++ line ∷ []) }
        ensures err { OnErr result (self.new ≡ self.old) }
    {
        self.items.push(line)?;
        Ok(())
    }

    /// An equal list.
    pub fn copy(&self, alloc: Global) -> Result<Self, AllocError>
        ensures { IfOk result (λ c. c ≡ self.now) }
    {
        let mut items = Vec::new(alloc);
        for line in &self.items {
            items.push(line.copy(alloc)?)?;
        }
        Ok(Lines { items })
    }
}

/// A log: the lines that a solver derived, in order.
#[derive(Drop)]
pub struct Log {
    /// The lines. The hints of each count the clauses of the formula first and then the lines
    /// before it.
    pub lines: Lines,
}

impl Log {
    /// An equal log.
    pub fn copy(&self, alloc: Global) -> Result<Self, AllocError>
        ensures { IfOk result (λ c. c ≡ self.now) }
    {
        Ok(Log {
            lines: self.lines.copy(alloc)?,
        })
    }
}
