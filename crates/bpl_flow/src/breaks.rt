//! The statements that breaks leave, each found by its number.
ghost use Rattle.std.specs.Prelude.{◌≡◌, [], ◌∷◌, ◌++◌, nat_eq, OnOk};
ghost use Rattle.std.specs.List.{list_any};

use indexmap::IndexSet;
use sqlite_items::Items;
use std::alloc::{AllocError, Global};
use std::marker::Model;

/// The numbers of statements that breaks leave. Contracts see their list, in the order of the breaks.
#[derive(Drop)]
pub struct Breaks {
    list: Items<u32>,
    numbers: IndexSet<u32>,
}

impl Model for Breaks {
    ghost use Rattle.std.specs.Prelude.{◌≡◌, ℕ, List, nat_eq};
    ghost use Rattle.std.specs.List.{list_any};

    ghost Value = { List ℕ };

    ghost view = { λ b. b.list };

    ghost invariant = { λ b. (n : ℕ) → list_any (nat_eq n) b.numbers.keys ≡ list_any (nat_eq n) b.list };
}

impl Breaks {
    /// No break.
    pub fn new(alloc: Global) -> Breaks
        ensures { result ≡ [] }
    {
        Breaks {
            list: Items::new(alloc),
            numbers: IndexSet::new(alloc),
        }
    }

    /// Whether a break leaves this statement.
    pub fn contains(&self, statement: u32) -> bool
        ensures { result ≡ list_any (nat_eq statement) self.now }
    {
        self.numbers.contains(&statement)
    }

    /// Adds the statement that a break leaves.
    pub fn add(&mut self, statement: u32) -> Result<(), AllocError>
        ensures { OnOk result (self.new ≡ self.old ++ statement ∷ []) }
    {
        self.list.push(statement)?;
        if self.numbers.insert(statement).is_err() {
            self.list.pop();
            return Err(AllocError);
        }
        Ok(())
    }
}
