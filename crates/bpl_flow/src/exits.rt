//! The exits of statements, each found by the number of its statement.
ghost use Rattle.std.specs.Prelude.{◌≡◌, IfOk};
ghost use Rattle.bpl_flow.specs.Flow.{number_at};

use indexmap::IndexMap;
use sqlite_items::Items;
use std::alloc::{AllocError, Global};
use std::marker::Model;

/// Statements, each with the block of its exit. Contracts see the list of both.
#[derive(Drop)]
pub struct Exits {
    list: Items<(u32, u32)>,
    by_statement: IndexMap<u32, u32>,
}

impl Model for Exits {
    ghost use Rattle.std.specs.Prelude.{◌≡◌, ℕ, List, nat_eq};
    ghost use Rattle.std.specs.Option.{unwrap_or};
    ghost use Rattle.indexmap.specs.IndexMap.{get};
    ghost use Rattle.bpl_flow.specs.Flow.{number_at};

    ghost Value = { List (ℕ × ℕ) };

    ghost view = { λ e. e.list };

    ghost invariant = { λ e. (s : ℕ) → unwrap_or (get nat_eq e.by_statement s) 0 ≡ number_at s e.list };
}

impl Exits {
    /// The exits of this list. Of two of one statement the first counts.
    pub fn of(alloc: Global, list: Items<(u32, u32)>) -> Result<Exits, AllocError>
        ensures { IfOk result (λ e. e ≡ list) }
    {
        let mut by_statement = IndexMap::new(alloc);
        let mut left = Items::from_slice(alloc, list.as_slice())?;
        while let Some(exit) = left.pop() {
            by_statement.insert(exit.0, exit.1)?;
        }
        Ok(Exits { list, by_statement })
    }

    /// The block of the exit of a statement; 0 where it has none.
    pub fn find(&self, statement: u32) -> u32
        ensures { result ≡ number_at statement self.now }
    {
        match self.by_statement.get(&statement) {
            None => 0,
            Some(exit) => *exit,
        }
    }
}
