//! Numbers that are found by two others, by hash.
ghost use Rattle.std.specs.Prelude.{◌≡◌, [], ◌&&◌, ℕ, nat_eq, if◌then◌else◌, Some, OnOk, OnErr};
ghost use Rattle.map_axioms.specs.Steps.{found};

use indexmap::IndexMap;
use std::alloc::{AllocError, Global};
use std::marker::Model;

/// Numbers, each under a key of two others. Contracts see the list of the keys and their numbers.
#[derive(Drop)]
pub(crate) struct Table {
    by_key: IndexMap<(usize, usize), usize>,
}

impl Model for Table {
    ghost use Rattle.std.specs.Prelude.{List, ℕ};

    ghost Value = { List ((ℕ × ℕ) × ℕ) };

    ghost view = { λ t. t.by_key.entries };
}

impl Table {
    /// No number.
    pub(crate) fn new(alloc: Global) -> Table
        ensures { result ≡ [] }
    {
        Table {
            by_key: IndexMap::new(alloc),
        }
    }

    /// The number under a key.
    pub(crate) fn find(&self, one: usize, other: usize) -> Option<usize>
        ensures { result ≡ found one other self.now }
    {
        self.by_key.get(&(one, other)).copied()
    }

    /// Puts a number under a key, in the place of one that is there. `AllocError` comes where memory runs out, and the
    /// numbers are then as before.
    pub(crate) fn set(&mut self, one: usize, other: usize, number: usize) -> Result<(), AllocError>
        ensures set { OnOk result ((a b : ℕ) → found a b self.new ≡ (if nat_eq one a && nat_eq other b then Some number else found a b self.old)) }
        ensures err { OnErr result (self.new ≡ self.old) }
    {
        self.by_key.insert((one, other), number)?;
        Ok(())
    }
}
