//! The entries of map variables that were asked for, each found by its map and its index.
ghost use Rattle.std.specs.Prelude.{◌≡◌, [], ◌∷◌, ◌++◌, None, OnOk};
ghost use Rattle.map_axioms.specs.Steps.{asked};

use crate::entry::Entry;
use crate::table::Table;
use sqlite_items::Items;
use std::alloc::{AllocError, Global};
use std::marker::Model;

/// Entries with an index. Contracts see their list.
#[derive(Drop)]
pub(crate) struct Entries {
    list: Items<Entry>,
    by_ask: Table,
}

impl Model for Entries {
    ghost use Rattle.std.specs.Prelude.{◌≡◌, List, ℕ};
    ghost use Rattle.map_axioms.specs.Steps.{asked, found};
    ghost use Rattle.map_axioms.specs.declared.entry.Entry.{Entry};

    ghost Value = { List Entry };

    ghost view = { λ e. e.list };

    ghost invariant = { λ e. (m i : ℕ) → found m i e.by_ask ≡ asked m i e.list };
}

impl Entries {
    /// No entry.
    pub(crate) fn new(alloc: Global) -> Entries
        ensures { result ≡ [] }
    {
        Entries {
            list: Items::new(alloc),
            by_ask: Table::new(alloc),
        }
    }

    /// The entries, in the order in which they were asked for.
    pub(crate) fn as_slice(&self) -> &[Entry]
        ensures { result.now ≡ self.now }
    {
        self.list.as_slice()
    }

    /// The same.
    pub(crate) fn into_items(self) -> Items<Entry>
        ensures { result ≡ self }
    {
        let Entries { list, by_ask: _ } = self;
        list
    }

    /// The node for the entry of a map variable at a node, where one was asked for.
    pub(crate) fn find(&self, map: usize, place: usize) -> Option<usize>
        ensures { result ≡ asked map place self.now }
    {
        self.by_ask.find(map, place)
    }

    /// Puts an entry behind the others, of a map variable and a node for which there is none.
    pub(crate) fn push(&mut self, entry: Entry) -> Result<(), AllocError>
        requires { asked entry.map entry.place self.old ≡ None }
        ensures { OnOk result (self.new ≡ self.old ++ entry ∷ []) }
    {
        self.list.push(entry)?;
        match self.by_ask.set(entry.map, entry.place, entry.entry) {
            Ok(()) => Ok(()),
            Err(error) => {
                self.list.pop();
                Err(error)
            }
        }
    }
}
