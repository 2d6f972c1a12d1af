//! The labels of a body, each found by its name.
ghost use Rattle.std.specs.Prelude.{◌≡◌, [], ◌∷◌, ◌++◌, false, OnOk};
ghost use Rattle.std.specs.Option.{option_copied};
ghost use Rattle.bpl_flow.specs.Flow.{place_of};
ghost use Rattle.bpl_flow.specs.Walk.{is_placed};

use crate::state::Place;
use indexmap::IndexMap;
use std::alloc::{AllocError, Global};
use std::marker::Model;

/// The first places of labels, in the order of the text. Contracts see their list.
#[derive(Drop)]
pub struct Places {
    by_name: IndexMap<Vec<u8>, Place>,
}

impl Model for Places {
    ghost use Rattle.std.specs.Prelude.{List, map};
    ghost use Rattle.bpl_flow.specs.Named.{AreNamed};
    ghost use Rattle.bpl_flow.specs.declared.state.Place.{Place};

    ghost Value = { List Place };

    ghost view = { λ p. map (λ e. e.1) p.by_name.entries };

    ghost invariant = { λ p. AreNamed p.by_name.entries };
}

impl Places {
    /// No label.
    pub fn new(alloc: Global) -> Places
        ensures { result ≡ [] }
    {
        Places {
            by_name: IndexMap::new(alloc),
        }
    }

    /// Whether the label of this name has a place.
    pub fn contains(&self, name: &[u8]) -> bool
        ensures { result ≡ is_placed name.now self.now }
    {
        self.by_name.contains_key(name)
    }

    /// The place of a label.
    pub fn find(&self, name: &[u8]) -> Option<&Place>
        ensures { option_copied result ≡ place_of name.now self.now }
    {
        self.by_name.get(name)
    }

    /// Adds the place of a label that has none.
    pub fn add(&mut self, alloc: Global, place: Place) -> Result<(), AllocError>
        requires { is_placed place.name self.old ≡ false }
        ensures { OnOk result (self.new ≡ self.old ++ place ∷ []) }
    {
        let name = Vec::from_slice(alloc, place.name.as_slice())?;
        self.by_name.insert(name, place)?;
        Ok(())
    }
}
