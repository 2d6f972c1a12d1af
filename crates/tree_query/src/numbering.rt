//! The places of the paths of a list, found by hash.
ghost use Rattle.std.specs.Prelude.{◌≡◌, [], ◌∷◌, ◌++◌, false, IfOk, OnOk, IsTrue};
ghost use Rattle.call_tree.specs.Trees.{all_differ, has_path};
ghost use Rattle.tree_query.specs.Tabled.{place_in};

use call_tree::SitePath;
use indexmap::IndexSet;
use std::alloc::{AllocError, Global};
use std::marker::Model;

/// Different paths, in order. Contracts see the list.
#[derive(Drop)]
pub(crate) struct PathNumbers {
    paths: IndexSet<Vec<u32>>,
}

impl Model for PathNumbers {
    ghost use Rattle.std.specs.Prelude.{List, ℕ, map};

    ghost Value = { List (List ℕ) };

    ghost view = { λ s. map (λ k. k.items) s.paths.keys };
}

impl PathNumbers {
    /// These paths, which differ. `AllocError` comes where memory runs out.
    pub(crate) fn of(alloc: Global, paths: &[SitePath]) -> Result<PathNumbers, AllocError>
        requires { IsTrue (all_differ paths.now) }
        ensures { IfOk result (λ s. s ≡ paths.now) }
    {
        let mut numbers = PathNumbers {
            paths: IndexSet::new(alloc),
        };
        for path in paths {
            numbers.add(alloc, path.sites())?;
        }
        Ok(numbers)
    }

    // Puts a path that is none of them behind the others.
    fn add(&mut self, alloc: Global, path: &[u32]) -> Result<(), AllocError>
        requires { has_path self.old path.now ≡ false }
        ensures { OnOk result (self.new ≡ self.old ++ path.now ∷ []) }
    {
        let key = Vec::from_slice(alloc, path)?;
        self.paths.insert(key)?;
        Ok(())
    }

    /// The place of a path, from 0; None where it is none of them.
    pub(crate) fn find(&self, path: &[u32]) -> Option<usize>
        ensures { result ≡ place_in self.now path.now }
    {
        self.paths.get_index_of(path)
    }
}
