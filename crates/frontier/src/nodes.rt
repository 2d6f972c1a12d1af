//! The nodes of a tree, found by their paths.
ghost use Rattle.std.specs.Prelude.{◌≡◌, [], ◌∷◌, ◌++◌, List, ℕ, IfOk, OnOk};
ghost use Rattle.call_tree.specs.Trees.{has_path};

use call_tree::SitePath;
use indexmap::IndexSet;
use std::alloc::{AllocError, Global};
use std::marker::Model;

// Paths. Contracts see a list in which a path is found exactly where it is one of them.
#[derive(Drop)]
pub struct NodeSet {
    paths: IndexSet<Vec<u32>>,
}

impl Model for NodeSet {
    ghost use Rattle.std.specs.Prelude.{List, ℕ, map};

    ghost Value = { List (List ℕ) };

    ghost view = { λ s. map (λ k. k.items) s.paths.keys };
}

impl NodeSet {
    // The paths of these nodes.
    pub fn of(alloc: Global, nodes: &[SitePath]) -> Result<NodeSet, AllocError>
        ensures { IfOk result (λ s. (p : List ℕ) → has_path s p ≡ has_path nodes.now p) }
    {
        let mut set = NodeSet {
            paths: IndexSet::new(alloc),
        };
        for node in nodes {
            set.add(alloc, node.sites())?;
        }
        Ok(set)
    }

    // Adds a path.
    fn add(&mut self, alloc: Global, path: &[u32]) -> Result<(), AllocError>
        ensures { OnOk result ((p : List ℕ) → has_path self.new p ≡ has_path (self.old ++ path.now ∷ []) p) }
    {
        let key = Vec::from_slice(alloc, path)?;
        self.paths.insert(key)?;
        Ok(())
    }

    // Whether a path is one of them.
    pub fn has(&self, path: &[u32]) -> bool
        ensures { result ≡ has_path self.now path.now }
    {
        self.paths.contains(path)
    }
}
