//! Site paths, which name the nodes of call trees.
ghost use Rattle.std.specs.Prelude.{◌≡◌, ◌↔◌, [], ◌∷◌, ◌++◌, List, ℕ, IfOk, IsTrue, bytes_eq};

use sqlite_items::Items;
use std::alloc::{AllocError, Global};
use std::marker::Model;

/// A path of sites from the entry: for each procedure on the way, the number of the call in it that is taken. The calls of a procedure
/// are numbered from 0, by block and position. Contracts see the list.
#[derive(Drop)]
pub struct SitePath {
    sites: Items<u32>,
}

impl Model for SitePath {
    ghost use Rattle.std.specs.Prelude.{List, ℕ};

    ghost Value = { List ℕ };

    ghost view = { λ p. p.sites };
}

impl SitePath {
    /// The path of the entry itself.
    pub fn root(alloc: Global) -> SitePath
        ensures { result ≡ [] }
    {
        SitePath {
            sites: Items::new(alloc),
        }
    }

    /// The path of these sites.
    pub fn new(sites: Items<u32>) -> SitePath
        ensures { result ≡ sites }
    {
        SitePath { sites }
    }

    /// The sites, the entry's first.
    pub fn sites(&self) -> &[u32]
        ensures { result.now ≡ self.now }
    {
        self.sites.as_slice()
    }

    /// A copy with one site more. The error is want of memory.
    pub fn extended(&self, alloc: Global, site: u32) -> Result<SitePath, AllocError>
        ensures { IfOk result (λ p. p ≡ self.now ++ site ∷ []) }
    {
        let mut sites = Items::from_slice(alloc, self.sites.as_slice())?;
        sites.push(site)?;
        Ok(SitePath { sites })
    }

    /// An equal path. The error is want of memory.
    pub fn copy(&self, alloc: Global) -> Result<SitePath, AllocError>
        ensures { IfOk result (λ p. p ≡ self.now) }
    {
        let sites = Items::from_slice(alloc, self.sites.as_slice())?;
        Ok(SitePath { sites })
    }

    /// Whether the two are equal. It takes no memory.
    pub fn same(&self, other: &SitePath) -> bool
        ensures test { result ≡ bytes_eq self.now other.now }
        ensures exact { IsTrue result ↔ (self.now ≡ other.now) }
    {
        self.sites.as_slice() == other.sites.as_slice()
    }
}
