//! Partial trees, and the pieces into which the runs of a program are divided.
ghost use Rattle.std.specs.Prelude.{◌≡◌, ◌↔◌, [], ◌∷◌, ◌++◌, List, ℕ, IfOk, OnOk, OnErr, IsTrue};
ghost use Rattle.call_tree.specs.Trees.{has_path};

use crate::path::SitePath;
use sqlite_items::Items;
use std::alloc::{AllocError, Global};
use std::marker::Model;

/// A partial tree: the paths of the calls that are inlined, the root first and each after its prefixes. The type keeps none of this;
/// the calls that want it say so. Contracts see the list.
#[derive(Drop)]
pub struct PartTree {
    alloc: Global,
    nodes: Items<SitePath>,
}

impl Model for PartTree {
    ghost use Rattle.std.specs.Prelude.{List, ℕ};

    ghost Value = { List (List ℕ) };

    ghost view = { λ t. t.nodes };
}

/// What a decision says of a path.
#[derive(Clone, Copy, Debug, PartialEq, Eq)]
pub enum Decision2 {
    /// The path is reached.
    Must,
    /// The path is not reached.
    Avoid,
}

/// A piece: decisions on paths, all of which a run tree meets that belongs to it. Contracts see the list.
#[derive(Drop)]
pub struct Piece {
    decisions: Items<(SitePath, Decision2)>,
}

impl Model for Piece {
    ghost use Rattle.std.specs.Prelude.{List, ℕ};
    ghost use Rattle.call_tree.specs.declared.piece.Decision2.{Decision2};

    ghost Value = { List (List ℕ × Decision2) };

    ghost view = { λ p. p.decisions };
}

/// Copies of these paths, in order. The error is want of memory.
pub fn copy_paths(alloc: Global, paths: &[SitePath]) -> Result<Items<SitePath>, AllocError>
    ensures { IfOk result (λ it. it ≡ paths.now) }
{
    let mut copies = Vec::new(alloc);
    for path in paths {
        copies.push(path.copy(alloc)?)?;
    }
    Ok(Items::from_vec(copies))
}

/// Whether a path is among these. Takes no memory.
pub fn has(paths: &[SitePath], path: &SitePath) -> bool
    ensures { result ≡ has_path paths.now path.now }
{
    for other in paths {
        if other.same(path) {
            return true;
        }
    }
    false
}

// Whether two lists of paths are equal.
fn same_paths(left: &[SitePath], right: &[SitePath]) -> bool
    ensures { IsTrue result ↔ (left.now ≡ right.now) }
{
    if left.len() != right.len() {
        return false;
    }
    for i in 0..left.len() {
        if !left[i].same(&right[i]) {
            return false;
        }
    }
    true
}

impl PartTree {
    /// The tree of the root alone. The error is want of memory.
    pub fn root(alloc: Global) -> Result<PartTree, AllocError>
        ensures { IfOk result (λ t. t ≡ [] ∷ []) }
    {
        let mut nodes = Items::new(alloc);
        nodes.push(SitePath::root(alloc))?;
        Ok(PartTree { alloc, nodes })
    }

    /// The tree of these nodes; the allocator is for those that `append` adds.
    pub fn new(alloc: Global, nodes: Items<SitePath>) -> PartTree
        ensures { result ≡ nodes }
    {
        PartTree { alloc, nodes }
    }

    /// The paths of the nodes, in order.
    pub fn nodes(&self) -> &[SitePath]
        ensures { result.now ≡ self.now }
    {
        self.nodes.as_slice()
    }

    /// Appends these nodes, in order. The error is want of memory; the tree is then as before.
    pub fn append(&mut self, nodes: &[SitePath]) -> Result<(), AllocError>
        ensures ok { OnOk result (self.new ≡ self.old ++ nodes.now) }
        ensures err { OnErr result (self.new ≡ self.old) }
    {
        let mut all = copy_paths(self.alloc, self.nodes.as_slice())?;
        all.append(copy_paths(self.alloc, nodes)?)?;
        self.nodes = all;
        Ok(())
    }

    /// An equal tree. The error is want of memory.
    pub fn copy(&self, alloc: Global) -> Result<PartTree, AllocError>
        ensures { IfOk result (λ t. t ≡ self.now) }
    {
        let nodes = copy_paths(alloc, self.nodes.as_slice())?;
        Ok(PartTree { alloc, nodes })
    }

    /// Whether the two are equal. It takes no memory.
    pub fn same(&self, other: &PartTree) -> bool
        ensures { IsTrue result ↔ (self.now ≡ other.now) }
    {
        same_paths(self.nodes.as_slice(), other.nodes.as_slice())
    }
}

// Whether two decisions are equal.
fn same_decision(left: &(SitePath, Decision2), right: &(SitePath, Decision2)) -> bool
    ensures { IsTrue result ↔ (left.now ≡ right.now) }
{
    left.0.same(&right.0) && left.1 == right.1
}

// Whether two lists of decisions are equal.
fn same_decisions(left: &[(SitePath, Decision2)], right: &[(SitePath, Decision2)]) -> bool
    ensures { IsTrue result ↔ (left.now ≡ right.now) }
{
    if left.len() != right.len() {
        return false;
    }
    for i in 0..left.len() {
        if !same_decision(&left[i], &right[i]) {
            return false;
        }
    }
    true
}

// Copies of these decisions.
fn copy_decisions(
    alloc: Global,
    decisions: &[(SitePath, Decision2)],
) -> Result<Items<(SitePath, Decision2)>, AllocError>
    ensures { IfOk result (λ it. it ≡ decisions.now) }
{
    let mut copies = Vec::new(alloc);
    for decision in decisions {
        copies.push((decision.0.copy(alloc)?, decision.1))?;
    }
    Ok(Items::from_vec(copies))
}

impl Piece {
    /// The piece without a decision, to which all runs belong.
    pub fn whole(alloc: Global) -> Piece
        ensures { result ≡ [] }
    {
        Piece {
            decisions: Items::new(alloc),
        }
    }

    /// The decisions, the oldest first.
    pub fn decisions(&self) -> &[(SitePath, Decision2)]
        ensures { result.now ≡ self.now }
    {
        self.decisions.as_slice()
    }

    /// An equal piece. The error is want of memory.
    pub fn copy(&self, alloc: Global) -> Result<Piece, AllocError>
        ensures { IfOk result (λ p. p ≡ self.now) }
    {
        let decisions = copy_decisions(alloc, self.decisions.as_slice())?;
        Ok(Piece { decisions })
    }

    /// A copy with one decision more, behind the others. The error is want of memory.
    pub fn with(&self, alloc: Global, path: &SitePath, way: Decision2) -> Result<Piece, AllocError>
        ensures { IfOk result (λ p. p ≡ self.now ++ (path.now, way) ∷ []) }
    {
        let mut piece = self.copy(alloc)?;
        piece.decisions.push((path.copy(alloc)?, way))?;
        Ok(piece)
    }

    /// Whether the two are equal. It takes no memory.
    pub fn same(&self, other: &Piece) -> bool
        ensures { IsTrue result ↔ (self.now ≡ other.now) }
    {
        same_decisions(self.decisions.as_slice(), other.decisions.as_slice())
    }
}
