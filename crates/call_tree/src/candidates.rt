//! The nodes of a partial tree that no decision settles, on which a piece can be divided.
ghost use Rattle.std.specs.Prelude.{◌≡◌, IfOk};
ghost use Rattle.call_tree.specs.Pieces.{settles, is_undecided, undecided_of};

use crate::path::SitePath;
use crate::piece::{Decision2, PartTree, Piece};
use sqlite_items::Items;
use std::alloc::{AllocError, Global};

// Whether a decision settles whether a path is reached.
fn settles(path: &SitePath, decision: &(SitePath, Decision2)) -> bool
    ensures { result ≡ settles path.now decision.now }
{
    match decision.1 {
        Decision2::Must => decision.0.sites().starts_with(path.sites()),
        Decision2::Avoid => path.sites().starts_with(decision.0.sites()),
    }
}

// Whether a path is not the root, and no decision settles it.
fn is_undecided(decisions: &[(SitePath, Decision2)], path: &SitePath) -> bool
    ensures { result ≡ is_undecided decisions.now path.now }
{
    if path.sites().is_empty() {
        return false;
    }
    for decision in decisions {
        if settles(path, decision) {
            return false;
        }
    }
    true
}

// Those of the paths that are undecided.
fn undecided_in(
    alloc: Global,
    nodes: &[SitePath],
    decisions: &[(SitePath, Decision2)],
) -> Result<Items<SitePath>, AllocError>
    ensures { IfOk result (λ it. it ≡ undecided_of nodes.now decisions.now) }
{
    let mut sites = Vec::new(alloc);
    for path in nodes {
        if is_undecided(decisions, path) {
            sites.push(path.copy(alloc)?)?;
        }
    }
    Ok(Items::from_vec(sites))
}

/// The nodes of a tree, in its order, that are undecided under a piece: not the root, named by no decision, extended by no path
/// of a Must decision, and extending none of an Avoid decision. The error is want of memory.
pub fn undecided(
    alloc: Global,
    tree: &PartTree,
    piece: &Piece,
) -> Result<Items<SitePath>, AllocError>
    ensures { IfOk result (λ it. it ≡ undecided_of tree.now piece.now) }
{
    undecided_in(alloc, tree.nodes(), piece.decisions())
}
