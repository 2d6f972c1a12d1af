//! Inlining.
ghost use Rattle.std.specs.Prelude.{◌≡◌, ◌++◌, OnOk, OnErr};

use call_tree::{PartTree, SitePath};
use std::alloc::AllocError;

/// Appends the sites to the nodes of a tree, in order. Different open sites leave it a partial tree. The error is want of memory; the
/// tree is then as before.
pub fn inline(tree: &mut PartTree, sites: &[SitePath]) -> Result<(), AllocError>
    ensures ok { OnOk result (tree.new ≡ tree.old ++ sites.now) }
    ensures err { OnErr result (tree.new ≡ tree.old) }
{
    tree.append(sites)
}
