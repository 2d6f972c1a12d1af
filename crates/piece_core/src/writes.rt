//! Writes to the nodes of a book, and to what it keeps beside them so that nothing is searched for.
ghost use Rattle.std.specs.Prelude.{◌≡◌, ◌<◌, ◌≤◌, ◌+◌, ◌∷◌, ◌++◌, [], length, set, drop, slice_get, Some, vec_len, vec_capacity, OnOk, OnErr};
ghost use Rattle.piece_core.specs.declared.leaves.Leaf.{Leaf};
ghost use Rattle.piece_core.specs.declared.leaves.Status2.TheVariants.{Split};
ghost use Rattle.piece_core.specs.Book.{found_first, settled_of};

use crate::leaves::{Leaf, Status2, is_alive};
use call_tree::{PartTree, SitePath};
use std::alloc::AllocError;

pub(crate) fn set_holder(nodes: &mut Vec<Leaf>, node: usize, holder: Option<u32>)
    requires { node < length nodes.old.items }
    ensures { (leaf : Leaf) → slice_get nodes.old.items node ≡ Some leaf → nodes.new.items ≡ set nodes.old.items node (record leaf { holder = holder }) }
{
    let leaf = &mut nodes[node];
    leaf.holder = holder;
}

pub(crate) fn set_status(nodes: &mut Vec<Leaf>, node: usize, status: Status2)
    requires { node < length nodes.old.items }
    ensures items { (leaf : Leaf) → slice_get nodes.old.items node ≡ Some leaf → nodes.new.items ≡ set nodes.old.items node (record leaf { status = status }) }
    ensures room { (vec_len nodes.new ≡ vec_len nodes.old) × (vec_capacity nodes.new ≡ vec_capacity nodes.old) }
{
    let leaf = &mut nodes[node];
    leaf.status = status;
}

pub(crate) fn set_tree(nodes: &mut Vec<Leaf>, node: usize, tree: PartTree, inlined: u32)
    requires { node < length nodes.old.items }
    ensures { (leaf : Leaf) → slice_get nodes.old.items node ≡ Some leaf → nodes.new.items ≡ set nodes.old.items node (record leaf { tree = tree; inlined = inlined }) }
{
    let leaf = &mut nodes[node];
    leaf.tree = tree;
    leaf.inlined = inlined;
}

// Splits a node: its halves stand behind all nodes then, and the number of the first one at its own place.
pub(crate) fn put_halves(
    nodes: &mut Vec<Leaf>,
    firsts: &mut Vec<usize>,
    node: usize,
    site: SitePath,
    must: Leaf,
    avoid: Leaf,
) -> Result<(), AllocError>
    requires node { node < length nodes.old.items }
    requires place { node < length firsts.old.items }
    ensures ok { OnOk result ((leaf : Leaf) → slice_get nodes.old.items node ≡ Some leaf → nodes.new.items ≡ set nodes.old.items node (record leaf { status = Split site }) ++ must ∷ avoid ∷ []) }
    ensures firsts { OnOk result (firsts.new.items ≡ set firsts.old.items node (length nodes.old.items) ++ 0 ∷ 0 ∷ []) }
    ensures err { OnErr result (nodes.new.items ≡ nodes.old.items) }
    ensures err_firsts { OnErr result (firsts.new.items ≡ firsts.old.items) }
{
    firsts.reserve(2)?;
    nodes.reserve(2)?;
    let first = nodes.len();
    firsts[node] = first;
    firsts.push_reserved(0);
    firsts.push_reserved(0);
    set_status(nodes, node, Status2::Split { site });
    nodes.push_reserved(must);
    nodes.push_reserved(avoid);
    Ok(())
}

// How many nodes stand before the first live one that is not before this number. Each call begins where the last one ended, so all calls together look at each node once.
pub(crate) fn next_live(nodes: &[Leaf], from: usize) -> usize
    requires { from ≤ length nodes.now }
    ensures { result ≡ from + settled_of (drop from nodes.now) }
{
    for node in from..nodes.len() {
        if is_alive(&nodes[node].status) {
            return node;
        }
    }
    nodes.len()
}

// The first of two nodes that were found.
pub(crate) fn keep_first(found: Option<usize>, node: usize) -> Option<usize>
    ensures { result ≡ found_first found node }
{
    match found {
        None => Some(node),
        Some(earlier) => Some(earlier),
    }
}
