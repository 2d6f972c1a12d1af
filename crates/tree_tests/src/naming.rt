//! Site paths, partial trees and pieces, and the nodes that a piece leaves undecided.
use crate::codes::{codes_of, path_of};
use call_tree::{Decision2, PartTree, Piece, SitePath, copy_paths, has, undecided};
use sqlite_items::Items;
use std::alloc::{AllocError, Global};
use std::process::Abort;
use std::test::Fail;

// The root, `0`, `0/0` and `1`.
fn small_tree(alloc: Global) -> Result<PartTree, AllocError> {
    let mut nodes = Items::new(alloc);
    for code in [1, 10, 100, 11] {
        nodes.push(path_of(alloc, code)?)?;
    }
    Ok(PartTree::new(alloc, nodes))
}

// The undecided nodes of the small tree where there is one decision.
fn left(alloc: Global, code: u64, way: Decision2) -> Result<u64, AllocError> {
    let tree = small_tree(alloc)?;
    let path = path_of(alloc, code)?;
    let piece = Piece::whole(alloc).with(alloc, &path, way)?;
    let nodes = undecided(alloc, &tree, &piece)?;
    Ok(codes_of(nodes.as_slice()))
}

// A Must decision settles its path and the prefixes of it, an Avoid decision its path and what extends it.
#[test]
fn decisions_settle_nodes(rt: HostRuntime) -> Result<(), Fail> {
    for (code, way, wanted) in [
        (10, Decision2::Must, 100_0011),
        (100, Decision2::Must, 11),
        (10, Decision2::Avoid, 11),
        (100, Decision2::Avoid, 10_0011),
        (17, Decision2::Must, 10_0100_0011),
    ] {
        assert!(rt; left(rt.alloc(), code, way)? == wanted);
    }
    Ok(())
}

#[test]
fn paths_grow_and_are_copied(rt: HostRuntime) -> Result<(), Fail> {
    let root = SitePath::root(rt.alloc());
    let first = root.extended(rt.alloc(), 7)?;
    let copy = first.copy(rt.alloc())?;
    assert!(rt; root.sites().is_empty());
    assert!(rt; first.sites() == [7].as_slice());
    assert!(rt; copy.same(&first));
    assert!(rt; !copy.same(&root));
    Ok(())
}

#[test]
fn trees_grow_and_are_copied(rt: HostRuntime) -> Result<(), Fail> {
    let mut tree = PartTree::root(rt.alloc())?;
    let copy = tree.copy(rt.alloc())?;
    assert!(rt; copy.same(&tree));
    let small = small_tree(rt.alloc())?;
    let rest = copy_paths(rt.alloc(), small.nodes())?;
    tree.append(rest.as_slice())?;
    assert!(rt; codes_of(tree.nodes()) == 1_0001_0010_0100_0011);
    assert!(rt; !copy.same(&tree));
    for (code, wanted) in [(100, true), (101, false)] {
        let path = path_of(rt.alloc(), code)?;
        assert!(rt; has(rest.as_slice(), &path) == wanted);
    }
    Ok(())
}

#[test]
fn pieces_grow_and_are_copied(rt: HostRuntime) -> Result<(), Fail> {
    let site = path_of(rt.alloc(), 13)?;
    let whole = Piece::whole(rt.alloc());
    let must = whole.with(rt.alloc(), &site, Decision2::Must)?;
    let avoid = whole.with(rt.alloc(), &site, Decision2::Avoid)?;
    let copy = must.copy(rt.alloc())?;
    assert!(rt; whole.decisions().is_empty());
    assert!(rt; must.decisions().len() == 1);
    assert!(rt; copy.same(&must));
    assert!(rt; !must.same(&avoid));
    assert!(rt; !must.same(&whole));
    Ok(())
}
