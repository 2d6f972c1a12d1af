//! Open and cut sites, and trees that grow by them.
ghost use Rattle.std.specs.Prelude.{◌≤◌, IfOk};
ghost use Rattle.call_tree.specs.Trees.{IsPartTree};

use crate::codes::{codes_of, path_of};
use crate::programs::{recursive_program, wide_program};
use call_tree::laws::{open_sites_differ, the_root_is_a_tree, trees_grow_by_open_sites};
use call_tree::{PartTree, Piece, SitePath, undecided};
use flat_prog::Flat;
use frontier::{cut_sites, inline, open_sites};
use sqlite_items::Items;
use std::alloc::{AllocError, Global};
use std::process::Abort;
use std::test::Fail;

// The tree that the root grows to where all open sites are inlined so many times.
fn grown(
    alloc: Global,
    flat: &Flat,
    entry: u32,
    bound: u32,
    rounds: u32,
) -> Result<PartTree, AllocError>
    requires { 1 ≤ bound }
    ensures { IfOk result (λ t. IsPartTree flat.now entry bound t) }
{
    the_root_is_a_tree();
    open_sites_differ();
    trees_grow_by_open_sites();
    let mut tree = PartTree::root(alloc)?;
    for _round in 0..rounds {
        let sites = open_sites(alloc, flat, entry, bound, &tree)?;
        inline(&mut tree, sites.as_slice())?;
    }
    Ok(tree)
}

// The nodes, the open and the cut sites after so many rounds, of a caller of a procedure that calls itself and may be open twice.
fn edge(alloc: Global, rounds: u32) -> Result<(u64, u64, u64), AllocError> {
    let flat = recursive_program(alloc)?;
    let tree = grown(alloc, &flat, 1, 2, rounds)?;
    let open = open_sites(alloc, &flat, 1, 2, &tree)?;
    let cut = cut_sites(alloc, &flat, 1, 2, &tree)?;
    Ok((
        codes_of(tree.nodes()),
        codes_of(open.as_slice()),
        codes_of(cut.as_slice()),
    ))
}

#[test]
fn recursion_is_inlined_up_to_the_cap(rt: HostRuntime) -> Result<(), Fail> {
    for (rounds, nodes, open, cut) in [
        (0, 1, 10, 0),
        (1, 1_0010, 100, 0),
        (2, 1_0010_0100, 0, 1000),
        (3, 1_0010_0100, 0, 1000),
    ] {
        let found = edge(rt.alloc(), rounds)?;
        assert!(rt; found.0 == nodes && found.1 == open && found.2 == cut);
    }
    Ok(())
}

// Whether the path of a number stands at a place.
fn stands_at(
    alloc: Global,
    paths: &[SitePath],
    place: usize,
    code: u64,
) -> Result<bool, AllocError> {
    let wanted = path_of(alloc, code)?;
    match paths.get(place) {
        Some(path) => Ok(path.same(&wanted)),
        None => Ok(false),
    }
}

// The tree of a root, so many nodes and so many below each of these, its open sites, and how many are cut.
fn wide_edge(
    alloc: Global,
    first: usize,
    second: usize,
) -> Result<(PartTree, Items<SitePath>, usize), AllocError> {
    let flat = wide_program(alloc, first, second)?;
    let tree = grown(alloc, &flat, 0, 1, 2)?;
    let open = open_sites(alloc, &flat, 0, 1, &tree)?;
    let cut = cut_sites(alloc, &flat, 0, 1, &tree)?;
    Ok((tree, open, cut.as_slice().len()))
}

// Each of the ten thousand last nodes has one open site.
#[test]
fn ten_thousand_nodes_have_their_open_sites(rt: HostRuntime) -> Result<(), Fail> {
    let found = wide_edge(rt.alloc(), 100, 100)?;
    assert!(rt; found.0.nodes().len() == 10101);
    assert!(rt; found.1.as_slice().len() == 10000);
    assert!(rt; found.2 == 0);
    for (place, code) in [(0, 1000), (101, 1110), (507, 1570)] {
        assert!(rt; stands_at(rt.alloc(), found.1.as_slice(), place, code)?);
    }
    let whole = Piece::whole(rt.alloc());
    let nodes = undecided(rt.alloc(), &found.0, &whole)?;
    assert!(rt; nodes.as_slice().len() == 10100);
    Ok(())
}

// How many nodes and cut sites a chain has: a procedure that calls itself, open at most so often, inlined so many times.
fn chain_counts(alloc: Global, bound: u32, rounds: u32) -> Result<(usize, usize), AllocError>
    requires { 1 ≤ bound }
{
    let flat = recursive_program(alloc)?;
    let tree = grown(alloc, &flat, 0, bound, rounds)?;
    let cut = cut_sites(alloc, &flat, 0, bound, &tree)?;
    Ok((tree.nodes().len(), cut.as_slice().len()))
}

#[test]
fn a_chain_grows_to_the_cap(rt: HostRuntime) -> Result<(), Fail> {
    let found = chain_counts(rt.alloc(), 100, 120)?;
    assert!(rt; found.0 == 100);
    assert!(rt; found.1 == 1);
    Ok(())
}
