//! The open sites of a tree that a run passes.
ghost use Rattle.std.specs.Prelude.{◌≡◌, ◌||◌, [], ◌∷◌, ◌++◌, List, ℕ, filter, slice_get, IfOk, OnOk};
ghost use Rattle.flat_prog.specs.Laws.{below_of};
ghost use Rattle.flat_prog.specs.Nodes.{are_nodes, run_of, runs_of};
ghost use Rattle.flat_prog.specs.Program.{FlatProgram};
ghost use Rattle.flat_prog.specs.Trees.{Run};
ghost use Rattle.call_tree.specs.Laws.{passed_of};
ghost use Rattle.call_tree.specs.Questions.{frees_below, frees_of};
ghost use Rattle.call_tree.specs.Trees.{IsPartTree, has_path};
ghost use Rattle.frontier.specs.Passed.{has_free, site_tables, sites_on, table_at, frees_at};

use crate::listing::open_sites;
use crate::nodes::NodeSet;
use crate::numbers::{sites_along, table_at, tables_of};
use call_tree::{PartTree, SitePath};
use flat_prog::{Child, Flat, PartRun, RunNode, nodes_are_runs};
use sqlite_items::Items;
use std::alloc::{AllocError, Global};

// A node of a run, by its number, and the path at which it stands.
#[derive(Drop)]
struct Standing {
    node: usize,
    path: SitePath,
}

// Puts a child at a site of a node: a node to those that are left, a free one's path to the free ones.
fn push_child(
    alloc: Global,
    path: &SitePath,
    site: u32,
    child: &Child,
    left: &mut Vec<Standing>,
    free: &mut Vec<SitePath>,
) -> Result<(), AllocError>
    ensures { OnOk result ((flat : FlatProgram) (runs : List Run) (p : List ℕ) → has_free flat runs left.new.items free.new.items p ≡ (has_free flat runs left.old.items free.old.items p || has_path (frees_below (below_of runs (child.now ∷ [])) flat path.now (site ∷ [])) p)) }
{
    let next = path.extended(alloc, site)?;
    match child {
        Child::Node(node) => {
            left.push(Standing {
                node: *node,
                path: next,
            })?;
            Ok(())
        }
        Child::Free { .. } => {
            free.push(next)?;
            Ok(())
        }
    }
}

// The site at a place.
fn site_at(sites: &[u32], place: usize) -> Option<u32>
    ensures { result ≡ slice_get sites.now place }
{
    sites.get(place).copied()
}

// The same for the children at these sites, in order.
fn push_children(
    alloc: Global,
    path: &SitePath,
    sites: &[u32],
    children: &[Child],
    left: &mut Vec<Standing>,
    free: &mut Vec<SitePath>,
) -> Result<(), AllocError>
    ensures { OnOk result ((flat : FlatProgram) (runs : List Run) (p : List ℕ) → has_free flat runs left.new.items free.new.items p ≡ (has_free flat runs left.old.items free.old.items p || has_path (frees_below (below_of runs children.now) flat path.now sites.now) p)) }
{
    let mut at = 0;
    for child in children {
        let Some(site) = site_at(sites, at) else {
            return Ok(());
        };
        push_child(alloc, path, site, child, left, free)?;
        at += 1;
    }
    Ok(())
}

// The same for the children of a node at a path, where these are the sites of all blocks.
fn push_below(
    alloc: Global,
    tables: &[Items<Items<u32>>],
    path: &SitePath,
    node: &RunNode,
    left: &mut Vec<Standing>,
    free: &mut Vec<SitePath>,
) -> Result<(), AllocError>
    ensures { OnOk result ((flat : FlatProgram) (runs : List Run) (p : List ℕ) → has_free flat runs left.new.items free.new.items p ≡ (has_free flat runs left.old.items free.old.items p || has_path (frees_below (below_of runs node.now.children) flat path.now (sites_on (table_at tables.now node.now.proc) node.now.path)) p)) }
{
    let sites = sites_along(alloc, table_at(tables, node.proc), node.path.as_slice())?;
    push_children(
        alloc,
        path,
        sites.as_slice(),
        node.children.as_slice(),
        left,
        free,
    )
}

// The same for the node of a number; nothing where there is none.
fn push_node(
    alloc: Global,
    tables: &[Items<Items<u32>>],
    nodes: &[RunNode],
    at: &Standing,
    left: &mut Vec<Standing>,
    free: &mut Vec<SitePath>,
) -> Result<(), AllocError>
    ensures { OnOk result ((flat : FlatProgram) (runs : List Run) (p : List ℕ) → has_free flat runs left.new.items free.new.items p ≡ (has_free flat runs left.old.items free.old.items p || has_path (frees_at flat runs tables.now nodes.now at.now) p)) }
{
    match nodes.get(at.node) {
        Some(node) => push_below(alloc, tables, &at.path, node, left, free),
        None => Ok(()),
    }
}

// The sites at which a run has free children, in some order.
fn free_sites(alloc: Global, flat: &Flat, run: &PartRun) -> Result<Vec<SitePath>, AllocError>
    ensures { IfOk result (λ free. (p : List ℕ) → has_path free.items p ≡ has_path (frees_of (run_of run.now) flat.now []) p) }
{
    nodes_are_runs();
    let procs = flat.procs();
    let nodes = run.nodes();
    let tables = tables_of(alloc, procs)?;
    let mut free = Vec::new(alloc);
    let mut left = Vec::new(alloc);
    left.push(Standing {
        node: 0,
        path: SitePath::root(alloc),
    })?;
    // Each round takes one node, and no memory holds a run of so many.
    for _ in 0..u64::MAX {
        let Some(at) = left.pop() else {
            return Ok(free);
        };
        push_node(alloc, tables.as_slice(), nodes, &at, &mut left, &mut free)?;
    }
    Err(AllocError)
}

// Those of the sites that are among the passed ones.
fn passed_among(
    alloc: Global,
    sites: &[SitePath],
    passed: &NodeSet,
) -> Result<Items<SitePath>, AllocError>
    ensures { IfOk result (λ it. it ≡ filter (has_path passed.now) sites.now) }
{
    let mut found = Vec::new(alloc);
    for site in sites {
        push_passed(alloc, site, passed, &mut found)?;
    }
    Ok(Items::from_vec(found))
}

// Appends a site, if it is among the passed ones.
fn push_passed(
    alloc: Global,
    site: &SitePath,
    passed: &NodeSet,
    found: &mut Vec<SitePath>,
) -> Result<(), AllocError>
    ensures { OnOk result (found.new.items ≡ found.old.items ++ filter (has_path passed.now) (site.now ∷ [])) }
{
    if passed.has(site.sites()) {
        found.push(site.copy(alloc)?)?;
    }
    Ok(())
}

/// The open sites that a run passes: those at which it has a free child, in the order of `open_sites`. The tree is a partial tree of the
/// entry at the bound; the run may be any. The error is want of memory, and comes where `open_sites` gives it. Time is linear in the
/// number of sites of the tree's nodes and of the program and in the size of the run, times the length of the paths.
pub fn passed_opens(
    alloc: Global,
    flat: &Flat,
    entry: u32,
    bound: u32,
    tree: &PartTree,
    run: &PartRun,
) -> Result<Items<SitePath>, AllocError>
    requires { IsPartTree flat.now entry bound tree.now }
    ensures { IfOk result (λ sites. sites ≡ passed_of flat.now entry bound tree.now (run_of run.now)) }
{
    let free = free_sites(alloc, flat, run)?;
    let passed = NodeSet::of(alloc, free.as_slice())?;
    let opens = open_sites(alloc, flat, entry, bound, tree)?;
    passed_among(alloc, opens.as_slice(), &passed)
}
