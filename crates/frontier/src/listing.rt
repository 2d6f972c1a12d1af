//! Listing the call sites of the nodes of a tree.
ghost use Rattle.std.specs.Prelude.{◌≡◌, ◌+◌, [], ◌∷◌, ◌++◌, ◌<◌, ◌^◌, length, reverse, filter, IfOk, OnOk};
ghost use Rattle.call_tree.specs.Trees.{IsPartTree, last_or, all_sites, open_of, cut_of};
ghost use Rattle.frontier.specs.Ways.{callee_lists, list_at, way_on};
ghost use Rattle.frontier.specs.Wanted.{is_wanted, takes, taken};

use crate::callees::{list_at, lists_of};
use crate::nodes::NodeSet;
use crate::ways::{last_on, way_along};
use call_tree::laws::{nodes_are_within_caps, sites_extend_ways};
use call_tree::{PartTree, SitePath, may_follow};
use flat_prog::Flat;
use sqlite_items::Items;
use std::alloc::{AllocError, Global};

// Which sites are listed.
#[derive(Clone, Copy, Debug, PartialEq, Eq)]
enum Wanted {
    // Those within the caps that are no nodes.
    Open,
    // Those past a cap.
    Cut,
}

// Whether a site is listed, by the procedures on the way to its node and its callee.
fn takes(
    flat: &Flat,
    bound: u32,
    nodes: &NodeSet,
    wanted: Wanted,
    way: &[u32],
    site: &SitePath,
    callee: u32,
) -> bool
    requires { length way.now < 2 ^ 64 }
    ensures { result ≡ takes flat.now bound nodes.now wanted way.now site.now callee }
{
    match wanted {
        Wanted::Open => may_follow(flat, bound, way, callee) && !nodes.has(site.sites()),
        Wanted::Cut => !may_follow(flat, bound, way, callee),
    }
}

// Lists a site of a node, if it is wanted.
fn push_site(
    alloc: Global,
    flat: &Flat,
    bound: u32,
    nodes: &NodeSet,
    wanted: Wanted,
    path: &SitePath,
    way: &[u32],
    site: u32,
    callee: u32,
    found: &mut Vec<SitePath>,
) -> Result<(), AllocError>
    requires { length way.now < 2 ^ 64 }
    ensures { OnOk result (found.new.items ≡ found.old.items ++ taken (takes flat.now bound nodes.now wanted way.now) path.now site (callee ∷ [])) }
{
    let next = path.extended(alloc, site)?;
    if takes(flat, bound, nodes, wanted, way, &next, callee) {
        found.push(next)?;
    }
    Ok(())
}

// The number behind that of a site.
fn next_number(site: u32) -> Result<u32, AllocError>
    ensures { IfOk result (λ next. next ≡ site + 1) }
{
    site.checked_add(1).ok_or(AllocError)
}

// Lists the wanted sites of a node, which have these callees.
fn push_sites(
    alloc: Global,
    flat: &Flat,
    bound: u32,
    nodes: &NodeSet,
    wanted: Wanted,
    path: &SitePath,
    way: &[u32],
    callees: &[u32],
    found: &mut Vec<SitePath>,
) -> Result<(), AllocError>
    requires { length way.now < 2 ^ 64 }
    ensures { OnOk result (found.new.items ≡ found.old.items ++ taken (takes flat.now bound nodes.now wanted way.now) path.now 0 callees.now) }
{
    let mut site: u32 = 0;
    for callee in callees {
        push_site(
            alloc, flat, bound, nodes, wanted, path, way, site, *callee, found,
        )?;
        site = next_number(site)?;
    }
    Ok(())
}

// The same, where these are the callees of all sites.
fn push_node(
    alloc: Global,
    flat: &Flat,
    entry: u32,
    bound: u32,
    nodes: &NodeSet,
    lists: &[Items<u32>],
    wanted: Wanted,
    path: &SitePath,
    found: &mut Vec<SitePath>,
) -> Result<(), AllocError>
    ensures { OnOk result (found.new.items ≡ found.old.items ++ taken (takes flat.now bound nodes.now wanted (way_on lists.now entry path.now)) path.now 0 (list_at lists.now (last_or 0 (way_on lists.now entry path.now)))) }
{
    let way = way_along(alloc, lists, entry, path.sites())?;
    let last = last_on(way.as_slice());
    push_sites(
        alloc,
        flat,
        bound,
        nodes,
        wanted,
        path,
        way.as_slice(),
        list_at(lists, last),
        found,
    )
}

// The wanted sites of all nodes.
fn sites_of_nodes(
    alloc: Global,
    flat: &Flat,
    entry: u32,
    bound: u32,
    tree: &[SitePath],
    wanted: Wanted,
) -> Result<Items<SitePath>, AllocError>
    requires { IsPartTree flat.now entry bound tree.now }
    ensures { IfOk result (λ it. it ≡ filter (is_wanted flat.now entry bound tree.now wanted) (all_sites flat.now entry tree.now)) }
{
    nodes_are_within_caps();
    sites_extend_ways();
    let procs = flat.procs();
    let lists = lists_of(alloc, procs)?;
    let nodes = NodeSet::of(alloc, tree)?;
    let mut found = Vec::new(alloc);
    for path in tree {
        push_node(
            alloc,
            flat,
            entry,
            bound,
            &nodes,
            lists.as_slice(),
            wanted,
            path,
            &mut found,
        )?;
    }
    Ok(Items::from_vec(found))
}

/// The call sites of the nodes that are within the caps and are no nodes, by the nodes' order and then by number: those that can be
/// inlined next. The tree is a partial tree of the entry at the bound. The error is want of memory; a procedure with 2^32 calls gives it
/// too, since sites are numbered in 32 bits. Time is linear in the number of sites of the nodes times the length of their paths.
pub fn open_sites(
    alloc: Global,
    flat: &Flat,
    entry: u32,
    bound: u32,
    tree: &PartTree,
) -> Result<Items<SitePath>, AllocError>
    requires { IsPartTree flat.now entry bound tree.now }
    ensures { IfOk result (λ it. it ≡ open_of flat.now entry bound tree.now) }
{
    sites_of_nodes(alloc, flat, entry, bound, tree.nodes(), Wanted::Open)
}

/// The call sites of the nodes that are past a cap, by the nodes' order and then by number. The rest is as for `open_sites`.
pub fn cut_sites(
    alloc: Global,
    flat: &Flat,
    entry: u32,
    bound: u32,
    tree: &PartTree,
) -> Result<Items<SitePath>, AllocError>
    requires { IsPartTree flat.now entry bound tree.now }
    ensures { IfOk result (λ it. it ≡ cut_of flat.now entry bound tree.now) }
{
    sites_of_nodes(alloc, flat, entry, bound, tree.nodes(), Wanted::Cut)
}
