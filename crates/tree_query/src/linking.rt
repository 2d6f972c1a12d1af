//! The table of a partly inlined tree of calls, by which the formulas of its nodes are copied.
ghost use Rattle.std.specs.Prelude.{◌≡◌, ◌+◌, ℕ, map, IfOk};
ghost use Rattle.flat_prog.specs.Sites.{numbers_from};
ghost use Rattle.call_tree.specs.Trees.{IsPartTree, extended, last_or, parent};
ghost use Rattle.tree_words.specs.Linking.{number_or};
ghost use Rattle.tree_query.specs.Tabled.{HaveSites, IsTabled, called_by, place_by, place_from, place_in, proc_from, sites_of_template};

use crate::numbering::PathNumbers;
use call_tree::laws::nodes_are_within_caps;
use call_tree::{PartTree, SitePath};
use flat_prog::Flat;
use sqlite_items::{Items, at};
use std::alloc::{AllocError, Global};
use tree_terms::{Linked, Place, SiteTerms, Template};

// A path without its last site.
fn parent(path: &[u32]) -> &[u32]
    ensures { result.now ≡ parent path.now }
{
    if path.is_empty() {
        path
    } else {
        &path[..path.len() - 1]
    }
}

// The last site of a path; 0 where it has none.
fn last_site(path: &[u32]) -> u32
    ensures { result ≡ last_or 0 path.now }
{
    match path.last() {
        Some(site) => *site,
        None => 0,
    }
}

// The number of a path; 0 where it has none.
fn number_of(numbers: &PathNumbers, path: &[u32]) -> usize
    ensures { result ≡ number_or (place_in numbers.now path.now) }
{
    match numbers.find(path) {
        Some(number) => number,
        None => 0,
    }
}

// The sites of a procedure's formula; none where it has no formula.
fn sites(templates: &[Template], proc: usize) -> &[SiteTerms]
    ensures { result.now ≡ sites_of_template templates.now proc }
{
    match at(templates, proc) {
        None => &[],
        Some(template) => template.sites.as_slice(),
    }
}

// The procedure that a site of a procedure calls; 0 where there is no such site.
fn called(templates: &[Template], proc: usize, site: usize) -> usize
    ensures { result ≡ called_by templates.now proc site }
{
    match at(sites(templates, proc), site) {
        None => 0,
        Some(site) => site.proc,
    }
}

// The number behind that of a site.
fn next_number(site: u32) -> Result<u32, AllocError>
    ensures { IfOk result (λ next. next ≡ site + 1) }
{
    site.checked_add(1).ok_or(AllocError)
}

// For each of so many sites of a node the number of its path; None where it has none.
fn kids(
    alloc: Global,
    numbers: &PathNumbers,
    path: &SitePath,
    count: usize,
) -> Result<Items<Option<usize>>, AllocError>
    ensures { IfOk result (λ kids. kids ≡ map (place_in numbers.now) (extended path.now (numbers_from 0 count))) }
{
    let mut kids = Items::new(alloc);
    let mut site: u32 = 0;
    for index in 0..count {
        let next = path.extended(alloc, site)?;
        kids.push(numbers.find(next.sites()))?;
        site = next_number(site)?;
    }
    Ok(kids)
}

// The procedure of a node, where the nodes before it have theirs.
fn proc_of(templates: &[Template], tree: &[Place], entry: u32, path: &[u32], parent: usize) -> usize
    ensures { result ≡ proc_from templates.now tree.now entry path.now parent }
{
    if path.is_empty() {
        return entry as usize;
    }
    match at(tree, parent) {
        None => 0,
        Some(place) => called(templates, place.template, last_site(path) as usize),
    }
}

// The entry of a node in the table, where the nodes before it have theirs.
fn place(
    alloc: Global,
    numbers: &PathNumbers,
    templates: &[Template],
    tree: &[Place],
    entry: u32,
    path: &SitePath,
) -> Result<Place, AllocError>
    ensures { IfOk result (λ p. p ≡ place_from numbers.now templates.now tree.now entry path.now) }
{
    let parent = number_of(numbers, parent(path.sites()));
    let proc = proc_of(templates, tree, entry, path.sites(), parent);
    let kids = kids(alloc, numbers, path, sites(templates, proc).len())?;
    Ok(Place {
        template: proc,
        parent,
        site: last_site(path.sites()) as usize,
        kids,
    })
}

// The entries of all nodes.
pub(crate) fn places(
    alloc: Global,
    flat: &Flat,
    entry: u32,
    tree: &PartTree,
    templates: &[Template],
) -> Result<Items<Place>, AllocError>
    requires tree { (bound : ℕ) × IsPartTree flat.now entry bound tree.now }
    requires templates { HaveSites flat.now templates.now }
    ensures { IfOk result (λ places. places ≡ map (place_by flat.now entry tree.now) tree.now) }
{
    let nodes = tree.nodes();
    let numbers = PathNumbers::of(alloc, nodes)?;
    let mut places = Items::new(alloc);
    for path in nodes {
        let place = place(alloc, &numbers, templates, places.as_slice(), entry, path)?;
        places.push(place)?;
    }
    Ok(places)
}

/// The table of a partial tree of an entry: its nodes in the tree's order, each with its procedure's formula, its caller, the site
/// there that it is called at, and for each of its own sites the node there, or None where the site is open.
///
/// `templates` has the formula of each procedure, in order, whose sites call what the procedure's do. `consts`, `globals` and
/// `args` are the terms of the constants, of the globals as the entry finds them, and of its ins.
///
/// Paths are found by hash, so the time is linear in the lengths of the paths of the nodes and of their sites. `AllocError` comes
/// where memory runs out, or where a node has 2^32 sites.
pub fn linked(
    alloc: Global,
    flat: &Flat,
    entry: u32,
    tree: &PartTree,
    templates: Items<Template>,
    consts: Items<usize>,
    globals: Items<usize>,
    args: Items<usize>,
) -> Result<Linked, AllocError>
    requires tree { (bound : ℕ) × IsPartTree flat.now entry bound tree.now }
    requires templates { HaveSites flat.now templates }
    ensures tree { IfOk result (λ q. IsTabled flat.now entry tree.now q) }
    ensures templates { IfOk result (λ q. q.templates ≡ templates) }
    ensures consts { IfOk result (λ q. q.consts ≡ consts) }
    ensures globals { IfOk result (λ q. q.globals ≡ globals) }
    ensures args { IfOk result (λ q. q.args ≡ args) }
{
    let tree = places(alloc, flat, entry, tree, templates.as_slice())?;
    Ok(Linked {
        templates,
        tree,
        consts,
        globals,
        args,
    })
}
