//! The terms of a question, put together. `AllocError` comes where memory runs out, or a node has 2 ^ 32 sites.
ghost use Rattle.std.specs.Prelude.{◌≡◌, ◌+◌, [], length, map, true, false, IfOk, if◌then◌else◌};
ghost use Rattle.flat_prog.specs.Caps.{within};
ghost use Rattle.flat_prog.specs.Sites.{numbers_from};
ghost use Rattle.call_tree.specs.Trees.{extended};
ghost use Rattle.tree_words.specs.Linking.{number};
ghost use Rattle.tree_words.specs.RulesSaid.{numbered};
ghost use Rattle.tree_query.specs.Asked.{IsAsked, IsTable, caps_of};
ghost use Rattle.tree_query.specs.Asking.{MayAsk};
ghost use Rattle.tree_query.specs.Founded.{IsFoundation};
ghost use Rattle.tree_query.specs.Tabled.{place_by};

use crate::founding::Bools;
use call_tree::{Decision2, PartTree, Piece, SitePath, within_caps};
use flat_prog::Flat;
use hy_term::Terms;
use sqlite_items::Items;
use std::alloc::{AllocError, Global};
use tree_terms::{Linked, Place, SharedTerms, Table, copied, kid, reaches};
use tree_words::{
    copies_stay, reaches_are_reached, reaches_stay, root_of, roots_are_made, rules_are_fit,
};

/// Terms that ask a question, and what a run is read by off values of them: where the copies of the nodes' formulas are, and the
/// bools that say that the nodes are reached.
#[derive(Drop)]
pub(crate) struct Question {
    pub(crate) terms: Terms,
    pub(crate) places: Table,
    pub(crate) reach: Items<usize>,
}

// The node to which a path leads from the root; 0 where a site on the way is open.
fn node_of(q: &Linked, path: &[u32]) -> usize
    ensures { result ≡ number q.now path.now }
{
    let mut node = 0;
    for site in path {
        match kid(q, node, *site as usize) {
            Some(next) => node = next,
            None => return 0,
        }
    }
    node
}

// A piece by the numbers of its nodes.
fn numbered(
    alloc: Global,
    q: &Linked,
    piece: &Piece,
) -> Result<Items<(usize, Decision2)>, AllocError>
    ensures { IfOk result (λ ds. ds ≡ numbered q.now piece.now) }
{
    let mut decisions = Items::new(alloc);
    for decision in piece.decisions() {
        decisions.push((node_of(q, decision.0.sites()), decision.1))?;
    }
    Ok(decisions)
}

// The number behind that of a site.
fn next_number(site: u32) -> Result<u32, AllocError>
    ensures { IfOk result (λ next. next ≡ site + 1) }
{
    site.checked_add(1).ok_or(AllocError)
}

// For each of so many sites of a node whether it is within the caps.
fn site_caps(
    alloc: Global,
    flat: &Flat,
    entry: u32,
    bound: u32,
    path: &SitePath,
    count: usize,
) -> Result<Items<bool>, AllocError>
    ensures { IfOk result (λ flags. flags ≡ map (within flat.now entry bound) (extended path.now (numbers_from 0 count))) }
{
    let mut flags = Items::new(alloc);
    let mut site: u32 = 0;
    for index in 0..count {
        let next = path.extended(alloc, site)?;
        flags.push(within_caps(flat, entry, bound, &next))?;
        site = next_number(site)?;
    }
    Ok(flags)
}

// For each node of a tree, and each of its sites, whether it is within the caps.
fn caps_of(
    alloc: Global,
    flat: &Flat,
    entry: u32,
    bound: u32,
    tree: &PartTree,
    places: &[Place],
) -> Result<Items<Items<bool>>, AllocError>
    requires { places.now ≡ map (place_by flat.now entry tree.now) tree.now }
    ensures { IfOk result (λ table. table ≡ caps_of flat.now entry bound tree.now) }
{
    let paths = tree.nodes();
    let mut table = Items::new(alloc);
    for index in 0..paths.len() {
        let count = places[index].kids.len();
        table.push(site_caps(alloc, flat, entry, bound, &paths[index], count)?)?;
    }
    Ok(table)
}

// Which sites without a node may be passed: the open ones, where these are not blocked.
fn may_pass(
    alloc: Global,
    flat: &Flat,
    entry: u32,
    bound: u32,
    tree: &PartTree,
    places: &[Place],
    blocked: bool,
) -> Result<Items<Items<bool>>, AllocError>
    requires { places.now ≡ map (place_by flat.now entry tree.now) tree.now }
    ensures { IfOk result (λ table. table ≡ (if blocked then [] else caps_of flat.now entry bound tree.now)) }
{
    if blocked {
        return Ok(Items::new(alloc));
    }
    caps_of(alloc, flat, entry, bound, tree, places)
}

/// The terms that ask for a failing partial run of a tree that meets a piece, and, where open sites are blocked, has no free
/// child. The formulas of the table's nodes are copied behind the terms.
pub(crate) fn asked(
    alloc: Global,
    flat: &Flat,
    entry: u32,
    bound: u32,
    tree: &PartTree,
    piece: &Piece,
    blocked: bool,
    q: &Linked,
    terms: SharedTerms,
    bools: Bools,
) -> Result<Question, AllocError>
    requires may { MayAsk flat.now entry bound tree.now piece.now }
    requires founded { IsFoundation flat.now entry terms.nodes q.now.consts q.now.globals q.now.args bools.allowed bools.always bools.never }
    requires table { IsTable flat.now entry tree.now terms.nodes q.now }
    ensures { IfOk result (λ x. IsAsked flat.now entry bound blocked tree.now piece.now q.now x.terms x.places x.reach) }
{
    copies_stay();
    reaches_stay();
    reaches_are_reached();
    roots_are_made();
    let mut terms = terms;
    let places = copied(alloc, q, &mut terms)?;
    let reach = reaches(alloc, q, &places, &mut terms, bools.always, bools.never)?;
    let may = may_pass(alloc, flat, entry, bound, tree, q.tree.as_slice(), blocked)?;
    let decisions = numbered(alloc, q, piece)?;
    let root = root_of(
        alloc,
        &mut terms,
        q,
        &places,
        reach.as_slice(),
        may.as_slice(),
        bools.always,
        bools.never,
        bools.allowed,
        decisions.as_slice(),
    )?;
    let mut terms = terms.into_terms();
    terms.set_root(root);
    Ok(Question {
        terms,
        places,
        reach,
    })
}
