//! Tests of what the calls ask, so that the tests prove it of any tree.
ghost use Rattle.std.specs.Prelude.{◌≡◌, ◌≤◌, length, slice_get, true, is_some, IfOk, IfSome, IsTrue, Some};
ghost use Rattle.hy_term.specs.TermSorts.{sort_at, sorts};
ghost use Rattle.hy_term.specs.Variables.{below};
ghost use Rattle.tree_terms.specs.Checks.{all_before, all_fit, comes_before, fits_if, has_this, node_before, node_fits, nodes_fit, source_fits};
ghost use Rattle.tree_terms.specs.Linked.{IsLinked, nodes_of};

use crate::*;
use hy_term::{TermNode, Terms, sort_of_node};
use hy_val::Sort;
use sqlite_items::{Items, at};
use std::alloc::{AllocError, Global};

fn sorts_of(alloc: Global, nodes: &[TermNode]) -> Result<Option<Items<Sort>>, AllocError>
    ensures { IfOk result (λ o. o ≡ sorts nodes.now) }
{
    let mut known = Items::new(alloc);
    for node in nodes {
        match sort_of_node(known.as_slice(), node) {
            None => {
                return Ok(None);
            }
            Some(sort) => {
                known.push(sort)?;
            }
        }
    }
    Ok(Some(known))
}

fn sort_among(alloc: Global, nodes: &[TermNode], place: usize) -> Result<Option<Sort>, AllocError>
    ensures { IfOk result (λ o. o ≡ sort_at nodes.now place) }
{
    match sorts_of(alloc, nodes)? {
        None => Ok(None),
        Some(known) => Ok(at(known.as_slice(), place).copied()),
    }
}

fn sort_in(alloc: Global, q: &Linked, node: usize, place: usize) -> Result<Option<Sort>, AllocError>
    ensures { IfOk result (λ o. o ≡ sort_at (nodes_of q.now node) place) }
{
    match template_of(q, node) {
        None => Ok(None),
        Some(template) => sort_among(alloc, template.nodes.as_slice(), place),
    }
}

fn are_sorted(alloc: Global, q: &Linked, node: usize) -> Result<bool, AllocError>
    ensures { IfOk result (λ b. b ≡ is_some (sorts (nodes_of q.now node))) }
{
    match template_of(q, node) {
        None => Ok(true),
        Some(template) => {
            let known = sorts_of(alloc, template.nodes.as_slice())?;
            Ok(known.is_some())
        }
    }
}

fn has_this(known: Option<Sort>, sort: Sort) -> bool
    ensures { result ≡ has_this known sort }
{
    match known {
        None => false,
        Some(own) => own == sort,
    }
}

fn comes_before(q: &Linked, callee: usize, node: usize, place: usize, source: Source) -> bool
    ensures { result ≡ comes_before q.now callee node place source }
{
    match source {
        Source::Up(at) => parent(q, callee) == node && at < place,
        _ => true,
    }
}

fn node_before(q: &Linked, callee: usize, node: usize, place: usize, next: usize) -> bool
    ensures { result ≡ node_before q.now callee node place (slice_get (nodes_of q.now callee) next) }
{
    match node_at(q, callee, next) {
        Some(TermNode::Variable { number, sort: _ }) => {
            comes_before(q, callee, node, place, source_of(q, callee, number))
        }
        _ => true,
    }
}

fn all_before(q: &Linked, callee: usize, node: usize, place: usize) -> bool
    ensures { result ≡ all_before q.now callee node place (length (nodes_of q.now callee)) }
{
    let mut all = true;
    for next in 0..count(q, callee) {
        let before = node_before(q, callee, node, place, next);
        all = all && before;
    }
    all
}

fn source_fits(
    alloc: Global,
    q: &Linked,
    terms: &Terms,
    node: usize,
    place: usize,
    sort: Sort,
    source: Source,
) -> Result<bool, AllocError>
    ensures { IfOk result (λ b. b ≡ source_fits q.now terms.now.nodes node place sort source) }
{
    match source {
        Source::Given(term) => {
            let known = sort_among(alloc, terms.nodes(), term)?;
            Ok(has_this(known, sort))
        }
        Source::Up(at) => {
            let caller = parent(q, node);
            let known = sort_in(alloc, q, caller, at)?;
            Ok(caller < node && has_this(known, sort))
        }
        Source::Down { node: callee, at } => {
            let known = sort_in(alloc, q, callee, at)?;
            let before = all_before(q, callee, node, place);
            Ok(node < callee && callee < q.tree.len() && has_this(known, sort) && before)
        }
        Source::Fresh => Ok(true),
    }
}

fn node_fits(
    alloc: Global,
    q: &Linked,
    terms: &Terms,
    node: usize,
    place: usize,
    next: &TermNode,
) -> Result<bool, AllocError>
    ensures { IfOk result (λ b. b ≡ node_fits q.now terms.now.nodes node place next.now) }
{
    if let TermNode::Variable { number, sort } = *next {
        let source = source_of(q, node, number);
        return source_fits(alloc, q, terms, node, place, sort, source);
    }
    Ok(true)
}

fn fits_at(
    alloc: Global,
    q: &Linked,
    terms: &Terms,
    node: usize,
    place: usize,
) -> Result<bool, AllocError>
    ensures { IfOk result (λ b. b ≡ fits_if q.now terms.now.nodes node place (slice_get (nodes_of q.now node) place)) }
{
    match node_at(q, node, place) {
        None => Ok(true),
        Some(next) => node_fits(alloc, q, terms, node, place, &next),
    }
}

fn nodes_fit(alloc: Global, q: &Linked, terms: &Terms, node: usize) -> Result<bool, AllocError>
    ensures { IfOk result (λ b. b ≡ nodes_fit q.now terms.now.nodes node (length (nodes_of q.now node))) }
{
    let mut all = true;
    for place in 0..count(q, node) {
        let fits = fits_at(alloc, q, terms, node, place)?;
        all = all && fits;
    }
    Ok(all)
}

fn all_fit(alloc: Global, q: &Linked, terms: &Terms) -> Result<bool, AllocError>
    ensures { IfOk result (λ b. b ≡ all_fit q.now terms.now.nodes (length q.now.tree)) }
{
    let mut all = true;
    for node in 0..q.tree.len() {
        let sorted = are_sorted(alloc, q, node)?;
        let fits = nodes_fit(alloc, q, terms, node)?;
        all = all && (sorted && fits);
    }
    Ok(all)
}

/// Whether the tree is linked over the terms.
pub fn is_linked(alloc: Global, q: &Linked, terms: &Terms) -> Result<bool, AllocError>
    ensures { IfOk result (λ b. b ≡ true → IsLinked q.now terms.now.nodes) }
{
    let fit = all_fit(alloc, q, terms)?;
    Ok(fit)
}

/// Whether the variables have numbers below the count of the terms.
pub fn is_low(terms: &Terms) -> bool
    ensures { result ≡ true → IsTrue (below (length terms.now.nodes) terms.now.nodes) }
{
    match terms.fresh() {
        None => false,
        Some(next) => next <= terms.nodes().len(),
    }
}

/// The copies of a tree's formulas, where what this asks is so.
pub fn try_copied(
    alloc: Global,
    q: &Linked,
    terms: &mut SharedTerms,
) -> Result<Option<Table>, AllocError>
    ensures { IfOk result (λ o. IfSome o (λ t. length t ≡ length q.now.tree)) }
{
    let _nodes = terms.nodes();
    let linked = is_linked(alloc, q, terms.terms())?;
    if linked && is_low(terms.terms()) {
        let places = copied(alloc, q, terms)?;
        return Ok(Some(places));
    }
    Ok(None)
}

/// Where the copy of a node is.
pub fn place(q: &Linked, places: &Table, node: usize, index: usize) -> Option<usize>
    requires { length places.now ≡ length q.now.tree }
{
    if node < q.tree.len() {
        return at(places.row(node), index).copied();
    }
    None
}
