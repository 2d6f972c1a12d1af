//! The bool that says that the constants are allowed: those that are unique differ, and the axioms are true.
ghost use Rattle.std.specs.Prelude.{◌≡◌, ◌&&◌, true, [], length, slice_get, slice_index, Some, IfOk, IsSome};
ghost use Rattle.std.specs.List.{list_all};
ghost use Rattle.hy_val.specs.NodeSorts.{same_sort};
ghost use Rattle.hy_val.specs.Scope.{is_condition};
ghost use Rattle.hy_val.specs.Stores.{all_differ, holds};
ghost use Rattle.hy_term.specs.TermSorts.{sorts};
ghost use Rattle.tree_terms.specs.Rules.{IsBit, IsBool, bit};
ghost use Rattle.tree_terms.specs.Standing.{AreOf, all_at};
ghost use Rattle.tree_query.specs.Allowing.{SaysAllowed, are_scalars, differ, is_scalar_at};

use flat_prog::Flat;
use hy_term::{TermNode, Terms, each_value_has_its_sort, new_value};
use hy_val::{Atom, BvOp, Expr, Sort, SortKind, only_variables_matter};
use sqlite_items::at;
use std::alloc::{AllocError, Global};
use vc_gen::translate;

// The bool that is always true.
fn always(terms: &mut Terms) -> Result<usize, AllocError>
    ensures { IfOk result (IsBit terms.old.nodes terms.new.nodes (λ a. true)) }
{
    new_value();
    let _nodes = terms.nodes();
    let node = terms.add(TermNode::Lit(Atom::bool(true)))?;
    Ok(node)
}

// A bool that is true where both are.
fn both(terms: &mut Terms, left: usize, right: usize) -> Result<usize, AllocError>
    requires left { IsBool terms.old.nodes left }
    requires right { IsBool terms.old.nodes right }
    ensures { IfOk result (IsBit terms.old.nodes terms.new.nodes (λ a. bit a terms.old.nodes left && bit a terms.old.nodes right)) }
{
    each_value_has_its_sort();
    new_value();
    let _nodes = terms.nodes();
    let node = terms.add(TermNode::Binary {
        op: BvOp::And,
        left,
        right,
    })?;
    Ok(node)
}

// Whether two sorts are one.
fn same_sort(one: Sort, other: Sort) -> bool
    ensures { result ≡ same_sort one other }
{
    one == other
}

// The sort of a constant.
fn sort_of(sorts: &[Sort], number: u32) -> Sort
    requires { is_scalar_at sorts.now number ≡ true }
    ensures { slice_get sorts.now number ≡ Some result }
{
    match at(sorts, number as usize) {
        Some(sort) => *sort,
        None => unreachable!(),
    }
}

// The term of a constant; 0 where there is none.
fn term_of(consts: &[usize], number: u32) -> usize
    ensures { result ≡ slice_index consts.now number }
{
    match at(consts, number as usize) {
        Some(term) => *term,
        None => 0,
    }
}

// A bool that is true where two constants of one sort differ, which is no map.
fn difference(
    terms: &mut Terms,
    sorts: &[Sort],
    consts: &[usize],
    one: u32,
    other: u32,
) -> Result<usize, AllocError>
    requires consts { AreOf terms.old.nodes consts.now sorts.now }
    requires one { is_scalar_at sorts.now one ≡ true }
    requires same { slice_get sorts.now other ≡ slice_get sorts.now one }
    ensures { IfOk result (IsBit terms.old.nodes terms.new.nodes (λ a. differ (all_at a terms.old.nodes consts.now) one other)) }
{
    each_value_has_its_sort();
    new_value();
    let _nodes = terms.nodes();
    let node = terms.add(TermNode::Binary {
        op: BvOp::Ne,
        left: term_of(consts, one),
        right: term_of(consts, other),
    })?;
    Ok(node)
}

// A bool that is true where `all` is and two constants differ, which are no maps. Of different sorts they always do.
fn with_difference(
    terms: &mut Terms,
    sorts: &[Sort],
    consts: &[usize],
    all: usize,
    one: u32,
    other: u32,
) -> Result<usize, AllocError>
    requires all { IsBool terms.old.nodes all }
    requires consts { AreOf terms.old.nodes consts.now sorts.now }
    requires one { is_scalar_at sorts.now one ≡ true }
    requires other { is_scalar_at sorts.now other ≡ true }
    ensures { IfOk result (IsBit terms.old.nodes terms.new.nodes (λ a. bit a terms.old.nodes all && differ (all_at a terms.old.nodes consts.now) one other)) }
{
    each_value_has_its_sort();
    let _nodes = terms.nodes();
    if !same_sort(sort_of(sorts, one), sort_of(sorts, other)) {
        return Ok(all);
    }
    let differ = difference(terms, sorts, consts, one, other)?;
    let node = both(terms, all, differ)?;
    Ok(node)
}

// A bool that is true where `all` is and a constant differs from others.
fn with_differences(
    terms: &mut Terms,
    sorts: &[Sort],
    consts: &[usize],
    all: usize,
    one: u32,
    others: &[u32],
) -> Result<usize, AllocError>
    requires all { IsBool terms.old.nodes all }
    requires consts { AreOf terms.old.nodes consts.now sorts.now }
    requires one { is_scalar_at sorts.now one ≡ true }
    requires others { list_all (is_scalar_at sorts.now) others.now ≡ true }
    ensures { IfOk result (IsBit terms.old.nodes terms.new.nodes (λ a. bit a terms.old.nodes all && list_all (differ (all_at a terms.old.nodes consts.now) one) others.now)) }
{
    let _nodes = terms.nodes();
    let mut node = all;
    for other in others {
        node = with_difference(terms, sorts, consts, node, one, *other)?;
    }
    Ok(node)
}

// A bool that is true where `all` is and constants differ from one another.
fn with_uniques(
    terms: &mut Terms,
    sorts: &[Sort],
    consts: &[usize],
    all: usize,
    uniques: &[u32],
) -> Result<usize, AllocError>
    requires all { IsBool terms.old.nodes all }
    requires consts { AreOf terms.old.nodes consts.now sorts.now }
    requires uniques { list_all (is_scalar_at sorts.now) uniques.now ≡ true }
    ensures { IfOk result (IsBit terms.old.nodes terms.new.nodes (λ a. bit a terms.old.nodes all && all_differ (all_at a terms.old.nodes consts.now) uniques.now)) }
{
    let _nodes = terms.nodes();
    let mut node = all;
    for index in 0..uniques.len() {
        node = with_differences(
            terms,
            sorts,
            consts,
            node,
            uniques[index],
            &uniques[index + 1..],
        )?;
    }
    Ok(node)
}

// A bool that is true where `all` is and an axiom is true.
fn with_axiom(
    alloc: Global,
    terms: &mut Terms,
    sorts: &[Sort],
    consts: &[usize],
    all: usize,
    claim: &Expr,
) -> Result<usize, AllocError>
    requires all { IsBool terms.old.nodes all }
    requires consts { AreOf terms.old.nodes consts.now sorts.now }
    requires claim { is_condition (record { consts = sorts.now; globals = []; locals = [] }) claim.now ≡ true }
    ensures { IfOk result (IsBit terms.old.nodes terms.new.nodes (λ a. bit a terms.old.nodes all && holds (record { consts = all_at a terms.old.nodes consts.now; globals = []; locals = [] }) claim.now)) }
{
    only_variables_matter();
    let _nodes = terms.nodes();
    let holds = translate(alloc, terms, consts, &[], claim)?;
    let node = both(terms, all, holds)?;
    Ok(node)
}

// A bool that is true where `all` is and axioms are true.
fn with_axioms(
    alloc: Global,
    terms: &mut Terms,
    sorts: &[Sort],
    consts: &[usize],
    all: usize,
    axioms: &[Expr],
) -> Result<usize, AllocError>
    requires all { IsBool terms.old.nodes all }
    requires consts { AreOf terms.old.nodes consts.now sorts.now }
    requires axioms { list_all (is_condition (record { consts = sorts.now; globals = []; locals = [] })) axioms.now ≡ true }
    ensures { IfOk result (IsBit terms.old.nodes terms.new.nodes (λ a. bit a terms.old.nodes all && list_all (holds (record { consts = all_at a terms.old.nodes consts.now; globals = []; locals = [] })) axioms.now)) }
{
    let _nodes = terms.nodes();
    let mut node = all;
    for claim in axioms {
        node = with_axiom(alloc, terms, sorts, consts, node, claim)?;
    }
    Ok(node)
}

// Whether a constant is there and no map.
fn is_scalar_at(sorts: &[Sort], number: u32) -> bool
    ensures { result ≡ is_scalar_at sorts.now number }
{
    match at(sorts, number as usize) {
        None => false,
        Some(sort) => match sort.kind() {
            SortKind::Scalar(_) => true,
            SortKind::Map { index: _, elem: _ } => false,
        },
    }
}

// Whether none of these constants is a map.
fn are_scalars(sorts: &[Sort], numbers: &[u32]) -> bool
    ensures { result ≡ are_scalars sorts.now numbers.now }
{
    for number in numbers {
        if !is_scalar_at(sorts, *number) {
            return false;
        }
    }
    true
}

/// A bool among terms that is true, under each assignment that fits, exactly where the constants of a program are allowed: its
/// unique constants differ, those of one sort, and its axioms are true. `consts` has the terms of the constants, in order. The
/// nodes that are put behind the others are no variables.
///
/// It is None where a unique constant is a map, since terms do not compare maps; a program that is read from text has none.
/// Unique constants are compared pair by pair, k (k - 1) / 2 of them at most for k in one sort, with two nodes for each pair. A
/// map that notes which values are taken would have fewer nodes, but as many comparisons once maps are taken out. `AllocError`
/// comes where memory runs out; the terms may then have grown by such nodes.
pub fn allowed(
    alloc: Global,
    flat: &Flat,
    terms: &mut Terms,
    consts: &[usize],
) -> Result<Option<usize>, AllocError>
    requires { AreOf terms.old.nodes consts.now flat.now.consts }
    ensures { IfOk result (SaysAllowed flat.now terms.old.nodes terms.new.nodes consts.now) }
{
    let sorts = flat.consts();
    if !are_scalars(sorts, flat.uniques()) {
        return Ok(None);
    }
    let _nodes = terms.nodes();
    let start = always(terms)?;
    let distinct = with_uniques(terms, sorts, consts, start, flat.uniques())?;
    let node = with_axioms(alloc, terms, sorts, consts, distinct, flat.axioms())?;
    Ok(Some(node))
}
