//! The sorts of nodes, from those of their children.
ghost use Rattle.std.specs.Prelude.{◌≡◌, slice_get, IsTrue};
ghost use Rattle.hy_val.specs.Sorts.{is_scalar, same_scalar};
ghost use Rattle.hy_val.specs.NodeSorts.{is_sort, same_sort, as_scalar, as_sort, unary_sort, binary_sort, branch_sort, if_sort, entry_sort, select_sort, written_sort, store_sort};
ghost use Rattle.hy_term.specs.TermSorts.{sort_if, sort_of_node};

use crate::node::TermNode;
use hy_val::{BvOp, Scalar, ScalarKind, Sort, SortKind, UnOp, sort_of_binary, sort_of_unary};

// A scalar sort is one: its width is 1 to 64.
fn keep_scalar(scalar: Scalar)
    ensures { IsTrue (is_scalar scalar) }
{
    match scalar.kind() {
        ScalarKind::Bool => {}
        ScalarKind::Bv { width } => {
            let _bits = width.bits();
        }
    }
}

// A sort is one: its widths are 1 to 64.
fn keep_sort(sort: Sort)
    ensures { IsTrue (is_sort sort) }
{
    match sort.kind() {
        SortKind::Scalar(scalar) => keep_scalar(scalar),
        SortKind::Map { index, elem } => {
            keep_scalar(index);
            keep_scalar(elem);
        }
    }
}

// The sort, of which there is always one.
fn sort_if(sort: Sort) -> Option<Sort>
    ensures { result ≡ sort_if sort }
{
    keep_sort(sort);
    Some(sort)
}

fn same_scalar(one: Scalar, other: Scalar) -> bool
    ensures { result ≡ same_scalar one other }
{
    match one.kind() {
        ScalarKind::Bool => match other.kind() {
            ScalarKind::Bool => true,
            ScalarKind::Bv { width: _ } => false,
        },
        ScalarKind::Bv { width } => match other.kind() {
            ScalarKind::Bool => false,
            ScalarKind::Bv { width: second } => width == second,
        },
    }
}

fn same_sort(one: Sort, other: Sort) -> bool
    ensures { result ≡ same_sort one other }
{
    match one.kind() {
        SortKind::Scalar(scalar) => match other.kind() {
            SortKind::Scalar(second) => same_scalar(scalar, second),
            SortKind::Map { index: _, elem: _ } => false,
        },
        SortKind::Map { index, elem } => match other.kind() {
            SortKind::Scalar(_) => false,
            SortKind::Map {
                index: second_index,
                elem: second_elem,
            } => same_scalar(index, second_index) && same_scalar(elem, second_elem),
        },
    }
}

// The sort at a place.
pub(crate) fn at(known: &[Sort], place: usize) -> Option<Sort>
    ensures { result ≡ slice_get known.now place }
{
    sqlite_items::at(known, place).copied()
}

// The sort at a place, where it is a scalar.
fn scalar_at(known: &[Sort], place: usize) -> Option<Scalar>
    ensures { result ≡ as_scalar (slice_get known.now place) }
{
    match at(known, place)?.kind() {
        SortKind::Scalar(scalar) => Some(scalar),
        SortKind::Map { index: _, elem: _ } => None,
    }
}

fn as_sort(scalar: Option<Scalar>) -> Option<Sort>
    ensures { result ≡ as_sort scalar }
{
    Some(Sort::scalar(scalar?))
}

fn unary_sort(op: UnOp, operand: Option<Scalar>) -> Option<Sort>
    ensures { result ≡ unary_sort op operand }
{
    as_sort(sort_of_unary(op, operand?))
}

fn binary_sort(op: BvOp, left: Option<Scalar>, right: Option<Scalar>) -> Option<Sort>
    ensures { result ≡ binary_sort op left right }
{
    as_sort(sort_of_binary(op, left?, right?))
}

fn branch_sort(one: Option<Sort>, other: Option<Sort>) -> Option<Sort>
    ensures { result ≡ branch_sort one other }
{
    let (one, other) = (one?, other?);
    if same_sort(one, other) {
        Some(one)
    } else {
        None
    }
}

fn if_sort(test: Option<Scalar>, one: Option<Sort>, other: Option<Sort>) -> Option<Sort>
    ensures { result ≡ if_sort test one other }
{
    match test?.kind() {
        ScalarKind::Bool => branch_sort(one, other),
        ScalarKind::Bv { width: _ } => None,
    }
}

fn entry_sort(index: Scalar, elem: Scalar, place: Option<Scalar>) -> Option<Sort>
    ensures { result ≡ entry_sort index elem place }
{
    if same_scalar(place?, index) {
        Some(Sort::scalar(elem))
    } else {
        None
    }
}

fn select_sort(map: Option<Sort>, place: Option<Scalar>) -> Option<Sort>
    ensures { result ≡ select_sort map place }
{
    match map?.kind() {
        SortKind::Scalar(_) => None,
        SortKind::Map { index, elem } => entry_sort(index, elem, place),
    }
}

fn written_sort(
    index: Scalar,
    elem: Scalar,
    place: Option<Scalar>,
    value: Option<Scalar>,
) -> Option<Sort>
    ensures { result ≡ written_sort index elem place value }
{
    let (place, value) = (place?, value?);
    if same_scalar(place, index) && same_scalar(value, elem) {
        Some(Sort::map(index, elem))
    } else {
        None
    }
}

fn store_sort(map: Option<Sort>, place: Option<Scalar>, value: Option<Scalar>) -> Option<Sort>
    ensures { result ≡ store_sort map place value }
{
    match map?.kind() {
        SortKind::Scalar(_) => None,
        SortKind::Map { index, elem } => written_sort(index, elem, place, value),
    }
}

/// The sort of a node, from the sorts of the nodes before it, by number. It is None where a child doesn't stand before
/// the node, or where the children's sorts don't fit: an operator's are those that `hy_val::sort_of_unary` and
/// `hy_val::sort_of_binary` ask; an if takes a bool and two of one sort, a select a map and an index of its index sort,
/// and a store also a value of its element sort.
pub fn sort_of_node(known: &[Sort], node: &TermNode) -> Option<Sort>
    ensures { result ≡ sort_of_node known.now node.now }
{
    match node {
        TermNode::Lit(atom) => Some(Sort::scalar(atom.sort())),
        TermNode::ZeroMap { index, elem } => sort_if(Sort::map(*index, *elem)),
        TermNode::Variable { number: _, sort } => sort_if(*sort),
        TermNode::Unary { op, child } => unary_sort(*op, scalar_at(known, *child)),
        TermNode::Binary { op, left, right } => {
            binary_sort(*op, scalar_at(known, *left), scalar_at(known, *right))
        }
        TermNode::If { cond, yes, no } => {
            if_sort(scalar_at(known, *cond), at(known, *yes), at(known, *no))
        }
        TermNode::Select { map, index } => select_sort(at(known, *map), scalar_at(known, *index)),
        TermNode::Store { map, index, value } => {
            store_sort(
                at(known, *map),
                scalar_at(known, *index),
                scalar_at(known, *value),
            )
        }
    }
}
