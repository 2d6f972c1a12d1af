//! The sorts of nodes.
ghost use Rattle.std.specs.Prelude.{◌≡◌, slice_get};
ghost use Rattle.hy_val.specs.NodeSorts.{as_sort, as_scalar, unary_sort, binary_sort, branch_sort, if_sort, entry_sort, select_sort, written_sort, store_sort};
ghost use Rattle.hy_val.specs.Exprs.{sort_of_node};

use crate::expr::ExprNode;
use crate::operator::{BvOp, UnOp};
use crate::result::{sort_of_binary, sort_of_unary};
use crate::sort::{Scalar, ScalarKind, Sort, SortKind};
use sqlite_items::at;

// A scalar as a sort.
fn as_sort(scalar: Option<Scalar>) -> Option<Sort>
    ensures { result ≡ as_sort scalar }
{
    match scalar {
        Some(scalar) => Some(Sort::scalar(scalar)),
        None => None,
    }
}

// The sort at a place.
fn sort_at(known: &[Sort], place: usize) -> Option<Sort>
    ensures { result ≡ slice_get known.now place }
{
    at(known, place).copied()
}

// The scalar sort at a place; None where there is none.
fn scalar_at(known: &[Sort], place: usize) -> Option<Scalar>
    ensures { result ≡ as_scalar (slice_get known.now place) }
{
    match sort_at(known, place) {
        Some(sort) => match sort.kind() {
            SortKind::Scalar(scalar) => Some(scalar),
            SortKind::Map { index: _, elem: _ } => None,
        },
        None => None,
    }
}

fn unary_sort(op: UnOp, operand: Option<Scalar>) -> Option<Sort>
    ensures { result ≡ unary_sort op operand }
{
    match operand {
        Some(operand) => as_sort(sort_of_unary(op, operand)),
        None => None,
    }
}

fn binary_sort(op: BvOp, left: Option<Scalar>, right: Option<Scalar>) -> Option<Sort>
    ensures { result ≡ binary_sort op left right }
{
    match left {
        Some(left) => match right {
            Some(right) => as_sort(sort_of_binary(op, left, right)),
            None => None,
        },
        None => None,
    }
}

// The sort of both branches, where they have one.
fn branch_sort(yes: Option<Sort>, no: Option<Sort>) -> Option<Sort>
    ensures { result ≡ branch_sort yes no }
{
    match yes {
        Some(yes) => match no {
            Some(no) => { if yes == no { Some(yes) } else { None } }
            None => None,
        },
        None => None,
    }
}

fn if_sort(cond: Option<Scalar>, yes: Option<Sort>, no: Option<Sort>) -> Option<Sort>
    ensures { result ≡ if_sort cond yes no }
{
    match cond {
        Some(cond) => match cond.kind() {
            ScalarKind::Bool => branch_sort(yes, no),
            ScalarKind::Bv { width: _ } => None,
        },
        None => None,
    }
}

// The sort of a map's entry, where the index has the map's index sort.
fn entry_sort(index: Scalar, elem: Scalar, at: Option<Scalar>) -> Option<Sort>
    ensures { result ≡ entry_sort index elem at }
{
    match at {
        Some(at) => {
            if at == index {
                Some(Sort::scalar(elem))
            } else {
                None
            }
        }
        None => None,
    }
}

fn select_sort(map: Option<Sort>, index: Option<Scalar>) -> Option<Sort>
    ensures { result ≡ select_sort map index }
{
    match map {
        Some(map) => match map.kind() {
            SortKind::Scalar(_) => None,
            SortKind::Map { index: of, elem } => entry_sort(of, elem, index),
        },
        None => None,
    }
}

// The sort of a map, where an index and an entry have its sorts.
fn written_sort(
    index: Scalar,
    elem: Scalar,
    at: Option<Scalar>,
    value: Option<Scalar>,
) -> Option<Sort>
    ensures { result ≡ written_sort index elem at value }
{
    match at {
        Some(at) => match value {
            Some(value) => {
                if at == index && value == elem {
                    Some(Sort::map(index, elem))
                } else {
                    None
                }
            }
            None => None,
        },
        None => None,
    }
}

fn store_sort(map: Option<Sort>, index: Option<Scalar>, value: Option<Scalar>) -> Option<Sort>
    ensures { result ≡ store_sort map index value }
{
    match map {
        Some(map) => match map.kind() {
            SortKind::Scalar(_) => None,
            SortKind::Map { index: of, elem } => written_sort(of, elem, index, value),
        },
        None => None,
    }
}

/// The sort of a node behind nodes of these sorts, in constant time; None where a child isn't among
/// them, or the sorts don't fit.
pub fn sort_of_node(known: &[Sort], node: &ExprNode) -> Option<Sort>
    ensures { result ≡ sort_of_node known.now node.now }
{
    match node {
        ExprNode::Lit(atom) => Some(Sort::scalar(atom.sort())),
        ExprNode::Var { var: _, sort } => {
            sort.keeps_widths();
            Some(*sort)
        }
        ExprNode::Unary { op, child } => unary_sort(*op, scalar_at(known, *child)),
        ExprNode::Binary { op, left, right } => {
            binary_sort(*op, scalar_at(known, *left), scalar_at(known, *right))
        }
        ExprNode::If { cond, yes, no } => if_sort(
            scalar_at(known, *cond),
            sort_at(known, *yes),
            sort_at(known, *no),
        ),
        ExprNode::Select { map, index } => {
            select_sort(sort_at(known, *map), scalar_at(known, *index))
        }
        ExprNode::Store { map, index, value } => store_sort(
            sort_at(known, *map),
            scalar_at(known, *index),
            scalar_at(known, *value),
        ),
    }
}
