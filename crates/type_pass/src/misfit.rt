//! Whether the sorts of a function fit the operator that it means.

ghost use Rattle.std.specs.Prelude.{◌≡◌, map, Some};
ghost use Rattle.hy_val.specs.NodeSorts.{as_sort, as_scalar, unary_sort, binary_sort};
ghost use Rattle.type_pass.specs.Meanings as spec;

use crate::fault::TypeKind;
use crate::operand::{bool_sort, same_sort};
use crate::tables::{Builtin, Named};
use hy_val::{
    BvOp, Scalar, ScalarKind, Sort, SortKind, UnOp, Width, sort_of_binary, sort_of_unary,
};

fn is_bool(sort: Sort) -> bool
    ensures { result ≡ spec.is_bool sort }
{
    same_sort(sort, bool_sort())
}

fn is_bits(sort: Sort) -> bool
    ensures { result ≡ spec.is_bits sort }
{
    match sort.kind() {
        SortKind::Scalar(scalar) => match scalar.kind() {
            ScalarKind::Bool => false,
            ScalarKind::Bv { width: _ } => true,
        },
        SortKind::Map { index: _, elem: _ } => false,
    }
}

// Whether a scalar that may be there is the sort.
fn is_scalar(scalar: Option<Scalar>, sort: Sort) -> bool
    ensures { result ≡ spec.is_same (as_sort scalar) sort }
{
    match scalar {
        None => false,
        Some(scalar) => same_sort(Sort::scalar(scalar), sort),
    }
}

// Whether the sort is of the kind that an operator gives.
fn is_result_kind(op: BvOp, sort: Sort) -> bool
    ensures { result ≡ spec.is_result_kind op sort }
{
    let one = Scalar::bits(Width::new(1));
    if is_scalar(sort_of_binary(op, one, one), bool_sort()) {
        is_bool(sort)
    } else {
        is_bits(sort)
    }
}

fn width_unless(fits: bool) -> Option<TypeKind>
    ensures { result ≡ spec.width_unless fits }
{
    if fits { None } else { Some(TypeKind::Width) }
}

fn unary_fits(op: UnOp, sort: Sort, output: Sort) -> bool
    ensures { result ≡ spec.is_same (unary_sort op (as_scalar (Some sort))) output }
{
    match sort.kind() {
        SortKind::Scalar(scalar) => is_scalar(sort_of_unary(op, scalar), output),
        SortKind::Map { index: _, elem: _ } => false,
    }
}

fn binary_fits(op: BvOp, left: Sort, right: Sort, output: Sort) -> bool
    ensures { result ≡ spec.is_same (binary_sort op (as_scalar (Some left)) (as_scalar (Some right))) output }
{
    match left.kind() {
        SortKind::Scalar(one) => match right.kind() {
            SortKind::Scalar(other) => is_scalar(sort_of_binary(op, one, other), output),
            SortKind::Map { index: _, elem: _ } => false,
        },
        SortKind::Map { index: _, elem: _ } => false,
    }
}

fn unary_misfit(op: UnOp, arguments: &[Named], output: Sort) -> Option<TypeKind>
    ensures { result ≡ spec.misfit (Builtin.Unary op) (map (λ a. a.sort) arguments.now) output }
{
    match arguments {
        [one] => {
            if is_bits(one.sort) && is_bits(output) {
                width_unless(unary_fits(op, one.sort, output))
            } else {
                Some(TypeKind::Mismatch)
            }
        }
        _ => Some(TypeKind::Mismatch),
    }
}

fn binary_misfit(op: BvOp, arguments: &[Named], output: Sort) -> Option<TypeKind>
    ensures { result ≡ spec.misfit (Builtin.Binary op) (map (λ a. a.sort) arguments.now) output }
{
    match arguments {
        [one, other] => {
            if is_bits(one.sort) && is_bits(other.sort) && is_result_kind(op, output) {
                width_unless(binary_fits(op, one.sort, other.sort, output))
            } else {
                Some(TypeKind::Mismatch)
            }
        }
        _ => Some(TypeKind::Mismatch),
    }
}

/// What is wrong with the sorts of a function that means an operator: Width where the kinds of sort
/// fit and the widths don't, else Mismatch.
pub fn misfit(builtin: Builtin, arguments: &[Named], output: Sort) -> Option<TypeKind>
    ensures { result ≡ spec.misfit builtin (map (λ a. a.sort) arguments.now) output }
{
    match builtin {
        Builtin::Unary(op) => unary_misfit(op, arguments, output),
        Builtin::Binary(op) => binary_misfit(op, arguments, output),
    }
}
