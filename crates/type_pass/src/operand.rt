//! What operators ask of the sorts of their operands.

ghost use Rattle.std.specs.Prelude.{◌≡◌, Ok};
ghost use Rattle.hy_val.specs.NodeSorts.{same_sort};
ghost use Rattle.hy_val.specs.Sorts.{same_scalar};
ghost use Rattle.type_pass.specs.ExprSorts as spec;
ghost use Rattle.type_pass.specs.Faults.{fault};

use crate::fault::{TypeFault, TypeKind};
use crate::tables::Meaning;
use bpl_ast::Word;
use hy_val::{Scalar, ScalarKind, Sort, SortKind, Width};

/// A part of an expression that has a sort.
#[derive(Clone, Copy, Debug)]
pub struct Operand {
    /// The offset of its first token.
    pub at: usize,
    /// Its sort.
    pub sort: Sort,
}

fn same_scalar(left: Scalar, right: Scalar) -> bool
    ensures { result ≡ same_scalar left right }
{
    match left.kind() {
        ScalarKind::Bool => match right.kind() {
            ScalarKind::Bool => true,
            ScalarKind::Bv { width: _ } => false,
        },
        ScalarKind::Bv { width } => match right.kind() {
            ScalarKind::Bool => false,
            ScalarKind::Bv { width: other } => width == other,
        },
    }
}

/// Whether two sorts are the same.
pub fn same_sort(left: Sort, right: Sort) -> bool
    ensures { result ≡ same_sort left right }
{
    match left.kind() {
        SortKind::Scalar(scalar) => match right.kind() {
            SortKind::Scalar(other) => same_scalar(scalar, other),
            SortKind::Map { index: _, elem: _ } => false,
        },
        SortKind::Map { index, elem } => match right.kind() {
            SortKind::Scalar(_) => false,
            SortKind::Map {
                index: other_index,
                elem: other_elem,
            } => same_scalar(index, other_index) && same_scalar(elem, other_elem),
        },
    }
}

/// That an operand has not the sort that its place asks for.
pub fn mismatch(operand: &Operand) -> TypeFault
    ensures { result ≡ fault operand.now.at TypeKind.Mismatch }
{
    TypeFault {
        at: operand.at,
        kind: TypeKind::Mismatch,
    }
}

/// The sort of the bools.
pub fn bool_sort() -> Sort
    ensures { result ≡ spec.bool_sort }
{
    Sort::scalar(Scalar::bool())
}

/// The width of an operand: Mismatch where it is no bit vector.
pub fn width_of(operand: &Operand) -> Result<Width, TypeFault>
    ensures { result ≡ spec.with_width operand.now operand.now.sort (λ w. Ok w) }
{
    match operand.sort.kind() {
        SortKind::Scalar(scalar) => match scalar.kind() {
            ScalarKind::Bool => Err(mismatch(operand)),
            ScalarKind::Bv { width } => Ok(width),
        },
        SortKind::Map { index: _, elem: _ } => Err(mismatch(operand)),
    }
}

/// The sort of `==` or `!=` at an offset: `map equality` where a side is a map, Mismatch where the
/// sorts differ.
pub fn compared(at: usize, left: &Operand, right: &Operand) -> Result<Sort, TypeFault>
    ensures { result ≡ spec.compared at left.now right.now }
{
    if is_map(left.sort) || is_map(right.sort) {
        return Err(TypeFault {
            at,
            kind: TypeKind::LeftOut {
                what: Word::MapEquality,
            },
        });
    }
    if same_sort(left.sort, right.sort) {
        Ok(bool_sort())
    } else {
        Err(TypeFault {
            at,
            kind: TypeKind::Mismatch,
        })
    }
}

fn is_map(sort: Sort) -> bool
    ensures { result ≡ spec.is_map sort }
{
    match sort.kind() {
        SortKind::Scalar(_) => false,
        SortKind::Map { index: _, elem: _ } => true,
    }
}

/// The sort of an `if` at an offset: Mismatch at a condition that is no bool, and at the whole where
/// the branches have two sorts.
pub fn chosen(
    at: usize,
    condition: &Operand,
    yes: &Operand,
    no: &Operand,
) -> Result<Sort, TypeFault>
    ensures { result ≡ spec.chosen at condition.now yes.now no.now }
{
    if !same_sort(condition.sort, bool_sort()) {
        return Err(mismatch(condition));
    }
    if same_sort(yes.sort, no.sort) {
        Ok(yes.sort)
    } else {
        Err(TypeFault {
            at,
            kind: TypeKind::Mismatch,
        })
    }
}

/// The sort of an entry of a map: Mismatch at what is no map, or at an index of another sort.
pub fn selected(map: &Operand, index: &Operand) -> Result<Sort, TypeFault>
    ensures { result ≡ spec.selected map.now index.now }
{
    match map.sort.kind() {
        SortKind::Scalar(_) => Err(mismatch(map)),
        SortKind::Map {
            index: wanted,
            elem,
        } => {
            if same_sort(index.sort, Sort::scalar(wanted)) {
                Ok(Sort::scalar(elem))
            } else {
                Err(mismatch(index))
            }
        }
    }
}

/// The sort of a map with a value at an index: Mismatch at what is no map, or at an index or a value
/// of another sort.
pub fn stored(map: &Operand, index: &Operand, value: &Operand) -> Result<Sort, TypeFault>
    ensures { result ≡ spec.stored map.now index.now value.now }
{
    match map.sort.kind() {
        SortKind::Scalar(_) => Err(mismatch(map)),
        SortKind::Map {
            index: wanted,
            elem,
        } => {
            if !same_sort(index.sort, Sort::scalar(wanted)) {
                return Err(mismatch(index));
            }
            if same_sort(value.sort, Sort::scalar(elem)) {
                Ok(Sort::map(wanted, elem))
            } else {
                Err(mismatch(value))
            }
        }
    }
}

/// The sort of the bits from low on, below high, of an expression that begins at an offset: Mismatch
/// at what is no bit vector, and Width unless low < high <= width.
pub fn extracted(at: usize, high: u128, low: u128, operand: &Operand) -> Result<Sort, TypeFault>
    ensures { result ≡ spec.extracted at high low operand.now }
{
    let width = width_of(operand)?;
    if low < high && high <= u128::from(width.bits()) {
        Ok(Sort::scalar(Scalar::bits(Width::new((high - low) as u32))))
    } else {
        Err(TypeFault {
            at,
            kind: TypeKind::Width,
        })
    }
}

/// The sort of a literal at an offset. Width where its width is not 1 to 64 or doesn't hold its
/// bits, which no text has.
pub fn literal(at: usize, width: u32, bits: u64) -> Result<Sort, TypeFault>
    ensures { result ≡ spec.literal at width bits }
{
    match Width::try_new(width) {
        None => Err(TypeFault {
            at,
            kind: TypeKind::Width,
        }),
        Some(width) => {
            if bits <= width.ones() {
                Ok(Sort::scalar(Scalar::bits(width)))
            } else {
                Err(TypeFault {
                    at,
                    kind: TypeKind::Width,
                })
            }
        }
    }
}

/// The sort of `left ==> right`: Mismatch at the first side that is no bool.
pub fn implies(left: &Operand, right: &Operand) -> Result<Sort, TypeFault>
    ensures { result ≡ spec.needs spec.bool_sort left.now (spec.needs spec.bool_sort right.now (Ok spec.bool_sort)) }
{
    let wanted = bool_sort();
    if !same_sort(left.sort, wanted) {
        return Err(mismatch(left));
    }
    if same_sort(right.sort, wanted) {
        Ok(wanted)
    } else {
        Err(mismatch(right))
    }
}

/// Whether a function has no meaning.
pub fn is_nothing(meaning: Meaning) -> bool
    ensures { result ≡ spec.is_nothing meaning }
{
    match meaning {
        Meaning::Body => false,
        Meaning::Operator(_) => false,
        Meaning::Nothing => true,
    }
}

/// The sort of a negation: Mismatch at an operand that is no bool.
pub fn negated(operand: &Operand) -> Result<Sort, TypeFault>
    ensures { result ≡ spec.needs spec.bool_sort operand.now (Ok spec.bool_sort) }
{
    let wanted = bool_sort();
    if same_sort(operand.sort, wanted) {
        Ok(wanted)
    } else {
        Err(mismatch(operand))
    }
}
