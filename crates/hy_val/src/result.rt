//! The sorts of operators' results.
ghost use Rattle.std.specs.Prelude.{◌≡◌, ◌+◌, ◌-◌, ◌&&◌, nat_lt, nat_le};
ghost use Rattle.hy_val.specs.Operators.{bits_if, sort_of_unary, sort_of_bools, same_width, compared, sort_of_words, sort_of_binary};

use crate::operator::{BvOp, UnOp};
use crate::sort::{Scalar, ScalarKind, Width};

// The sort of an extract.
fn sort_of_extract(width: Width, hi: u32, lo: u32) -> Option<Scalar>
    ensures { result ≡ bits_if (nat_lt lo hi && nat_le hi width) (hi - lo) }
{
    if lo < hi && hi <= width.bits() {
        Some(Scalar::bits(Width::new(hi - lo)))
    } else {
        None
    }
}

// The sort of an extension or a concatenation.
fn sum_of_widths(width: Width, more: u32) -> Option<Scalar>
    ensures { result ≡ bits_if (nat_le (width + more) 64) (width + more) }
{
    let bits = width.bits();
    if more <= Width::MAX - bits {
        Some(Scalar::bits(Width::new(bits + more)))
    } else {
        None
    }
}

/// The sort of the result of an operator with one operand, and None where the operand's sort
/// doesn't fit: `Not` takes a bool and the others a bit vector; an extract needs lo < hi <= width,
/// and an extension a width of at most 64.
pub fn sort_of_unary(op: UnOp, operand: Scalar) -> Option<Scalar>
    ensures { result ≡ sort_of_unary op operand }
{
    match op {
        UnOp::Not => match operand.kind() {
            ScalarKind::Bool => Some(Scalar::bool()),
            ScalarKind::Bv { width: _ } => None,
        },
        UnOp::Extract { hi, lo } => match operand.kind() {
            ScalarKind::Bool => None,
            ScalarKind::Bv { width } => sort_of_extract(width, hi, lo),
        },
        UnOp::BvNot => match operand.kind() {
            ScalarKind::Bool => None,
            ScalarKind::Bv { width } => Some(Scalar::bits(width)),
        },
        UnOp::BvNeg => match operand.kind() {
            ScalarKind::Bool => None,
            ScalarKind::Bv { width } => Some(Scalar::bits(width)),
        },
        UnOp::ZeroExtend(more) => match operand.kind() {
            ScalarKind::Bool => None,
            ScalarKind::Bv { width } => sum_of_widths(width, more),
        },
        UnOp::SignExtend(more) => match operand.kind() {
            ScalarKind::Bool => None,
            ScalarKind::Bv { width } => sum_of_widths(width, more),
        },
    }
}

fn sort_of_bools(op: BvOp) -> Option<Scalar>
    ensures { result ≡ sort_of_bools op }
{
    match op {
        BvOp::And => Some(Scalar::bool()),
        BvOp::Or => Some(Scalar::bool()),
        BvOp::Implies => Some(Scalar::bool()),
        BvOp::Iff => Some(Scalar::bool()),
        BvOp::Eq => Some(Scalar::bool()),
        BvOp::Ne => Some(Scalar::bool()),
        _ => None,
    }
}

// Two of one width, to that width.
fn same_width(left: Width, right: Width) -> Option<Scalar>
    ensures { result ≡ same_width left right }
{
    if left == right {
        Some(Scalar::bits(left))
    } else {
        None
    }
}

// Two of one width, to bool.
fn compared(left: Width, right: Width) -> Option<Scalar>
    ensures { result ≡ compared left right }
{
    if left == right {
        Some(Scalar::bool())
    } else {
        None
    }
}

fn sort_of_words(op: BvOp, left: Width, right: Width) -> Option<Scalar>
    ensures { result ≡ sort_of_words op left right }
{
    match op {
        BvOp::And => None,
        BvOp::Or => None,
        BvOp::Implies => None,
        BvOp::Iff => None,
        BvOp::Eq => compared(left, right),
        BvOp::Ne => compared(left, right),
        BvOp::Concat => sum_of_widths(left, right.bits()),
        BvOp::BvAnd => same_width(left, right),
        BvOp::BvOr => same_width(left, right),
        BvOp::BvXor => same_width(left, right),
        BvOp::BvAdd => same_width(left, right),
        BvOp::BvSub => same_width(left, right),
        BvOp::BvMul => same_width(left, right),
        BvOp::BvUdiv => same_width(left, right),
        BvOp::BvUrem => same_width(left, right),
        BvOp::BvSdiv => same_width(left, right),
        BvOp::BvSrem => same_width(left, right),
        BvOp::BvSmod => same_width(left, right),
        BvOp::BvShl => same_width(left, right),
        BvOp::BvLshr => same_width(left, right),
        BvOp::BvAshr => same_width(left, right),
        BvOp::BvUlt => compared(left, right),
        BvOp::BvUle => compared(left, right),
        BvOp::BvUgt => compared(left, right),
        BvOp::BvUge => compared(left, right),
        BvOp::BvSlt => compared(left, right),
        BvOp::BvSle => compared(left, right),
        BvOp::BvSgt => compared(left, right),
        BvOp::BvSge => compared(left, right),
    }
}

/// The sort of the result of an operator with two operands, and None where their sorts don't fit:
/// the operators of bools take two bools; `Eq` and `Ne` two bools or two bit vectors of one width;
/// `Concat` two bit vectors of at most 64 bits together; the others two bit vectors of one width.
pub fn sort_of_binary(op: BvOp, left: Scalar, right: Scalar) -> Option<Scalar>
    ensures { result ≡ sort_of_binary op left right }
{
    match left.kind() {
        ScalarKind::Bool => match right.kind() {
            ScalarKind::Bool => sort_of_bools(op),
            ScalarKind::Bv { width: _ } => None,
        },
        ScalarKind::Bv { width } => match right.kind() {
            ScalarKind::Bool => None,
            ScalarKind::Bv { width: other } => sort_of_words(op, width, other),
        },
    }
}
