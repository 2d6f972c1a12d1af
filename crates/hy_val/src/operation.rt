//! The values of operators.
ghost use Rattle.std.specs.Prelude.{◌≡◌, ◌+◌, ◌<◌, ◌≤◌, ◌^◌, IsSome};
ghost use Rattle.hy_val.specs.Bits.{concat};
ghost use Rattle.hy_val.specs.Operators.{sort_of_unary, sort_of_words, sort_of_binary, bits_atom, apply1, apply_to_bools, apply_to_words, apply};
ghost use Rattle.hy_val.specs.Sorts.{scalar_of};
ghost use Rattle.hy_val.specs.declared.sort.ScalarKind.TheVariants.{Bv as BvSort};
ghost use Rattle.hy_val.specs.declared.atom.AtomKind.TheVariants.{Bv as BvAtom};

use crate::atom::{Atom, AtomKind, BitVec};
use crate::bits;
use crate::operator::{BvOp, UnOp};
use crate::sort::Width;

// The bit vector of a number below 2 to the width.
fn made(width: Width, bits: u64) -> Atom
    requires { bits < 2 ^ width }
    ensures { result ≡ bits_atom width bits }
{
    Atom::bits(BitVec::new(width, bits))
}

// The value of an operator on a bit vector.
fn apply_to_word(op: UnOp, a: BitVec) -> Atom
    requires { IsSome (sort_of_unary op (BvSort a.width)) }
    ensures { result ≡ apply1 op (BvAtom a) }
{
    let width = a.width();
    let bits = a.bits();
    match op {
        UnOp::Not => Atom::bool(false),
        UnOp::Extract { hi, lo } => {
            let taken = bits::extract(width, hi, lo, bits);
            made(Width::new(hi - lo), taken)
        }
        UnOp::BvNot => made(width, bits::bvnot(width, bits)),
        UnOp::BvNeg => made(width, bits::bvneg(width, bits)),
        UnOp::ZeroExtend(more) => made(Width::new(width.bits() + more), bits),
        UnOp::SignExtend(more) => {
            let extended = bits::sign_extend(width, more, bits);
            made(Width::new(width.bits() + more), extended)
        }
    }
}

/// The value of an operator with one operand.
pub fn apply1(op: UnOp, a: Atom) -> Atom
    requires { IsSome (sort_of_unary op (scalar_of a)) }
    ensures { result ≡ apply1 op a }
{
    match a.kind() {
        AtomKind::Bool(b) => match op {
            UnOp::Not => Atom::bool(!b),
            UnOp::Extract { hi: _, lo: _ } => Atom::bool(false),
            UnOp::BvNot => Atom::bool(false),
            UnOp::BvNeg => Atom::bool(false),
            UnOp::ZeroExtend(_) => Atom::bool(false),
            UnOp::SignExtend(_) => Atom::bool(false),
        },
        AtomKind::Bv(v) => apply_to_word(op, v),
    }
}

// The value of an operator on two bools.
fn apply_to_bools(op: BvOp, a: bool, b: bool) -> bool
    ensures { result ≡ apply_to_bools op a b }
{
    match op {
        BvOp::And => a && b,
        BvOp::Or => a || b,
        BvOp::Implies => !a || b,
        BvOp::Iff => a == b,
        BvOp::Eq => a == b,
        BvOp::Ne => a != b,
        _ => false,
    }
}

// The value of an operator on two bit vectors.
fn apply_to_words(op: BvOp, a: BitVec, b: BitVec) -> Atom
    requires { IsSome (sort_of_words op a.width b.width) }
    ensures { result ≡ apply_to_words op a b }
{
    let width = a.width();
    let (x, y) = (a.bits(), b.bits());
    match op {
        BvOp::And => Atom::bool(false),
        BvOp::Or => Atom::bool(false),
        BvOp::Implies => Atom::bool(false),
        BvOp::Iff => Atom::bool(false),
        BvOp::Eq => Atom::bool(x == y),
        BvOp::Ne => Atom::bool(x != y),
        BvOp::Concat => joined(a, b),
        BvOp::BvAnd => made(width, bits::bvand(width, x, y)),
        BvOp::BvOr => made(width, bits::bvor(width, x, y)),
        BvOp::BvXor => made(width, bits::bvxor(width, x, y)),
        BvOp::BvAdd => made(width, bits::bvadd(width, x, y)),
        BvOp::BvSub => made(width, bits::bvsub(width, x, y)),
        BvOp::BvMul => made(width, bits::bvmul(width, x, y)),
        BvOp::BvUdiv => made(width, bits::bvudiv(width, x, y)),
        BvOp::BvUrem => made(width, bits::bvurem(width, x, y)),
        BvOp::BvSdiv => made(width, bits::bvsdiv(width, x, y)),
        BvOp::BvSrem => made(width, bits::bvsrem(width, x, y)),
        BvOp::BvSmod => made(width, bits::bvsmod(width, x, y)),
        BvOp::BvShl => made(width, bits::bvshl(width, x, y)),
        BvOp::BvLshr => made(width, bits::bvlshr(width, x, y)),
        BvOp::BvAshr => made(width, bits::bvashr(width, x, y)),
        BvOp::BvUlt => Atom::bool(x < y),
        BvOp::BvUle => Atom::bool(x <= y),
        BvOp::BvUgt => Atom::bool(y < x),
        BvOp::BvUge => Atom::bool(y <= x),
        BvOp::BvSlt => Atom::bool(bits::bvslt(width, x, y)),
        BvOp::BvSle => Atom::bool(bits::bvsle(width, x, y)),
        BvOp::BvSgt => Atom::bool(bits::bvslt(width, y, x)),
        BvOp::BvSge => Atom::bool(bits::bvsle(width, y, x)),
    }
}

// a in the high bits, b in the low ones.
fn joined(a: BitVec, b: BitVec) -> Atom
    requires { a.width + b.width ≤ 64 }
    ensures { result ≡ bits_atom (a.width + b.width) (concat b.width a.bits b.bits) }
{
    let (high, low) = (a.width(), b.width());
    let width = Width::new(high.bits() + low.bits());
    made(width, bits::concat(high, low, a.bits(), b.bits()))
}

/// The value of an operator with two operands.
pub fn apply(op: BvOp, a: Atom, b: Atom) -> Atom
    requires { IsSome (sort_of_binary op (scalar_of a) (scalar_of b)) }
    ensures { result ≡ apply op a b }
{
    match a.kind() {
        AtomKind::Bool(x) => match b.kind() {
            AtomKind::Bool(y) => Atom::bool(apply_to_bools(op, x, y)),
            AtomKind::Bv(_) => Atom::bool(false),
        },
        AtomKind::Bv(x) => match b.kind() {
            AtomKind::Bool(_) => Atom::bool(false),
            AtomKind::Bv(y) => apply_to_words(op, x, y),
        },
    }
}
