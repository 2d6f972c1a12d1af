//! The circuits of the operators on words, of which a bool is one of one bit.
ghost use Rattle.std.specs.Prelude.{◌≡◌, ℕ, List, Bool, ◌+◌, ◌*◌, ◌<◌, ◌≤◌, length, IfOk, IsTrue};
ghost use Rattle.hy_val.specs.Bits.{bvor, bvnot, bvudiv, bvurem, concat};
ghost use Rattle.bit_blast.specs.Words.{AreWires, Grows, IsWire, IsWord, Means, Says, bit, carried, word};
ghost use Rattle.bit_blast.specs.Operations.{binary_gates, binary_number, binary_width, compares, comparison_gates, is_within, unary_gates, unary_number, unary_width, widths_fit};

use crate::adder::{bvadd, bvneg, bvsub};
use crate::bitwise::{bvand, bvnot, bvor, bvxor, negated};
use crate::compare::{bvsle, bvslt, bvule, bvult, equal};
use crate::divide::divide_words;
use crate::layout::{concat, extract, sign_extend, zero_extend};
use crate::multiply::bvmul;
use crate::shift::{bvashr, bvlshr, bvshl};
use crate::signed::{bvsdiv, bvsmod, bvsrem};
use crate::word::repeated;
use gate_net::Net;
use hy_val::{BvOp, UnOp};
use std::alloc::{AllocError, Global};

/// How two words are compared, as numbers from 0 or as signed ones.
#[derive(Clone, Copy, Debug, PartialEq, Eq)]
pub(crate) enum Comparison {
    Equal,
    Unequal,
    Below,
    AtMost,
    SignedBelow,
    SignedAtMost,
}

// Whether two words are unequal.
fn unequal(alloc: Global, net: &mut Net, a: &[usize], b: &[usize]) -> Result<usize, AllocError>
    requires same { length b.now ≡ length a.now }
    requires a { AreWires net.old a.now }
    requires b { AreWires net.old b.now }
    ensures grows { Grows net.old net.new (2 * length a.now + 5) }
    ensures wire { IfOk result (λ k. IsWire net.new k) }
    ensures value { IfOk result (λ k. Says net.new k (λ ins. compares Comparison.Unequal (length a.now) (word ins net.old a.now) (word ins net.old b.now))) }
{
    let same = equal(alloc, net, a, b)?;
    let wire = negated(net, same)?;
    Ok(wire)
}

// The wire of a comparison.
fn compared(
    alloc: Global,
    net: &mut Net,
    how: Comparison,
    a: &[usize],
    b: &[usize],
) -> Result<usize, AllocError>
    requires some { 0 < length a.now }
    requires same { length b.now ≡ length a.now }
    requires a { AreWires net.old a.now }
    requires b { AreWires net.old b.now }
    ensures grows { Grows net.old net.new (comparison_gates how (length a.now)) }
    ensures wire { IfOk result (λ k. IsWire net.new k) }
    ensures value { IfOk result (λ k. Says net.new k (λ ins. compares how (length a.now) (word ins net.old a.now) (word ins net.old b.now))) }
{
    match how {
        Comparison::Equal => equal(alloc, net, a, b),
        Comparison::Unequal => unequal(alloc, net, a, b),
        Comparison::Below => bvult(alloc, net, a, b),
        Comparison::AtMost => bvule(alloc, net, a, b),
        Comparison::SignedBelow => bvslt(alloc, net, a, b),
        Comparison::SignedAtMost => bvsle(alloc, net, a, b),
    }
}

// The word of one bit that says how two words compare.
fn tested(
    alloc: Global,
    net: &mut Net,
    how: Comparison,
    a: &[usize],
    b: &[usize],
) -> Result<Vec<usize>, AllocError>
    requires some { 0 < length a.now }
    requires same { length b.now ≡ length a.now }
    requires a { AreWires net.old a.now }
    requires b { AreWires net.old b.now }
    ensures grows { Grows net.old net.new (comparison_gates how (length a.now)) }
    ensures word { IfOk result (λ out. IsWord net.new 1 out.items) }
    ensures value { IfOk result (λ out. Means net.new out.items (λ ins. bit (compares how (length a.now) (word ins net.old a.now) (word ins net.old b.now)))) }
{
    let wire = compared(alloc, net, how, a, b)?;
    let out = repeated(alloc, wire, 1)?;
    Ok(out)
}

// Whether a implies b, at each two bits.
fn implies(alloc: Global, net: &mut Net, a: &[usize], b: &[usize]) -> Result<Vec<usize>, AllocError>
    requires same { length b.now ≡ length a.now }
    requires a { AreWires net.old a.now }
    requires b { AreWires net.old b.now }
    ensures grows { Grows net.old net.new (2 * length a.now + 1) }
    ensures word { IfOk result (λ out. IsWord net.new (length a.now) out.items) }
    ensures value { IfOk result (λ out. Means net.new out.items (λ ins. bvor (length a.now) (bvnot (length a.now) (word ins net.old a.now)) (word ins net.old b.now))) }
{
    let turned = bvnot(alloc, net, a)?;
    let out = bvor(alloc, net, turned.as_slice(), b)?;
    Ok(out)
}

// The quotient of the numbers from 0.
fn quotient(
    alloc: Global,
    net: &mut Net,
    a: &[usize],
    b: &[usize],
) -> Result<Vec<usize>, AllocError>
    requires same { length b.now ≡ length a.now }
    requires a { AreWires net.old a.now }
    requires b { AreWires net.old b.now }
    ensures grows { Grows net.old net.new (5 * (length a.now * length a.now) + 5 * length a.now + 1) }
    ensures word { IfOk result (λ out. IsWord net.new (length a.now) out.items) }
    ensures value { IfOk result (λ out. Means net.new out.items (λ ins. bvudiv (length a.now) (word ins net.old a.now) (word ins net.old b.now))) }
{
    let whole = divide_words(alloc, net, a, b)?;
    Ok(whole.quotient)
}

// The remainder of the numbers from 0.
fn remainder(
    alloc: Global,
    net: &mut Net,
    a: &[usize],
    b: &[usize],
) -> Result<Vec<usize>, AllocError>
    requires same { length b.now ≡ length a.now }
    requires a { AreWires net.old a.now }
    requires b { AreWires net.old b.now }
    ensures grows { Grows net.old net.new (5 * (length a.now * length a.now) + 5 * length a.now + 1) }
    ensures word { IfOk result (λ out. IsWord net.new (length a.now) out.items) }
    ensures value { IfOk result (λ out. Means net.new out.items (λ ins. bvurem (length a.now) (word ins net.old a.now) (word ins net.old b.now))) }
{
    let whole = divide_words(alloc, net, a, b)?;
    Ok(whole.remainder)
}

// The high word before the low one, which takes no gates.
fn concatenated(
    alloc: Global,
    net: &mut Net,
    a: &[usize],
    b: &[usize],
) -> Result<Vec<usize>, AllocError>
    requires a { AreWires net.old a.now }
    requires b { AreWires net.old b.now }
    ensures grows { Grows net.old net.new 0 }
    ensures word { IfOk result (λ out. IsWord net.new (length a.now + length b.now) out.items) }
    ensures value { IfOk result (λ out. Means net.new out.items (λ ins. concat (length b.now) (word ins net.old a.now) (word ins net.old b.now))) }
{
    let _wires = net.wires();
    concat(alloc, a, b)
}

// An operator on two words of the same width.
fn same_width(
    alloc: Global,
    net: &mut Net,
    op: BvOp,
    a: &[usize],
    b: &[usize],
) -> Result<Vec<usize>, AllocError>
    requires some { 0 < length a.now }
    requires narrow { length a.now ≤ 64 }
    requires same { length b.now ≡ length a.now }
    requires a { AreWires net.old a.now }
    requires b { AreWires net.old b.now }
    ensures grows { Grows net.old net.new (binary_gates op (length a.now) (length b.now)) }
    ensures word { IfOk result (λ out. IsWord net.new (binary_width op (length a.now) (length b.now)) out.items) }
    ensures value { IfOk result (λ out. Means net.new out.items (λ ins. binary_number op (length a.now) (length b.now) (word ins net.old a.now) (word ins net.old b.now))) }
{
    match op {
        BvOp::And => bvand(alloc, net, a, b),
        BvOp::Or => bvor(alloc, net, a, b),
        BvOp::Implies => implies(alloc, net, a, b),
        BvOp::Iff => tested(alloc, net, Comparison::Equal, a, b),
        BvOp::Eq => tested(alloc, net, Comparison::Equal, a, b),
        BvOp::Ne => tested(alloc, net, Comparison::Unequal, a, b),
        BvOp::Concat => concatenated(alloc, net, a, b),
        BvOp::BvAnd => bvand(alloc, net, a, b),
        BvOp::BvOr => bvor(alloc, net, a, b),
        BvOp::BvXor => bvxor(alloc, net, a, b),
        BvOp::BvAdd => bvadd(alloc, net, a, b),
        BvOp::BvSub => bvsub(alloc, net, a, b),
        BvOp::BvMul => bvmul(alloc, net, a, b),
        BvOp::BvUdiv => quotient(alloc, net, a, b),
        BvOp::BvUrem => remainder(alloc, net, a, b),
        BvOp::BvSdiv => bvsdiv(alloc, net, a, b),
        BvOp::BvSrem => bvsrem(alloc, net, a, b),
        BvOp::BvSmod => bvsmod(alloc, net, a, b),
        BvOp::BvShl => bvshl(alloc, net, a, b),
        BvOp::BvLshr => bvlshr(alloc, net, a, b),
        BvOp::BvAshr => bvashr(alloc, net, a, b),
        BvOp::BvUlt => tested(alloc, net, Comparison::Below, a, b),
        BvOp::BvUle => tested(alloc, net, Comparison::AtMost, a, b),
        BvOp::BvUgt => tested(alloc, net, Comparison::Below, b, a),
        BvOp::BvUge => tested(alloc, net, Comparison::AtMost, b, a),
        BvOp::BvSlt => tested(alloc, net, Comparison::SignedBelow, a, b),
        BvOp::BvSle => tested(alloc, net, Comparison::SignedAtMost, a, b),
        BvOp::BvSgt => tested(alloc, net, Comparison::SignedBelow, b, a),
        BvOp::BvSge => tested(alloc, net, Comparison::SignedAtMost, b, a),
    }
}

/// An operator on two words, whose widths are 1 to 64 and fit it.
pub(crate) fn binary(
    alloc: Global,
    net: &mut Net,
    op: BvOp,
    a: &[usize],
    b: &[usize],
) -> Result<Vec<usize>, AllocError>
    requires some { 0 < length a.now }
    requires narrow { length a.now ≤ 64 }
    requires fit { IsTrue (widths_fit op (length a.now) (length b.now)) }
    requires a { AreWires net.old a.now }
    requires b { AreWires net.old b.now }
    ensures grows { Grows net.old net.new (binary_gates op (length a.now) (length b.now)) }
    ensures word { IfOk result (λ out. IsWord net.new (binary_width op (length a.now) (length b.now)) out.items) }
    ensures value { IfOk result (λ out. Means net.new out.items (λ ins. binary_number op (length a.now) (length b.now) (word ins net.old a.now) (word ins net.old b.now))) }
{
    match op {
        BvOp::Concat => concatenated(alloc, net, a, b),
        _ => same_width(alloc, net, op, a, b),
    }
}

// The bits of a word from lo up to, but without, hi, which takes no gates.
fn extracted(
    alloc: Global,
    net: &mut Net,
    a: &[usize],
    hi: usize,
    lo: usize,
) -> Result<Vec<usize>, AllocError>
    requires within { IsTrue (is_within (UnOp.Extract hi lo) (length a.now)) }
    requires a { AreWires net.old a.now }
    ensures grows { Grows net.old net.new (unary_gates (UnOp.Extract hi lo) (length a.now)) }
    ensures word { IfOk result (λ out. IsWord net.new (unary_width (UnOp.Extract hi lo) (length a.now)) out.items) }
    ensures value { IfOk result (λ out. Means net.new out.items (λ ins. unary_number (UnOp.Extract hi lo) (length a.now) (word ins net.old a.now))) }
{
    let _wires = net.wires();
    extract(alloc, a, hi, lo)
}

// A word with copies of its sign bit above, which takes no gates.
fn sign_extended(
    alloc: Global,
    net: &mut Net,
    a: &[usize],
    more: usize,
) -> Result<Vec<usize>, AllocError>
    requires some { 0 < length a.now }
    requires a { AreWires net.old a.now }
    ensures grows { Grows net.old net.new (unary_gates (UnOp.SignExtend more) (length a.now)) }
    ensures word { IfOk result (λ out. IsWord net.new (unary_width (UnOp.SignExtend more) (length a.now)) out.items) }
    ensures value { IfOk result (λ out. Means net.new out.items (λ ins. unary_number (UnOp.SignExtend more) (length a.now) (word ins net.old a.now))) }
{
    let _wires = net.wires();
    sign_extend(alloc, a, more)
}

/// An operator on a word, whose width is 1 to 64 and fits it.
pub(crate) fn unary(
    alloc: Global,
    net: &mut Net,
    op: UnOp,
    a: &[usize],
) -> Result<Vec<usize>, AllocError>
    requires some { 0 < length a.now }
    requires within { IsTrue (is_within op (length a.now)) }
    requires a { AreWires net.old a.now }
    ensures grows { Grows net.old net.new (unary_gates op (length a.now)) }
    ensures word { IfOk result (λ out. IsWord net.new (unary_width op (length a.now)) out.items) }
    ensures value { IfOk result (λ out. Means net.new out.items (λ ins. unary_number op (length a.now) (word ins net.old a.now))) }
{
    match op {
        UnOp::Not => bvnot(alloc, net, a),
        UnOp::Extract { hi, lo } => extracted(alloc, net, a, hi as usize, lo as usize),
        UnOp::BvNot => bvnot(alloc, net, a),
        UnOp::BvNeg => bvneg(alloc, net, a),
        UnOp::ZeroExtend(more) => zero_extend(alloc, net, a, more as usize),
        UnOp::SignExtend(more) => sign_extended(alloc, net, a, more as usize),
    }
}
