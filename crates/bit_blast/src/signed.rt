//! Operators on signed numbers, by the signs and the absolute values.
ghost use Rattle.std.specs.Prelude.{◌≡◌, ℕ, List, Bool, ◌+◌, ◌*◌, ◌<◌, length, IfOk};
ghost use Rattle.hy_val.specs.Bits.{absolute, bvsdiv, bvsmod, bvsrem, bvudiv, bvurem, negated_if};
ghost use Rattle.bit_blast.specs.Words.{AreWires, Grows, IsWire, IsWord, Means, carried, word};

use crate::adder::{bvadd, bvneg};
use crate::bitwise::choose;
use crate::compare::any;
use crate::divide::{Division, divide_words};
use crate::word::push;
use gate_net::{Net, NetGate};
use std::alloc::{AllocError, Global};

/// The word of w bits, or 0 minus it modulo 2^w where the wire `on` is true: at most 5w + 2 gates.
pub fn negated_if(
    alloc: Global,
    net: &mut Net,
    on: usize,
    a: &[usize],
) -> Result<Vec<usize>, AllocError>
    requires on { IsWire net.old on }
    requires a { AreWires net.old a.now }
    ensures grows { Grows net.old net.new (5 * length a.now + 2) }
    ensures word { IfOk result (λ out. IsWord net.new (length a.now) out.items) }
    ensures value { IfOk result (λ out. Means net.new out.items (λ ins. negated_if (carried ins net.old on) (length a.now) (word ins net.old a.now))) }
{
    let other = bvneg(alloc, net, a)?;
    let out = choose(alloc, net, on, other.as_slice(), a)?;
    Ok(out)
}

/// The absolute value of a word of w bits, of which there are some: at most 5w + 2 gates.
pub fn absolute(alloc: Global, net: &mut Net, a: &[usize]) -> Result<Vec<usize>, AllocError>
    requires some { 0 < length a.now }
    requires a { AreWires net.old a.now }
    ensures grows { Grows net.old net.new (5 * length a.now + 2) }
    ensures word { IfOk result (λ out. IsWord net.new (length a.now) out.items) }
    ensures value { IfOk result (λ out. Means net.new out.items (λ ins. absolute (length a.now) (word ins net.old a.now))) }
{
    let sign = a[a.len() - 1];
    let out = negated_if(alloc, net, sign, a)?;
    Ok(out)
}

// The division of the absolute values.
fn divide_absolute(
    alloc: Global,
    net: &mut Net,
    a: &[usize],
    b: &[usize],
) -> Result<Division, AllocError>
    requires some { 0 < length a.now }
    requires same { length b.now ≡ length a.now }
    requires a { AreWires net.old a.now }
    requires b { AreWires net.old b.now }
    ensures grows { Grows net.old net.new (5 * (length a.now * length a.now) + 15 * length a.now + 5) }
    ensures quotient { IfOk result (λ d. IsWord net.new (length a.now) d.quotient.items) }
    ensures remainder { IfOk result (λ d. IsWord net.new (length a.now) d.remainder.items) }
    ensures bvudiv { IfOk result (λ d. Means net.new d.quotient.items (λ ins. bvudiv (length a.now) (absolute (length a.now) (word ins net.old a.now)) (absolute (length a.now) (word ins net.old b.now)))) }
    ensures bvurem { IfOk result (λ d. Means net.new d.remainder.items (λ ins. bvurem (length a.now) (absolute (length a.now) (word ins net.old a.now)) (absolute (length a.now) (word ins net.old b.now)))) }
{
    let left = absolute(alloc, net, a)?;
    let right = absolute(alloc, net, b)?;
    let whole = divide_words(alloc, net, left.as_slice(), right.as_slice())?;
    Ok(whole)
}

/// The quotient of two words of w bits, of which there are some, as signed numbers, rounded towards 0: at most
/// 5w^2 + 20w + 8 gates.
pub fn bvsdiv(
    alloc: Global,
    net: &mut Net,
    a: &[usize],
    b: &[usize],
) -> Result<Vec<usize>, AllocError>
    requires some { 0 < length a.now }
    requires same { length b.now ≡ length a.now }
    requires a { AreWires net.old a.now }
    requires b { AreWires net.old b.now }
    ensures grows { Grows net.old net.new (5 * (length a.now * length a.now) + 20 * length a.now + 8) }
    ensures word { IfOk result (λ out. IsWord net.new (length a.now) out.items) }
    ensures value { IfOk result (λ out. Means net.new out.items (λ ins. bvsdiv (length a.now) (word ins net.old a.now) (word ins net.old b.now))) }
{
    let (left, right) = (a[a.len() - 1], b[b.len() - 1]);
    let whole = divide_absolute(alloc, net, a, b)?;
    let differ = push(net, NetGate::Xor { a: left, b: right })?;
    let out = negated_if(alloc, net, differ, whole.quotient.as_slice())?;
    Ok(out)
}

/// The remainder of two words of w bits, of which there are some, as signed numbers, with the sign of a: at most
/// 5w^2 + 20w + 7 gates.
pub fn bvsrem(
    alloc: Global,
    net: &mut Net,
    a: &[usize],
    b: &[usize],
) -> Result<Vec<usize>, AllocError>
    requires some { 0 < length a.now }
    requires same { length b.now ≡ length a.now }
    requires a { AreWires net.old a.now }
    requires b { AreWires net.old b.now }
    ensures grows { Grows net.old net.new (5 * (length a.now * length a.now) + 20 * length a.now + 7) }
    ensures word { IfOk result (λ out. IsWord net.new (length a.now) out.items) }
    ensures value { IfOk result (λ out. Means net.new out.items (λ ins. bvsrem (length a.now) (word ins net.old a.now) (word ins net.old b.now))) }
{
    let left = a[a.len() - 1];
    let whole = divide_absolute(alloc, net, a, b)?;
    let out = negated_if(alloc, net, left, whole.remainder.as_slice())?;
    Ok(out)
}

/// The remainder of two words of w bits, of which there are some, as signed numbers, with the sign of b: at most
/// 5w^2 + 25w + 11 gates.
pub fn bvsmod(
    alloc: Global,
    net: &mut Net,
    a: &[usize],
    b: &[usize],
) -> Result<Vec<usize>, AllocError>
    requires some { 0 < length a.now }
    requires same { length b.now ≡ length a.now }
    requires a { AreWires net.old a.now }
    requires b { AreWires net.old b.now }
    ensures grows { Grows net.old net.new (5 * (length a.now * length a.now) + 25 * length a.now + 11) }
    ensures word { IfOk result (λ out. IsWord net.new (length a.now) out.items) }
    ensures value { IfOk result (λ out. Means net.new out.items (λ ins. bvsmod (length a.now) (word ins net.old a.now) (word ins net.old b.now))) }
{
    let (left, right) = (a[a.len() - 1], b[b.len() - 1]);
    let whole = divide_absolute(alloc, net, a, b)?;
    let rest = negated_if(alloc, net, left, whole.remainder.as_slice())?;
    let sum = bvadd(alloc, net, rest.as_slice(), b)?;
    let some = any(net, whole.remainder.as_slice())?;
    let differ = push(net, NetGate::Xor { a: left, b: right })?;
    let back = push(net, NetGate::And { a: some, b: differ })?;
    let out = choose(alloc, net, back, sum.as_slice(), rest.as_slice())?;
    Ok(out)
}
