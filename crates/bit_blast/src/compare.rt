//! Comparisons of words, each with one wire that says whether it holds.
ghost use Rattle.std.specs.Prelude.{◌≡◌, ℕ, List, Bool, nat_eq, not, ◌+◌, ◌*◌, ◌<◌, length, IfOk};
ghost use Rattle.hy_val.specs.Biased.{biased};
ghost use Rattle.hy_val.specs.Bits.{bvsle, bvslt, bvule, bvult};
ghost use Rattle.bit_blast.specs.Words.{AreWires, Grows, IsWire, IsWord, Means, Says, word};

use crate::adder::subtract;
use crate::bitwise::{bvxor, negated};
use crate::word::push;
use gate_net::{Net, NetGate};
use std::alloc::{AllocError, Global};

/// Whether a bit of a word of w bits is true: at most w + 1 gates.
pub fn any(net: &mut Net, a: &[usize]) -> Result<usize, AllocError>
    requires a { AreWires net.old a.now }
    ensures grows { Grows net.old net.new (length a.now + 1) }
    ensures wire { IfOk result (λ k. IsWire net.new k) }
    ensures value { IfOk result (λ k. Says net.new k (λ ins. not (nat_eq (word ins net.old a.now) 0))) }
{
    let mut some = push(net, NetGate::False)?;
    for (i, x) in a.iter().enumerate() {
        let _ = i;
        some = push(
            net,
            NetGate::Mux {
                pick: *x,
                yes: *x,
                no: some,
            },
        )?;
    }
    Ok(some)
}

/// Whether two words of w bits are equal: at most 2w + 3 gates.
pub fn equal(alloc: Global, net: &mut Net, a: &[usize], b: &[usize]) -> Result<usize, AllocError>
    requires same { length b.now ≡ length a.now }
    requires a { AreWires net.old a.now }
    requires b { AreWires net.old b.now }
    ensures grows { Grows net.old net.new (2 * length a.now + 3) }
    ensures wire { IfOk result (λ k. IsWire net.new k) }
    ensures value { IfOk result (λ k. Says net.new k (λ ins. nat_eq (word ins net.old a.now) (word ins net.old b.now))) }
{
    let differences = bvxor(alloc, net, a, b)?;
    let differ = any(net, differences.as_slice())?;
    let wire = negated(net, differ)?;
    Ok(wire)
}

/// Whether a is at most b, both words of w bits as numbers from 0: at most 4w + 1 gates.
pub fn bvule(alloc: Global, net: &mut Net, a: &[usize], b: &[usize]) -> Result<usize, AllocError>
    requires same { length b.now ≡ length a.now }
    requires a { AreWires net.old a.now }
    requires b { AreWires net.old b.now }
    ensures grows { Grows net.old net.new (4 * length a.now + 1) }
    ensures wire { IfOk result (λ k. IsWire net.new k) }
    ensures value { IfOk result (λ k. Says net.new k (λ ins. bvule (length a.now) (word ins net.old a.now) (word ins net.old b.now))) }
{
    let whole = subtract(alloc, net, b, a)?;
    Ok(whole.carry)
}

/// Whether a is below b, both words of w bits as numbers from 0: at most 4w + 3 gates.
pub fn bvult(alloc: Global, net: &mut Net, a: &[usize], b: &[usize]) -> Result<usize, AllocError>
    requires same { length b.now ≡ length a.now }
    requires a { AreWires net.old a.now }
    requires b { AreWires net.old b.now }
    ensures grows { Grows net.old net.new (4 * length a.now + 3) }
    ensures wire { IfOk result (λ k. IsWire net.new k) }
    ensures value { IfOk result (λ k. Says net.new k (λ ins. bvult (length a.now) (word ins net.old a.now) (word ins net.old b.now))) }
{
    let whole = subtract(alloc, net, a, b)?;
    let wire = negated(net, whole.carry)?;
    Ok(wire)
}

// The word with its sign bit turned, so that the order of signed numbers is that from 0.
fn biased(alloc: Global, net: &mut Net, a: &[usize]) -> Result<Vec<usize>, AllocError>
    requires some { 0 < length a.now }
    requires a { AreWires net.old a.now }
    ensures grows { Grows net.old net.new 2 }
    ensures word { IfOk result (λ out. IsWord net.new (length a.now) out.items) }
    ensures value { IfOk result (λ out. Means net.new out.items (λ ins. biased (length a.now) (word ins net.old a.now))) }
{
    let high = a.len() - 1;
    let sign = negated(net, a[high])?;
    let mut out = Vec::from_slice(alloc, &a[..high])?;
    out.push(sign)?;
    Ok(out)
}

/// Whether a is below b, both words of w bits, of which there are some, as signed numbers: at most 4w + 7 gates.
pub fn bvslt(alloc: Global, net: &mut Net, a: &[usize], b: &[usize]) -> Result<usize, AllocError>
    requires some { 0 < length a.now }
    requires same { length b.now ≡ length a.now }
    requires a { AreWires net.old a.now }
    requires b { AreWires net.old b.now }
    ensures grows { Grows net.old net.new (4 * length a.now + 7) }
    ensures wire { IfOk result (λ k. IsWire net.new k) }
    ensures value { IfOk result (λ k. Says net.new k (λ ins. bvslt (length a.now) (word ins net.old a.now) (word ins net.old b.now))) }
{
    let left = biased(alloc, net, a)?;
    let right = biased(alloc, net, b)?;
    let wire = bvult(alloc, net, left.as_slice(), right.as_slice())?;
    Ok(wire)
}

/// Whether a is at most b, both words of w bits, of which there are some, as signed numbers: at most 4w + 5 gates.
pub fn bvsle(alloc: Global, net: &mut Net, a: &[usize], b: &[usize]) -> Result<usize, AllocError>
    requires some { 0 < length a.now }
    requires same { length b.now ≡ length a.now }
    requires a { AreWires net.old a.now }
    requires b { AreWires net.old b.now }
    ensures grows { Grows net.old net.new (4 * length a.now + 5) }
    ensures wire { IfOk result (λ k. IsWire net.new k) }
    ensures value { IfOk result (λ k. Says net.new k (λ ins. bvsle (length a.now) (word ins net.old a.now) (word ins net.old b.now))) }
{
    let left = biased(alloc, net, a)?;
    let right = biased(alloc, net, b)?;
    let wire = bvule(alloc, net, left.as_slice(), right.as_slice())?;
    Ok(wire)
}
