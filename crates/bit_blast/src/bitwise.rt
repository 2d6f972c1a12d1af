//! Circuits that work on each bit by itself.
ghost use Rattle.std.specs.Prelude.{◌≡◌, ℕ, List, Bool, ◌+◌, ◌<◌, length, replicate, IfOk, not, if◌then◌else◌};
ghost use Rattle.hy_val.specs.Bits.{bvand, bvnot, bvor, bvxor};
ghost use Rattle.bit_blast.specs.Words.{AreWires, Grows, IsWire, IsWord, Means, Says, carried, word};

use crate::word::{Pairing, push, repeated, zip};
use gate_net::{Net, NetGate};
use std::alloc::{AllocError, Global};

/// The word `a` where the wire `pick` is true, and else the word `b`, of the same width: at most one gate for each bit.
pub fn choose(
    alloc: Global,
    net: &mut Net,
    pick: usize,
    a: &[usize],
    b: &[usize],
) -> Result<Vec<usize>, AllocError>
    requires pick { IsWire net.old pick }
    requires same { length b.now ≡ length a.now }
    requires a { AreWires net.old a.now }
    requires b { AreWires net.old b.now }
    ensures grows { Grows net.old net.new (length a.now) }
    ensures word { IfOk result (λ out. IsWord net.new (length a.now) out.items) }
    ensures value { IfOk result (λ out. Means net.new out.items (λ ins. if carried ins net.old pick then word ins net.old a.now else word ins net.old b.now)) }
{
    let out = zip(alloc, net, Pairing::Mux { pick }, a, b)?;
    Ok(out)
}

/// The and of each two bits of two words of the same width: at most one gate for each.
pub fn bvand(
    alloc: Global,
    net: &mut Net,
    a: &[usize],
    b: &[usize],
) -> Result<Vec<usize>, AllocError>
    requires same { length b.now ≡ length a.now }
    requires a { AreWires net.old a.now }
    requires b { AreWires net.old b.now }
    ensures grows { Grows net.old net.new (length a.now) }
    ensures word { IfOk result (λ out. IsWord net.new (length a.now) out.items) }
    ensures value { IfOk result (λ out. Means net.new out.items (λ ins. bvand (length a.now) (word ins net.old a.now) (word ins net.old b.now))) }
{
    let out = zip(alloc, net, Pairing::And, a, b)?;
    Ok(out)
}

/// The or of each two bits of two words of the same width: at most one gate for each.
pub fn bvor(
    alloc: Global,
    net: &mut Net,
    a: &[usize],
    b: &[usize],
) -> Result<Vec<usize>, AllocError>
    requires same { length b.now ≡ length a.now }
    requires a { AreWires net.old a.now }
    requires b { AreWires net.old b.now }
    ensures grows { Grows net.old net.new (length a.now) }
    ensures word { IfOk result (λ out. IsWord net.new (length a.now) out.items) }
    ensures value { IfOk result (λ out. Means net.new out.items (λ ins. bvor (length a.now) (word ins net.old a.now) (word ins net.old b.now))) }
{
    let out = zip(alloc, net, Pairing::Or, a, b)?;
    Ok(out)
}

/// The difference of each two bits of two words of the same width: at most one gate for each.
pub fn bvxor(
    alloc: Global,
    net: &mut Net,
    a: &[usize],
    b: &[usize],
) -> Result<Vec<usize>, AllocError>
    requires same { length b.now ≡ length a.now }
    requires a { AreWires net.old a.now }
    requires b { AreWires net.old b.now }
    ensures grows { Grows net.old net.new (length a.now) }
    ensures word { IfOk result (λ out. IsWord net.new (length a.now) out.items) }
    ensures value { IfOk result (λ out. Means net.new out.items (λ ins. bvxor (length a.now) (word ins net.old a.now) (word ins net.old b.now))) }
{
    let out = zip(alloc, net, Pairing::Xor, a, b)?;
    Ok(out)
}

/// The word with each bit turned where the wire `on` is true: at most one gate for each bit.
pub fn turned(
    alloc: Global,
    net: &mut Net,
    on: usize,
    a: &[usize],
) -> Result<Vec<usize>, AllocError>
    requires on { IsWire net.old on }
    requires a { AreWires net.old a.now }
    ensures grows { Grows net.old net.new (length a.now) }
    ensures word { IfOk result (λ out. IsWord net.new (length a.now) out.items) }
    ensures value { IfOk result (λ out. Means net.new out.items (λ ins. if carried ins net.old on then bvnot (length a.now) (word ins net.old a.now) else word ins net.old a.now)) }
{
    let ons = repeated(alloc, on, a.len())?;
    let out = zip(alloc, net, Pairing::Xor, a, ons.as_slice())?;
    Ok(out)
}

/// The word where the wire `on` is true, and else 0: at most one gate for each bit.
pub fn masked(
    alloc: Global,
    net: &mut Net,
    on: usize,
    a: &[usize],
) -> Result<Vec<usize>, AllocError>
    requires on { IsWire net.old on }
    requires a { AreWires net.old a.now }
    ensures grows { Grows net.old net.new (length a.now) }
    ensures word { IfOk result (λ out. IsWord net.new (length a.now) out.items) }
    ensures value { IfOk result (λ out. Means net.new out.items (λ ins. if carried ins net.old on then word ins net.old a.now else 0)) }
{
    let ons = repeated(alloc, on, a.len())?;
    let out = zip(alloc, net, Pairing::And, a, ons.as_slice())?;
    Ok(out)
}

/// The word with each bit turned: at most one gate for each bit, and one.
pub fn bvnot(alloc: Global, net: &mut Net, a: &[usize]) -> Result<Vec<usize>, AllocError>
    requires a { AreWires net.old a.now }
    ensures grows { Grows net.old net.new (length a.now + 1) }
    ensures word { IfOk result (λ out. IsWord net.new (length a.now) out.items) }
    ensures value { IfOk result (λ out. Means net.new out.items (λ ins. bvnot (length a.now) (word ins net.old a.now))) }
{
    let on = push(net, NetGate::True)?;
    let out = turned(alloc, net, on, a)?;
    Ok(out)
}

/// The wire that is true where the other isn't: at most two gates.
pub fn negated(net: &mut Net, a: usize) -> Result<usize, AllocError>
    requires a { IsWire net.old a }
    ensures grows { Grows net.old net.new 2 }
    ensures wire { IfOk result (λ k. IsWire net.new k) }
    ensures value { IfOk result (λ k. Says net.new k (λ ins. not (carried ins net.old a))) }
{
    let on = push(net, NetGate::True)?;
    let wire = push(net, NetGate::Xor { a: on, b: a })?;
    Ok(wire)
}
