//! Addition by a chain of full adders, and what follows from it: subtraction, negation and the order.
ghost use Rattle.std.specs.Prelude.{◌≡◌, ℕ, List, Bool, nat_le, ◌+◌, ◌*◌, ◌^◌, ◌<◌, length, IfOk};
ghost use Rattle.hy_val.specs.Bits.{bvadd, bvneg, bvsub};
ghost use Rattle.bit_blast.specs.Words.{AreWires, Grows, IsWire, IsWord, Means, Says, bit, carried, word};

use crate::bitwise::turned;
use crate::word::{push, repeated};
use gate_net::{Net, NetGate};
use std::alloc::{AllocError, Global};

/// The sum of three bits: the wire of the bit itself, and the carry.
#[derive(Clone, Copy, Debug, PartialEq, Eq)]
pub struct BitSum {
    pub sum: usize,
    pub carry: usize,
}

/// A sum of words: its bits, and the carry out of the highest one.
#[derive(Drop)]
pub struct WordSum {
    pub sum: Vec<usize>,
    pub carry: usize,
}

/// A full adder: the sum of three bits, with at most three gates.
pub fn full_adder(net: &mut Net, a: usize, b: usize, carry: usize) -> Result<BitSum, AllocError>
    requires a { IsWire net.old a }
    requires b { IsWire net.old b }
    requires carry { IsWire net.old carry }
    ensures grows { Grows net.old net.new 3 }
    ensures sum { IfOk result (λ s. IsWire net.new s.sum) }
    ensures carry { IfOk result (λ s. IsWire net.new s.carry) }
    ensures value { IfOk result (λ s. (ins : List Bool) → length ins ≡ net.old.inputs → bit (carried ins net.new s.sum) + 2 * bit (carried ins net.new s.carry) ≡ bit (carried ins net.old a) + bit (carried ins net.old b) + bit (carried ins net.old carry)) }
{
    let differs = push(net, NetGate::Xor { a, b })?;
    let sum = push(
        net,
        NetGate::Xor {
            a: differs,
            b: carry,
        },
    )?;
    let next = push(
        net,
        NetGate::Mux {
            pick: differs,
            yes: carry,
            no: a,
        },
    )?;
    Ok(BitSum { sum, carry: next })
}

/// The sum of two words of the same width and a carry: at most three gates for each bit. The sum's bits and the carry
/// out of the highest one, read as a bit above them, are the exact sum.
pub fn add_with_carry(
    alloc: Global,
    net: &mut Net,
    a: &[usize],
    b: &[usize],
    carry: usize,
) -> Result<WordSum, AllocError>
    requires same { length b.now ≡ length a.now }
    requires a { AreWires net.old a.now }
    requires b { AreWires net.old b.now }
    requires carry { IsWire net.old carry }
    ensures grows { Grows net.old net.new (3 * length a.now) }
    ensures word { IfOk result (λ s. IsWord net.new (length a.now) s.sum.items) }
    ensures carry { IfOk result (λ s. IsWire net.new s.carry) }
    ensures value { IfOk result (λ s. (ins : List Bool) → length ins ≡ net.old.inputs → word ins net.new s.sum.items + 2 ^ length a.now * bit (carried ins net.new s.carry) ≡ word ins net.old a.now + word ins net.old b.now + bit (carried ins net.old carry)) }
{
    let mut sum = Vec::new(alloc);
    let mut next = carry;
    for (i, x) in a.iter().enumerate() {
        let one = full_adder(net, *x, b[i], next)?;
        sum.push(one.sum)?;
        next = one.carry;
    }
    Ok(WordSum { sum, carry: next })
}

/// The sum modulo 2^w of two words of w bits: at most 3w + 1 gates.
pub fn bvadd(
    alloc: Global,
    net: &mut Net,
    a: &[usize],
    b: &[usize],
) -> Result<Vec<usize>, AllocError>
    requires same { length b.now ≡ length a.now }
    requires a { AreWires net.old a.now }
    requires b { AreWires net.old b.now }
    ensures grows { Grows net.old net.new (3 * length a.now + 1) }
    ensures word { IfOk result (λ out. IsWord net.new (length a.now) out.items) }
    ensures value { IfOk result (λ out. Means net.new out.items (λ ins. bvadd (length a.now) (word ins net.old a.now) (word ins net.old b.now))) }
{
    let off = push(net, NetGate::False)?;
    let whole = add_with_carry(alloc, net, a, b, off)?;
    Ok(whole.sum)
}

/// The difference modulo 2^w of two words of w bits, with the carry, which is true where b is at most a: at most 4w + 1
/// gates.
pub fn subtract(
    alloc: Global,
    net: &mut Net,
    a: &[usize],
    b: &[usize],
) -> Result<WordSum, AllocError>
    requires same { length b.now ≡ length a.now }
    requires a { AreWires net.old a.now }
    requires b { AreWires net.old b.now }
    ensures grows { Grows net.old net.new (4 * length a.now + 1) }
    ensures word { IfOk result (λ s. IsWord net.new (length a.now) s.sum.items) }
    ensures carry { IfOk result (λ s. IsWire net.new s.carry) }
    ensures value { IfOk result (λ s. Means net.new s.sum.items (λ ins. bvsub (length a.now) (word ins net.old a.now) (word ins net.old b.now))) }
    ensures at_most { IfOk result (λ s. Says net.new s.carry (λ ins. nat_le (word ins net.old b.now) (word ins net.old a.now))) }
{
    let on = push(net, NetGate::True)?;
    let turned = turned(alloc, net, on, b)?;
    let whole = add_with_carry(alloc, net, a, turned.as_slice(), on)?;
    Ok(whole)
}

/// The difference modulo 2^w of two words of w bits: at most 4w + 1 gates.
pub fn bvsub(
    alloc: Global,
    net: &mut Net,
    a: &[usize],
    b: &[usize],
) -> Result<Vec<usize>, AllocError>
    requires same { length b.now ≡ length a.now }
    requires a { AreWires net.old a.now }
    requires b { AreWires net.old b.now }
    ensures grows { Grows net.old net.new (4 * length a.now + 1) }
    ensures word { IfOk result (λ out. IsWord net.new (length a.now) out.items) }
    ensures value { IfOk result (λ out. Means net.new out.items (λ ins. bvsub (length a.now) (word ins net.old a.now) (word ins net.old b.now))) }
{
    let whole = subtract(alloc, net, a, b)?;
    Ok(whole.sum)
}

/// 0 - a modulo 2^w, of a word of w bits: at most 4w + 2 gates.
pub fn bvneg(alloc: Global, net: &mut Net, a: &[usize]) -> Result<Vec<usize>, AllocError>
    requires a { AreWires net.old a.now }
    ensures grows { Grows net.old net.new (4 * length a.now + 2) }
    ensures word { IfOk result (λ out. IsWord net.new (length a.now) out.items) }
    ensures value { IfOk result (λ out. Means net.new out.items (λ ins. bvneg (length a.now) (word ins net.old a.now))) }
{
    let off = push(net, NetGate::False)?;
    let zero = repeated(alloc, off, a.len())?;
    let out = bvsub(alloc, net, zero.as_slice(), a)?;
    Ok(out)
}
