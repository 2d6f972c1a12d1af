//! Shifts by a word, as a barrel: one choice for each bit of the amount, which moves the word by a power of two.
ghost use Rattle.std.specs.Prelude.{◌≡◌, ℕ, List, Bool, min, ◌+◌, ◌*◌, ◌^◌, ◌<◌, ◌≤◌, length, IfOk};
ghost use Rattle.hy_val.specs.Bits.{bvashr, bvlshr, bvshl};
ghost use Rattle.bit_blast.specs.Words.{AreWires, Grows, IsWord, Means, word};
ghost use Rattle.bit_blast.specs.Moves.{shifted};

use crate::bitwise::{choose, turned};
use crate::layout::{Direction, moved};
use crate::word::push;
use gate_net::{Net, NetGate};
use std::alloc::{AllocError, Global};

// How far the bit of this place of an amount moves a word of this width: no further than it is wide.
fn reach(width: usize, place: usize) -> usize
    requires { place < 64 }
    ensures value { result ≡ min (2 ^ place) width }
{
    let by = 1usize << place;
    if by < width { by } else { width }
}

/// The word a shifted by the number b, both of w bits, at most 64: at most w^2 + 1 gates. Zeros come in.
pub fn barrel(
    alloc: Global,
    net: &mut Net,
    direction: Direction,
    a: &[usize],
    b: &[usize],
) -> Result<Vec<usize>, AllocError>
    requires same { length b.now ≡ length a.now }
    requires narrow { length a.now ≤ 64 }
    requires a { AreWires net.old a.now }
    requires b { AreWires net.old b.now }
    ensures grows { Grows net.old net.new (length a.now * length a.now + 1) }
    ensures word { IfOk result (λ out. IsWord net.new (length a.now) out.items) }
    ensures value { IfOk result (λ out. Means net.new out.items (λ ins. shifted direction (length a.now) (word ins net.old a.now) (word ins net.old b.now))) }
{
    let off = push(net, NetGate::False)?;
    let mut out = Vec::from_slice(alloc, a)?;
    for (i, bit) in b.iter().enumerate() {
        let by = reach(a.len(), i);
        let far = moved(alloc, direction, out.as_slice(), by, off)?;
        out = choose(alloc, net, *bit, far.as_slice(), out.as_slice())?;
    }
    Ok(out)
}

/// The word a shifted left by the number b, both of w bits, at most 64: at most w^2 + 1 gates. From w on it is 0.
pub fn bvshl(
    alloc: Global,
    net: &mut Net,
    a: &[usize],
    b: &[usize],
) -> Result<Vec<usize>, AllocError>
    requires same { length b.now ≡ length a.now }
    requires narrow { length a.now ≤ 64 }
    requires a { AreWires net.old a.now }
    requires b { AreWires net.old b.now }
    ensures grows { Grows net.old net.new (length a.now * length a.now + 1) }
    ensures word { IfOk result (λ out. IsWord net.new (length a.now) out.items) }
    ensures value { IfOk result (λ out. Means net.new out.items (λ ins. bvshl (length a.now) (word ins net.old a.now) (word ins net.old b.now))) }
{
    let out = barrel(alloc, net, Direction::Left, a, b)?;
    Ok(out)
}

/// The word a shifted right by the number b, both of w bits, at most 64: at most w^2 + 1 gates. From w on it is 0.
pub fn bvlshr(
    alloc: Global,
    net: &mut Net,
    a: &[usize],
    b: &[usize],
) -> Result<Vec<usize>, AllocError>
    requires same { length b.now ≡ length a.now }
    requires narrow { length a.now ≤ 64 }
    requires a { AreWires net.old a.now }
    requires b { AreWires net.old b.now }
    ensures grows { Grows net.old net.new (length a.now * length a.now + 1) }
    ensures word { IfOk result (λ out. IsWord net.new (length a.now) out.items) }
    ensures value { IfOk result (λ out. Means net.new out.items (λ ins. bvlshr (length a.now) (word ins net.old a.now) (word ins net.old b.now))) }
{
    let out = barrel(alloc, net, Direction::Right, a, b)?;
    Ok(out)
}

/// The word a shifted right by the number b, both of w bits, from 1 to 64, with copies of the sign bit: at most
/// w^2 + 2w + 1 gates.
pub fn bvashr(
    alloc: Global,
    net: &mut Net,
    a: &[usize],
    b: &[usize],
) -> Result<Vec<usize>, AllocError>
    requires some { 0 < length a.now }
    requires same { length b.now ≡ length a.now }
    requires narrow { length a.now ≤ 64 }
    requires a { AreWires net.old a.now }
    requires b { AreWires net.old b.now }
    ensures grows { Grows net.old net.new (length a.now * length a.now + 2 * length a.now + 1) }
    ensures word { IfOk result (λ out. IsWord net.new (length a.now) out.items) }
    ensures value { IfOk result (λ out. Means net.new out.items (λ ins. bvashr (length a.now) (word ins net.old a.now) (word ins net.old b.now))) }
{
    let sign = a[a.len() - 1];
    let plain = turned(alloc, net, sign, a)?;
    let shifted = bvlshr(alloc, net, plain.as_slice(), b)?;
    let out = turned(alloc, net, sign, shifted.as_slice())?;
    Ok(out)
}
